//! Numbers that lie in none of some intervals.

ghost use Rattle.std.specs.Prelude.{◌≡◌, ◌||◌, ◌+ℤ◌, ◌<ℤ◌, ℤ, pos, map, IfOk, OnOk, IsSorted, int_lt};
ghost use Rattle.std.specs.List.{list_any};
ghost use Rattle.g_diagram_table.specs.Seen.{seen_arm};
ghost use Rattle.g_rules_cases.specs.Held as held;
ghost use Rattle.g_typing.specs.Selected as spec;
ghost use Rattle.g_rules_types.specs.Gaps.{has, TellsGap, Advances, interval_cmp};

use g_diagram::Selector;
use g_diagram_table::Arm;
use std::alloc::{AllocError, Global};

/// The numbers from one to another, both of them too.
#[derive(Clone, Copy, Debug, PartialEq, Eq, PartialOrd, Ord)]
pub struct Interval {
    pub low: i128,
    pub high: i128,
}

fn push_interval(intervals: &mut Vec<Interval>, selector: &Selector) -> Result<(), AllocError>
    ensures { OnOk result ((n : ℤ) → list_any (has n) intervals.new.items ≡ (list_any (has n) intervals.old.items || held.has_number n selector.now)) }
{
    match selector {
        Selector::Number(number) => intervals.push(Interval {
            low: *number,
            high: *number,
        })?,
        Selector::Range(low, high) => intervals.push(Interval {
            low: *low,
            high: *high,
        })?,
        Selector::Truth(_) | Selector::Text(_) | Selector::Default => {}
    }
    Ok(())
}

fn push_intervals(intervals: &mut Vec<Interval>, selectors: &[Selector]) -> Result<(), AllocError>
    ensures { OnOk result ((n : ℤ) → list_any (has n) intervals.new.items ≡ (list_any (has n) intervals.old.items || list_any (held.has_number n) selectors.now)) }
{
    for selector in selectors {
        push_interval(intervals, selector)?;
    }
    Ok(())
}

fn all_intervals(alloc: Global, arms: &[Arm<'_>]) -> Result<Vec<Interval>, AllocError>
    ensures { IfOk result (λ intervals. (n : ℤ) → list_any (has n) intervals.items ≡ list_any (held.has_number n) (spec.selectors_of (map seen_arm arms.now))) }
{
    let mut intervals = Vec::new(alloc);
    for arm in arms {
        push_intervals(&mut intervals, arm.selectors)?;
    }
    Ok(intervals)
}

/// The numbers of the selectors of all branches, by their low ends.
pub fn sorted_intervals(alloc: Global, arms: &[Arm<'_>]) -> Result<Vec<Interval>, AllocError>
    ensures order { IfOk result (λ intervals. IsSorted interval_cmp intervals.items) }
    ensures same { IfOk result (λ intervals. (n : ℤ) → list_any (has n) intervals.items ≡ list_any (held.has_number n) (spec.selectors_of (map seen_arm arms.now))) }
{
    let mut intervals = all_intervals(alloc, arms)?;
    intervals.sort()?;
    Ok(intervals)
}

fn after(high: i128, past: i128) -> i128
    requires { high <ℤ past }
    ensures { result ≡ high +ℤ pos 1 }
{
    high + 1
}

/// The bound below which numbers lie in intervals, after one more that begins at or below it.
fn advanced(next: i128, past: i128, high: i128) -> i128
    ensures { Advances next past high result }
{
    if high < next {
        return next;
    }
    if past <= high {
        return past;
    }
    after(high, past)
}

fn advanced_by(next: i128, past: i128, interval: &Interval) -> i128
    ensures { Advances next past interval.now.high result }
{
    advanced(next, past, interval.high)
}

fn begins_after(interval: &Interval, next: i128) -> bool
    ensures { result ≡ int_lt next interval.now.low }
{
    next < interval.low
}

/// Whether a number from a bound on below another lies in none of the intervals.
pub fn has_gap(low: i128, past: i128, intervals: &[Interval]) -> bool
    requires { IsSorted interval_cmp intervals.now }
    ensures { TellsGap low past intervals.now result }
{
    let mut next = low;
    for interval in intervals {
        if begins_after(interval, next) {
            return next < past;
        }
        next = advanced_by(next, past, interval);
    }
    next < past
}
