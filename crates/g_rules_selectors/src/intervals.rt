//! Intervals of numbers that don't meet one another.

ghost use Rattle.std.specs.Prelude.{◌≡◌, ◌+◌, ◌||◌, ℤ, ◌≤ℤ◌, true, false, OnOk, OnSome};
ghost use Rattle.std.specs.BTreeMap.{btree_map_len};
ghost use Rattle.g_rules_selectors.specs.Clashes.{meet};
ghost use Rattle.g_rules_selectors.specs.Taken.{AreApart, IsLastFrom, IsLeast, IsGreatest, Absorbs, Adds, meets_any};

use std::alloc::AllocError;
use std::collections::BTreeMap;

/// The numbers from one to another, both of them too; none if it falls.
#[derive(Clone, Copy, Debug)]
pub struct Interval {
    pub low: i128,
    pub high: i128,
}

/// Intervals none of which falls or meets another: their high ends by their low ends.
pub type Intervals = BTreeMap<i128, i128>;

/// The last one that begins at or below a number.
fn last_from(known: &Intervals, at: i128) -> Option<Interval>
    ensures { IsLastFrom known.now at result }
{
    match known.range(..=at).next_back() {
        None => None,
        Some((low, high)) => Some(Interval {
            low: *low,
            high: *high,
        }),
    }
}

/// Whether one of them meets the interval.
pub fn meets(known: &Intervals, interval: Interval) -> bool
    ensures { AreApart known.now → result ≡ meets_any known.now interval.low interval.high }
{
    if interval.high < interval.low {
        return false;
    }
    match last_from(known, interval.high) {
        None => false,
        Some(last) => interval.low <= last.high,
    }
}

/// The lesser low end.
fn low_of(a: Interval, b: Interval) -> i128
    ensures { IsLeast result a.low b.low }
{
    if a.low < b.low {
        return a.low;
    }
    b.low
}

/// The greater high end.
fn high_of(a: Interval, b: Interval) -> i128
    ensures { IsGreatest result a.high b.high }
{
    if a.high < b.high {
        return b.high;
    }
    a.high
}

/// The interval over two that meet.
fn over(a: Interval, b: Interval) -> Interval
    ensures joins { meet a.low a.high b.low b.high ≡ true → (c d : ℤ) → meet c d result.low result.high ≡ (meet c d a.low a.high || meet c d b.low b.high) }
    ensures rises { meet a.low a.high b.low b.high ≡ true → result.low ≤ℤ result.high }
{
    Interval {
        low: low_of(a, b),
        high: high_of(a, b),
    }
}

/// Takes out the last one that meets an interval, and gives the interval over both.
fn absorb(known: &mut Intervals, interval: Interval) -> Option<Interval>
    ensures absorbs { AreApart known.old → interval.low ≤ℤ interval.high → Absorbs known.old known.new interval result }
    ensures fewer { OnSome result (btree_map_len known.new + 1 ≡ btree_map_len known.old) }
{
    let Some(last) = last_from(known, interval.high) else {
        return None;
    };
    if last.high < interval.low {
        return None;
    }
    let _high = known.remove(&last.low);
    Some(over(last, interval))
}

/// Puts in an interval that meets none of them.
fn put(known: &mut Intervals, interval: Interval) -> Result<(), AllocError>
    ensures { OnOk result (AreApart known.old → interval.low ≤ℤ interval.high → meets_any known.old interval.low interval.high ≡ false → Adds known.old known.new interval) }
{
    known.insert(interval.low, interval.high)?;
    Ok(())
}

/// Adds the numbers of an interval.
pub fn add(known: &mut Intervals, interval: Interval) -> Result<(), AllocError>
    ensures { OnOk result (AreApart known.old → Adds known.old known.new interval) }
{
    if interval.high < interval.low {
        return Ok(());
    }
    let mut whole = interval;
    for _ in 0..known.len() + 1 {
        match absorb(known, whole) {
            None => return put(known, whole),
            Some(more) => whole = more,
        }
    }
    unreachable!()
}
