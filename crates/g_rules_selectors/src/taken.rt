//! What the selectors of a case have named so far.

ghost use Rattle.std.specs.Prelude.{◌≡◌, ◌||◌, ◌++◌, [], ℕ, List as TheList, IfOk, OnOk};
ghost use Rattle.std.specs.Str.{bytes_eq};
ghost use Rattle.g_diagram.specs.declared.node.Selector.{Selector as TheSelector};
ghost use Rattle.g_rules_selectors.specs.Clashes as spec;
ghost use Rattle.g_rules_selectors.specs.Taken.{AreApart, Keeps, has_text, is_taken};

use crate::intervals::{Interval, Intervals, add, meets};
use g_diagram::Selector;
use g_types::Name;
use std::alloc::{AllocError, Global};
use std::collections::{BTreeMap, BTreeSet};

/// What the selectors of a case have named so far.
#[derive(Drop)]
pub struct Taken<'a> {
    pub numbers: Intervals,
    pub texts: BTreeSet<&'a [u8]>,
    pub has_true: bool,
    pub has_false: bool,
    pub has_default: bool,
}

/// What no selectors have named.
pub fn nothing_taken<'a>(alloc: Global) -> Taken<'a>
    ensures { Keeps result [] }
{
    Taken {
        numbers: BTreeMap::new(alloc),
        texts: BTreeSet::new(alloc),
        has_true: false,
        has_false: false,
        has_default: false,
    }
}

fn falls(selector: &Selector) -> bool
    ensures { result ≡ spec.falls selector.now }
{
    match selector {
        Selector::Range(low, high) => *high < *low,
        Selector::Number(_) | Selector::Truth(_) | Selector::Text(_) | Selector::Default => false,
    }
}

fn stands(taken: &Taken<'_>, selector: &Selector) -> bool
    ensures { AreApart taken.now.numbers → result ≡ is_taken taken.now selector.now }
{
    match selector {
        Selector::Number(number) => meets(
            &taken.numbers,
            Interval {
                low: *number,
                high: *number,
            },
        ),
        Selector::Range(low, high) => meets(
            &taken.numbers,
            Interval {
                low: *low,
                high: *high,
            },
        ),
        Selector::Truth(truth) => {
            if *truth {
                taken.has_true
            } else {
                taken.has_false
            }
        }
        Selector::Text(text) => taken.texts.contains(text.as_slice()),
        Selector::Default => taken.has_default,
    }
}

/// Whether a selector falls or names what was named before.
fn is_clash(taken: &Taken<'_>, selector: &Selector) -> bool
    ensures { AreApart taken.now.numbers → result ≡ (spec.falls selector.now || is_taken taken.now selector.now) }
{
    if falls(selector) {
        return true;
    }
    stands(taken, selector)
}

fn add_text<'a>(texts: &mut BTreeSet<&'a [u8]>, text: &'a Name) -> Result<(), AllocError>
    ensures { OnOk result ((t : TheList ℕ) → has_text texts.new t ≡ (has_text texts.old t || bytes_eq text.now t)) }
{
    let _is_new = texts.insert(text.as_slice())?;
    Ok(())
}

/// Adds what a selector names.
fn add_selector<'a>(taken: &mut Taken<'a>, selector: &'a Selector) -> Result<(), AllocError>
    ensures apart { OnOk result (AreApart taken.old.numbers → AreApart taken.new.numbers) }
    ensures adds { OnOk result (AreApart taken.old.numbers → (s : TheSelector) → is_taken taken.new s ≡ (is_taken taken.old s || spec.overlaps s selector.now)) }
{
    match selector {
        Selector::Number(number) => {
            let interval = Interval {
                low: *number,
                high: *number,
            };
            add(&mut taken.numbers, interval)?;
        }
        Selector::Range(low, high) => {
            let interval = Interval {
                low: *low,
                high: *high,
            };
            add(&mut taken.numbers, interval)?;
        }
        Selector::Truth(truth) => {
            if *truth {
                taken.has_true = true;
            } else {
                taken.has_false = true;
            }
        }
        Selector::Text(text) => add_text(&mut taken.texts, text)?,
        Selector::Default => taken.has_default = true,
    }
    Ok(())
}

/// Adds what the selectors of a `when` line name, and says whether the line clashes: whether a range of
/// it falls, or a value or `default` was named before, by a line before it or earlier on the line. Only
/// want of memory refuses it.
pub fn take<'a>(taken: &mut Taken<'a>, selectors: &'a [Selector]) -> Result<bool, AllocError>
    ensures value { IfOk result (λ clashes. (before : TheList TheSelector) → Keeps taken.old before → clashes ≡ spec.clashes before selectors.now) }
    ensures keeps { OnOk result ((before : TheList TheSelector) → Keeps taken.old before → Keeps taken.new (before ++ selectors.now)) }
{
    let mut clashes = false;
    for selector in selectors {
        let clash = is_clash(taken, selector);
        add_selector(taken, selector)?;
        clashes |= clash;
    }
    Ok(clashes)
}
