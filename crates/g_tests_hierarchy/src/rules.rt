//! What is broken in small listings.

use g_diagram::{Break, Hierarchy};
use g_listing::read_listing;
use g_lists::List;
use g_rules::check::{Checked, check};
use g_wires::wiring;
use std::alloc::{AllocError, Global};
use std::test::Fail;

/// Where a rule is broken: line, operand, rule.
type Spot = (u32, u32, u8);

static CASES: [(&[u8], &[Spot]); 6] = [
    (
        b"glisting 1\nvi Main\nindicator r i32 <- k\nconst i32 5 -> k\nend\n",
        &[],
    ),
    // lines 4 and 6 lead to themselves, and line 5 lies between
    (
        b"glisting 1\nvi Main\ncontrol a i32 -> a\nindicator r i32 <- w\nadd a t -> w\nadd w x -> x\ninc x -> y\nadd y z -> z\nend\n",
        &[(3, 2, 1), (4, 0, 6), (6, 0, 6)],
    ),
    (
        b"glisting 1\nvi Main\ncontrol a i32 -> a\nindicator r i32 <- w\ninc a a -> w\nend\n",
        &[(3, 0, 5)],
    ),
    (
        b"glisting 1\nvi Main\ncontrol a i32 -> a\ncase a\nwhen 1, 4..6\nwhen 9..7\nwhen 8\nwhen 5..7\nwhen 7, \"a\"\nwhen TRUE\nwhen FALSE, -1\nwhen 0..20\nwhen default\nwhen \"a\"\nwhen 19, default\nend\nend\n",
        &[
            (4, 0, 10),
            (6, 0, 10),
            (7, 0, 10),
            (10, 0, 10),
            (12, 0, 10),
            (13, 0, 10),
        ],
    ),
    // the loop, and what its own body in place may not hold
    (
        b"glisting 1\nvi Main\ncontrol a i32 -> a\ninplace\ntunnel a -> b\ndo\nfor b -> _\ntunnel b -> c\ndo\nconst queue(i32) null -> q\nenqueue q c -> _\ninplace\ntunnel c -> d\ndo\nconst queue(i32) null -> p\nenqueue p d -> _\nend\nend\nend\nend\n",
        &[(5, 0, 12), (14, 0, 12)],
    ),
    // the call leads back, and its input can't be assigned
    (
        b"glisting 1\nvi Main\ncontrol a i32 -> _\nindicator r i32 <- k\nconst i32 5 -> k\nconst bool TRUE -> b\ncall Main b -> _\nend\n",
        &[(5, 0, 19), (5, 1, 17)],
    ),
];

fn hierarchy(alloc: Global, text: &[u8]) -> Result<Hierarchy, Fail> {
    if text.len() > 1_000 {
        return Err(Fail::from(AllocError));
    }
    Ok(read_listing(alloc, text)?)
}

/// The breaks, or none where there is none and MAIN alone is reached.
fn told(alloc: Global, h: &Hierarchy) -> Result<List<Break>, AllocError> {
    match check(alloc, h, &List::from_slice(alloc, b"Main")?)? {
        Checked::Broken(breaks) => Ok(breaks),
        Checked::Unbroken(typed, linked) if typed.vis.len() == 1 && linked.order.len() == 1 => {
            Ok(List::new(alloc))
        }
        Checked::Unbroken(..) => Err(AllocError),
    }
}

fn stands_at(found: &Break, wanted: &Spot) -> bool {
    let (line, operand, rule) = *wanted;
    found.place.vi == 0
        && found.place.line == line
        && found.place.operand == operand
        && found.rule == rule
}

fn stand_at(found: &[Break], wanted: &[Spot]) -> bool {
    found.len() == wanted.len()
        && found
            .iter()
            .zip(wanted)
            .all(|(found, wanted)| stands_at(found, wanted))
}

#[test]
fn breaks_by_place_and_rule(rt: HostRuntime) -> Result<(), Fail> {
    let alloc = rt.alloc();
    for (text, wanted) in &CASES {
        let h = hierarchy(alloc, text)?;
        let breaks = told(alloc, &h)?;
        assert!(rt; stand_at(breaks.as_slice(), wanted));
    }
    Ok(())
}

/// That no VI has MAIN's name is told after all VIs.
#[test]
fn absent_main(rt: HostRuntime) -> Result<(), Fail> {
    let alloc = rt.alloc();
    let h = hierarchy(alloc, CASES[0].0)?;
    let breaks = wiring(alloc, &h, &List::from_slice(alloc, b"Main")?)?;
    assert!(rt; breaks.is_empty());
    let breaks = wiring(alloc, &h, &List::from_slice(alloc, b"Other")?)?;
    let told = breaks.as_slice();
    assert!(rt; told.len() == 1 && told[0].place.vi == 1 && told[0].rule == 9);
    Ok(())
}
