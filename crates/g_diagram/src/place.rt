//! Where a wire ends, and what is broken there.

/// An operand of a line of a VI. VIs count from 0 in the listing's order; the `vi` line of a VI is its
/// line 0; operands count from 1, and operand 0 is the line itself. Places are ordered by VI, line and
/// operand.
#[derive(Clone, Copy, Debug, PartialEq, Eq, PartialOrd, Ord)]
pub struct Place {
    pub vi: u32,
    pub line: u32,
    pub operand: u32,
}

/// A place at which a rule of the language, 1 to 20, is broken. Breaks are ordered by place and then
/// rule.
#[derive(Clone, Copy, Debug, PartialEq, Eq, PartialOrd, Ord)]
pub struct Break {
    pub place: Place,
    pub rule: u8,
}
