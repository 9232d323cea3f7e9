//! Nodes by their forms of line.

use g_diagram::{Lit, Selector, SharedOp, Tunnel, Wire};
use g_types::{Name, Ty};
use g_values::Primitive;

/// A branch of a case, with the line of its `when`, which names its diagram.
#[derive(Drop)]
pub struct Arm<'a> {
    pub selectors: &'a [Selector],
    pub gives: &'a [Wire],
    pub body: u32,
}

/// A frame of a sequence, with its line, which names its diagram.
#[derive(Drop)]
pub struct Part<'a> {
    pub lines: &'a [Tunnel],
    pub body: u32,
}

/// What a node is: its form of line with its parts in order. A diagram inside is named by its line.
#[derive(Drop)]
pub enum Kind<'a> {
    Const {
        ty: &'a Ty,
        literal: &'a Lit,
        out: &'a Wire,
    },
    Apply {
        primitive: Primitive,
        inputs: &'a [Wire],
        outputs: &'a [Wire],
    },
    /// A wired indicator.
    Shows {
        name: &'a Name,
        ty: &'a Ty,
        input: &'a Wire,
    },
    Shared {
        operation: SharedOp,
        inputs: &'a [Wire],
        outputs: &'a [Wire],
    },
    Obtain {
        queue: &'a Name,
        size: i32,
        item: &'a Ty,
        out: &'a Wire,
    },
    Read {
        object: &'a Name,
        out: &'a Wire,
    },
    Write {
        object: &'a Name,
        input: &'a Wire,
    },
    Call {
        vi: &'a Name,
        inputs: &'a [Wire],
        outputs: &'a [Wire],
    },
    /// A `for` or `while`: the operand that counts its iterations and the one that stops it, where its
    /// form has them.
    Loop {
        count: Option<&'a Wire>,
        stop: Option<&'a Wire>,
        iteration: &'a Wire,
        lines: &'a [Tunnel],
        body: u32,
    },
    Case {
        selector: &'a Wire,
        lines: &'a [Tunnel],
        arms: Vec<Arm<'a>>,
    },
    Sequence {
        parts: Vec<Part<'a>>,
    },
    /// With the line of its `end` too.
    InPlace {
        lines: &'a [Tunnel],
        body: u32,
        finish: u32,
    },
}

/// A node with its line and the line of its diagram, 0 for the VI's own.
#[derive(Drop)]
pub struct Entry<'a> {
    pub line: u32,
    pub diagram: u32,
    pub kind: Kind<'a>,
}
