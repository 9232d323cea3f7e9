//! Nodes and diagrams.

use crate::panel::{Lit, Wire};
use g_lists::List;
use g_operations::SharedOp;
use g_types::{Name, Ty};
use g_values::Primitive;

/// A line by which values cross the border of a structure. A wire named `inner` or `next` is one of
/// the diagram inside.
#[derive(Drop)]
pub enum Tunnel {
    /// `tunnel in -> out`: the same value each time.
    Tunnel {
        outer: Wire,
        inner: Wire,
    },
    /// `register in -> out | in -> out`: a shift register with an initial value.
    Register {
        initial: Wire,
        inner: Wire,
        next: Wire,
        last: Wire,
    },
    /// `register _ type -> out | in -> out`: a shift register that keeps its value between runs of
    /// its loop.
    Kept {
        ty: Ty,
        inner: Wire,
        next: Wire,
        last: Wire,
    },
    /// `last in -> out`: the value in the last iteration or frame.
    Last {
        inner: Wire,
        outer: Wire,
    },
    /// `gather in -> out`: the values of all iterations, as an array.
    Gather {
        inner: Wire,
        outer: Wire,
    },
    /// `index in -> out`: one element an iteration.
    Index {
        array: Wire,
        inner: Wire,
    },
    /// `result out [default]`: what each branch of a case gives.
    Result {
        outer: Wire,
        default: bool,
    },
    /// `carry in -> out`: from the frame before.
    Carry {
        before: Wire,
        inner: Wire,
    },
    /// `ref in -> out | in -> out out`: the value of a reference, its new value, and outside the
    /// reference and a code.
    Ref {
        reference: Wire,
        inner: Wire,
        next: Wire,
        same: Wire,
        code: Wire,
    },
    /// `index in in -> out | in -> out`: an element in place.
    Element {
        array: Wire,
        index: Wire,
        inner: Wire,
        next: Wire,
        outer: Wire,
    },
    /// `field NUMBER in -> out | in -> out`: an element of a cluster in place.
    Field {
        field: u8,
        cluster: Wire,
        inner: Wire,
        next: Wire,
        outer: Wire,
    },
}

/// A value of a case's selector at which a branch is taken.
#[derive(Drop)]
pub enum Selector {
    Number(i128),
    /// Both ends belong to it.
    Range(i128, i128),
    Truth(bool),
    Text(Name),
    Default,
}

/// A block diagram, or a diagram inside a structure.
#[cycle(diagram)]
#[derive(Drop)]
pub struct Diagram {
    pub nodes: List<Node>,
}

/// A branch of a case: `when` with its selectors, what `give` gives, and the diagram.
#[cycle(diagram)]
#[derive(Drop)]
pub struct Branch {
    pub selectors: List<Selector>,
    pub gives: List<Wire>,
    pub body: Diagram,
}

/// A frame of a sequence.
#[cycle(diagram)]
#[derive(Drop)]
pub struct SequenceFrame {
    pub lines: List<Tunnel>,
    pub body: Diagram,
}

/// A node of a diagram.
#[cycle(diagram)]
#[derive(Drop)]
pub enum Node {
    /// `const type literal -> out`
    Const {
        ty: Ty,
        literal: Lit,
        out: Wire,
    },
    /// `OP {in} [-> out {out}]`, an operation that computes its outputs from its inputs.
    Apply {
        primitive: Primitive,
        inputs: List<Wire>,
        outputs: List<Wire>,
    },
    /// The same form, for an operation on a shared object.
    Shared {
        operation: SharedOp,
        inputs: List<Wire>,
        outputs: List<Wire>,
    },
    /// `obtain TEXT NUMBER type -> out`: a queue by its name, its size, or -1 for none, and the type
    /// of its items.
    Obtain {
        queue: Name,
        size: i32,
        item: Ty,
        out: Wire,
    },
    /// `read NAME -> out`: a local variable.
    Read {
        object: Name,
        out: Wire,
    },
    /// `write NAME in`
    Write {
        object: Name,
        input: Wire,
    },
    /// `call NAME {in} [-> out {out}]`
    Call {
        vi: Name,
        inputs: List<Wire>,
        outputs: List<Wire>,
    },
    /// `for in -> out`: the count and the iteration.
    For {
        count: Wire,
        iteration: Wire,
        lines: List<Tunnel>,
        body: Diagram,
    },
    /// `while in -> out`: the stop wire, inside, and the iteration.
    While {
        stop: Wire,
        iteration: Wire,
        lines: List<Tunnel>,
        body: Diagram,
    },
    /// `case in`
    Case {
        selector: Wire,
        lines: List<Tunnel>,
        branches: List<Branch>,
    },
    /// `sequence`
    Sequence {
        frames: List<SequenceFrame>,
    },
    /// `inplace`
    InPlace {
        lines: List<Tunnel>,
        body: Diagram,
    },
}
