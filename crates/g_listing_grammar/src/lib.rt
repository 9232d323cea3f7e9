//! The grammar of listings: the definitions, what begins each form, and that every form can be
//! completed wherever a token is refused.
#![tactic(auto)]

use g_diagram::{Lit, Selector, System};
use g_listing_words::Operation;
use g_types::Rep;

/// How a type begins.
#[derive(Clone, Copy, Debug, PartialEq, Eq)]
pub enum TypeWord {
    Number(Rep),
    Truth,
    Text,
    Array,
    Cluster,
    Queue,
    Ref,
}

/// How a literal begins: the whole of it, or a bracket or a brace.
#[derive(Drop)]
pub enum LiteralFirst {
    Whole(Lit),
    Array,
    Cluster,
}

/// How a node without diagrams begins.
#[derive(Clone, Copy, Debug, PartialEq, Eq)]
pub enum PlainWord {
    Const,
    Operation(Operation),
    Obtain,
    Read,
    Write,
    Call,
}

/// How a structure begins.
#[derive(Clone, Copy, Debug, PartialEq, Eq)]
pub enum StructureWord {
    For,
    While,
    Case,
    Sequence,
    InPlace,
}

/// How a node begins.
#[derive(Clone, Copy, Debug, PartialEq, Eq)]
pub enum NodeWord {
    Plain(PlainWord),
    Structure(StructureWord),
}

/// Which words end the nodes of a diagram.
#[derive(Clone, Copy, Debug, PartialEq, Eq)]
pub enum Until {
    End,
    WhenOrEnd,
    FrameOrEnd,
}

/// A border of a structure, by the kinds of line that it has.
#[derive(Clone, Copy, Debug, PartialEq, Eq)]
pub enum Border {
    For,
    While,
    Case,
    FirstFrame,
    Frame,
    InPlace,
}

/// How a line at the border of a structure begins. `index` of an in-place structure is `Element`.
#[derive(Clone, Copy, Debug, PartialEq, Eq)]
pub enum LineWord {
    Tunnel,
    Register,
    Last,
    Gather,
    Index,
    Result,
    Carry,
    Ref,
    Element,
    Field,
}

/// How a selector begins: the whole of it, or a number that another may follow.
#[derive(Drop)]
pub enum SelectorFirst {
    Whole(Selector),
    Number(i128),
}

/// How a VI's clones are named.
#[derive(Clone, Copy, Debug, PartialEq, Eq)]
pub enum ClonesWord {
    NonReentrant,
    Preallocated,
    Pool,
}

/// What stands after a VI's name.
#[derive(Clone, Copy, Debug, PartialEq, Eq)]
pub enum HeaderWord {
    Clones(ClonesWord),
    System(System),
    Eol,
}

/// How a line of a panel begins.
#[derive(Clone, Copy, Debug, PartialEq, Eq)]
pub enum PanelWord {
    Control,
    Indicator,
}

/// What stands after a control's type.
#[derive(Clone, Copy, Debug, PartialEq, Eq)]
pub enum ControlMark {
    Required,
    Equals,
    Arrow,
}
