//! What is told of the types of wires.

use g_diagram::Break;
use g_lists::List;
use g_types::{Name, Ty};
use std::alloc::AllocError;
use thiserror::Error;

/// The type of a named source, by the line of its diagram.
#[derive(Drop)]
pub struct SourceType {
    pub diagram: u32,
    pub name: Name,
    pub ty: Ty,
}

/// The type that the tunnels of a case give to a name in each of its branches.
#[derive(Drop)]
pub struct NamedType {
    pub name: Name,
    pub ty: Ty,
}

/// What the tunnels of a case give in each of its branches. A name that isn't listed has no type by it.
#[derive(Drop)]
pub struct CaseTypes {
    pub names: List<NamedType>,
}

/// The cases of which a diagram is a branch, each by its place in the list of cases, from 0.
#[derive(Drop)]
pub struct BranchCases {
    pub diagram: u32,
    pub cases: List<usize>,
}

/// The types of a VI's named sources: what is listed by diagram and name, and what the tunnels of a
/// case give, which is told once for all its branches. A source that isn't listed has no type.
#[derive(Drop)]
pub struct ViTypes {
    pub sources: List<SourceType>,
    pub cases: List<CaseTypes>,
    pub branches: List<BranchCases>,
}

/// The types of all named sources, VI by VI in listing order.
#[derive(Drop)]
pub struct Typed {
    pub vis: List<ViTypes>,
}

/// Why a hierarchy has no types that keep the rules.
#[derive(Debug, Drop, Error)]
pub enum InferRefused {
    /// All breaks of the rules 15 to 18, in order.
    #[error("the types of wires break rules")]
    Broken(List<Break>),
    /// A growth was refused.
    #[error(transparent)]
    Memory(AllocError),
}
