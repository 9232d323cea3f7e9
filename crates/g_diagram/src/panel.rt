//! Panel lines, and what they share with nodes.

use g_lists::List;
use g_types::{Name, Ty};

/// The name of a wire at an operand, or none where `_` leaves it unwired.
pub type Wire = Option<Name>;

/// A literal of a listing. It has no type of its own: where it stands says which.
#[derive(Drop)]
pub enum Lit {
    Number(i128),
    Truth(bool),
    /// A text, as the bytes that it means.
    Text(Name),
    Null,
    Array(List<Lit>),
    Cluster(List<Lit>),
}

/// A line of a panel.
#[derive(Drop)]
pub enum PanelItem {
    /// `control NAME type [required] [= literal] -> out`
    Control {
        name: Name,
        ty: Ty,
        required: bool,
        default: Option<Lit>,
        out: Wire,
    },
    /// `indicator NAME type <- in`
    Indicator {
        name: Name,
        ty: Ty,
        input: Wire,
    },
}
