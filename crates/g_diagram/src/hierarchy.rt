//! VIs and the hierarchy of a listing.

use crate::node::Diagram;
use crate::panel::PanelItem;
use g_lists::List;
use g_types::Name;

/// How many data spaces a VI has, and who enters which.
#[derive(Clone, Copy, Debug, PartialEq, Eq)]
pub enum Clones {
    /// One data space, which calls enter one after another.
    NonReentrant,
    /// A data space for each call.
    Preallocated,
    /// So many data spaces, 1 to 64, of which a call takes a free one.
    Pool(u8),
}

/// The execution system that runs a VI's nodes.
#[derive(Clone, Copy, Debug, PartialEq, Eq)]
pub enum System {
    Ui,
    Standard,
    Instrument,
    Daq,
    Other1,
    Other2,
    /// That of the caller.
    Same,
}

/// A virtual instrument: a panel of controls and indicators, and a block diagram.
#[derive(Drop)]
pub struct Vi {
    pub name: Name,
    pub clones: Clones,
    pub system: System,
    pub panel: List<PanelItem>,
    pub top: Diagram,
}

/// The VIs of a listing, in its order.
#[derive(Drop)]
pub struct Hierarchy {
    pub vis: List<Vi>,
}
