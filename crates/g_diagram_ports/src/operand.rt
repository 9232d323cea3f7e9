//! The operands of each form of line.

ghost use Rattle.std.specs.Prelude.{◌≡◌};
ghost use Rattle.g_diagram.specs.Operands as spec;
ghost use Rattle.g_diagram_ports.specs.Seen.{seen_side, seen_operand};

use g_diagram::Wire;
use g_types::Name;

/// The side of a structure's border on which an operand stands.
#[derive(Clone, Copy, Debug)]
pub enum Side {
    /// In the diagram that holds the node.
    Outside,
    /// In each diagram inside.
    Inside,
    /// In the diagram of the frame before.
    Before,
}

/// An operand of a line. A source gives a value to a wire, a consumer takes one. A free consumer may
/// be left unwired, and a free source's wire may have no consumer.
#[derive(Clone, Copy)]
pub struct Operand<'a> {
    pub is_source: bool,
    pub side: Side,
    pub is_free: bool,
    pub wire: Option<&'a Name>,
}

/// An operand that gives a value to a wire, which some consumer must take.
pub fn source<'a>(side: Side, wire: &'a Wire) -> Operand<'a>
    ensures { seen_operand result ≡ spec.source (seen_side side) wire.now }
{
    Operand {
        is_source: true,
        side,
        is_free: false,
        wire: wire.as_ref(),
    }
}

/// An operand that takes a value, which must be wired.
pub fn consumer<'a>(side: Side, wire: &'a Wire) -> Operand<'a>
    ensures { seen_operand result ≡ spec.consumer (seen_side side) wire.now }
{
    Operand {
        is_source: false,
        side,
        is_free: false,
        wire: wire.as_ref(),
    }
}

/// An operand that takes a value, which may be left unwired.
pub fn free_consumer<'a>(side: Side, wire: &'a Wire) -> Operand<'a>
    ensures { seen_operand result ≡ spec.free_consumer (seen_side side) wire.now }
{
    Operand {
        is_source: false,
        side,
        is_free: true,
        wire: wire.as_ref(),
    }
}
