//! Ports whose wires are numbers.

ghost use Rattle.std.specs.Prelude.{◌≡◌, ◌++◌, ◌∷◌, [], map, IfOk, OnOk, All};
ghost use Rattle.g_diagram_ports.specs.declared.port.Port.{Port as ThePort};
ghost use Rattle.g_wires.specs.Coding.{wire_at, code_by, has_wire_of, Numbers};
ghost use Rattle.g_wires.specs.Marks.{coded_break};

use g_diagram::{Break, Place};
use g_diagram_ports::Port;
use std::alloc::{AllocError, Global};
use std::collections::BTreeMap;

/// A port with its wire by a number: wired ports of one diagram with one name have one number, and
/// others have others.
#[derive(Clone, Copy, Debug)]
pub struct Coded {
    pub line: u32,
    pub operand: u32,
    pub node: Option<u32>,
    pub is_source: bool,
    pub is_free: bool,
    pub wire: Option<usize>,
}

/// The numbers of wires, by diagram and name.
pub type WireNumbers<'a> = BTreeMap<(u32, &'a [u8]), usize>;

fn add_wire<'a>(numbers: &mut WireNumbers<'a>, port: &Port<'a>) -> Result<(), AllocError>
    ensures numbers { OnOk result (Numbers numbers.old → Numbers numbers.new) }
    ensures has { OnOk result (has_wire_of numbers.new port.now) }
    ensures keeps { OnOk result ((p : ThePort) → has_wire_of numbers.old p → has_wire_of numbers.new p) }
{
    let Some(name) = port.wire else {
        return Ok(());
    };
    let key = (port.diagram, name.as_slice());
    if numbers.contains_key(&key) {
        return Ok(());
    }
    let next = numbers.len();
    numbers.insert(key, next)?;
    Ok(())
}

/// A number for the diagram and name of each wired port.
pub fn wire_numbers<'a>(alloc: Global, ports: &[Port<'a>]) -> Result<WireNumbers<'a>, AllocError>
    ensures numbers { IfOk result (λ numbers. Numbers numbers) }
    ensures all { IfOk result (λ numbers. All (has_wire_of numbers) ports.now) }
{
    let mut numbers = BTreeMap::new(alloc);
    for port in ports {
        add_wire(&mut numbers, port)?;
    }
    Ok(numbers)
}

fn wire_number<'a>(numbers: &WireNumbers<'a>, port: &Port<'a>) -> Option<usize>
    ensures { result ≡ wire_at numbers.now port.now }
{
    match port.wire {
        None => None,
        Some(name) => numbers.get(&(port.diagram, name.as_slice())).copied(),
    }
}

fn code<'a>(numbers: &WireNumbers<'a>, port: &Port<'a>) -> Coded
    ensures { result ≡ code_by numbers.now port.now }
{
    Coded {
        line: port.line,
        operand: port.operand,
        node: port.node,
        is_source: port.is_source,
        is_free: port.is_free,
        wire: wire_number(numbers, port),
    }
}

/// The ports with their wires by these numbers.
pub fn code_all<'a>(
    alloc: Global,
    numbers: &WireNumbers<'a>,
    ports: &[Port<'a>],
) -> Result<Vec<Coded>, AllocError>
    ensures { IfOk result (λ cs. cs.items ≡ map (code_by numbers.now) ports.now) }
{
    let mut all = Vec::with_capacity(alloc, ports.len())?;
    for port in ports {
        all.push(code(numbers, port))?;
    }
    Ok(all)
}

/// Adds a break at a port.
pub fn push_break(
    vi: u32,
    rule: u8,
    port: &Coded,
    breaks: &mut Vec<Break>,
) -> Result<(), AllocError>
    ensures { OnOk result (breaks.new.items ≡ breaks.old.items ++ coded_break vi rule port.now ∷ []) }
{
    breaks.push(Break {
        place: Place {
            vi,
            line: port.line,
            operand: port.operand,
        },
        rule,
    })?;
    Ok(())
}
