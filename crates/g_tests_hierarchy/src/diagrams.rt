//! A small VI: its lines and nodes, where they stand, and its ports; and breaks in order.

use g_diagram::{
    Branch, Break, Clones, Diagram, Node, PanelItem, Place, Selector, System, Tunnel, Vi, Wire,
    lines, nodes,
};
use g_diagram_ports::ports::ports_of;
use g_diagram_ports::{Port, callees};
use g_diagram_table::Entry;
use g_diagram_table::table::table;
use g_lists::List;
use g_rules_breaks::listed;
use g_types::{Name, Rep, Ty};
use std::alloc::{AllocError, Global};
use std::test::Fail;

fn word(alloc: Global, text: &[u8]) -> Result<Name, AllocError> {
    List::from_slice(alloc, text)
}

fn wire(alloc: Global, name: &[u8]) -> Result<Wire, AllocError> {
    Ok(Some(word(alloc, name)?))
}

/// `call Main b _ -> w`
fn call(alloc: Global, input: &[u8]) -> Result<Node, AllocError> {
    Ok(Node::Call {
        vi: word(alloc, b"Main")?,
        inputs: List::from_vec(vec![in alloc; wire(alloc, input)?, None]?),
        outputs: List::from_vec(vec![in alloc; wire(alloc, b"w")?]?),
    })
}

fn diagram(alloc: Global, node: Node) -> Result<Diagram, AllocError> {
    Ok(Diagram {
        nodes: List::from_vec(vec![in alloc; node]?),
    })
}

fn branch(alloc: Global, selector: Selector) -> Result<Branch, AllocError> {
    Ok(Branch {
        selectors: List::from_vec(vec![in alloc; selector]?),
        gives: List::new(alloc),
        body: diagram(alloc, call(alloc, b"b")?)?,
    })
}

/// Lines 3 to 9: `case a`, `tunnel a -> b`, `when 1`, a call, `when default`, a call, `end`.
fn case(alloc: Global) -> Result<Node, AllocError> {
    let tunnel = Tunnel::Tunnel {
        outer: wire(alloc, b"a")?,
        inner: wire(alloc, b"b")?,
    };
    Ok(Node::Case {
        selector: wire(alloc, b"a")?,
        lines: List::from_vec(vec![in alloc; tunnel]?),
        branches: List::from_vec(vec![in alloc;
            branch(alloc, Selector::Number(1))?,
            branch(alloc, Selector::Default)?,
        ]?),
    })
}

/// Lines 10 to 13: `while s -> i`, `do`, a call, `end`.
fn endless(alloc: Global) -> Result<Node, AllocError> {
    Ok(Node::While {
        stop: wire(alloc, b"s")?,
        iteration: wire(alloc, b"i")?,
        lines: List::new(alloc),
        body: diagram(alloc, call(alloc, b"b")?)?,
    })
}

/// `vi Main`, `control a i32 required -> a`, `indicator r i32 <- a`, the nodes, and line 14, `end`.
fn main_vi(alloc: Global) -> Result<Vi, AllocError> {
    let control = PanelItem::Control {
        name: word(alloc, b"a")?,
        ty: Ty::Num(Rep::I32),
        required: true,
        default: None,
        out: wire(alloc, b"a")?,
    };
    let indicator = PanelItem::Indicator {
        name: word(alloc, b"r")?,
        ty: Ty::Num(Rep::I32),
        input: wire(alloc, b"a")?,
    };
    Ok(Vi {
        name: word(alloc, b"Main")?,
        clones: Clones::NonReentrant,
        system: System::Same,
        panel: List::from_vec(vec![in alloc; control, indicator]?),
        top: Diagram {
            nodes: List::from_vec(vec![in alloc; case(alloc)?, endless(alloc)?]?),
        },
    })
}

/// The line and the diagram of each node.
fn node_places(alloc: Global, entries: &[Entry<'_>]) -> Result<Vec<(u32, u32)>, AllocError> {
    let mut places = Vec::new(alloc);
    for entry in entries {
        places.push((entry.line, entry.diagram))?;
    }
    Ok(places)
}

/// The line, operand and diagram of each port, whether it is a source, and whether it is free.
fn port_places(
    alloc: Global,
    ports: &[Port<'_>],
) -> Result<Vec<(u32, u32, u32, bool, bool)>, AllocError> {
    let mut places = Vec::new(alloc);
    for port in ports {
        places.push((
            port.line,
            port.operand,
            port.diagram,
            port.is_source,
            port.is_free,
        ))?;
    }
    Ok(places)
}

/// The control; the indicator; the case and its tunnel; in each branch the call, whose first control is
/// required and whose second isn't there; the loop, inside; and its call. Then what the tunnel gives: in the
/// first branch, and where the call of each branch takes it.
const PORTS: [(u32, u32, u32, bool, bool); 18] = [
    (1, 1, 0, true, false),
    (2, 1, 0, false, true),
    (3, 1, 0, false, false),
    (4, 1, 0, false, false),
    (6, 1, 5, false, false),
    (6, 2, 5, false, false),
    (6, 3, 5, true, false),
    (8, 1, 7, false, false),
    (8, 2, 7, false, false),
    (8, 3, 7, true, false),
    (10, 1, 11, false, false),
    (10, 2, 11, true, false),
    (12, 1, 11, false, false),
    (12, 2, 11, false, false),
    (12, 3, 11, true, false),
    (4, 2, 5, true, true),
    (4, 2, 5, true, true),
    (4, 2, 7, true, true),
];

#[test]
fn a_vi_line_by_line(rt: HostRuntime) -> Result<(), Fail> {
    let alloc = rt.alloc();
    let vis = vec![in alloc; main_vi(alloc)?]?;
    let main = vis.first().ok_or("no VI")?;
    assert_eq!(rt; (lines(main), nodes(main)), (15, 6));
    let entries = table(alloc, main)?;
    let found = node_places(alloc, entries.as_slice())?;
    let wanted = [(2, 0), (3, 0), (6, 5), (8, 7), (10, 0), (12, 11)];
    assert_eq!(rt; found.as_slice(), wanted.as_slice());
    let called = callees(alloc, vis.as_slice())?;
    let ports = ports_of(alloc, &called, main, entries.as_slice())?;
    let found = port_places(alloc, ports.as_slice())?;
    assert_eq!(rt; found.as_slice(), PORTS.as_slice());
    Ok(())
}

fn at(line: u32, operand: u32, rule: u8) -> Break {
    let place = Place {
        vi: 0,
        line,
        operand,
    };
    Break { place, rule }
}

#[test]
fn breaks_in_order_once_each(rt: HostRuntime) -> Result<(), Fail> {
    let alloc = rt.alloc();
    let breaks = listed(
        alloc,
        &[at(4, 0, 6), at(3, 2, 17), at(3, 2, 1), at(4, 0, 6)],
    )?;
    let wanted = [at(3, 2, 1), at(3, 2, 17), at(4, 0, 6)];
    assert_eq!(rt; breaks.as_slice(), wanted.as_slice());
    Ok(())
}
