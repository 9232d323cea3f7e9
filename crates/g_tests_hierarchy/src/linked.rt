//! A small hierarchy, linked.

use g_diagram::{Clones, Diagram, Hierarchy, Node, System, Vi};
use g_hier::{Linked, can_link, link};
use g_lists::List;
use g_types::Name;
use std::alloc::{AllocError, Global};
use std::test::Fail;

/// A call of the VI whose name is a letter.
fn call(alloc: Global, name: u8) -> Result<Node, AllocError> {
    Ok(Node::Call {
        vi: List::from_slice(alloc, &[name])?,
        inputs: List::new(alloc),
        outputs: List::new(alloc),
    })
}

/// A VI whose name is a letter, with these calls from line 1 on.
fn vi(
    alloc: Global,
    name: u8,
    clones: Clones,
    system: System,
    calls: &[u8],
) -> Result<Vi, AllocError> {
    let mut nodes: Vec<Node> = Vec::new(alloc);
    for called in calls {
        nodes.push(call(alloc, *called)?)?;
    }
    Ok(Vi {
        name: List::from_slice(alloc, &[name])?,
        clones,
        system,
        panel: List::new(alloc),
        top: Diagram {
            nodes: List::from_vec(nodes),
        },
    })
}

/// The name, clones, system and calls of each VI: M calls A and B, A calls the pool P, and B calls P, and C
/// twice. U isn't called.
const VIS: [(u8, Clones, System, &[u8]); 6] = [
    (b'C', Clones::NonReentrant, System::Same, b""),
    (b'P', Clones::Pool(2), System::Same, b""),
    (b'B', Clones::Preallocated, System::Same, b"PCC"),
    (b'A', Clones::Preallocated, System::Daq, b"P"),
    (b'M', Clones::NonReentrant, System::Same, b"AB"),
    (b'U', Clones::NonReentrant, System::Ui, b"A"),
];

fn hierarchy(alloc: Global) -> Result<Hierarchy, AllocError> {
    let mut vis = Vec::new(alloc);
    for (name, clones, system, calls) in &VIS {
        vis.push(vi(alloc, *name, *clones, *system, *calls)?)?;
    }
    Ok(Hierarchy {
        vis: List::from_vec(vis),
    })
}

/// Of each data space its VI, clone, the data space and line of its call, and system.
fn order_text(alloc: Global, linked: &Linked) -> Result<String, AllocError> {
    let mut text = String::new(alloc);
    for (space, system) in linked
        .spaces
        .as_slice()
        .iter()
        .zip(linked.systems.as_slice())
    {
        let one = match space.caller {
            None => format!(in alloc; "{}.{} {:?}, ", space.vi, space.clone, *system)?,
            Some(caller) => format!(in alloc;
                "{} at {}:{} {:?}, ",
                space.vi, caller.space, caller.line, *system
            )?,
        };
        text.push_str(one.as_str())?;
    }
    Ok(text)
}

/// The `same` of P and of C is that of the first call: of A's and of B's.
#[test]
fn a_hierarchy_is_linked(rt: HostRuntime) -> Result<(), Fail> {
    let alloc = rt.alloc();
    let h = hierarchy(alloc)?;
    let main: Name = List::from_slice(alloc, b"M")?;
    assert!(rt; can_link(alloc, &h, &main)?);
    let linked = link(alloc, &h, &main).ok().ok_or("refused")?;
    assert_eq!(rt; linked.order.as_slice(), [4, 3, 1, 2, 0].as_slice());
    let text = order_text(alloc, &linked)?;
    assert_eq!(rt;
        text.as_str(),
        "4.0 Standard, 3 at 0:1 Daq, 1.0 Daq, 1.1 Daq, 2 at 0:2 Standard, 0.0 Standard, "
    );
    Ok(())
}
