//! Rule 6 over ports whose wires are numbers.

ghost use Rattle.std.specs.Prelude.{◌≡◌, ◌<◌, ◌+◌, ◌^◌, ◌++◌, ◌∷◌, [], IfOk, OnOk, All};
ghost use Rattle.g_wires.specs.Marks.{WireBelow, marked_from};
ghost use Rattle.g_wires.specs.Checked.{TellsLines};

use crate::coded::Coded;
use crate::edges::{graph_of, lines_of};
use g_diagram::{Break, Place};
use g_graph::cycles::cycles;
use g_rules_lines::next;
use std::alloc::{AllocError, Global};

/// Of each line, whether wires lead from its node to itself.
pub fn turning_lines(alloc: Global, count: usize, ports: &[Coded]) -> Result<Vec<bool>, AllocError>
    requires small { count < 2 ^ 63 }
    requires wires { All (WireBelow count) ports.now }
    ensures { IfOk result (λ marks. TellsLines ports.now marks.items) }
{
    let lines = lines_of(ports)?;
    let graph = graph_of(alloc, lines as usize, count, ports)?;
    let mut marks = cycles(alloc, graph.as_slice())?;
    marks.truncate(lines as usize);
    Ok(marks)
}

fn push_if(vi: u32, line: u32, mark: bool, breaks: &mut Vec<Break>) -> Result<(), AllocError>
    ensures { OnOk result (breaks.new.items ≡ breaks.old.items ++ marked_from vi line (mark ∷ [])) }
{
    if mark {
        let place = Place {
            vi,
            line,
            operand: 0,
        };
        breaks.push(Break { place, rule: 6 })?;
    }
    Ok(())
}

/// The breaks of rule 6: each line that is marked.
pub fn push_marked(vi: u32, marks: &[bool], breaks: &mut Vec<Break>) -> Result<(), AllocError>
    ensures { OnOk result (breaks.new.items ≡ breaks.old.items ++ marked_from vi 0 marks.now) }
{
    let mut line = 0;
    for mark in marks {
        push_if(vi, line, *mark, breaks)?;
        line = next(line)?;
    }
    Ok(())
}
