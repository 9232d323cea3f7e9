//! Lines at the border of a structure.

ghost use Rattle.std.specs.Prelude.{◌≡◌, ◌++◌, ℕ, List, OnOk};
ghost use Rattle.g_diagram.specs.Text as spec;

use crate::page::Page;
use g_diagram::{Tunnel, Wire};
use std::alloc::AllocError;

/// Writes the lines of a structure's header.
pub fn write_borders(page: &mut Page, depth: usize, lines: &[Tunnel]) -> Result<(), AllocError>
    ensures { (rest : List ℕ) → OnOk result (page.new ++ rest ≡ page.old ++ spec.borders lines.now depth rest) }
{
    for line in lines {
        write_border(page, depth, line)?;
    }
    Ok(())
}

fn write_border(page: &mut Page, depth: usize, line: &Tunnel) -> Result<(), AllocError>
    ensures { (rest : List ℕ) → OnOk result (page.new ++ rest ≡ page.old ++ spec.border line.now depth rest) }
{
    page.start(depth, border_word(line))?;
    write_operands(page, line)?;
    page.end_line()
}

fn border_word(line: &Tunnel) -> &'static [u8]
    ensures { result.now ≡ spec.border_word line.now }
{
    match line {
        Tunnel::Tunnel { .. } => b"tunnel",
        Tunnel::Register { .. } | Tunnel::Kept { .. } => b"register",
        Tunnel::Last { .. } => b"last",
        Tunnel::Gather { .. } => b"gather",
        Tunnel::Index { .. } | Tunnel::Element { .. } => b"index",
        Tunnel::Result { .. } => b"result",
        Tunnel::Carry { .. } => b"carry",
        Tunnel::Ref { .. } => b"ref",
        Tunnel::Field { .. } => b"field",
    }
}

fn write_operands(page: &mut Page, line: &Tunnel) -> Result<(), AllocError>
    ensures { (rest : List ℕ) → OnOk result (page.new ++ rest ≡ page.old ++ spec.border_operands line.now rest) }
{
    match line {
        Tunnel::Tunnel { outer, inner } => page.across(outer, inner),
        Tunnel::Register {
            initial,
            inner,
            next,
            last,
        } => {
            page.across(initial, inner)?;
            page.back(next, last)
        }
        Tunnel::Kept {
            ty,
            inner,
            next,
            last,
        } => {
            page.word(b"_")?;
            page.ty(ty)?;
            page.arrow_to(inner)?;
            page.back(next, last)
        }
        Tunnel::Last { inner, outer } | Tunnel::Gather { inner, outer } => page.across(
            inner, outer,
        ),
        Tunnel::Index { array, inner } => page.across(array, inner),
        Tunnel::Result { outer, default } => {
            page.wire(outer)?;
            write_default_word(page, *default)
        }
        Tunnel::Carry { before, inner } => page.across(before, inner),
        Tunnel::Ref {
            reference,
            inner,
            next,
            same,
            code,
        } => {
            page.across(reference, inner)?;
            page.back(next, same)?;
            page.wire(code)
        }
        Tunnel::Element {
            array,
            index,
            inner,
            next,
            outer,
        } => {
            page.wire(array)?;
            page.across(index, inner)?;
            page.back(next, outer)
        }
        Tunnel::Field {
            field,
            cluster,
            inner,
            next,
            outer,
        } => {
            page.push(b" ")?;
            page.count(*field)?;
            page.across(cluster, inner)?;
            page.back(next, outer)
        }
    }
}

fn write_default_word(page: &mut Page, default: bool) -> Result<(), AllocError>
    ensures { (rest : List ℕ) → OnOk result (page.new ++ rest ≡ page.old ++ spec.default_word default rest) }
{
    if default {
        return page.word(b"default");
    }
    Ok(())
}

/// Writes `give` and what a branch gives, where its case has results.
pub fn write_gives(page: &mut Page, depth: usize, gives: &[Wire]) -> Result<(), AllocError>
    ensures { (rest : List ℕ) → OnOk result (page.new ++ rest ≡ page.old ++ spec.give_text gives.now depth rest) }
{
    match gives {
        [] => Ok(()),
        [first, others @ ..] => {
            page.start(depth, b"give")?;
            page.wire(first)?;
            page.wires(others)?;
            page.end_line()
        }
    }
}
