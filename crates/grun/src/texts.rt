//! The texts of refusals.

ghost use Rattle.std.specs.Prelude.{◌≡◌, ◌++◌, IfOk, OnOk};
ghost use Rattle.std.specs.Fmt.{decimal};
ghost use Rattle.grun.specs.Texts.{line_of, spot_text, vi_name, place_text, break_text, breaks_text};

use g_diagram::{Break, Place, Vi};
use g_lists::List;
use g_tokens::Spot;
use g_types::{Bytes, Name};
use std::alloc::{AllocError, Global};

fn push_number(alloc: Global, out: &mut Vec<u8>, number: u64) -> Result<(), AllocError>
    ensures { OnOk result (out.new.items ≡ out.old.items ++ decimal number) }
{
    let text = number.to_string(alloc)?;
    out.extend_from_slice(text.as_bytes())
}

/// A line of a fixed text and a number.
pub(crate) fn numbered(alloc: Global, head: &[u8], number: u64) -> Result<Bytes, AllocError>
    ensures { IfOk result (λ text. text ≡ line_of (head.now ++ decimal number)) }
{
    let mut out = Vec::new(alloc);
    out.extend_from_slice(head)?;
    push_number(alloc, &mut out, number)?;
    out.push(b'\n')?;
    Ok(List::from_vec(out))
}

/// A line of a fixed text and a place, `L:C`.
pub(crate) fn placed(alloc: Global, head: &[u8], spot: Spot) -> Result<Bytes, AllocError>
    ensures { IfOk result (λ text. text ≡ line_of (head.now ++ spot_text spot)) }
{
    let mut out = Vec::new(alloc);
    out.extend_from_slice(head)?;
    push_number(alloc, &mut out, spot.line as u64)?;
    out.push(b':')?;
    push_number(alloc, &mut out, spot.column as u64)?;
    out.push(b'\n')?;
    Ok(List::from_vec(out))
}

/// A line of a fixed text.
pub(crate) fn fixed(alloc: Global, text: &[u8]) -> Result<Bytes, AllocError>
    ensures { IfOk result (λ line. line ≡ line_of text.now) }
{
    let mut out = Vec::new(alloc);
    out.extend_from_slice(text)?;
    out.push(b'\n')?;
    Ok(List::from_vec(out))
}

/// The names that breaks are written with: those of the VIs, and the main one's for a break that
/// belongs to no VI of the listing, since it is absent.
#[derive(Clone, Copy)]
pub(crate) struct Names<'a> {
    pub main: &'a Name,
    pub vis: &'a [Vi],
}

impl Names<'_> {
    fn of(&self, number: u32) -> &[u8]
        ensures { result.now ≡ vi_name self.now.main.now self.now.vis.now number }
    {
        match self.vis.get(number as usize) {
            Some(vi) => vi.name.as_slice(),
            None => self.main.as_slice(),
        }
    }
}

/// `VI:L.O`
fn push_place(
    alloc: Global,
    out: &mut Vec<u8>,
    names: &Names<'_>,
    place: Place,
) -> Result<(), AllocError>
    ensures { OnOk result (out.new.items ≡ out.old.items ++ place_text names.now.main.now names.now.vis.now place) }
{
    out.extend_from_slice(names.of(place.vi))?;
    out.push(b':')?;
    push_number(alloc, out, place.line as u64)?;
    out.push(b'.')?;
    push_number(alloc, out, place.operand as u64)
}

/// `VI:L.O rule R` and a line feed.
fn push_break(
    alloc: Global,
    out: &mut Vec<u8>,
    names: &Names<'_>,
    broken: &Break,
) -> Result<(), AllocError>
    ensures { OnOk result (out.new.items ≡ out.old.items ++ break_text names.now.main.now names.now.vis.now broken.now) }
{
    push_place(alloc, out, names, broken.place)?;
    out.extend_from_slice(b" rule ")?;
    push_number(alloc, out, broken.rule as u64)?;
    out.push(b'\n')?;
    Ok(())
}

/// A line for each break.
pub(crate) fn breaks_text(
    alloc: Global,
    names: &Names<'_>,
    breaks: &[Break],
) -> Result<Bytes, AllocError>
    ensures { IfOk result (λ text. text ≡ breaks_text names.now.main.now names.now.vis.now breaks.now) }
{
    let mut out = Vec::new(alloc);
    for broken in breaks {
        push_break(alloc, &mut out, names, broken)?;
    }
    Ok(List::from_vec(out))
}
