//! The canonical text of a hierarchy: tokens with one space between them, two spaces before a line
//! for each VI or structure around it, and no comment, blank line or needless zero.
#![tactic(auto)]

ghost use Rattle.std.specs.Prelude.{◌≡◌, ◌++◌, ℕ, List, OnOk, IfOk};
ghost use Rattle.g_diagram.specs.Text as spec;
ghost use Rattle.g_diagram.specs.declared.hierarchy.Hierarchy.{Hierarchy as Whole};
ghost use Rattle.g_listing_grammar.specs.Listing.{IsListing};
ghost use Rattle.g_print_laws.specs.Bytes.{IsBytes};

mod borders;
mod literals;
mod nodes;
mod page;
mod panel;
mod words;

use g_diagram::{Hierarchy, Vi};
use g_types::Bytes;
use page::Page;
use std::alloc::{AllocError, Global};

/// The canonical text of the hierarchy. Where some bytes have the hierarchy, the text reads back as it
/// and as no other. Only want of memory refuses it.
pub fn print_listing(alloc: Global, h: &Hierarchy) -> Result<Bytes, AllocError>
    ensures text { IfOk result (λ text. text ≡ spec.text_of h.now) }
    ensures reads_back { IfOk result (λ text. (bytes : List ℕ) → IsBytes bytes → IsListing bytes h.now → IsListing text h.now) }
    ensures only { IfOk result (λ text. (bytes : List ℕ) (g : Whole) → IsBytes bytes → IsListing bytes h.now → IsListing text g → g ≡ h.now) }
{
    let mut page = Page::new(alloc);
    page.bare_line(0, b"glisting 1")?;
    write_vis(&mut page, h.vis.as_slice())?;
    Ok(page.into_bytes())
}

fn write_vis(page: &mut Page, vis: &[Vi]) -> Result<(), AllocError>
    ensures { (rest : List ℕ) → OnOk result (page.new ++ rest ≡ page.old ++ spec.vis_text vis.now rest) }
{
    for vi in vis {
        write_vi(page, vi)?;
    }
    Ok(())
}

fn write_vi(page: &mut Page, vi: &Vi) -> Result<(), AllocError>
    ensures { (rest : List ℕ) → OnOk result (page.new ++ rest ≡ page.old ++ spec.vi_text vi.now rest) }
{
    page.start(0, b"vi")?;
    page.word(vi.name.as_slice())?;
    words::write_clones(page, vi.clones)?;
    page.word(words::system_word(vi.system))?;
    page.end_line()?;
    panel::write_items(page, vi.panel.as_slice())?;
    nodes::write_diagram(page, 1, &vi.top)?;
    page.bare_line(0, b"end")
}
