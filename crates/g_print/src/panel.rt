//! Panel lines.

ghost use Rattle.std.specs.Prelude.{◌≡◌, ◌++◌, ℕ, List, OnOk};
ghost use Rattle.g_diagram.specs.Text as spec;

use crate::literals::write_literal;
use crate::page::Page;
use g_diagram::{Lit, PanelItem};
use std::alloc::AllocError;

/// Writes the lines of a panel.
pub fn write_items(page: &mut Page, items: &[PanelItem]) -> Result<(), AllocError>
    ensures { (rest : List ℕ) → OnOk result (page.new ++ rest ≡ page.old ++ spec.items items.now rest) }
{
    for item in items {
        write_item(page, item)?;
    }
    Ok(())
}

fn write_item(page: &mut Page, item: &PanelItem) -> Result<(), AllocError>
    ensures { (rest : List ℕ) → OnOk result (page.new ++ rest ≡ page.old ++ spec.item item.now rest) }
{
    page.start(1, item_word(item))?;
    write_parts(page, item)?;
    page.end_line()
}

fn item_word(item: &PanelItem) -> &'static [u8]
    ensures { result.now ≡ spec.item_word item.now }
{
    match item {
        PanelItem::Control { .. } => b"control",
        PanelItem::Indicator { .. } => b"indicator",
    }
}

fn write_parts(page: &mut Page, item: &PanelItem) -> Result<(), AllocError>
    ensures { (rest : List ℕ) → OnOk result (page.new ++ rest ≡ page.old ++ spec.item_parts item.now rest) }
{
    match item {
        PanelItem::Control {
            name,
            ty,
            required,
            default,
            out,
        } => {
            page.word(name.as_slice())?;
            page.ty(ty)?;
            write_required(page, *required)?;
            write_default(page, default)?;
            page.arrow_to(out)
        }
        PanelItem::Indicator { name, ty, input } => {
            page.word(name.as_slice())?;
            page.ty(ty)?;
            page.word(b"<-")?;
            page.wire(input)
        }
    }
}

fn write_required(page: &mut Page, required: bool) -> Result<(), AllocError>
    ensures { (rest : List ℕ) → OnOk result (page.new ++ rest ≡ page.old ++ spec.required_text required rest) }
{
    if required {
        return page.word(b"required");
    }
    Ok(())
}

fn write_default(page: &mut Page, default: &Option<Lit>) -> Result<(), AllocError>
    ensures { (rest : List ℕ) → OnOk result (page.new ++ rest ≡ page.old ++ spec.default_text default.now rest) }
{
    match default {
        Some(literal) => {
            page.push(b" = ")?;
            write_literal(page, literal)
        }
        None => Ok(()),
    }
}
