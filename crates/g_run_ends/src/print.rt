//! The text of a state.

ghost use Rattle.std.specs.Prelude.{◌≡◌, ◌++◌, ◌∷◌, ℕ, List as TheList, drop, IfOk, OnOk};
ghost use Rattle.std.specs.Fmt.{decimal};
ghost use Rattle.g_diagram.specs.declared.panel.PanelItem.{PanelItem as Item};
ghost use Rattle.g_frames.specs.Panels.{indicator_names};
ghost use Rattle.g_frames.specs.Print.{indicator_line, indicator_lines, indicators, print};
ghost use Rattle.g_frames.specs.Program.{Program};
ghost use Rattle.g_frames.specs.State.{panel_items};
ghost use Rattle.g_needs.specs.Firings.{HasNeeds};
ghost use Rattle.g_program.specs.Tables.{IsTableOf};
ghost use Rattle.g_run_ends.specs.Verdicts.{lines_by, verdict_line, verdict_lines};

use crate::end::end_by;
use crate::scan::judge_all;
use crate::verdict::Verdict;
use g_diagram::PanelItem;
use g_frames::End;
use g_program::ProgramTables;
use g_states::FireState;
use g_types::Bytes;
use g_valtext::print_value;
use g_values::{Value, ValueList};
use std::alloc::{AllocError, Global};

fn push_number(alloc: Global, out: &mut Vec<u8>, number: u64) -> Result<(), AllocError>
    ensures { OnOk result (out.new.items ≡ out.old.items ++ decimal number) }
{
    let text = number.to_string(alloc)?;
    out.extend_from_slice(text.as_bytes())
}

/// Writes `NAME = VALUE` and a line feed.
fn push_indicator(
    alloc: Global,
    out: &mut Vec<u8>,
    name: &[u8],
    value: &Value,
) -> Result<(), AllocError>
    ensures { OnOk result ((rest : TheList ℕ) → out.new.items ++ rest ≡ out.old.items ++ indicator_line name.now value.now rest) }
{
    out.extend_from_slice(name)?;
    out.extend_from_slice(b" = ")?;
    let text = print_value(alloc, value)?;
    out.extend_from_slice(text.as_slice())?;
    out.extend_from_slice(b"\n")
}

/// Writes the line of a panel's item, where it is an indicator, with the value at a place. Answers the next place.
fn push_item(
    alloc: Global,
    out: &mut Vec<u8>,
    item: &PanelItem,
    values: &[Value],
    at: usize,
) -> Result<usize, AllocError>
    ensures { IfOk result (λ next. (items : TheList Item) (rest : TheList ℕ) → out.new.items ++ indicator_lines (indicator_names items) (drop next values.now) rest ≡ out.old.items ++ indicator_lines (indicator_names (item.now ∷ items)) (drop at values.now) rest) }
{
    match item {
        PanelItem::Control { .. } => Ok(at),
        PanelItem::Indicator { name, .. } => {
            if at >= values.len() {
                return Ok(at);
            }
            push_indicator(alloc, out, name.as_slice(), &values[at])?;
            Ok(at + 1)
        }
    }
}

/// Writes a line for each indicator of a panel.
fn push_items(
    alloc: Global,
    out: &mut Vec<u8>,
    items: &[PanelItem],
    values: &[Value],
) -> Result<(), AllocError>
    ensures { OnOk result ((rest : TheList ℕ) → out.new.items ++ rest ≡ out.old.items ++ indicator_lines (indicator_names items.now) values.now rest) }
{
    let mut at = 0;
    for item in items {
        at = push_item(alloc, out, item, values, at)?;
    }
    Ok(())
}

/// The values of the indicators of the VI that runs.
fn shown_values(
    alloc: Global,
    tables: &ProgramTables<'_>,
    state: &FireState,
) -> Result<ValueList, AllocError>
    ensures { IfOk result (λ values. (p : Program) → IsTableOf p tables.now → values ≡ indicators p state.now) }
{
    match state.objects().get(tables.panel_object(0)) {
        Some(object) => object.indicators(alloc),
        None => Ok(ValueList::new(alloc)),
    }
}

/// Writes a line for each indicator of the VI that runs.
#[tactic(auto, using(crate::proofs::TableLemmas::panel_of))]
fn push_panel(
    alloc: Global,
    out: &mut Vec<u8>,
    tables: &ProgramTables<'_>,
    state: &FireState,
) -> Result<(), AllocError>
    ensures { OnOk result ((p : Program) → IsTableOf p tables.now → (rest : TheList ℕ) → out.new.items ++ rest ≡ out.old.items ++ indicator_lines (indicator_names (panel_items p state.now.main)) (indicators p state.now) rest) }
{
    let values = shown_values(alloc, tables, state)?;
    match tables.vi(state.main()) {
        Some(table) => push_items(alloc, out, table.panel(), values.as_slice()),
        None => Ok(()),
    }
}

/// Writes a line for a node that waits.
fn push_verdict(alloc: Global, out: &mut Vec<u8>, verdict: &Verdict) -> Result<(), AllocError>
    ensures { OnOk result (out.new.items ≡ out.old.items ++ verdict_line verdict.now) }
{
    if !verdict.waits {
        return Ok(());
    }
    out.extend_from_slice(b"waiting ")?;
    push_number(alloc, out, verdict.frame)?;
    out.extend_from_slice(b" ")?;
    push_number(alloc, out, verdict.node)?;
    out.extend_from_slice(b"\n")
}

/// Writes a line for each node that waits.
fn push_verdicts(alloc: Global, out: &mut Vec<u8>, verdicts: &[Verdict]) -> Result<(), AllocError>
    ensures { OnOk result (out.new.items ≡ out.old.items ++ verdict_lines verdicts.now) }
{
    for verdict in verdicts {
        push_verdict(alloc, out, verdict)?;
    }
    Ok(())
}

/// Writes how a run ended.
fn push_end(
    alloc: Global,
    out: &mut Vec<u8>,
    begun: u32,
    verdicts: &[Verdict],
    end: End,
) -> Result<(), AllocError>
    ensures { OnOk result (out.new.items ≡ out.old.items ++ lines_by begun verdicts.now end) }
{
    match end {
        End::Complete => Ok(()),
        End::Spent => {
            out.extend_from_slice(b"spent ")?;
            push_number(alloc, out, begun as u64)?;
            out.extend_from_slice(b"\n")
        }
        End::Stalled => {
            out.extend_from_slice(b"stalled\n")?;
            push_verdicts(alloc, out, verdicts)
        }
        End::Unfinished => out.extend_from_slice(b"unfinished\n"),
    }
}

/// What is written of a state: a line for each indicator of the VI that runs, and how the run ended.
pub fn print_state(
    alloc: Global,
    tables: &ProgramTables<'_>,
    state: &FireState,
) -> Result<Bytes, AllocError>
    requires { (p : Program) × (IsTableOf p tables.now × ((frame line : ℕ) → HasNeeds p state.now frame line)) }
    ensures { IfOk result (λ text. (p : Program) → IsTableOf p tables.now → text ≡ print p state.now) }
{
    let verdicts = judge_all(alloc, state, tables, state.has_room())?;
    let end = end_by(alloc, tables, state, verdicts.as_slice())?;
    let mut out = Vec::new(alloc);
    push_panel(alloc, &mut out, tables, state)?;
    push_end(alloc, &mut out, state.begun(), verdicts.as_slice(), end)?;
    Ok(Bytes::from_vec(out))
}
