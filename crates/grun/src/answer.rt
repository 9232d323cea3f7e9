//! The answer to a line and a listing.

ghost use Rattle.std.specs.Prelude.{◌≡◌, ◌≤◌, List as Row, ℕ, Some, None, length, slice_get, IfOk, codes};
ghost use Rattle.std.specs.List.{All};
ghost use Rattle.g_diagram.specs.declared.hierarchy.Vi.{Vi as TheVi};
ghost use Rattle.g_frames.specs.Program.{Program};
ghost use Rattle.g_frames.specs.declared.firing.Firing.{Firing};
ghost use Rattle.g_hier.specs.Outlines.{number_of};
ghost use Rattle.g_infer_laws.specs.OwnLines.{HasOwnLines};
ghost use Rattle.g_line.specs.declared.forms.Line.TheVariants.{Check as CheckLine};
ghost use Rattle.g_line.specs.Forms.{HasLine};
ghost use Rattle.g_listing_laws.specs.Spelled.{AreSpelled};
ghost use Rattle.g_listing_grammar.specs.Listing.{IsListing};
ghost use Rattle.g_program.specs.Tables.{IsTableOf};
ghost use Rattle.g_runs.specs.Needs.{RunNeeds};
ghost use Rattle.grun.specs.Texts.{breaks_text};
ghost use Rattle.grun.specs.Ready.{IsReady, AreSettled, RunsProgram};
ghost use Rattle.grun.specs.Answer.{reply, status_of, Runs, IsRunAnswer, IsAnswer, LIMIT as MOST};

use crate::settings::{Given, controls, go_through, values};
use crate::texts::{Names, breaks_text, fixed, numbered, placed};
use g_accepted::accepted_laws;
use g_diagram::{Break, Hierarchy, Vi};
use g_frames::{End, Trace};
use g_hier::Linked;
use g_infer::Typed;
use g_infer_laws::own_lines_laws;
use g_line::{Line, Setting};
use g_listing::{ListingRefused, read_listing};
use g_listing_laws::spelled_laws;
use g_lists::List;
use g_print::print_listing;
use g_program::ProgramTables;
use g_rules::check::{Checked, check};
use g_run_ends::print_state;
use g_run_tables::build::run_tables;
use g_runs::run as run_all;
use g_typed_needs::needs_laws;
use g_typed_states::typed_laws;
use g_types::{Bytes, Name};
use g_values::ValueList;
use std::alloc::{AllocError, Global};

/// What is answered: a status, a text, and the firings of a run.
#[derive(Drop)]
pub(crate) struct Answer {
    pub status: u8,
    pub text: Bytes,
    pub trace: Option<Trace>,
}

/// The status of a run by its end.
fn status_of(end: End) -> u8
    ensures { result ≡ status_of end }
{
    match end {
        End::Complete => 0,
        End::Stalled => 5,
        End::Spent => 6,
        End::Unfinished => 0,
    }
}

/// Runs a program, and shows the state in which nothing can fire.
fn run_program(
    alloc: Global,
    tables: &ProgramTables<'_>,
    controls: ValueList,
    limit: u32,
) -> Result<Answer, AllocError>
    requires { (p : Program) × (IsTableOf p tables.now × RunNeeds p controls limit) }
    ensures { IfOk result (λ answer. (trace : Row Firing) × ((answer.trace ≡ Some trace) × ((p : Program) → IsTableOf p tables.now → RunsProgram p controls limit trace (reply answer.status answer.text)))) }
{
    let ran = run_all(alloc, tables, controls, limit)?;
    let text = print_state(alloc, tables, &ran.state)?;
    Ok(Answer {
        status: status_of(ran.end),
        text,
        trace: Some(ran.trace),
    })
}

/// Runs a hierarchy that keeps all rules, from its main VI on.
fn run(
    alloc: Global,
    h: &Hierarchy,
    main: &Name,
    found: (&Typed, &Linked),
    controls: ValueList,
    limit: u32,
) -> Result<Answer, AllocError>
    requires ready { IsReady h.now main.now found.0.now found.1.now }
    requires controls { (vi : TheVi) → slice_get h.now.vis found.1.now.main ≡ Some vi → AreSettled vi controls }
    ensures { IfOk result (λ answer. (trace : Row Firing) × ((answer.trace ≡ Some trace) × Runs h.now (number_of h.now.vis main.now) controls limit trace (reply answer.status answer.text))) }
{
    needs_laws();
    typed_laws();
    let (typed, linked) = found;
    let tables = run_tables(alloc, h, typed, linked)?;
    run_program(alloc, &tables, controls, limit)
}

/// An answer for which nothing fired.
pub(crate) fn plain(status: u8, text: Bytes) -> Answer
    ensures status { result.status ≡ status }
    ensures text { result.text ≡ text }
    ensures trace { result.trace ≡ None }
{
    Answer {
        status,
        text,
        trace: None,
    }
}

/// The main VI.
fn main_vi(h: &Hierarchy, main: u32) -> &Vi
    requires { (vi : TheVi) × (slice_get h.now.vis main ≡ Some vi) }
    ensures { slice_get h.now.vis main ≡ Some result.now }
{
    &h.vis.as_slice()[main as usize]
}

/// The answer for settings, where no rule is broken.
fn answer_settings<'a>(
    alloc: Global,
    h: &'a Hierarchy,
    main: &Name,
    found: (&Typed, &Linked),
    settings: &'a [Setting],
    limit: u32,
) -> Result<Answer, AllocError>
    requires { IsReady h.now main.now found.0.now found.1.now }
    ensures { IfOk result (λ answer. IsRunAnswer main.now settings.now limit h.now answer.trace (reply answer.status answer.text)) }
{
    let panel = main_vi(h, found.1.main).panel.as_slice();
    let controls = controls(alloc, panel)?;
    match go_through(alloc, &controls, settings)? {
        Given::Wrong(word) => Ok(plain(4, numbered(alloc, b"control at word ", word)?)),
        Given::Right(given) => {
            let values = values(alloc, panel, &given)?;
            let values = ValueList::from_list(List::from_vec(values));
            run(alloc, h, main, found, values, limit)
        }
    }
}

/// The answer that lists breaks.
fn answer_breaks(
    alloc: Global,
    h: &Hierarchy,
    main: &Name,
    breaks: &[Break],
) -> Result<Answer, AllocError>
    ensures { IfOk result (λ answer. (answer.trace ≡ None) × (reply answer.status answer.text ≡ reply 3 (breaks_text main.now h.now.vis breaks.now))) }
{
    let names = Names {
        main,
        vis: h.vis.as_slice(),
    };
    Ok(plain(3, breaks_text(alloc, &names, breaks)?))
}

/// The answer to a run of a hierarchy: first the rules, and then the settings.
fn answer_run(
    alloc: Global,
    h: &Hierarchy,
    main: &Name,
    settings: &[Setting],
    limit: u32,
) -> Result<Answer, AllocError>
    requires spelled { AreSpelled h.now }
    requires own_lines { All HasOwnLines h.now.vis }
    ensures { IfOk result (λ answer. IsRunAnswer main.now settings.now limit h.now answer.trace (reply answer.status answer.text)) }
{
    accepted_laws();
    match check(alloc, h, main)? {
        Checked::Broken(breaks) => answer_breaks(alloc, h, main, breaks.as_slice()),
        Checked::Unbroken(typed, linked) => {
            answer_settings(alloc, h, main, (&typed, &linked), settings, limit)
        }
    }
}

/// The answer to a check of a hierarchy.
fn answer_check(alloc: Global, h: &Hierarchy, main: &Name) -> Result<Answer, AllocError>
    ensures { IfOk result (λ answer. (words : Row (Row ℕ)) (bytes : Row ℕ) → HasLine words (CheckLine main.now) → length bytes ≤ MOST → IsListing bytes h.now → IsAnswer words bytes answer.trace (reply answer.status answer.text)) }
{
    match check(alloc, h, main)? {
        Checked::Broken(breaks) => answer_breaks(alloc, h, main, breaks.as_slice()),
        Checked::Unbroken(..) => Ok(plain(0, fixed(alloc, b"ok")?)),
    }
}

/// The answer to a line and a listing.
pub(crate) fn answer_line(alloc: Global, line: &Line, bytes: &[u8]) -> Result<Answer, AllocError>
    requires { length bytes.now ≤ MOST }
    ensures { IfOk result (λ answer. (words : Row (Row ℕ)) → HasLine words line.now → IsAnswer words bytes.now answer.trace (reply answer.status answer.text)) }
{
    let h = match read_listing(alloc, bytes) {
        Ok(h) => h,
        Err(ListingRefused::Syntax(spot)) => {
            return Ok(plain(2, placed(alloc, b"syntax at ", spot)?));
        }
        Err(ListingRefused::Memory(error)) => return Err(error),
    };
    spelled_laws();
    own_lines_laws();
    match line {
        Line::Check { main } => answer_check(alloc, &h, main),
        Line::Print => Ok(plain(0, print_listing(alloc, &h)?)),
        Line::Run {
            main,
            settings,
            limit,
        } => answer_run(alloc, &h, main, settings.as_slice(), *limit),
    }
}
