//! The words of operations, clones and systems.

ghost use Rattle.std.specs.Prelude.{◌≡◌, ◌++◌, ℕ, List, OnOk};
ghost use Rattle.g_diagram.specs.Text as spec;
ghost use Rattle.g_diagram.specs.Words as words;

use crate::page::Page;
use g_diagram::{Clones, System};
use g_operations::primitive_row;
use g_values::Primitive;
use std::alloc::AllocError;

/// Begins a line with an operation.
pub fn start_primitive(
    page: &mut Page,
    depth: usize,
    primitive: Primitive,
) -> Result<(), AllocError>
    ensures { (rest : List ℕ) → OnOk result (page.new ++ rest ≡ page.old ++ spec.indent depth (words.primitive_text primitive ++ rest)) }
{
    let row = primitive_row(primitive);
    page.start(depth, row.word)?;
    write_number(page, row.field)
}

/// Writes a space and a number, where there is one.
fn write_number(page: &mut Page, number: Option<u8>) -> Result<(), AllocError>
    ensures { (rest : List ℕ) → OnOk result (page.new ++ rest ≡ page.old ++ (words.number_text number ++ rest)) }
{
    match number {
        Some(n) => {
            page.push(b" ")?;
            page.count(n)
        }
        None => Ok(()),
    }
}

fn clones_word(clones: Clones) -> &'static [u8]
    ensures { result.now ≡ words.clones_word clones }
{
    match clones {
        Clones::NonReentrant => b"nonreentrant",
        Clones::Preallocated => b"preallocated",
        Clones::Pool(_) => b"pool",
    }
}

fn pool_size(clones: Clones) -> Option<u8>
    ensures { result ≡ words.pool_size clones }
{
    match clones {
        Clones::Pool(size) => Some(size),
        Clones::NonReentrant | Clones::Preallocated => None,
    }
}

/// Writes who enters which data space of a VI.
pub fn write_clones(page: &mut Page, clones: Clones) -> Result<(), AllocError>
    ensures { (rest : List ℕ) → OnOk result (page.new ++ rest ≡ page.old ++ spec.word (words.clones_text clones) rest) }
{
    page.word(clones_word(clones))?;
    write_number(page, pool_size(clones))
}

/// The word of an execution system.
pub fn system_word(system: System) -> &'static [u8]
    ensures { result.now ≡ words.system_text system }
{
    match system {
        System::Ui => b"ui",
        System::Standard => b"standard",
        System::Instrument => b"instrument",
        System::Daq => b"daq",
        System::Other1 => b"other1",
        System::Other2 => b"other2",
        System::Same => b"same",
    }
}
