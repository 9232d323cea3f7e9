//! The frame that is open as a run begins.

ghost use Rattle.std.specs.Prelude.{◌≡◌, None, IfOk};
ghost use Rattle.std.specs.Option.{option_map, option_to_list};
ghost use Rattle.g_frames.specs.Panels as panel;
ghost use Rattle.g_frames.specs.Program.{FlatVi, Program, vi_at};
ghost use Rattle.g_frames.specs.State.{first_opening, opened};
ghost use Rattle.g_program.specs.Tables.{IsTableOf};
ghost use Rattle.g_vi_tables.specs.Tables.{IsViTable};

use g_effects::Opening;
use g_frames::Frame;
use g_lists::List;
use g_node_values::controls_given;
use g_program::ProgramTables;
use g_states::open;
use g_values::{Copies, Value, copy};
use g_vi_tables::ViTable;
use std::alloc::{AllocError, Global};

/// Copies of values, which are counted nowhere.
fn copies(alloc: Global, values: &[Value]) -> Result<List<Value>, AllocError>
    ensures { IfOk result (λ all. all ≡ values.now) }
{
    let mut all = Vec::with_capacity(alloc, values.len())?;
    for value in values {
        all.push(copy(alloc, value, &mut Copies { n: 0 })?)?;
    }
    Ok(List::from_vec(all))
}

/// Frame 0: the diagram of the VI that runs, with the values of its controls.
fn frame_of(
    alloc: Global,
    table: &ViTable<'_>,
    main: u32,
    controls: &[Value],
) -> Result<Frame, AllocError>
    ensures { IfOk result (λ f. (vi : FlatVi) → IsViTable vi table.now → f ≡ opened None (record { vi = main; space = 0; diagram = 0; iteration = 0; gives = panel.controls_given 1 vi.panel controls.now }) vi) }
{
    let values = copies(alloc, controls)?;
    let opening = Opening {
        vi: main,
        space: 0,
        diagram: 0,
        iteration: 0,
        gives: controls_given(alloc, table.panel(), values)?,
    };
    open(alloc, table, None, opening)
}

/// The frames with which a run begins: frame 0 alone.
pub fn first_frames(
    alloc: Global,
    tables: &ProgramTables<'_>,
    controls: &[Value],
) -> Result<Vec<Frame>, AllocError>
    ensures { IfOk result (λ frames. (p : Program) → IsTableOf p tables.now → frames.items ≡ option_to_list (option_map (opened None (first_opening p controls.now)) (vi_at p p.main))) }
{
    let mut frames = Vec::new(alloc);
    let main = tables.main();
    if let Some(table) = tables.vi(main) {
        frames.push(frame_of(alloc, table, main, controls)?)?;
    }
    Ok(frames)
}
