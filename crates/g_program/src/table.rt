//! The look-ups of a program.

ghost use Rattle.std.specs.Prelude.{◌≡◌, ◌∷◌, [], slice_get};
ghost use Rattle.std.specs.Option.{option_copied};
ghost use Rattle.g_hier.specs.LinkOrder.{enterable, pool_spaces};
ghost use Rattle.g_frames.specs.Program.{Program, vi_at, numbered, called_space, queue_object, cell_object, panel_object, pool_object, kept_number};
ghost use Rattle.g_frames.specs.Program as spec;
ghost use Rattle.g_program.specs.Tables.{AreAllTables, AreTables, IsTableOf};

use crate::numbers::Numbers;
use g_diagram::Clones;
use g_frames::{CellPlace, KeptPlace, QueueName};
use g_hier::{Caller, Space};
use g_vi_tables::{NameNumbers, ViTable};

/// A program with its VIs, data spaces, shared objects and kept registers, by name and number.
#[derive(Drop)]
pub struct ProgramTables<'m> {
    pub(crate) main: u32,
    pub(crate) vis: Vec<ViTable<'m>>,
    pub(crate) vi_numbers: NameNumbers<'m>,
    pub(crate) spaces: &'m [Space],
    pub(crate) space_numbers: Numbers<Space>,
    pub(crate) queues: Vec<QueueName>,
    pub(crate) queue_numbers: NameNumbers<'m>,
    pub(crate) cells: Vec<CellPlace>,
    /// By data space and line, as of kept registers.
    pub(crate) cell_numbers: Numbers<(u32, u32)>,
    pub(crate) kept: Vec<KeptPlace>,
    pub(crate) kept_numbers: Numbers<(u32, u32)>,
    pub(crate) pools: Vec<u32>,
    pub(crate) pool_numbers: Numbers<u32>,
}

/// The one data space that there is, for clone 0.
fn only_space(space: Space, clone: u8) -> Option<Space>
    ensures { result ≡ slice_get (space ∷ []) clone }
{
    if clone == 0 {
        return Some(space);
    }
    None
}

/// The data space of a clone of a pool of so many.
fn pool_space(vi: u32, count: u8, clone: u8) -> Option<Space>
    ensures { result ≡ slice_get (pool_spaces vi 0 count) clone }
{
    if clone < count {
        return Some(Space {
            vi,
            clone,
            caller: None,
        });
    }
    None
}

/// The data space of a clone that a call enters, if there is that clone.
fn entered_space(clones: Clones, vi: u32, caller: Caller, clone: u8) -> Option<Space>
    ensures { result ≡ slice_get (enterable clones vi caller) clone }
{
    match clones {
        Clones::NonReentrant => {
            let space = Space {
                vi,
                clone: 0,
                caller: None,
            };
            only_space(space, clone)
        }
        Clones::Preallocated => {
            let space = Space {
                vi,
                clone: 0,
                caller: Some(caller),
            };
            only_space(space, clone)
        }
        Clones::Pool(count) => pool_space(vi, count, clone),
    }
}

/// The table of a VI by its number, where there is the VI.
pub(crate) fn table_at<'t, 'm>(vis: &'t [ViTable<'m>], vi: usize) -> Option<&'t ViTable<'m>>
    ensures { option_copied result ≡ slice_get vis.now vi }
{
    vis.get(vi)
}

impl<'m> ProgramTables<'m> {
    /// The number of the VI that runs.
    pub fn main(&self) -> u32
        ensures { (p : Program) → IsTableOf p self.now → result ≡ p.main }
    {
        self.main
    }

    /// The table of a VI by its number, where there is the VI.
    pub fn vi(&self, vi: u32) -> Option<&ViTable<'m>>
        ensures { (p : Program) → IsTableOf p self.now → AreTables (vi_at p vi) (option_copied result) }
    {
        table_at(self.vis.as_slice(), vi as usize)
    }

    /// The number of the first VI of a name, or how many VIs there are.
    pub fn number(&self, name: &[u8]) -> u32
        ensures { (p : Program) → IsTableOf p self.now → result ≡ numbered p.vis name.now }
    {
        self.vi_numbers.get(name)
    }

    fn space_number(&self, space: Space) -> u32
        ensures { (p : Program) → IsTableOf p self.now → result ≡ spec.space_number p space }
    {
        self.space_numbers.get(space)
    }

    /// The number of the data space of a clone that a call line of a data space enters, where there is that
    /// clone of the VI, which has these clones.
    pub fn called_space(
        &self,
        clones: Clones,
        vi: u32,
        space: u32,
        line: u32,
        clone: u8,
    ) -> Option<u32>
        ensures { (p : Program) → IsTableOf p self.now → result ≡ called_space p clones vi space line clone }
    {
        let caller = Caller {
            space: space as usize,
            line,
        };
        match entered_space(clones, vi, caller, clone) {
            Some(space) => Some(self.space_number(space)),
            None => None,
        }
    }

    /// The number of the object that is the queue of a name.
    pub fn queue_object(&self, name: &[u8]) -> usize
        ensures { (p : Program) → IsTableOf p self.now → result ≡ queue_object p name.now }
    {
        self.queue_numbers.get(name) as usize
    }

    /// The number of the object that holds the value to which a line of a data space makes references.
    pub fn cell_object(&self, space: u32, line: u32) -> usize
        ensures { (p : Program) → IsTableOf p self.now → result ≡ cell_object p space line }
    {
        let number = self.cell_numbers.get((space, line));
        self.queue_numbers.count() as usize + number as usize
    }

    /// The number of the object that is the panel of a data space.
    pub fn panel_object(&self, space: u32) -> usize
        ensures { (p : Program) → IsTableOf p self.now → result ≡ panel_object p space }
    {
        let before = self.queue_numbers.count() as usize + self.cell_numbers.count() as usize;
        before + space as usize
    }

    /// The number of the object that is the pool of clones of a VI.
    pub fn pool_object(&self, vi: u32) -> usize
        ensures { (p : Program) → IsTableOf p self.now → result ≡ pool_object p vi }
    {
        let before = self.queue_numbers.count() as usize
            + self.cell_numbers.count() as usize
            + self.space_numbers.count() as usize;
        before + self.pool_numbers.get(vi) as usize
    }

    /// The number of the kept register of a line of a data space.
    pub fn kept_number(&self, space: u32, line: u32) -> usize
        ensures { (p : Program) → IsTableOf p self.now → result ≡ kept_number p space line }
    {
        self.kept_numbers.get((space, line)) as usize
    }

    /// The tables of the VIs, in listing order.
    pub fn vis(&self) -> &[ViTable<'m>]
        ensures { (p : Program) → IsTableOf p self.now → AreAllTables p.vis result.now }
    {
        self.vis.as_slice()
    }

    /// The data spaces, in link order.
    pub fn spaces(&self) -> &[Space]
        ensures { (p : Program) → IsTableOf p self.now → result.now ≡ p.spaces }
    {
        self.spaces
    }

    /// The queues, in the order of their numbers.
    pub fn queues(&self) -> &[QueueName]
        ensures { (p : Program) → IsTableOf p self.now → result.now ≡ p.queues }
    {
        self.queues.as_slice()
    }

    /// The values of references, in the order of their numbers.
    pub fn cells(&self) -> &[CellPlace]
        ensures { (p : Program) → IsTableOf p self.now → result.now ≡ p.cells }
    {
        self.cells.as_slice()
    }

    /// The kept registers, in the order of their numbers.
    pub fn kept(&self) -> &[KeptPlace]
        ensures { (p : Program) → IsTableOf p self.now → result.now ≡ p.kept }
    {
        self.kept.as_slice()
    }

    /// The VIs whose calls take a clone, in listing order.
    pub fn pools(&self) -> &[u32]
        ensures { (p : Program) → IsTableOf p self.now → result.now ≡ p.pools }
    {
        self.pools.as_slice()
    }
}
