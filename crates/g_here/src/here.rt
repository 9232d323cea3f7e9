//! Where a node stands.

ghost use Rattle.std.specs.Prelude.{◌≡◌, map, slice_get, IfOk};
ghost use Rattle.std.specs.Option.{option_copied, option_map};
ghost use Rattle.g_border.specs.Lines.{latest};
ghost use Rattle.g_frames.specs.Effects as effects;
ghost use Rattle.g_frames.specs.State.{reader_in};
ghost use Rattle.g_frames.specs.Structures.{is_complete_at, is_latest_complete, readers_of};
ghost use Rattle.g_wire_values.specs.Wires.{reader};
ghost use Rattle.g_here.specs.Here.{IsHere};

use crate::complete::is_complete;
use g_frames::Frame;
use g_program::ProgramTables;
use g_states::FireState;
use g_vi_tables::ViTable;
use g_wire_values::Wires;
use std::alloc::{AllocError, Global};

/// A node's frame with its VI's look-ups, in a state of a program.
#[derive(Drop)]
pub struct Here<'a, 'm> {
    pub tables: &'a ProgramTables<'m>,
    pub state: &'a FireState,
    pub frame: &'a Frame,
    pub table: &'a ViTable<'m>,
    /// Whether the limit leaves room for an iteration.
    pub has_room: bool,
}

impl<'a, 'm> Here<'a, 'm> {
    /// The values on the wires around the node.
    pub fn outer(&self) -> Wires<'a>
        ensures { (h : effects.Here) → IsHere self.now h → reader result ≡ h.outer }
    {
        self.wires_in(self.frame)
    }

    /// The values on the wires of a frame of the node's own VI.
    pub fn wires_in(&self, frame: &'a Frame) -> Wires<'a>
        ensures { (h : effects.Here) → IsHere self.now h → reader result ≡ reader_in h.vi frame.now }
    {
        let values = frame.values.as_slice();
        self.table.wires(frame.diagram, values)
    }

    /// The frame of a number, if there is one.
    pub fn frame_at(&self, number: u64) -> Option<&'a Frame>
        ensures { (h : effects.Here) → IsHere self.now h → slice_get h.frames number ≡ option_copied result }
    {
        self.state.frames().get(number as usize)
    }

    /// Whether the frame of a number is there and complete.
    pub fn is_complete_at(&self, number: u64) -> bool
        ensures { (h : effects.Here) → IsHere self.now h → result ≡ is_complete_at h number }
    {
        match self.frame_at(number) {
            Some(frame) => is_complete(frame),
            None => false,
        }
    }

    /// Whether the latest of some frames is complete, or there is none.
    #[tactic(auto, using(crate::proofs::LatestLemmas::latest_last))]
    pub fn is_latest_complete(&self, numbers: &[u64]) -> bool
        ensures { (h : effects.Here) → IsHere self.now h → result ≡ is_latest_complete h numbers.now }
    {
        if numbers.is_empty() {
            return true;
        }
        self.is_complete_at(numbers[numbers.len() - 1])
    }

    /// The values on the wires of each of some frames.
    pub fn readers_of(&self, alloc: Global, numbers: &[u64]) -> Result<Vec<Wires<'a>>, AllocError>
        ensures { IfOk result (λ all. (h : effects.Here) → IsHere self.now h → map reader all.items ≡ readers_of h numbers.now) }
    {
        let mut all = Vec::new(alloc);
        for number in numbers {
            if let Some(frame) = self.frame_at(*number) {
                all.push(self.wires_in(frame))?;
            }
        }
        Ok(all)
    }

    /// The values on the wires of the latest of some frames that are there.
    pub fn latest_of(&self, numbers: &[u64]) -> Option<Wires<'a>>
        ensures { (h : effects.Here) → IsHere self.now h → option_map reader result ≡ latest (readers_of h numbers.now) }
    {
        for after in 0..numbers.len() {
            let number = numbers[numbers.len() - 1 - after];
            if let Some(frame) = self.frame_at(number) {
                return Some(self.wires_in(frame));
            }
        }
        None
    }
}
