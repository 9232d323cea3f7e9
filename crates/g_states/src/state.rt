//! A state.

ghost use Rattle.std.specs.Prelude.{◌≡◌, nat_lt, length, OnOk, OnErr, IfOk};
ghost use Rattle.g_shared.specs.Tried.{IfDone, IfNotYet, OnMemory};
ghost use Rattle.g_frames.specs.Program.{Program};
ghost use Rattle.g_frames.specs.Fire.{applied};
ghost use Rattle.g_objects.specs.Operations.{IsClone};
ghost use Rattle.g_effects.specs.Effects.{seen};
ghost use Rattle.g_program.specs.Tables.{IsTableOf};
ghost use Rattle.g_states.specs.States.{progress_at, FitsAt, GivesAt, WaitsAt, TakesPlaceAt, PlacesAt};

use crate::changes::{begin, fire_node, open_next, write_registers};
use g_effects::Effect;
use g_frames::{DiagramSources, Firing, Frame, FrameNode};
use g_objects::{Object, Operation};
use g_program::ProgramTables;
use g_shared::{Reply, Tried};
use g_values::{Value, ValueList};
use std::alloc::{AllocError, Global};
use std::marker::Model;

/// A state of a run: its frames, the shared objects, the kept registers, how many iterations were begun, and what
/// no firing changes: the VI that runs, the limit, and the sources of each diagram that opens frames.
#[derive(Drop)]
pub struct FireState {
    main: u32,
    limit: u32,
    frames: Vec<Frame>,
    objects: Vec<Object>,
    kept: Vec<Value>,
    begun: u32,
    sources: Vec<DiagramSources>,
}

impl Model for FireState {
    ghost use Rattle.g_frames.specs.State.{FireState as State};
    ghost use Rattle.g_states.specs.Codes.{state_code};

    ghost Value = { State };

    ghost coded = { state_code };

    ghost view = { λ s. record { main = s.main; limit = s.limit; frames = s.frames.items; objects = s.objects.items; kept = s.kept.items; begun = s.begun; sources = s.sources.items } };
}

impl FireState {
    /// The state that has these parts, in which no iteration was begun. Takes no memory.
    pub fn new(
        main: u32,
        limit: u32,
        frames: Vec<Frame>,
        objects: Vec<Object>,
        kept: Vec<Value>,
        sources: Vec<DiagramSources>,
    ) -> FireState
        ensures { result ≡ record { main = main; limit = limit; frames = frames.items; objects = objects.items; kept = kept.items; begun = 0; sources = sources.items } }
    {
        FireState {
            main,
            limit,
            frames,
            objects,
            kept,
            begun: 0,
            sources,
        }
    }

    /// The number of the VI that runs.
    pub fn main(&self) -> u32
        ensures { result ≡ self.now.main }
    {
        self.main
    }

    /// How many iterations all loops together may begin.
    pub fn limit(&self) -> u32
        ensures { result ≡ self.now.limit }
    {
        self.limit
    }

    /// How many iterations were begun.
    pub fn begun(&self) -> u32
        ensures { result ≡ self.now.begun }
    {
        self.begun
    }

    /// Whether the limit leaves room for an iteration.
    pub fn has_room(&self) -> bool
        ensures { result ≡ nat_lt self.now.begun self.now.limit }
    {
        self.begun < self.limit
    }

    /// The frames, by number.
    pub fn frames(&self) -> &[Frame]
        ensures { result.now ≡ self.now.frames }
    {
        self.frames.as_slice()
    }

    /// The shared objects, by number.
    pub fn objects(&self) -> &[Object]
        ensures { result.now ≡ self.now.objects }
    {
        self.objects.as_slice()
    }

    /// The kept registers, by number.
    pub fn kept(&self) -> &[Value]
        ensures { result.now ≡ self.now.kept }
    {
        self.kept.as_slice()
    }

    /// The sources of each diagram that opens frames.
    pub fn sources(&self) -> &[DiagramSources]
        ensures { result.now ≡ self.now.sources }
    {
        self.sources.as_slice()
    }

    /// Does what a firing does to all but the shared objects, in the state that the program of these tables is in.
    /// Only want of memory refuses it, and then nothing is known of the state. That also stands for an iteration
    /// past 2^32 - 1, which no limit allows.
    #[tactic(auto, using(crate::proofs::ApplyLemmas::applied_is))]
    pub fn apply(
        &mut self,
        alloc: Global,
        tables: &ProgramTables,
        firing: Firing,
        effect: Effect,
    ) -> Result<(), AllocError>
        ensures { OnOk result ((p : Program) → IsTableOf p tables.now → self.new ≡ applied p self.old firing (seen (progress_at p self.old.frames firing) (length self.old.frames) effect)) }
    {
        let Effect {
            advance,
            gives,
            opens,
            keeps,
            begins,
        } = effect;
        let next = self.frames.len() as u64;
        fire_node(
            alloc,
            &mut self.frames,
            tables,
            firing,
            advance,
            gives,
            next,
        )?;
        let opener = FrameNode {
            frame: firing.frame,
            node: firing.node,
        };
        open_next(alloc, &mut self.frames, tables, opener, opens)?;
        write_registers(&mut self.kept, keeps);
        self.begun = begin(self.begun, begins)?;
        Ok(())
    }

    /// Tries an operation on the object of a number, as the object does it. Where there is no such object it has to
    /// wait for ever.
    pub fn try_op(
        &mut self,
        alloc: Global,
        object: usize,
        operation: Operation,
        choice: Option<u64>,
    ) -> Tried<Reply, Operation>
        requires { FitsAt self.old object operation }
        ensures done { IfDone result (λ reply. GivesAt choice self.old object operation reply self.new) }
        ensures clone { IfDone result (IsClone operation) }
        ensures not_yet { IfNotYet result (λ back. (WaitsAt choice self.old object operation) × ((back ≡ operation) × (self.new ≡ self.old))) }
        ensures memory { OnMemory result (self.new ≡ self.old) }
    {
        let Some(object) = self.objects.get_mut(object) else {
            return Tried::NotYet(operation);
        };
        object.try_op(alloc, operation, choice)
    }

    /// Ends an operation in place on the object of a number, by a reference with this serial, with what its body
    /// made of the value that it got: the new value and the outputs. The reply has the outputs and the code. After
    /// want of memory the state is as before.
    pub fn place(
        &mut self,
        object: usize,
        serial: u64,
        value: Value,
        outputs: ValueList,
    ) -> Result<Reply, AllocError>
        requires { TakesPlaceAt self.old object value }
        ensures ok { IfOk result (λ reply. PlacesAt self.old object serial value outputs reply self.new) }
        ensures err { OnErr result (self.new ≡ self.old) }
    {
        let Some(object) = self.objects.get_mut(object) else {
            unreachable!();
        };
        let reply = object.place(serial, value, outputs)?;
        Ok(reply)
    }
}
