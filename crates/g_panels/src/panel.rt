//! The panel of a data space, as a shared object.

ghost use Rattle.std.specs.Prelude.{◌≡◌, Some, is_some, IfOk, IfSome, OnErr};
ghost use Rattle.std.specs.List.{All};
ghost use Rattle.std.specs.Option.{option_copied};
ghost use Rattle.g_values.specs.Proper.{IsProper};
ghost use Rattle.g_shared.specs.declared.operations.PanelOp.TheVariants as operation;
ghost use Rattle.g_shared.specs.Panels as spec;
ghost use Rattle.g_shared.specs.Tried.{IfDone, IfNotYet, OnMemory};
ghost use Rattle.g_panels.specs.Panel.{WritesProper};

use g_lists::List;
use g_shared::{PanelOp, Reply, Tried, one_value};
use g_values::{Copies, Value, ValueList, copy};
use std::alloc::{AllocError, Global};
use std::marker::Model;

/// The panel of a data space: a cell for each control and each indicator, which stay between calls.
#[derive(Drop)]
pub struct Panel {
    controls: List<Value>,
    indicators: List<Value>,
}

impl Model for Panel {
    ghost use Rattle.std.specs.List.{All};
    ghost use Rattle.g_values.specs.Proper.{IsProper};
    ghost use Rattle.g_shared.specs.Panels.{PanelState};
    ghost use Rattle.g_shared.specs.Codes.{panel_code};

    ghost Value = { PanelState };

    ghost coded = { panel_code };

    ghost view = { λ p. record { controls = p.controls; indicators = p.indicators } };

    ghost invariant = { λ p. All IsProper p.controls × All IsProper p.indicators };
}

impl Panel {
    /// The panel with the values of its controls and of its indicators, each kind in the order of the listing. Takes no
    /// memory.
    pub fn new(controls: ValueList, indicators: ValueList) -> Panel
        ensures { result ≡ spec.panel_of controls indicators }
    {
        Panel {
            controls: controls.into_list(),
            indicators: indicators.into_list(),
        }
    }

    /// Tries an operation. None waits. An opening leaves the indicators as they are. Where there is no cell of a number,
    /// `Read` gives nothing and `Write` changes nothing. The copies that are made are counted nowhere.
    pub fn try_op(&mut self, alloc: Global, op: PanelOp) -> Tried<Reply, PanelOp>
        requires { WritesProper op }
        ensures done { IfDone result (λ reply. spec.panel_step self.old op ≡ Some (reply, self.new)) }
        ensures never_waits { IfNotYet result (λ back. ⊥) }
        ensures memory { OnMemory result (self.new ≡ self.old) }
    {
        match self.act(alloc, op) {
            Ok(reply) => Tried::Done(reply),
            Err(_) => Tried::Memory,
        }
    }

    /// Whether an operation can be done in this state: each can, since none waits. Takes no memory.
    pub fn can(&self, op: &PanelOp) -> bool
        ensures { result ≡ is_some (spec.panel_step self.now op.now) }
    {
        match op {
            PanelOp::Enter(_) | PanelOp::Leave | PanelOp::Read(_) | PanelOp::Write(..) => true,
        }
    }

    /// Copies of the values of the indicators, which are counted nowhere. Only want of memory refuses it.
    pub fn indicators(&self, alloc: Global) -> Result<ValueList, AllocError>
        ensures { IfOk result (λ values. values ≡ self.now.indicators) }
    {
        copy_values(alloc, self.indicators.as_slice())
    }

    fn act(&mut self, alloc: Global, op: PanelOp) -> Result<Reply, AllocError>
        requires { WritesProper op }
        ensures ok { IfOk result (λ reply. spec.panel_step self.old op ≡ Some (reply, self.new)) }
        ensures err { OnErr result (self.new ≡ self.old) }
    {
        match op {
            PanelOp::Enter(values) => self.enter(alloc, values),
            PanelOp::Leave => Ok(Reply::of(self.indicators(alloc)?)),
            PanelOp::Read(cell) => self.read(alloc, cell as usize),
            PanelOp::Write(cell, value) => {
                self.write(cell as usize, value);
                Ok(Reply::of(ValueList::new(alloc)))
            }
        }
    }

    fn enter(&mut self, alloc: Global, values: ValueList) -> Result<Reply, AllocError>
        ensures ok { IfOk result (λ reply. spec.panel_step self.old (operation.Enter values) ≡ Some (reply, self.new)) }
        ensures err { OnErr result (self.new ≡ self.old) }
    {
        let given = copy_values(alloc, values.as_slice())?;
        self.controls = values.into_list();
        Ok(Reply::of(given))
    }

    /// The value of a cell; none where there is no cell of that number.
    #[tactic(auto, using(crate::proofs::Cells::cells))]
    fn cell(&self, cell: usize) -> Option<&Value>
        ensures value { option_copied result ≡ spec.cell_at self.now cell }
        ensures proper { IfSome result (λ v. IsProper v.now) }
    {
        let controls = self.controls.as_slice();
        if cell < controls.len() {
            return controls.get(cell);
        }
        self.indicators.as_slice().get(cell - controls.len())
    }

    fn read(&self, alloc: Global, cell: usize) -> Result<Reply, AllocError>
        ensures { IfOk result (λ reply. spec.panel_step self.now (operation.Read cell) ≡ Some (reply, self.now)) }
    {
        let value = match self.cell(cell) {
            Some(value) => uncounted_copy(alloc, value)?,
            None => return Ok(Reply::of(ValueList::new(alloc))),
        };
        Ok(Reply::of(one_value(alloc, value)?))
    }

    #[tactic(auto, using(crate::proofs::Cells::cells))]
    fn write(&mut self, cell: usize, value: Value)
        requires { IsProper value }
        ensures { self.new ≡ spec.with_cell self.old cell value }
    {
        let controls = self.controls.len();
        if cell < controls {
            self.controls.set(cell, value);
            return;
        }
        let indicator = cell - controls;
        if indicator >= self.indicators.len() {
            return;
        }
        self.indicators.set(indicator, value);
    }
}

fn uncounted_copy(alloc: Global, value: &Value) -> Result<Value, AllocError>
    requires { IsProper value.now }
    ensures value { IfOk result (λ v. v ≡ value.now) }
    ensures proper { IfOk result IsProper }
{
    let copied = copy(alloc, value, &mut Copies { n: 0 })?;
    Ok(copied)
}

fn copy_values(alloc: Global, values: &[Value]) -> Result<ValueList, AllocError>
    requires { All IsProper values.now }
    ensures { IfOk result (λ all. all ≡ values.now) }
{
    let mut all = Vec::with_capacity(alloc, values.len())?;
    for value in values {
        all.push(copy(alloc, value, &mut Copies { n: 0 })?)?;
    }
    Ok(ValueList::from_list(List::from_vec(all)))
}
