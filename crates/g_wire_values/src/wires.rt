//! The values on the wires of a frame.

ghost use Rattle.std.specs.Prelude.{◌≡◌, map, IfOk};
ghost use Rattle.std.specs.Option.{option_copied};
ghost use Rattle.g_prims_definitions.specs.Clusters.{or_nothing};
ghost use Rattle.g_border.specs.Readers.{has_value, value_on};
ghost use Rattle.g_wire_values.specs.Wires.{in_slot, reader};

use crate::names::SourceNames;
use g_diagram::Wire;
use g_lists::List;
use g_values::{Copies, Value, copy};
use std::alloc::{AllocError, Global};

/// The values on the wires of a frame: the names of its diagram's sources, and the values of these by
/// number. Where no names are known no wire has a value.
#[derive(Clone, Copy)]
pub struct Wires<'a> {
    pub names: Option<&'a SourceNames<'a>>,
    pub values: &'a [Option<Value>],
}

fn slot<'a>(values: &'a [Option<Value>], number: usize) -> Option<&'a Value>
    ensures { option_copied result ≡ in_slot values.now number }
{
    match values.get(number) {
        Some(value) => value.as_ref(),
        None => None,
    }
}

fn copy_or_false(alloc: Global, value: Option<&Value>) -> Result<Value, AllocError>
    ensures { IfOk result (λ v. v ≡ or_nothing (option_copied value.entry)) }
{
    match value {
        Some(value) => copy(alloc, value, &mut Copies { n: 0 }),
        None => Ok(Value::Bool(false)),
    }
}

impl<'a> Wires<'a> {
    /// The value on the wire of a name, where there is one.
    pub fn get(&self, name: &[u8]) -> Option<&'a Value>
        ensures { option_copied result ≡ reader self.now name.now }
    {
        match self.names {
            Some(names) => match names.find(name) {
                Some(number) => slot(self.values, number),
                None => None,
            },
            None => None,
        }
    }

    /// Whether an operand has its value. An unwired one needs none.
    pub fn has(&self, wire: &Wire) -> bool
        ensures { result ≡ has_value (reader self.now) wire.now }
    {
        match wire {
            Some(name) => self.get(name.as_slice()).is_some(),
            None => true,
        }
    }

    /// The value at an operand, and FALSE where there is none. Only want of memory refuses it.
    pub fn value(&self, alloc: Global, wire: &Wire) -> Result<Value, AllocError>
        ensures { IfOk result (λ v. v ≡ value_on (reader self.now) wire.now) }
    {
        match wire {
            Some(name) => copy_or_false(alloc, self.get(name.as_slice())),
            None => Ok(Value::Bool(false)),
        }
    }

    /// The values at operands, in their order. Only want of memory refuses it.
    pub fn values_on(&self, alloc: Global, wires: &[Wire]) -> Result<List<Value>, AllocError>
        ensures { IfOk result (λ vs. vs ≡ map (value_on (reader self.now)) wires.now) }
    {
        let mut values = Vec::new(alloc);
        for wire in wires {
            values.push(self.value(alloc, wire)?)?;
        }
        Ok(List::from_vec(values))
    }
}
