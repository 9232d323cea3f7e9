//! The items of a queue, while it is live.

ghost use Rattle.std.specs.Prelude.{◌≡◌, ◌<◌, Some, None, true, [], ◌∷◌, ◌++◌, length, is_some, OnOk, OnErr};
ghost use Rattle.g_queues.specs.Queue.{items_in};

use g_values::Value;
use std::alloc::{AllocError, Global};
use std::collections::VecDeque;
use std::marker::Model;

/// Items from the front, or none where the queue isn't live.
#[derive(Drop)]
pub(crate) struct Items {
    is_live: bool,
    kept: VecDeque<Value>,
}

impl Model for Items {
    ghost use Rattle.std.specs.Prelude.{List as Many, Option as Maybe};
    ghost use Rattle.std.specs.Coded.{coded_list, coded_option};
    ghost use Rattle.g_values.specs.declared.value.Value.{Value as Item};
    ghost use Rattle.g_values.specs.contracts.value.Value as value;
    ghost use Rattle.g_queues.specs.Queue.{held};

    ghost Value = { Maybe (Many Item) };

    ghost coded = { coded_option (coded_list value.the_row.coded) };

    ghost view = { λ a. held a.is_live a.kept.items };
}

impl Items {
    /// The items of a queue that isn't live. Takes no memory.
    pub(crate) fn none(alloc: Global) -> Items
        ensures { result ≡ None }
    {
        Items {
            is_live: false,
            kept: VecDeque::new(alloc),
        }
    }

    #[tactic(auto, using(crate::proofs::Held::items_held))]
    pub(crate) fn are_live(&self) -> bool
        ensures { result ≡ is_some self.now }
    {
        self.is_live
    }

    #[tactic(auto, using(crate::proofs::Held::items_held))]
    pub(crate) fn count(&self) -> usize
        ensures { result ≡ length (items_in self.now) }
    {
        if !self.is_live {
            return 0;
        }
        self.kept.len()
    }

    /// No items yet, in a live queue.
    pub(crate) fn begin(&mut self)
        ensures { self.new ≡ Some [] }
    {
        self.is_live = true;
        self.kept.clear();
    }

    /// Lets go of the items of a queue that isn't live any more, and of their room.
    pub(crate) fn end(&mut self, alloc: Global)
        ensures { self.new ≡ None }
    {
        self.is_live = false;
        self.kept = VecDeque::new(alloc);
    }

    #[tactic(auto, using(crate::proofs::Held::items_held))]
    pub(crate) fn push(&mut self, value: Value) -> Result<(), AllocError>
        requires { is_some self.old ≡ true }
        ensures ok { OnOk result (self.new ≡ Some (items_in self.old ++ value ∷ [])) }
        ensures err { OnErr result (self.new ≡ self.old) }
    {
        self.kept.push_back(value)?;
        Ok(())
    }

    /// Takes the item at the front.
    #[tactic(auto, using(crate::proofs::Held::items_held))]
    pub(crate) fn pop(&mut self) -> Value
        requires { 0 < length (items_in self.old) }
        ensures front { self.old ≡ Some (result ∷ items_in self.new) }
        ensures rest { self.new ≡ Some (items_in self.new) }
    {
        match self.kept.pop_front() {
            Some(front) => front,
            None => unreachable!(),
        }
    }
}
