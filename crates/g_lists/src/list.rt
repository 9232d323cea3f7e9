ghost use Rattle.std.specs.Prelude.{◌≡◌, ◌↔◌, ◌<◌, Some, [], ◌∷◌, ◌++◌, length, take, slice_get, slice_set, IsTrue, MatchOption, IfErr, IfOk, OnOk, OnErr, OnSome};
ghost use Rattle.std.specs.Option.{option_copied};

use std::alloc::{AllocError, AllocFailed, Global};
use std::marker::Model;
use std::mem;

/// A growable list, which contracts see as the list of its items. A recursive type reaches itself
/// through it, and its values still are plain data.
#[derive(Debug, Drop)]
pub struct List<T> {
    kept: Vec<T>,
}

impl<T> Model for List<T> {
    ghost use Rattle.std.specs.Prelude.{List as Row};
    ghost use Rattle.std.specs.Coded.{coded_list};

    ghost Value = { Row T };

    ghost coded = { coded_list T.code };

    ghost view = { λ l. l.kept.items };
}

impl<T> List<T> {
    /// The empty list, which takes no memory yet.
    pub fn new(alloc: Global) -> List<T>
        ensures { result ≡ [] }
    {
        List {
            kept: Vec::new(alloc),
        }
    }

    /// The list of a vector's items. Takes no memory.
    pub fn from_vec(items: Vec<T>) -> List<T>
        ensures { result ≡ items.items }
    {
        List { kept: items }
    }

    /// The items as a vector. Takes no memory.
    pub fn into_vec(self) -> Vec<T>
        ensures { result.items ≡ self }
    {
        let List { kept } = self;
        kept
    }

    /// The items, in order.
    pub fn as_slice(&self) -> &[T]
        ensures { result.now ≡ self.now }
    {
        self.kept.as_slice()
    }

    /// How many items there are.
    pub fn len(&self) -> usize
        ensures { result ≡ length self.now }
    {
        self.kept.len()
    }

    /// Whether there is no item.
    pub fn is_empty(&self) -> bool
        ensures { IsTrue result ↔ (self.now ≡ []) }
    {
        self.kept.is_empty()
    }

    /// The item at a place, counted from 0; none past the end.
    pub fn get(&self, at: usize) -> Option<&T>
        ensures value { option_copied result ≡ slice_get self.now at }
        ensures within { OnSome result (at < length self.now) }
    {
        self.kept.get(at)
    }

    /// Takes the last item off; none where the list is empty.
    pub fn pop(&mut self) -> Option<T>
        ensures { MatchOption result ((self.old ≡ []) × (self.new ≡ [])) (λ last. self.old ≡ self.new ++ last ∷ []) }
    {
        self.kept.pop()
    }

    /// Puts an item at a place and gives the one that was there. Nothing else moves.
    pub fn replace(&mut self, at: usize, item: T) -> T
        requires { at < length self.old }
        ensures was { slice_get self.old at ≡ Some result }
        ensures items { self.new ≡ slice_set self.old at item }
    {
        mem::replace(&mut self.kept[at], item)
    }

    /// Adds an item at the end. Where memory is wanting the item comes back.
    pub fn push(&mut self, item: T) -> Result<(), AllocFailed<T>>
        ensures ok { OnOk result (self.new ≡ self.old ++ item ∷ []) }
        ensures err { OnErr result (self.new ≡ self.old) }
        ensures back { IfErr result (λ e. e.value ≡ item) }
    {
        self.kept.push(item)
    }
}

impl<T: Drop> List<T> {
    /// Puts an item at a place and lets go of the one that was there.
    pub fn set(&mut self, at: usize, item: T)
        requires { at < length self.old }
        ensures { self.new ≡ slice_set self.old at item }
    {
        self.kept[at] = item;
    }

    /// Moves the items of `more` to the end. Where memory is wanting `self` stays as it was and
    /// `more` is gone.
    pub fn append(&mut self, more: List<T>) -> Result<(), AllocError>
        ensures ok { OnOk result (self.new ≡ self.old ++ more) }
        ensures err { OnErr result (self.new ≡ self.old) }
    {
        let List { mut kept } = more;
        self.kept.append(&mut kept)
    }

    /// Keeps the first `count` items, or all where there are fewer.
    pub fn truncate(&mut self, count: usize)
        ensures { self.new ≡ take count self.old }
    {
        self.kept.truncate(count);
    }
}

impl<T: Copy> List<T> {
    /// A list of copies of the items. Only want of memory refuses it.
    pub fn from_slice(alloc: Global, items: &[T]) -> Result<List<T>, AllocError>
        ensures { IfOk result (λ l. l ≡ items.now) }
    {
        Ok(List {
            kept: Vec::from_slice(alloc, items)?,
        })
    }
}

#[cfg(test)]
mod tests {
    use super::*;
    use std::test::Fail;

    #[test]
    fn edits_a_list(rt: HostRuntime) -> Result<(), Fail> {
        let alloc = rt.alloc();
        let mut list = List::from_slice(alloc, &[1u32, 2, 3])?;
        list.push(4)?;
        assert_eq!(rt; list.replace(1, 20), 2);
        list.set(0, 10);
        assert_eq!(rt; list.as_slice(), [10u32, 20, 3, 4].as_slice());
        assert_eq!(rt; list.get(2).copied(), Some(3));
        assert_eq!(rt; list.get(4).copied(), None);
        assert_eq!(rt; list.pop(), Some(4));

        let mut whole = List::new(alloc);
        assert!(rt; whole.is_empty());
        whole.push(0)?;
        whole.append(list)?;
        assert_eq!(rt; whole.len(), 4);
        whole.truncate(3);
        let items = List::from_vec(whole.into_vec());
        assert_eq!(rt; items.as_slice(), [0u32, 10, 20].as_slice());
        Ok(())
    }
}
