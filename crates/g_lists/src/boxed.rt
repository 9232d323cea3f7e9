ghost use Rattle.std.specs.Prelude.{◌≡◌, IfOk};

use std::alloc::{AllocError, Global};
use std::marker::Model;

/// A value on the heap, which contracts see as the value itself. A recursive type reaches itself
/// through it, and its values still are plain data.
#[derive(Debug, Drop)]
pub struct Boxed<T> {
    kept: Box<T>,
}

impl<T> Model for Boxed<T> {
    ghost Value = { T };

    ghost coded = { T.code };

    ghost view = { λ b. b.kept.value };
}

impl<T> Boxed<T> {
    /// The value.
    pub fn get(&self) -> &T
        ensures { result.now ≡ self.now }
    {
        &self.kept
    }

    /// The value, out of its box.
    pub fn into_inner(self) -> T
        ensures { result ≡ self }
    {
        let Boxed { kept } = self;
        Box::into_inner(kept)
    }
}

impl<T: Drop> Boxed<T> {
    /// Boxes a value. Only want of memory refuses it.
    pub fn new(alloc: Global, value: T) -> Result<Boxed<T>, AllocError>
        ensures { IfOk result (λ b. b ≡ value) }
    {
        Ok(Boxed {
            kept: Box::new(alloc, value)?,
        })
    }
}

#[cfg(test)]
mod tests {
    use super::*;
    use std::test::Fail;

    #[test]
    fn keeps_its_value(rt: HostRuntime) -> Result<(), Fail> {
        let boxed = Boxed::new(rt.alloc(), 7u32)?;
        assert_eq!(rt; *boxed.get(), 7);
        assert_eq!(rt; boxed.into_inner(), 7);
        Ok(())
    }
}
