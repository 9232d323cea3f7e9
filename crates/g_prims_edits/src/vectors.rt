//! Parts of vectors.

ghost use Rattle.std.specs.Prelude.{◌≡◌, ◌+◌, ◌++◌, IfOk, take, drop};

use std::alloc::AllocError;

/// So many items from a place on, cut at the end, in the same buffer.
pub fn subset<T: Drop>(mut items: Vec<T>, from: usize, count: usize) -> Vec<T>
    ensures { result.items ≡ take count (drop from items.items) }
{
    if from >= items.len() {
        items.truncate(0);
        return items;
    }
    items.rotate_left(from);
    items.truncate(count.min(items.len() - from));
    items
}

/// What remains without so many items from a place on, and these.
pub fn delete<T: Drop>(
    mut items: Vec<T>,
    from: usize,
    count: usize,
) -> Result<(Vec<T>, Vec<T>), AllocError>
    ensures rest { IfOk result (λ p. p.0.items ≡ take from items.items ++ drop (from + count) items.items) }
    ensures cut { IfOk result (λ p. p.1.items ≡ take count (drop from items.items)) }
{
    let from = from.min(items.len());
    let mut cut = items.split_off(from)?;
    let count = count.min(cut.len());
    let mut rest = cut.split_off(count)?;
    items.append(&mut rest)?;
    Ok((items, cut))
}
