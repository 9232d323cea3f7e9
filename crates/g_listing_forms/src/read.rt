//! What every reader answers.

ghost use Rattle.std.specs.Prelude.{◌≡◌, [], ◌∷◌, ◌++◌, OnOk};

use g_grammar::Stop;
use g_lists::List;
use g_tokens::Token;
use std::alloc::AllocError;

/// A value and the tokens after it, or where and why reading stopped.
pub type Read<'a, A> = Result<(A, &'a [Token]), Stop<'a, Token>>;

/// The tokens after one that says nothing but that it is there.
pub type Passed<'a> = Result<&'a [Token], Stop<'a, Token>>;

/// Adds an item at the end of a list. Only want of memory refuses it.
pub fn push<T: Drop>(list: &mut List<T>, item: T) -> Result<(), AllocError>
    ensures { OnOk result (list.new ≡ list.old ++ item ∷ []) }
{
    list.push(item)?;
    Ok(())
}
