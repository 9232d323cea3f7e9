//! Grammars whose phrases show themselves where they end: the definitions, their laws, and what
//! readers of tokens answer.
#![tactic(auto)]

use std::alloc::AllocError;

/// Why a reader stopped.
#[derive(Drop)]
pub enum Stop<'a, T> {
    Memory(AllocError),
    /// The first of these tokens is refused; there is none where the tokens ended too early.
    At(&'a [T]),
}

impl<T> From<AllocError> for Stop<'_, T> {
    ghost use Rattle.std.specs.Prelude.{◌≡◌};
    ghost use Rattle.g_grammar.specs.declared.Stop.TheVariants.{Memory};

    ghost from_gives = { λ given stop. stop ≡ Memory given };

    fn from(error: AllocError) -> Self {
        Stop::Memory(error)
    }
}

/// What one turn of a loop over the tokens found: one more item, or what ends the loop.
#[derive(Drop)]
pub enum Turn<A, D> {
    More(A),
    Last(D),
}
