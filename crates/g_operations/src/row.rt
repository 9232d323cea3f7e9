//! What is known of an operation.

ghost use Rattle.std.specs.Prelude.{◌≡◌};
ghost use Rattle.g_operations.specs.Rows as spec;

/// How many operands of one direction an operation has.
#[derive(Clone, Copy, Debug, PartialEq, Eq)]
pub enum Count {
    Exactly(usize),
    /// Both ends belong to it.
    Between(usize, usize),
    /// Whatever is written.
    Any,
}

impl Count {
    /// Whether that many operands are as many as the operation has.
    pub fn allows(self, number: usize) -> bool
        ensures { result ≡ spec.allows self number }
    {
        match self {
            Count::Exactly(count) => number == count,
            Count::Between(least, most) => least <= number && number <= most,
            Count::Any => true,
        }
    }
}

/// Which inputs an operation takes: it may work in their buffers. The others are read.
#[derive(Clone, Copy, Debug, PartialEq, Eq)]
pub enum Taken {
    Nothing,
    First,
    Second,
    FirstTwo,
    FirstAndThird,
    SecondAndThird,
    /// The first input that is an array.
    FirstArray,
    All,
}

/// The row of an operation.
#[derive(Clone, Copy, Debug)]
pub struct Row {
    /// The word of its lines, without the number that follows `get` and `set`.
    pub word: &'static [u8],
    /// That number: the element of a cluster, from 0.
    pub field: Option<u8>,
    /// The least version of listings that has it.
    pub since: u32,
    pub inputs: Count,
    pub outputs: Count,
    pub taken: Taken,
}

/// The row of an operation that the first version has, with these numbers of inputs and outputs.
pub(crate) fn fixed(word: &'static [u8], inputs: usize, outputs: usize, taken: Taken) -> Row
    ensures { spec.seen_row result ≡ spec.fixed word.now inputs outputs taken }
{
    Row {
        word,
        field: None,
        since: 1,
        inputs: Count::Exactly(inputs),
        outputs: Count::Exactly(outputs),
        taken,
    }
}
