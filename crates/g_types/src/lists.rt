//! Lists by the names that signatures use.

use g_lists::List;

/// Bytes of an input, an output or a text.
pub type Bytes = List<u8>;

/// The bytes of a word: the name of a VI, of a panel object or of a wire.
pub type Name = List<u8>;

/// Numbers of calls, from 0.
pub type CallList = List<u64>;
