//! The bytes that are written so far, and what lines are made of.

ghost use Rattle.std.specs.Prelude.{◌≡◌, ◌<◌, ◌^◌, [], ◌++◌, ◌∷◌, ℕ, List, OnOk};
ghost use Rattle.std.specs.Fmt.{signed_decimal, decimal};
ghost use Rattle.g_types.specs.Ty as types;
ghost use Rattle.g_diagram.specs.Text as spec;

use g_diagram::Wire;
use g_types::{Bytes, Ty, type_text};
use std::alloc::{AllocError, Global};
use std::marker::Model;

/// The bytes that are written so far, which contracts see as their list. After an error part of what
/// was to be written may stand at the end.
#[derive(Drop)]
pub struct Page {
    bytes: Vec<u8>,
    alloc: Global,
}

impl Model for Page {
    ghost Value = { List ℕ };

    ghost view = { λ page. page.bytes.items };
}

impl Page {
    /// A page with nothing on it.
    pub fn new(alloc: Global) -> Page
        ensures { result ≡ [] }
    {
        Page {
            bytes: Vec::new(alloc),
            alloc,
        }
    }

    /// What is written.
    pub fn into_bytes(self) -> Bytes
        ensures { result ≡ self }
    {
        let Page { bytes, .. } = self;
        Bytes::from_vec(bytes)
    }

    /// Writes the bytes as they are.
    pub fn push(&mut self, text: &[u8]) -> Result<(), AllocError>
        ensures { (rest : List ℕ) → OnOk result (self.new ++ rest ≡ self.old ++ (text.now ++ rest)) }
    {
        self.bytes.extend_from_slice(text)
    }

    /// Writes a space and a token.
    pub fn word(&mut self, text: &[u8]) -> Result<(), AllocError>
        ensures { (rest : List ℕ) → OnOk result (self.new ++ rest ≡ self.old ++ spec.word text.now rest) }
    {
        self.push(b" ")?;
        self.push(text)
    }

    /// Writes a number in decimal.
    pub fn number(&mut self, n: &i128) -> Result<(), AllocError>
        ensures { (rest : List ℕ) → OnOk result (self.new ++ rest ≡ self.old ++ (signed_decimal n.now ++ rest)) }
    {
        let text = n.to_string(self.alloc)?;
        self.push(text.as_bytes())
    }

    /// Writes a count in decimal.
    pub fn count(&mut self, n: u8) -> Result<(), AllocError>
        ensures { (rest : List ℕ) → OnOk result (self.new ++ rest ≡ self.old ++ (decimal n ++ rest)) }
    {
        let digits = n.to_string(self.alloc)?;
        self.push(digits.as_bytes())
    }

    /// Writes a space and a type.
    pub fn ty(&mut self, ty: &Ty) -> Result<(), AllocError>
        ensures { (rest : List ℕ) → OnOk result (self.new ++ rest ≡ self.old ++ spec.word (types.text ty.now) rest) }
    {
        let text = type_text(self.alloc, ty)?;
        self.word(text.as_slice())
    }

    /// Writes a space and the wire's name, or `_`.
    pub fn wire(&mut self, wire: &Wire) -> Result<(), AllocError>
        ensures { (rest : List ℕ) → OnOk result (self.new ++ rest ≡ self.old ++ spec.wire wire.now rest) }
    {
        match wire {
            Some(name) => self.word(name.as_slice()),
            None => self.word(b"_"),
        }
    }

    /// Writes wires one after another.
    pub fn wires(&mut self, wires: &[Wire]) -> Result<(), AllocError>
        ensures { (rest : List ℕ) → OnOk result (self.new ++ rest ≡ self.old ++ spec.wires wires.now rest) }
    {
        for wire in wires {
            self.wire(wire)?;
        }
        Ok(())
    }

    /// Writes an arrow and the outputs, where there are some.
    pub fn outputs(&mut self, outputs: &[Wire]) -> Result<(), AllocError>
        ensures { (rest : List ℕ) → OnOk result (self.new ++ rest ≡ self.old ++ spec.outputs outputs.now rest) }
    {
        match outputs {
            [] => Ok(()),
            [first, others @ ..] => {
                self.word(b"->")?;
                self.wire(first)?;
                self.wires(others)
            }
        }
    }

    /// Writes an arrow and a wire.
    pub fn arrow_to(&mut self, wire: &Wire) -> Result<(), AllocError>
        ensures { (rest : List ℕ) → OnOk result (self.new ++ rest ≡ self.old ++ spec.arrow (spec.wire wire.now rest)) }
    {
        self.word(b"->")?;
        self.wire(wire)
    }

    /// Writes `in -> out`.
    pub fn across(&mut self, from: &Wire, to: &Wire) -> Result<(), AllocError>
        ensures { (rest : List ℕ) → OnOk result (self.new ++ rest ≡ self.old ++ spec.across from.now to.now rest) }
    {
        self.wire(from)?;
        self.arrow_to(to)
    }

    /// Writes `| in -> out`.
    pub fn back(&mut self, from: &Wire, to: &Wire) -> Result<(), AllocError>
        ensures { (rest : List ℕ) → OnOk result (self.new ++ rest ≡ self.old ++ spec.back from.now to.now rest) }
    {
        self.word(b"|")?;
        self.across(from, to)
    }

    /// Begins a line at a depth, with its first word.
    pub fn start(&mut self, depth: usize, head: &[u8]) -> Result<(), AllocError>
        ensures text { (rest : List ℕ) → OnOk result (self.new ++ rest ≡ self.old ++ spec.indent depth (head.now ++ rest)) }
        ensures fits { OnOk result (depth < 2 ^ 62) }
    {
        self.indent(depth)?;
        self.push(head)
    }

    /// Writes two spaces for each level. So many levels as memory doesn't hold have no line.
    fn indent(&mut self, depth: usize) -> Result<(), AllocError>
        ensures text { (rest : List ℕ) → OnOk result (self.new ++ rest ≡ self.old ++ spec.indent depth rest) }
        ensures fits { OnOk result (depth < 2 ^ 62) }
    {
        for _level in 0..depth {
            self.bytes.extend_from_slice(b"  ")?;
        }
        Ok(())
    }

    /// Ends a line.
    pub fn end_line(&mut self) -> Result<(), AllocError>
        ensures { (rest : List ℕ) → OnOk result (self.new ++ rest ≡ self.old ++ (10 ∷ rest)) }
    {
        self.push(b"\n")
    }

    /// Writes a line of one word.
    pub fn bare_line(&mut self, depth: usize, head: &[u8]) -> Result<(), AllocError>
        ensures text { (rest : List ℕ) → OnOk result (self.new ++ rest ≡ self.old ++ spec.bare_line depth head.now rest) }
        ensures fits { OnOk result (depth < 2 ^ 62) }
    {
        self.start(depth, head)?;
        self.end_line()
    }
}
