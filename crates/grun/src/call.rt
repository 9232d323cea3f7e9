//! The top call.

ghost use Rattle.std.specs.Prelude.{◌≡◌, ◌≤◌, true, ℕ, List as Row, map, None, IfOk};
ghost use Rattle.std.specs.String.{string_bytes};
ghost use Rattle.std.specs.Io.KnownBytes.{IsAtEnd};
ghost use Rattle.g_line.specs.declared.forms.Line.TheVariants.{Run};
ghost use Rattle.g_line.specs.declared.forms.Setting.{Setting};
ghost use Rattle.g_line.specs.Forms.{HasLine};
ghost use Rattle.grun.specs.Call.{Delivers, Ending, Found, Refuses, has_read, begins_run};
ghost use Rattle.grun.specs.Answer.{reply};

use crate::answer::{Answer, answer_line, plain};
use crate::texts::{fixed, numbered};
use g_frames::Trace;
use g_io::{ReadRefused, Sink, Source, read_all, write_all_of};
use g_line::{LineRefused, line};
use std::alloc::{AllocError, Global};

/// How a call ended: the status, and the firings of a run where what was to be written is a run's
/// answer.
#[derive(Drop)]
pub struct Outcome {
    pub status: u8,
    pub trace: Option<Trace>,
}

/// The most bytes of an input.
pub const LIMIT: usize = 16_777_216;

/// Writes a text, and answers the status of that.
fn deliver<K: Sink>(sink: &mut K, status: u8, text: &[u8]) -> u8
    ensures later { K.faults sink.old ≤ K.faults sink.new }
    ensures kept { K.made_with sink.new ≡ K.made_with sink.old }
    ensures delivered { Delivers (K.held sink.old) (K.held sink.new) (K.faults sink.old) (K.faults sink.new) (reply status text.now) result }
{
    match write_all_of(sink, text) {
        Ok(()) => status,
        Err(_) => 8,
    }
}

fn out_of_memory() -> Outcome
    ensures status { result.status ≡ 9 }
    ensures trace { result.trace ≡ None }
{
    Outcome {
        status: 9,
        trace: None,
    }
}

/// Whether the words are those of a run, rightly spelled or not.
fn begins_run(words: &[String]) -> bool
    ensures { result ≡ begins_run (map string_bytes words.now) }
{
    match words.first() {
        Some(word) => word.as_bytes() == b"run".as_slice(),
        None => false,
    }
}

/// Reads a listing from the source, does what the words say, and writes the answer to the sink. What is
/// no run is handed to `plain_call`.
pub fn grun_call<S: Source, K: Sink>(
    alloc: Global,
    words: &Vec<String>,
    source: &mut S,
    sink: &mut K,
) -> Outcome
    ensures source_later { S.faults source.old ≤ S.faults source.new }
    ensures sink_later { K.faults sink.old ≤ K.faults sink.new }
    ensures kept { K.made_with sink.new ≡ K.made_with sink.old }
    ensures ending { Ending (map string_bytes words.now.items) (S.left source.old) (K.held sink.old) (K.held sink.new)
        (S.faults source.old) (S.faults source.new) (K.faults sink.old) (K.faults sink.new) result.trace result.status }
    ensures read_to_end { has_read result.status ≡ true → IsAtEnd (S.left source.new) }
{
    if !begins_run(words) {
        return Outcome {
            status: plain_call(alloc, words, source, sink),
            trace: None,
        };
    }
    let answer = match answer(alloc, words, source) {
        Ok(answer) => answer,
        Err(_) => return out_of_memory(),
    };
    Outcome {
        status: deliver(sink, answer.status, answer.text.as_slice()),
        trace: answer.trace,
    }
}

/// The same for words that are no run: nothing fires, and the answer is the status alone.
pub fn plain_call<S: Source, K: Sink>(
    alloc: Global,
    words: &Vec<String>,
    source: &mut S,
    sink: &mut K,
) -> u8
    requires { (main : Row ℕ) (settings : Row Setting) (limit : ℕ) → HasLine (map string_bytes words.now.items) (Run main settings limit) → ⊥ }
    ensures source_later { S.faults source.old ≤ S.faults source.new }
    ensures sink_later { K.faults sink.old ≤ K.faults sink.new }
    ensures kept { K.made_with sink.new ≡ K.made_with sink.old }
    ensures ending { Ending (map string_bytes words.now.items) (S.left source.old) (K.held sink.old) (K.held sink.new)
        (S.faults source.old) (S.faults source.new) (K.faults sink.old) (K.faults sink.new) None result }
    ensures read_to_end { has_read result ≡ true → IsAtEnd (S.left source.new) }
{
    match answer(alloc, words, source) {
        Ok(answer) => deliver(sink, answer.status, answer.text.as_slice()),
        Err(_) => 9,
    }
}

/// Says of the word of this number, from 1, that no line has it there.
pub fn refuse_word<K: Sink>(alloc: Global, word: u64, sink: &mut K) -> u8
    ensures later { K.faults sink.old ≤ K.faults sink.new }
    ensures kept { K.made_with sink.new ≡ K.made_with sink.old }
    ensures refused { Refuses word (K.held sink.old) (K.held sink.new) (K.faults sink.old) (K.faults sink.new) result }
{
    match numbered(alloc, b"usage at word ", word) {
        Ok(text) => deliver(sink, 1, text.as_slice()),
        Err(_) => 9,
    }
}

/// The answer to words and to what the source has left.
fn answer<S: Source>(
    alloc: Global,
    words: &Vec<String>,
    source: &mut S,
) -> Result<Answer, AllocError>
    ensures later { S.faults source.old ≤ S.faults source.new }
    ensures answer { IfOk result (λ answer. Found (map string_bytes words.now.items) (S.left source.old) (S.faults source.old) (S.faults source.new) answer.trace (reply answer.status answer.text)) }
    ensures read_to_end { IfOk result (λ answer. has_read answer.status ≡ true → IsAtEnd (S.left source.new)) }
{
    let line = match line(alloc, words) {
        Ok(line) => line,
        Err(LineRefused::Usage(k)) => {
            return Ok(plain(1, numbered(alloc, b"usage at word ", k)?));
        }
        Err(LineRefused::Memory(e)) => return Err(e),
    };
    match read_all(alloc, source, LIMIT) {
        Ok(bytes) => answer_line(alloc, &line, bytes.as_slice()),
        Err(ReadRefused::Fault) => Ok(plain(7, fixed(alloc, b"read fault")?)),
        Err(ReadRefused::TooLong) => Ok(plain(10, fixed(alloc, b"too long")?)),
        Err(ReadRefused::Memory(e)) => Err(e),
    }
}
