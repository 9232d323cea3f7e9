//! Reads a listing of LabVIEW VIs from standard input, checks it, and prints it or runs it and writes
//! what its indicators show.
#![tactic(auto)]

mod answer;
mod call;
mod laws;
mod settings;
#[cfg(test)]
mod tests;
mod texts;
mod words;

use call::{grun_call, refuse_word};
use g_io::{StdinSource, StdoutSink};
use std::io;
use std::process::ExitCode;
use words::{WordsRefused, words};

fn main(rt: HostRuntime) -> ExitCode {
    let alloc = rt.alloc();
    let mut sink = StdoutSink::new(io::writer(&rt));
    let words = match words(alloc, &rt) {
        Ok(words) => words,
        Err(WordsRefused::Usage(word)) => {
            return ExitCode::from(refuse_word(alloc, word, &mut sink));
        }
        Err(WordsRefused::Memory) => return ExitCode::from(9),
    };
    let mut source = StdinSource::new(rt.reader());
    let outcome = grun_call(alloc, &words, &mut source, &mut sink);
    ExitCode::from(outcome.status)
}
