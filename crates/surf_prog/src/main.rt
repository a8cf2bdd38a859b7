//! `surf`: answers backward slices of IA-32 executables.
#![tactic(auto)]

mod adapters;
mod dynamic;
mod entry;
mod laws;
mod line;
mod list;
mod refusal;
mod request;
mod settings;
mod tracing;
mod words;

use adapters::{FileShelf, StreamSink};
use command_words::WordsError;
use refusal::{Refusal, complain, status};
use request::once;
use std::process::ExitCode;
use std::{env, io};

// The words after the program's name. Words that aren't text are none of the grammar.
fn words_given(rt: &HostRuntime) -> Result<Vec<String>, WordsError> {
    match env::args(rt) {
        Ok(words) => Ok(words.skip(1).collect(rt.alloc())?),
        Err(error) if error.kind() == io::ErrorKind::OutOfMemory => Err(WordsError::Memory),
        Err(_) => Err(WordsError::Refused),
    }
}

fn main(rt: HostRuntime) -> ExitCode {
    let mut err = StreamSink::new(rt.stderr());
    let words = match words_given(&rt) {
        Ok(words) => words,
        Err(error) => {
            let refusal = Refusal::from(error);
            complain(rt.alloc(), &refusal, &mut err);
            return ExitCode::from(status(&refusal));
        }
    };
    let mut shelf = FileShelf::new(&rt);
    let mut out = StreamSink::new(rt.stdout());
    ExitCode::from(once(rt.alloc(), &words, &mut shelf, &mut out, &mut err))
}

#[cfg(test)]
mod tests;
