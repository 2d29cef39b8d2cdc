//! Calls of `hal` over files and a sink in memory, at which each may fail.

use crate::devices::fields::{bytes_in, numbers, size};
use hal_base::{MemShelf, MemSink};
use hal_top::{Outcome, hal};
use row_files::notation_of;
use std::alloc::{AllocError, Global};

/// `N = 40 + 2`, written to channel 6.
const HELLO: &str =
    " HELLO: PROGRAM; DECLARE N INTEGER INITIAL(40); N = N + 2; WRITE(6) N; CLOSE HELLO;\n";

/// A call, and where its devices fail. The files are pairs of a name and what a row says of the bytes.
#[derive(Clone, Copy)]
pub(crate) struct Call<'a> {
    pub(crate) words: &'a str,
    pub(crate) script: (&'a str, &'a str),
    pub(crate) unit: (&'a str, &'a str),
    /// The calls of the shelf that fail; the first is 1.
    pub(crate) shelf_fails: &'a str,
    /// How many bytes the sink takes in all, and at once.
    pub(crate) room: &'a str,
    pub(crate) most: &'a str,
    /// The puts of the sink that fail.
    pub(crate) sink_fails: &'a str,
}

/// A call that runs HELLO, where nothing fails.
pub(crate) const HELLO_CALL: Call<'static> = Call {
    words: "run 1 s.txt p.hal",
    script: ("s.txt", "RUN 10"),
    unit: ("p.hal", "HELLO"),
    shelf_fails: "",
    room: "4096",
    most: "4096",
    sink_fails: "",
};

/// The words of a part.
fn words_of(alloc: Global, part: &str) -> Result<Vec<String>, AllocError> {
    let mut words = Vec::new(alloc);
    for word in part.split(" ") {
        if !word.is_empty() {
            words.push(word.to_string(alloc)?)?;
        }
    }
    Ok(words)
}

/// The bytes of a file: those of HELLO, so many blanks, or others.
fn bytes_of_file(alloc: Global, part: &str) -> Result<Vec<u8>, AllocError> {
    if part == "HELLO" {
        return HELLO.as_bytes().to_vec(alloc);
    }
    match part.strip_prefix("blanks ") {
        Some(count) => vec![in alloc; b' '; size(count)],
        None => bytes_in(alloc, part),
    }
}

fn add_file(
    alloc: Global,
    files: &mut Vec<(String, Vec<u8>)>,
    file: (&str, &str),
) -> Result<(), AllocError> {
    let name = file.0.to_string(alloc)?;
    let bytes = bytes_of_file(alloc, file.1)?;
    files.push((name, bytes))?;
    Ok(())
}

/// The shelf of a call.
fn shelf_of(alloc: Global, call: &Call) -> Result<MemShelf, AllocError> {
    let mut files = Vec::new(alloc);
    for file in [call.script, call.unit] {
        add_file(alloc, &mut files, file)?;
    }
    Ok(MemShelf::new(files, numbers(alloc, call.shelf_fails)?))
}

/// The sink of a call.
fn sink_of(alloc: Global, call: &Call) -> Result<MemSink, AllocError> {
    let fails = numbers(alloc, call.sink_fails)?;
    MemSink::new(alloc, size(call.room), size(call.most).max(1), fails)
}

/// Which file is told.
fn file_told(alloc: Global, file: Option<u32>) -> Result<String, AllocError> {
    match file {
        None => String::from_str(alloc, "no file"),
        Some(number) => format!(in alloc; "file {number}"),
    }
}

/// Which instruction is told, where one is.
fn instruction_told(alloc: Global, number: Option<u64>) -> Result<String, AllocError> {
    match number {
        None => String::from_str(alloc, ""),
        Some(number) => format!(in alloc; ", instruction {number}"),
    }
}

/// What a call came to: the status, the file and the instruction that are told, the number of events, and what is printed.
fn told(alloc: Global, outcome: &Outcome, taken: &[u8]) -> Result<String, AllocError> {
    let taken = notation_of(alloc, taken)?;
    let status = outcome.status;
    let file = file_told(alloc, outcome.file)?;
    let instruction = instruction_told(alloc, outcome.image_fault)?;
    let events = outcome.journal.as_slice().len();
    format!(in alloc; " status {status}, {file}{instruction}, {events} events ({taken})")
}

/// What the call of these words comes to.
fn answer(
    alloc: Global,
    words: &[String],
    shelf: &mut MemShelf,
    sink: &mut MemSink,
) -> Result<String, AllocError> {
    let outcome = hal(alloc, words, shelf, sink);
    told(alloc, &outcome, sink.taken())
}

/// What a call comes to.
pub(crate) fn called(alloc: Global, call: &Call) -> Result<String, AllocError> {
    let words = words_of(alloc, call.words)?;
    let mut shelf = shelf_of(alloc, call)?;
    let mut sink = sink_of(alloc, call)?;
    answer(alloc, words.as_slice(), &mut shelf, &mut sink)
}

/// What a call prints, as rows write bytes.
pub(crate) fn printed(alloc: Global, call: &Call) -> Result<String, AllocError> {
    let words = words_of(alloc, call.words)?;
    let mut shelf = shelf_of(alloc, call)?;
    let mut sink = sink_of(alloc, call)?;
    hal(alloc, words.as_slice(), &mut shelf, &mut sink);
    notation_of(alloc, sink.taken())
}
