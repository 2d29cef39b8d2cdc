//! Calls of `hal` over files and a sink in memory, where nothing fails.

use hal_base::{MemShelf, MemSink};
use hal_top::{Outcome, hal};
use std::alloc::{AllocError, Global};

/// The name of the script.
pub(crate) const SCRIPT: &str = "s.txt";

/// How much is printed at most.
const ROOM: usize = 65_536;

/// What a call came to, and what it printed.
#[derive(Drop)]
pub(crate) struct Called {
    pub(crate) outcome: Outcome,
    pub(crate) printed: Vec<u8>,
}

/// The files of a call: the script, and units in the order of the words.
#[derive(Drop)]
pub(crate) struct Files {
    pub(crate) script: Vec<u8>,
    pub(crate) units: Vec<(String, Vec<u8>)>,
}

/// The words `run 1`, the script and the units.
fn words_of(alloc: Global, units: &[(String, Vec<u8>)]) -> Result<Vec<String>, AllocError> {
    let mut words = Vec::new(alloc);
    for word in ["run", "1", SCRIPT] {
        words.push(word.to_string(alloc)?)?;
    }
    for (name, _) in units {
        words.push(name.clone()?)?;
    }
    Ok(words)
}

/// The call that runs these files on one lane.
pub(crate) fn run_hal(alloc: Global, files: Files) -> Result<Called, AllocError> {
    let words = words_of(alloc, files.units.as_slice())?;
    let Files { script, mut units } = files;
    units.push((SCRIPT.to_string(alloc)?, script))?;
    let mut shelf = MemShelf::new(units, Vec::new(alloc));
    let mut sink = MemSink::new(alloc, ROOM, ROOM, Vec::new(alloc))?;
    let outcome = hal(alloc, words.as_slice(), &mut shelf, &mut sink);
    let printed = sink.taken().to_vec(alloc)?;
    Ok(Called { outcome, printed })
}
