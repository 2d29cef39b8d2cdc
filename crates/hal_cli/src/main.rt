//! The program `hal`: the top call over the files of the disk and standard output.
#![tactic(auto)]

use hal_base::{DiskShelf, OutSink};
use hal_top::hal;
use std::alloc::Global;
use std::process::ExitCode;
use std::{env, io};

/// The words after the program's name.
fn words(rt: &HostRuntime) -> io::Result<Vec<String>> {
    let words = env::args(rt)?.skip(1).collect(rt.alloc())?;
    Ok(words)
}

fn main(rt: HostRuntime) -> ExitCode {
    let alloc = rt.alloc();
    // Words that can't be had as text are wrong words, as no words are.
    let words = words(&rt).unwrap_or(Vec::new(alloc));
    let mut shelf = DiskShelf::new(&rt);
    let mut out = OutSink::new(&rt);
    let outcome = hal(alloc, words.as_slice(), &mut shelf, &mut out);
    ExitCode::from(outcome.status)
}
