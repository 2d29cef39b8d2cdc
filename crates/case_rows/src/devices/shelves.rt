//! Rows of shelves. Each is a number of calls on one shelf, with a semicolon between them, and what comes of each:
//!
//!     a 3; b 9 => all(xyz) absent()                      the name of a file and the limit of its bytes; on a shelf that doesn't fail,
//!     2 5 | a 3; a 9 => all(xyz) failed()                on one in memory, whose calls numbered 2 and 5 fail,
//!     five 6; none 9 => all(abcde) absent()              and on the disk
//!
//! The shelves in memory have two files of the name `a`, of which the first is `xyz`, and an empty file `b`.

use crate::devices::fields::{halves, numbers};
use hal_base::{DiskShelf, Found, MemShelf, Shelf, ShelfFault, SureShelf};
use row_files::notation_of;
use std::alloc::{AllocError, Global};

fn add_file(
    alloc: Global,
    files: &mut Vec<(String, Vec<u8>)>,
    name: &str,
    bytes: &str,
) -> Result<(), AllocError> {
    let name = name.to_string(alloc)?;
    let bytes = bytes.as_bytes().to_vec(alloc)?;
    files.push((name, bytes))?;
    Ok(())
}

/// Two files of one name, and an empty one.
fn three_files(alloc: Global) -> Result<Vec<(String, Vec<u8>)>, AllocError> {
    let mut files = Vec::new(alloc);
    for (name, bytes) in [("a", "xyz"), ("a", "other"), ("b", "")] {
        add_file(alloc, &mut files, name, bytes)?;
    }
    Ok(files)
}

fn word_of(found: Result<Found, ShelfFault>) -> &'static str {
    match found {
        Ok(Found::All) => "all",
        Ok(Found::Absent) => "absent",
        Ok(Found::TooLong) => "long",
        Err(ShelfFault::Failed) => "failed",
        Err(ShelfFault::Memory(_)) => "memory",
    }
}

/// What a call came to, with the bytes that it left.
fn told(
    alloc: Global,
    found: Result<Found, ShelfFault>,
    bytes: &[u8],
) -> Result<String, AllocError> {
    let word = word_of(found);
    let bytes = notation_of(alloc, bytes)?;
    format!(in alloc; " {word}({bytes})")
}

/// Makes a call, and adds what came of it.
fn fetch_one<S: Shelf>(
    alloc: Global,
    shelf: &mut S,
    call: &str,
    into: &mut Vec<u8>,
    came: &mut String,
) -> Result<(), AllocError> {
    let (name, limit) = call.split_once(" ").unwrap_or((call, ""));
    let found = shelf.fetch(alloc, name, limit.parse::<u64>().unwrap_or(0), into);
    let one = told(alloc, found, into.as_slice())?;
    came.push_str(one.as_str())
}

/// Makes the calls on a shelf, and answers what came of them. Bytes lie before the first one in what each is to fill.
fn fetched<S: Shelf>(alloc: Global, shelf: &mut S, calls: &str) -> Result<String, AllocError> {
    let mut into = b"left over".to_vec(alloc)?;
    let mut came = String::new(alloc);
    for call in calls.split("; ") {
        fetch_one(alloc, shelf, call, &mut into, &mut came)?;
    }
    Ok(came)
}

/// What calls on a shelf in memory come to.
pub(crate) fn of_memory(alloc: Global, row: &str) -> Result<String, AllocError> {
    let (fails, calls) = halves(row);
    let fails = numbers(alloc, fails)?;
    let mut shelf = MemShelf::new(three_files(alloc)?, fails);
    fetched(alloc, &mut shelf, calls)
}

/// What calls on a shelf that doesn't fail come to.
pub(crate) fn of_sure(alloc: Global, calls: &str) -> Result<String, AllocError> {
    let mut shelf = SureShelf::new(three_files(alloc)?);
    fetched(alloc, &mut shelf, calls)
}

/// What calls on the disk come to.
pub(crate) fn of_disk(rt: &HostRuntime, calls: &str) -> Result<String, AllocError> {
    let mut shelf = DiskShelf::new(rt);
    fetched(rt.alloc(), &mut shelf, calls)
}
