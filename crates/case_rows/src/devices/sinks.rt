//! Rows of sinks. Each is a number of pieces that are put into one sink, with a semicolon between them, and how many bytes it took of each, or a fault:
//!
//!     abc;  => 3 0                                       a sink that takes all, and standard output, which is a part of what the program prints
//!     6 | 4 | 2 | abcdef; e => 4(abcd) fault(abcd)       one in memory of 6 bytes that takes at most 4 of a piece, and whose put numbered 2 fails; in
//!                                                        brackets is what it took so far
//!     2 | abcd => 2                                      standard output where it takes 2 bytes of a piece at most
//!     broken | abcd => fault                             and where it is broken

use crate::devices::fields::{bytes_in, halves, numbers, size};
use crate::devices::stubborn::Stubborn;
use hal_base::{MemSink, OutSink, Sink, SureSink};
use row_files::notation_of;
use std::alloc::{AllocError, Global};

/// Puts a piece, and answers how many bytes of it were taken.
fn count_of<S: Sink>(alloc: Global, sink: &mut S, piece: &str) -> Result<String, AllocError> {
    let bytes = bytes_in(alloc, piece)?;
    match sink.put(bytes.as_slice()) {
        Ok(count) => format!(in alloc; " {count}"),
        Err(_) => String::from_str(alloc, " fault"),
    }
}

/// Puts a piece, and adds how many bytes of it were taken.
fn add_count<S: Sink>(
    alloc: Global,
    sink: &mut S,
    piece: &str,
    came: &mut String,
) -> Result<(), AllocError> {
    let count = count_of(alloc, sink, piece)?;
    came.push_str(count.as_str())
}

/// Puts the pieces, and answers how many bytes of each were taken.
fn counts_of<S: Sink>(alloc: Global, sink: &mut S, pieces: &str) -> Result<String, AllocError> {
    let mut came = String::new(alloc);
    for piece in pieces.split("; ") {
        add_count(alloc, sink, piece, &mut came)?;
    }
    Ok(came)
}

/// Adds what the sink took so far.
fn add_taken(alloc: Global, sink: &MemSink, came: &mut String) -> Result<(), AllocError> {
    let taken = notation_of(alloc, sink.taken())?;
    let taken = format!(in alloc; "({taken})")?;
    came.push_str(taken.as_str())
}

/// Puts the pieces into a sink in memory, and answers what it took of each, and so far.
fn taken_of(alloc: Global, sink: &mut MemSink, pieces: &str) -> Result<String, AllocError> {
    let mut came = String::new(alloc);
    for piece in pieces.split("; ") {
        add_count(alloc, sink, piece, &mut came)?;
        add_taken(alloc, sink, &mut came)?;
    }
    Ok(came)
}

/// The sink in memory that a row says, and its pieces.
fn memory(alloc: Global, row: &str) -> Result<(MemSink, &str), AllocError> {
    let (room, row) = halves(row);
    let (most, row) = halves(row);
    let (fails, pieces) = halves(row);
    let fails = numbers(alloc, fails)?;
    let sink = MemSink::new(alloc, size(room), size(most).max(1), fails)?;
    Ok((sink, pieces))
}

/// What puts into a sink in memory come to.
pub(crate) fn of_memory(alloc: Global, row: &str) -> Result<String, AllocError> {
    let (mut sink, pieces) = memory(alloc, row)?;
    taken_of(alloc, &mut sink, pieces)
}

/// What puts into a sink that takes all come to.
pub(crate) fn of_sure(alloc: Global, pieces: &str) -> Result<String, AllocError> {
    counts_of(alloc, &mut SureSink::new(), pieces)
}

/// What puts into standard output come to.
pub(crate) fn of_standard(rt: &HostRuntime, pieces: &str) -> Result<String, AllocError> {
    counts_of(rt.alloc(), &mut OutSink::new(rt), pieces)
}

/// What puts into standard output come to where it takes little or is broken.
pub(crate) fn of_stubborn(alloc: Global, row: &str) -> Result<String, AllocError> {
    let (how, pieces) = halves(row);
    let out = Stubborn {
        most: size(how),
        is_broken: how == "broken",
    };
    counts_of(alloc, &mut OutSink::new(&out), pieces)
}
