//! Rows of calls. Each says what isn't as in a call that runs HELLO, and what comes of it: the status, the file that is told, the number of events, and
//! what is printed.
//!
//!     run 1 => status 2, ..                              the words
//!     s.txt | RUN 9\n | p.hal | HELLO => status 0, ..    the names and the bytes of the script and the unit, where `HELLO` is that unit and
//!                                                        `blanks 9` so many blanks
//!     1 => status 7, ..                                  the calls of the shelf that fail
//!     9 | 2 | 1 | run 17 => status 2, ..                 the room of the sink, how many bytes it takes at once, its puts that fail, and the words
//!     RUN 5\n | p.img | HALI.. => status 0, ..           the script's bytes, and the name and the bytes of the image that runs under it
//!     RUN 9\n | HELLO => status 0, ..                    the script's bytes, and those of the unit that is built and whose image runs under it

use crate::devices::call::{Call, HELLO_CALL, called, printed};
use crate::devices::fields::halves;
use std::alloc::{AllocError, Global};

/// What these words come to.
pub(crate) fn of_words(alloc: Global, words: &str) -> Result<String, AllocError> {
    called(
        alloc,
        &Call {
            words,
            ..HELLO_CALL
        },
    )
}

/// What a call over these files comes to.
pub(crate) fn of_files(alloc: Global, row: &str) -> Result<String, AllocError> {
    let (script, row) = halves(row);
    let (script_bytes, row) = halves(row);
    let (unit, unit_bytes) = halves(row);
    called(
        alloc,
        &Call {
            script: (script, script_bytes),
            unit: (unit, unit_bytes),
            ..HELLO_CALL
        },
    )
}

/// What a call comes to where the shelf fails so.
pub(crate) fn of_shelf(alloc: Global, shelf_fails: &str) -> Result<String, AllocError> {
    called(
        alloc,
        &Call {
            shelf_fails,
            ..HELLO_CALL
        },
    )
}

/// What a call comes to where the sink fails so.
pub(crate) fn of_sink(alloc: Global, row: &str) -> Result<String, AllocError> {
    let (room, row) = halves(row);
    let (most, row) = halves(row);
    let (sink_fails, words) = halves(row);
    called(
        alloc,
        &Call {
            words,
            room,
            most,
            sink_fails,
            ..HELLO_CALL
        },
    )
}

/// What a run of the image of this name and with these bytes comes to.
fn executed<'a>(
    alloc: Global,
    script_bytes: &'a str,
    image: &'a str,
    image_bytes: &'a str,
) -> Result<String, AllocError> {
    called(
        alloc,
        &Call {
            words: "exec 1 s.txt p.img",
            script: ("s.txt", script_bytes),
            unit: (image, image_bytes),
            ..HELLO_CALL
        },
    )
}

/// What a run of an image comes to.
pub(crate) fn of_image(alloc: Global, row: &str) -> Result<String, AllocError> {
    let (script_bytes, row) = halves(row);
    let (image, image_bytes) = halves(row);
    executed(alloc, script_bytes, image, image_bytes)
}

/// What is built of the unit with these bytes.
fn built(alloc: Global, unit_bytes: &str) -> Result<String, AllocError> {
    printed(
        alloc,
        &Call {
            words: "build p.hal",
            unit: ("p.hal", unit_bytes),
            ..HELLO_CALL
        },
    )
}

/// What a run of what is built of a unit comes to.
pub(crate) fn of_built(alloc: Global, row: &str) -> Result<String, AllocError> {
    let (script_bytes, unit_bytes) = halves(row);
    let image = built(alloc, unit_bytes)?;
    executed(alloc, script_bytes, "p.img", image.as_str())
}
