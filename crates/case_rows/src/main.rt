//! The language and what `hal` prints, tried on files of rows and of cases that were worked out by hand from docs/LANGUAGE.md and docs/EXECUTIVE.md. A file's ending says what
//! it holds: `.words` the words of texts, `.trees` the trees of sources, `.operations` the operations of expressions, `.rows` the rules of names, types, locks, calls and
//! templates, `.refusals` units and scripts that are refused, `.devices` shelves and sinks that fail, and `.cases` whole runs. Each of these has a module, which says what its
//! rows hold.
#![tactic(auto)]

mod call;
mod case;
mod cases;
mod devices;
mod operations;
mod refusals;
mod rules;
mod trees;
mod words;

use cases::try_cases;
use devices::try_devices;
use operations::ValueRows;
use refusals::RefusalRows;
use row_files::try_file;
use rules::RuleRows;
use std::process::ExitCode;
use std::{env, io};
use trees::TreeRows;
use words::WordRows;

/// Tries what a file holds, and says whether all is right.
fn is_kept(rt: &HostRuntime, file: &str) -> io::Result<bool> {
    if file.ends_with(".words") {
        try_file(rt, &WordRows, file)
    } else if file.ends_with(".trees") {
        try_file(rt, &TreeRows, file)
    } else if file.ends_with(".operations") {
        try_file(rt, &ValueRows, file)
    } else if file.ends_with(".rows") {
        try_file(rt, &RuleRows, file)
    } else if file.ends_with(".refusals") {
        try_file(rt, &RefusalRows, file)
    } else if file.ends_with(".devices") {
        try_devices(rt, file)
    } else {
        try_cases(rt, file)
    }
}

fn main(rt: HostRuntime) -> io::Result<ExitCode> {
    let mut end = ExitCode::SUCCESS;
    for file in env::args(&rt)?.skip(1) {
        if !is_kept(&rt, file.as_str())? {
            end = ExitCode::FAILURE;
        }
    }
    Ok(end)
}
