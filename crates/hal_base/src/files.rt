ghost use Rattle.std.specs.Prelude.{◌≡◌, IfOk, OnErr, [], option_map};
ghost use Rattle.std.specs.Option.{option_copied};
ghost use Rattle.hal_base.specs.Files.{file_named, files_in};
ghost use Rattle.hal_base.specs.Shelf.{Says, EmptyButAll};

use crate::shelf::{Found, ShelfFault};
use std::alloc::AllocError;

/// The bytes of the first file of this name.
pub(crate) fn find_file<'a>(files: &'a [(String, Vec<u8>)], name: &str) -> Option<&'a [u8]>
    ensures { option_copied result ≡ file_named (files_in files.now) name.now }
{
    for file in files {
        if file.0.as_str() == name {
            return Some(file.1.as_slice());
        }
    }
    None
}

/// Answers from files in memory, as `Shelf::fetch` says.
pub(crate) fn copy_file(
    files: &[(String, Vec<u8>)],
    name: &str,
    limit: u64,
    into: &mut Vec<u8>,
) -> Result<Found, AllocError>
    ensures answer { IfOk result (λ found. Says (files_in files.now) name.now limit found into.new.items) }
    ensures emptied { IfOk result (λ found. EmptyButAll (Ok found) into.new.items) }
    ensures err { OnErr result (into.new.items ≡ []) }
{
    into.clear();
    let Some(bytes) = find_file(files, name) else {
        return Ok(Found::Absent);
    };
    if bytes.len() as u64 > limit {
        return Ok(Found::TooLong);
    }
    into.extend_from_slice(bytes)?;
    Ok(Found::All)
}
