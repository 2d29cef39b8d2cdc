//! `hal` on devices that fail, on files that are absent or too long and on words that have no form, and the devices themselves: shelves
//! and sinks in memory, the disk, and standard output. All are tried on rows that were worked out by hand from docs/LANGUAGE.md and docs/EXECUTIVE.md;
//! `calls`, `shelves` and `sinks` say how a row is written.

mod call;
mod calls;
mod fields;
mod shelves;
mod sinks;
mod stubborn;
mod trial;

use row_files::try_file;
use std::rt::Files;
use std::{fs, io};
use trial::DeviceRows;

/// A link to a file that isn't there. It is made here, since a repository can't hold one.
const DANGLING: &str = "dangling";

/// Tries the rows of a file, and says whether all is right.
pub(crate) fn try_devices(rt: &HostRuntime, file: &str) -> io::Result<bool> {
    rt.symlink("nowhere", DANGLING)?;
    let is_kept = try_file(rt, &DeviceRows { rt }, file);
    fs::remove_file(rt, DANGLING)?;
    is_kept
}
