//! Cases. A file of cases holds lines:
//!
//!     == TITLE        begins a case and says in words what it shows
//!     -- unit NAME    a unit's lines follow; several units stand in the order of the words of `hal run 1 SCRIPT UNIT..`
//!     -- script       the script's lines follow
//!     -- status N     only where the status isn't 0
//!     -- prints       the exact bytes on standard output follow
//!     -- journal      the lines of the journal follow, where the case says them
//!
//! A section's lines run to the next line that begins with `== ` or `-- `, and each is ended by a newline byte. Where a section's first line
//! ends in ` coded`, the lines behind it are one text as rows write bytes, which holds a newline where `\n` stands in it.

use crate::call::{Called, Files, run_hal};
use hal_script::write_journal;
use row_files::{bytes_of, notation_of};
use std::alloc::{AllocError, Global};

/// What a call is to come to.
#[derive(Drop)]
struct Wanted {
    status: u8,
    prints: Vec<u8>,
    journal: Option<Vec<u8>>,
}

/// A case.
#[derive(Drop)]
pub(crate) struct Case {
    files: Files,
    wanted: Wanted,
    /// Whether each section could be read.
    is_read: bool,
}

/// What a case wants and what came of it, as texts.
#[derive(Drop)]
pub(crate) struct Verdict {
    pub(crate) wanted: String,
    pub(crate) came: String,
}

/// The bytes of a section's lines; a last newline was cut off with the next section.
fn bytes_of_lines(alloc: Global, lines: Option<&str>) -> Result<Vec<u8>, AllocError> {
    let mut bytes = Vec::new(alloc);
    if let Some(lines) = lines {
        bytes.extend_from_slice(lines.as_bytes())?;
        bytes.push(b'\n')?;
    }
    Ok(bytes)
}

/// The bytes of a coded section.
fn coded_bytes(alloc: Global, lines: Option<&str>) -> Result<Option<Vec<u8>>, AllocError> {
    let mut notation = String::new(alloc);
    for line in lines.unwrap_or("").lines() {
        notation.push_str(line)?;
    }
    bytes_of(alloc, notation.as_str())
}

/// What the first line of a section says, and the bytes of the others.
fn section_of(alloc: Global, section: &str) -> Result<Option<(&str, Vec<u8>)>, AllocError> {
    let (head, lines) = match section.split_once("\n") {
        None => (section, None),
        Some((head, lines)) => (head, Some(lines)),
    };
    match head.strip_suffix(" coded") {
        None => Ok(Some((head, bytes_of_lines(alloc, lines)?))),
        Some(head) => match coded_bytes(alloc, lines)? {
            None => Ok(None),
            Some(bytes) => Ok(Some((head, bytes))),
        },
    }
}

impl Case {
    /// A case with no section yet.
    pub(crate) fn new(alloc: Global) -> Case {
        Case {
            files: Files {
                script: Vec::new(alloc),
                units: Vec::new(alloc),
            },
            wanted: Wanted {
                status: 0,
                prints: Vec::new(alloc),
                journal: None,
            },
            is_read: true,
        }
    }

    /// Takes a section.
    pub(crate) fn take(&mut self, alloc: Global, section: &str) -> Result<(), AllocError> {
        match section_of(alloc, section)? {
            None => self.is_read = false,
            Some((head, bytes)) => self.place(alloc, head, bytes)?,
        }
        Ok(())
    }

    /// Puts the bytes of a section where its first line says.
    fn place(&mut self, alloc: Global, head: &str, bytes: Vec<u8>) -> Result<(), AllocError> {
        if let Some(name) = head.strip_prefix("unit ") {
            let name = name.to_string(alloc)?;
            self.files.units.push((name, bytes))?;
        } else if let Some(number) = head.strip_prefix("status ") {
            self.take_status(number);
        } else {
            self.place_text(head, bytes);
        }
        Ok(())
    }

    fn take_status(&mut self, number: &str) {
        match number.parse::<u8>() {
            Ok(status) => self.wanted.status = status,
            Err(_) => self.is_read = false,
        }
    }

    fn place_text(&mut self, head: &str, bytes: Vec<u8>) {
        match head {
            "script" => self.files.script = bytes,
            "prints" => self.wanted.prints = bytes,
            "journal" => self.wanted.journal = Some(bytes),
            _ => self.is_read = false,
        }
    }

    /// Runs the case.
    pub(crate) fn verdict(self, alloc: Global) -> Result<Verdict, AllocError> {
        let Case {
            files,
            wanted,
            is_read,
        } = self;
        let called = run_hal(alloc, files)?;
        let came = came(alloc, &called, wanted.journal.is_some())?;
        let wanted = if is_read {
            told(
                alloc,
                wanted.status,
                wanted.prints.as_slice(),
                &wanted.journal,
            )?
        } else {
            String::from_str(alloc, "a case that can be read")?
        };
        Ok(Verdict { wanted, came })
    }
}

/// What came of a call, with its journal where that is wanted.
fn came(alloc: Global, called: &Called, has_journal: bool) -> Result<String, AllocError> {
    let outcome = &called.outcome;
    let mut journal = None;
    if has_journal {
        let mut text = Vec::new(alloc);
        write_journal(&outcome.journal, &mut text)?;
        journal = Some(text);
    }
    told(alloc, outcome.status, called.printed.as_slice(), &journal)
}

/// A status, what is printed, and a journal, as one text.
fn told(
    alloc: Global,
    status: u8,
    prints: &[u8],
    journal: &Option<Vec<u8>>,
) -> Result<String, AllocError> {
    let prints = notation_of(alloc, prints)?;
    match journal {
        None => format!(in alloc; "status {status}, {prints}"),
        Some(journal) => {
            let journal = notation_of(alloc, journal.as_slice())?;
            format!(in alloc; "status {status}, {prints}, {journal}")
        }
    }
}
