//! Files of rows, read and tried.

use crate::line::Line;
use crate::tally::Tally;
use std::alloc::{AllocError, Global};
use std::process::ExitCode;
use std::rt::{Env, Files};
use std::{env, fs, io};

/// What rows are tried on.
pub trait Rows {
    /// The row as it is given, where it is tried in this way; or what keeps it from being tried.
    fn written(&self, alloc: Global, way: &str, row: &str) -> Result<String, AllocError>;
}

/// A file that is being read.
#[derive(Clone, Copy)]
struct Reading<'a> {
    file: &'a str,
    /// The number of its lines so far.
    line: u64,
    /// How rows are tried.
    way: &'a str,
    tally: Tally,
}

impl<'a> Reading<'a> {
    /// Takes the next line.
    fn take<R: AllocGlobal + Print, T: Rows>(
        &mut self,
        rt: &R,
        rows: &T,
        line: &'a str,
    ) -> io::Result<()> {
        self.line = self.line.saturating_add(1);
        match Line::of(line) {
            Line::Remark => {}
            Line::Way(way) => self.way = way,
            Line::Count(count) => self.tally.say(count),
            Line::Row(row) => {
                let is_kept = self.try_row(rt, rows, row)?;
                self.tally.add(is_kept);
            }
        }
        Ok(())
    }

    /// Tries a row, and tells what came where it isn't kept.
    fn try_row<R: AllocGlobal + Print, T: Rows>(
        &self,
        rt: &R,
        rows: &T,
        row: &str,
    ) -> io::Result<bool> {
        let written = rows.written(rt.alloc(), self.way, row)?;
        let is_kept = written.as_str() == row;
        if !is_kept {
            let Reading { file, line, .. } = *self;
            println!(rt; "{file}:{line}: wanted {row}")?;
            println!(rt; "{file}:{line}: came {written}")?;
        }
        Ok(is_kept)
    }
}

/// Tries the rows of a text, and says whether all is right.
fn try_text<R: AllocGlobal + Print, T: Rows>(
    rt: &R,
    rows: &T,
    file: &str,
    text: &str,
) -> io::Result<bool> {
    let mut reading = Reading {
        file,
        line: 0,
        way: "",
        tally: Tally::new(),
    };
    for line in text.lines() {
        reading.take(rt, rows, line)?;
    }
    reading.tally.end(rt, file)
}

/// Tries the rows of a file. Prints each that isn't kept with what came in its place, and how many are kept, and says whether all is right.
pub fn try_file<R: AllocGlobal + Files + Print, T: Rows>(
    rt: &R,
    rows: &T,
    file: &str,
) -> io::Result<bool> {
    match fs::read_to_string(rt, file) {
        Ok(text) => try_text(rt, rows, file, text.as_str()),
        Err(error) => {
            println!(rt; "{file}: {error}")?;
            Ok(false)
        }
    }
}

/// Tries the rows of the files that the program's words name, each as `try_file` does.
pub fn try_files<R: AllocGlobal + Env + Files + Print, T: Rows>(
    rt: &R,
    rows: &T,
) -> io::Result<ExitCode> {
    let mut end = ExitCode::SUCCESS;
    for file in env::args(rt)?.skip(1) {
        if !try_file(rt, rows, file.as_str())? {
            end = ExitCode::FAILURE;
        }
    }
    Ok(end)
}
