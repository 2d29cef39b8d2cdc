//! How many rows of a file there are, how many of them are kept, and what the file itself says.

use std::io;

/// The rows of a file so far.
#[derive(Clone, Copy)]
pub struct Tally {
    rows: u64,
    kept: u64,
    /// The count that stands behind the last row, where one does.
    said: Option<u64>,
}

impl Tally {
    /// No row.
    pub fn new() -> Tally {
        Tally {
            rows: 0,
            kept: 0,
            said: None,
        }
    }

    /// Counts a row.
    pub fn add(&mut self, is_kept: bool) {
        self.rows = self.rows.saturating_add(1);
        self.kept = self.kept.saturating_add(u64::from(is_kept));
        self.said = None;
    }

    /// Takes the file's own count.
    pub fn say(&mut self, count: &str) {
        self.said = count.parse::<u64>().ok();
    }

    /// Whether each row is kept, and the file's own count is right.
    fn is_whole(&self) -> bool {
        self.kept == self.rows && self.said == Some(self.rows)
    }

    /// Prints how many rows of the file are kept, and says whether all are and the file's own count is right.
    pub fn end(&self, rt: &impl Print, file: &str) -> io::Result<bool> {
        let Tally { rows, kept, said } = *self;
        if said != Some(rows) {
            println!(rt; "{file}: {rows} rows, and its last line doesn't say so")?;
        }
        println!(rt; "{file}: {kept} of {rows} rows kept")?;
        Ok(self.is_whole())
    }
}
