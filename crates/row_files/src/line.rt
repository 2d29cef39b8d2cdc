//! The lines of a file of rows. A line that begins with `///` is a comment, and an empty one is nothing. A line `try: WAY` names the way
//! in which the rows below it are tried. The last line, `rows: 42`, counts the rows, so that a file that was cut is told. Any other line
//! is a row.

/// What a line is.
#[derive(Clone, Copy)]
pub(crate) enum Line<'a> {
    /// A comment or nothing.
    Remark,
    /// The way in which rows are tried from here on.
    Way(&'a str),
    /// The number of rows so far.
    Count(&'a str),
    Row(&'a str),
}

impl<'a> Line<'a> {
    /// What this line is.
    pub(crate) fn of(line: &'a str) -> Line<'a> {
        if line.is_empty() || line.starts_with("///") {
            return Line::Remark;
        }
        if let Some(way) = line.strip_prefix("try: ") {
            return Line::Way(way);
        }
        match line.strip_prefix("rows: ") {
            Some(count) => Line::Count(count),
            None => Line::Row(line),
        }
    }
}
