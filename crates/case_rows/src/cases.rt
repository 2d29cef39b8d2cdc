//! Files of cases, read and tried. A file may begin with remarks, and so may a case behind its title. The last line, `== rows: 42`, counts the
//! cases, so that a file that was cut is told.

use crate::case::Case;
use row_files::Tally;
use std::rt::Files;
use std::{fs, io};

/// Tries a case, and tells what came where it isn't kept.
fn try_case(
    rt: &(impl AllocGlobal + Print),
    file: &str,
    number: u64,
    text: &str,
) -> io::Result<bool> {
    let alloc = rt.alloc();
    let mut case = Case::new(alloc);
    let mut sections = text.split("\n-- ");
    let heading = sections.next().unwrap_or("");
    for section in sections {
        case.take(alloc, section)?;
    }
    let verdict = case.verdict(alloc)?;
    let is_kept = verdict.wanted == verdict.came;
    if !is_kept {
        let title = heading.lines().next().unwrap_or("");
        println!(rt; "{file}:{number}: {title}")?;
        println!(rt; "{file}:{number}: wanted {}", verdict.wanted)?;
        println!(rt; "{file}:{number}: came {}", verdict.came)?;
    }
    Ok(is_kept)
}

/// What stands behind the first `== `.
fn behind_remarks(text: &str) -> &str {
    if let Some(cases) = text.strip_prefix("== ") {
        return cases;
    }
    match text.split_once("\n== ") {
        None => "",
        Some((_, cases)) => cases,
    }
}

/// Tries the cases of a text, and says whether all is right.
fn try_text(rt: &(impl AllocGlobal + Print), file: &str, text: &str) -> io::Result<bool> {
    let text = text.strip_suffix("\n").unwrap_or(text);
    let mut tally = Tally::new();
    let mut number = 0u64;
    for case in behind_remarks(text).split("\n== ") {
        match case.strip_prefix("rows: ") {
            Some(count) => tally.say(count),
            None => {
                number = number.saturating_add(1);
                let is_kept = try_case(rt, file, number, case)?;
                tally.add(is_kept);
            }
        }
    }
    tally.end(rt, file)
}

/// Tries the cases of a file. Prints each that isn't kept with what came in its place, and how many are kept, and says whether all is
/// right.
pub(crate) fn try_cases<R: AllocGlobal + Files + Print>(rt: &R, file: &str) -> io::Result<bool> {
    match fs::read_to_string(rt, file) {
        Ok(text) => try_text(rt, file, text.as_str()),
        Err(error) => {
            println!(rt; "{file}: {error}")?;
            Ok(false)
        }
    }
}
