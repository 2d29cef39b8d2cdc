//! How files begin that rows leave out: definitions that double, and chains of them.

use std::alloc::{AllocError, Global};

/// Lines of which each defines a name as two of the next name, from N0 on.
fn doublings(alloc: Global, count: u32) -> Result<String, AllocError> {
    let mut lines = String::new(alloc);
    for from in 0..count {
        let to = from.saturating_add(1);
        let line = format!(in alloc; " REPLACE N{from} BY \"N{to} N{to}\";\n")?;
        lines.push_str(line.as_str())?;
    }
    Ok(lines)
}

/// Lines of which each defines a name as the next name, from C0 on.
fn chain(alloc: Global, count: u32) -> Result<String, AllocError> {
    let mut lines = String::new(alloc);
    for from in 0..count {
        let to = from.saturating_add(1);
        let line = format!(in alloc; " REPLACE C{from} BY \"C{to}\";\n")?;
        lines.push_str(line.as_str())?;
    }
    Ok(lines)
}

/// A chain, and lines that each use its first name.
fn used_chain(alloc: Global, count: u32, uses: usize) -> Result<String, AllocError> {
    let mut lines = chain(alloc, count)?;
    lines.push_str(" C0\n".repeat(alloc, uses)?.as_str())?;
    Ok(lines)
}

/// The beginning that a way names.
pub(crate) fn beginning_of(alloc: Global, way: &str) -> Result<Option<String>, AllocError> {
    let beginning = match way {
        "file" => String::new(alloc),
        "file behind 16 doublings" => doublings(alloc, 16)?,
        "file behind 40 doublings" => doublings(alloc, 40)?,
        "file behind a chain of 10000" => chain(alloc, 10_000)?,
        "file behind a chain of 10000 and 1000 uses" => used_chain(alloc, 10_000, 1_000)?,
        _ => return Ok(None),
    };
    Ok(Some(beginning))
}
