//! Units that are full of names.

use std::alloc::{AllocError, Global};

/// What the names of a unit are.
#[derive(Clone, Copy)]
pub(crate) enum Naming {
    /// Data of one block, each named once more.
    Declarations,
    /// The same names in 60 blocks in one another, and others of the outermost one, which the innermost one names.
    Blocks,
    /// Labels of one block.
    Labels,
    /// Data of one block, each with a name of 32 bytes that differs from the others in its last ones.
    Tails,
}

pub(crate) const NAMINGS: [Naming; 4] = [
    Naming::Declarations,
    Naming::Blocks,
    Naming::Labels,
    Naming::Tails,
];

/// How many blocks stand in one another.
const DEPTH: usize = 60;

/// The number of the first name, so that all have five digits.
const FIRST: usize = 10_000;

/// The first bytes of a name of 32 bytes, of which 5 are to come.
const STEM: &str = "A_NAME_THAT_HAS_27_BYTES_OF";

/// Two texts so many times, each time with another number of five digits between them.
fn numbered(alloc: Global, count: usize, before: &str, behind: &str) -> Result<String, AllocError> {
    let mut text = String::new(alloc);
    for number in 0..count {
        let digits = FIRST.saturating_add(number);
        let one = format!(in alloc; "{before}{digits}{behind}")?;
        text.push_str(one.as_str())?;
    }
    Ok(text)
}

/// A program that declares so many names with this stem, and names each of them once.
fn declared(alloc: Global, count: usize, stem: &str) -> Result<String, AllocError> {
    let before = format!(in alloc; " , {stem}")?;
    let names = numbered(alloc, count, before.as_str(), "\n")?;
    format!(in alloc; " P: PROGRAM; DECLARE INTEGER, A{names} ;\n WRITE(6) 1{names} ; CLOSE P;\n")
}

/// So many blocks in one another that declare these names, around a WRITE of others.
fn nested(alloc: Global, inner: &str, written: &str) -> Result<String, AllocError> {
    let mut text = String::new(alloc);
    for _ in 0..DEPTH {
        text.push_str(" Q: PROCEDURE; DECLARE INTEGER, A")?;
        text.push_str(inner)?;
        text.push_str(" ;\n")?;
    }
    text.push_str(" WRITE(6) 1")?;
    text.push_str(written)?;
    text.push_str(" ;\n")?;
    for _ in 0..DEPTH {
        text.push_str(" CLOSE;\n")?;
    }
    Ok(text)
}

/// A program with so many names in its blocks.
fn blocks(alloc: Global, count: usize) -> Result<String, AllocError> {
    let outer = numbered(alloc, count / 3, " , B", "\n")?;
    let inner = numbered(alloc, count / 3 / DEPTH, " , A", "\n")?;
    let nested = nested(alloc, inner.as_str(), outer.as_str())?;
    format!(in alloc; " P: PROGRAM; DECLARE INTEGER, A{outer} ;\n{nested} CLOSE P;\n")
}

impl Naming {
    pub(crate) fn name(self) -> &'static str {
        match self {
            Naming::Declarations => "declarations",
            Naming::Blocks => "blocks",
            Naming::Labels => "block-labels",
            Naming::Tails => "tails",
        }
    }

    /// A unit with some so many names.
    pub(crate) fn text(self, alloc: Global, count: usize) -> Result<String, AllocError> {
        match self {
            Naming::Declarations => declared(alloc, count, "A"),
            Naming::Blocks => blocks(alloc, count),
            Naming::Labels => {
                let labels = numbered(alloc, count, " L", ": ;\n")?;
                format!(in alloc; " P: PROGRAM;\n{labels} CLOSE P;\n")
            }
            Naming::Tails => declared(alloc, count, STEM),
        }
    }
}
