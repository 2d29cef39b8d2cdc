//! Units whose types take work.

use std::alloc::{AllocError, Global};

/// What a unit is full of.
#[derive(Clone, Copy)]
pub(crate) enum Typing {
    /// One sum of many terms.
    Terms,
    /// One product of many factors.
    Factors,
    /// Assignments of a number in 60 parentheses.
    Enclosed,
    /// Receivers with subscripts.
    Subscripts,
    /// An array with a list of initial values.
    Values,
    /// A structure of many parts, and data with a value for each.
    Parts,
    /// Constants, each of which is the value of the one before.
    Constants,
}

pub(crate) const TYPINGS: [Typing; 7] = [
    Typing::Terms,
    Typing::Factors,
    Typing::Enclosed,
    Typing::Subscripts,
    Typing::Values,
    Typing::Parts,
    Typing::Constants,
];

/// How many parentheses stand in one another.
const DEPTH: usize = 60;

/// The number of the first name, so that all have five digits.
const FIRST: usize = 10_000;

/// A text so many times.
fn repeated(alloc: Global, count: usize, one: &str) -> Result<String, AllocError> {
    let mut text = String::new(alloc);
    for _ in 0..count {
        text.push_str(one)?;
    }
    Ok(text)
}

/// So many assignments of a number in parentheses.
fn enclosed(alloc: Global, count: usize) -> Result<String, AllocError> {
    let open = repeated(alloc, DEPTH, "(")?;
    let close = repeated(alloc, DEPTH, ")")?;
    let one = format!(in alloc; " N = {open}1{close};\n")?;
    repeated(alloc, count, one.as_str())
}

/// The parts of a structure behind its first one.
fn parts(alloc: Global, count: usize) -> Result<String, AllocError> {
    let mut text = String::new(alloc);
    for number in 0..count {
        let digits = FIRST.saturating_add(number);
        let one = format!(in alloc; " , 1 A{digits} INTEGER\n")?;
        text.push_str(one.as_str())?;
    }
    Ok(text)
}

/// Constants behind a first one, each of which is the value of the one before.
fn constants(alloc: Global, count: usize) -> Result<String, AllocError> {
    let mut text = String::new(alloc);
    for number in 0..count {
        let before = FIRST.saturating_add(number);
        let digits = before.saturating_add(1);
        let one = format!(in alloc; " , A{digits} INTEGER CONSTANT(A{before})\n")?;
        text.push_str(one.as_str())?;
    }
    Ok(text)
}

impl Typing {
    pub(crate) fn name(self) -> &'static str {
        match self {
            Typing::Terms => "typed-terms",
            Typing::Factors => "typed-factors",
            Typing::Enclosed => "typed-parentheses",
            Typing::Subscripts => "typed-subscripts",
            Typing::Values => "typed-values",
            Typing::Parts => "typed-parts",
            Typing::Constants => "typed-constants",
        }
    }

    /// A unit with so many of them, or a hundredth as many assignments.
    pub(crate) fn text(self, alloc: Global, count: usize) -> Result<String, AllocError> {
        match self {
            Typing::Terms => {
                let terms = repeated(alloc, count, " + N\n")?;
                format!(in alloc; " P: PROGRAM; DECLARE N INTEGER; N = 1{terms} ; CLOSE P;\n")
            }
            Typing::Factors => {
                let factors = repeated(alloc, count, " N\n")?;
                format!(in alloc; " P: PROGRAM; DECLARE N INTEGER; N = 1{factors} ; CLOSE P;\n")
            }
            Typing::Enclosed => {
                let assignments = enclosed(alloc, count / 100)?;
                format!(in alloc; " P: PROGRAM; DECLARE N INTEGER;\n{assignments} CLOSE P;\n")
            }
            Typing::Subscripts => {
                let receivers = repeated(alloc, count, " , A$2\n")?;
                format!(in alloc;
                    " P: PROGRAM; DECLARE A ARRAY(3) INTEGER; A$1{receivers} = 0; CLOSE P;\n"
                )
            }
            Typing::Values => {
                let values = repeated(alloc, count, " , 7\n")?;
                format!(in alloc;
                    " P: PROGRAM; DECLARE A ARRAY({count} + 1) INTEGER INITIAL(1{values} ); CLOSE P;\n"
                )
            }
            Typing::Parts => {
                let parts = parts(alloc, count)?;
                let values = repeated(alloc, count, " , 7\n")?;
                format!(in alloc;
                    " P: PROGRAM; STRUCTURE S: 1 A INTEGER{parts} ; DECLARE Z S-STRUCTURE INITIAL(1{values} ); CLOSE P;\n"
                )
            }
            Typing::Constants => {
                let constants = constants(alloc, count)?;
                format!(in alloc;
                    " P: PROGRAM; DECLARE A10000 INTEGER CONSTANT(1){constants} ; CLOSE P;\n"
                )
            }
        }
    }
}
