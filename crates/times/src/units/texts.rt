//! Units of one kind, of about so many words.

use std::alloc::{AllocError, Global};

/// What a unit is full of.
#[derive(Clone, Copy)]
pub(crate) enum Kind {
    /// One DECLARE of many names.
    List,
    /// One sum of many terms.
    Sum,
    /// One product of many factors.
    Product,
    /// Assignments of a number in 60 parentheses.
    Parentheses,
    /// Groups, 60 of them around one another.
    Groups,
    /// One statement with many labels.
    Labels,
    /// Statements of many kinds.
    Ordinary,
    /// Units, 60 of them in one another.
    Units,
    /// The same, with a word that can't be read in the last one of them.
    Stuck,
    /// Statements in 60 units in one another, none of which has an end.
    Endless,
}

pub(crate) const KINDS: [Kind; 10] = [
    Kind::List,
    Kind::Sum,
    Kind::Product,
    Kind::Parentheses,
    Kind::Groups,
    Kind::Labels,
    Kind::Ordinary,
    Kind::Units,
    Kind::Stuck,
    Kind::Endless,
];

/// What constructs are put around one another.
const DEPTH: usize = 60;

/// Statements of many kinds.
const ORDINARY: &str =
    " L: IF A + B > C AND NOT (D = 1) THEN CALL Q(A, B$(1 TO #)) ASSIGN(C);\n DO FOR I = 1 TO 10 BY 2 WHILE A < B; X$(I) = Y$(I) Z + 3**2; END;\n WRITE(6) 'A' CAT B, -X 2; WAIT 0.5; SCHEDULE T AT 5 PRIORITY(40), REPEAT EVERY 1;\n";

/// A text so many times, another one, and a third one so many times.
fn around(
    alloc: Global,
    count: usize,
    left: &str,
    middle: &str,
    right: &str,
) -> Result<String, AllocError> {
    let mut text = String::new(alloc);
    for _ in 0..count {
        text.push_str(left)?;
    }
    text.push_str(middle)?;
    for _ in 0..count {
        text.push_str(right)?;
    }
    Ok(text)
}

/// An assignment of a number in parentheses.
fn parenthesized(alloc: Global) -> Result<String, AllocError> {
    let number = around(alloc, DEPTH, "(", "1", ")")?;
    format!(in alloc; " A = {number};\n")
}

impl Kind {
    pub(crate) fn name(self) -> &'static str {
        match self {
            Kind::List => "list",
            Kind::Sum => "sum",
            Kind::Product => "product",
            Kind::Parentheses => "parentheses",
            Kind::Groups => "groups",
            Kind::Labels => "labels",
            Kind::Ordinary => "ordinary",
            Kind::Units => "units",
            Kind::Stuck => "stuck",
            Kind::Endless => "endless",
        }
    }

    /// What stands before the repeated text.
    fn begin(self, alloc: Global) -> Result<String, AllocError> {
        match self {
            Kind::List => String::from_str(alloc, " P: PROGRAM; DECLARE INTEGER, A"),
            Kind::Sum | Kind::Product => String::from_str(alloc, " P: PROGRAM; A = 1"),
            Kind::Endless => around(alloc, DEPTH, " Q: PROCEDURE;\n", "", ""),
            _ => String::from_str(alloc, " P: PROGRAM;\n"),
        }
    }

    /// What stands behind it.
    fn end(self) -> &'static str {
        match self {
            Kind::List | Kind::Sum | Kind::Product => " ; CLOSE P;\n",
            Kind::Labels => " A = 1; CLOSE P;\n",
            Kind::Stuck => " ) CLOSE P;\n",
            Kind::Endless => "",
            _ => " CLOSE P;\n",
        }
    }

    /// What is repeated.
    fn repeated(self, alloc: Global) -> Result<String, AllocError> {
        match self {
            Kind::List => String::from_str(alloc, " , A\n"),
            Kind::Sum => String::from_str(alloc, " + A\n"),
            Kind::Product => String::from_str(alloc, " A\n"),
            Kind::Parentheses => parenthesized(alloc),
            Kind::Groups => around(alloc, DEPTH, " DO;\n", " A = 1;\n", " END;\n"),
            Kind::Labels => String::from_str(alloc, " L:\n"),
            Kind::Ordinary => String::from_str(alloc, ORDINARY),
            Kind::Endless => String::from_str(alloc, " ;\n"),
            Kind::Units | Kind::Stuck => {
                around(alloc, DEPTH, " Q: PROCEDURE;\n", " A = 1;\n", " CLOSE;\n")
            }
        }
    }

    /// A unit of the kind with at least so many bytes.
    pub(crate) fn text(self, alloc: Global, size: usize) -> Result<Vec<u8>, AllocError> {
        let begin = self.begin(alloc)?;
        let repeated = self.repeated(alloc)?;
        let mut text = Vec::new(alloc);
        text.extend_from_slice(begin.as_bytes())?;
        for _ in 0..=size / repeated.len().max(1) {
            text.extend_from_slice(repeated.as_bytes())?;
        }
        text.extend_from_slice(self.end().as_bytes())?;
        Ok(text)
    }
}
