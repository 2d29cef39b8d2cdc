//! The file that a row's source makes, its tree, and what the row holds of the tree.

use crate::trees::pen::{Pen, UNIT};
use crate::trees::show_declarations::declarations;
use crate::trees::show_expressions::expression;
use crate::trees::show_units::{elements, file};
use hal_base::Fault;
use hal_copies::copy_file;
use hal_lexer::tokens;
use hal_parse::parse;
use hal_tree::{Basic, Element, Expr, File, Statement};
use std::alloc::{AllocError, Global};

/// Which file a row's source makes, and how much of the file's tree the row holds.
#[derive(Clone, Copy)]
pub(crate) enum Source {
    /// It is the file.
    File,
    /// The declarations, statements and units of a PROGRAM, on line 2 from column 2 on.
    Inside,
    /// The value of a RETURN there.
    Value,
}

impl Source {
    /// What stands before the source.
    fn before(self) -> &'static [u8] {
        match self {
            Source::File => b"",
            Source::Inside => b" P: PROGRAM;\n ",
            Source::Value => b" P: PROGRAM; RETURN\n ",
        }
    }

    /// What stands behind it.
    fn behind(self) -> &'static [u8] {
        match self {
            Source::File => b"",
            Source::Inside => b"\n CLOSE P;\n",
            Source::Value => b"\n ; CLOSE P;\n",
        }
    }
}

/// The value of a PROGRAM that is nothing but RETURN with a value.
fn returned(tree: &File) -> Option<&Expr> {
    if !tree.prefaces.is_empty() || !tree.unit.declarations.is_empty() {
        return None;
    }
    match tree.unit.elements.as_slice() {
        [
            Element::Statement(
                Statement {
                    basic: Basic::Return {
                        value: Some(value),
                        ..
                    },
                    ..
                },
            ),
        ] => Some(value),
        _ => None,
    }
}

/// As much of a file's tree as a row holds.
fn write_tree(source: Source, tree: &File, pen: &mut Pen) {
    match source {
        Source::File => file(tree, pen),
        Source::Inside => {
            declarations(&tree.unit.declarations, pen);
            elements(&tree.unit.elements, pen);
        }
        Source::Value => match returned(tree) {
            Some(value) => expression(value, pen),
            None => file(tree, pen),
        },
    }
}

/// A broken rule, and where it is broken.
pub(crate) fn write_fault(fault: &Fault, pen: &mut Pen) {
    match fault {
        Fault::Broken(refusal) => {
            pen.word("rule");
            pen.number(u64::from(refusal.rule.0));
            pen.number(refusal.place.line);
            pen.tail(":");
            pen.join();
            pen.number(refusal.place.column);
            if refusal.place.unit != UNIT {
                pen.word("of another file");
            }
        }
        Fault::Memory(_) => pen.cut(),
    }
}

/// The file that the source makes.
fn file_of(alloc: Global, source: Source, text: &[u8]) -> Result<Vec<u8>, AllocError> {
    let mut file = Vec::new(alloc);
    file.extend_from_slice(source.before())?;
    file.extend_from_slice(text)?;
    file.extend_from_slice(source.behind())?;
    Ok(file)
}

/// The tree of a source's file, or what keeps it from having one.
fn tree_of(alloc: Global, source: Source, text: &[u8]) -> Result<File, Fault> {
    let Ok(file) = file_of(alloc, source, text) else {
        return Err(Fault::Memory(AllocError));
    };
    let words = tokens(alloc, file.as_slice(), UNIT)?;
    parse(alloc, words.as_slice(), UNIT)
}

/// Writes a copy of a tree, so that each row tries copies too.
fn write_copy(alloc: Global, source: Source, tree: &File, pen: &mut Pen) {
    match copy_file(alloc, tree) {
        Ok(copied) => write_tree(source, &copied, pen),
        Err(_) => pen.cut(),
    }
}

/// Writes what a source gives.
fn write_given(alloc: Global, source: Source, text: &[u8], pen: &mut Pen) {
    match tree_of(alloc, source, text) {
        Err(fault) => write_fault(&fault, pen),
        Ok(tree) => write_copy(alloc, source, &tree, pen),
    }
}

/// What a source gives.
pub(crate) fn given(
    alloc: Global,
    source: Source,
    has_places: bool,
    text: &[u8],
) -> Result<String, AllocError> {
    let mut pen = Pen::new(alloc, has_places);
    write_given(alloc, source, text, &mut pen);
    pen.into_text()
}

/// The rule that a source breaks, and its place.
pub(crate) fn broken(
    alloc: Global,
    source: Source,
    text: &[u8],
) -> Result<Option<String>, AllocError> {
    let Err(fault) = tree_of(alloc, source, text) else {
        return Ok(None);
    };
    let mut pen = Pen::new(alloc, false);
    write_fault(&fault, &mut pen);
    let broken = pen.into_text()?;
    Ok(Some(broken))
}
