//! Units and files as rows write them: `(unit P program [declarations] [statements and units] close P)`; heads as `program`, `compool`, `task`,
//! `(procedure [A B] [C] reentrant)`, `(function [A] integer double exclusive)`; `(template T task [declarations] close T)`;
//! `(include POOL)`. A file is its includes and templates and its unit.

use crate::trees::pen::Pen;
use crate::trees::show_declarations::{declarations, type_of};
use crate::trees::show_statements::statement;
use hal_base::Place;
use hal_tree::{
    Element, File, Head, Identifier, Mode, Precision, Preface, Returns, Template, Unit,
};

/// Names in a list.
fn name_list(names: &[Identifier], pen: &mut Pen) {
    pen.open_list();
    pen.names(names);
    pen.close_list();
}

/// A word and its place.
fn plain(word: &str, place: Place, pen: &mut Pen) {
    pen.word(word);
    pen.place(place);
}

/// How a block is shared, or nothing.
fn mode(tree: &Option<Mode>, pen: &mut Pen) {
    match tree {
        None => {}
        Some(Mode::Reentrant { place }) => plain("reentrant", *place, pen),
        Some(Mode::Exclusive { place }) => plain("exclusive", *place, pen),
    }
}

/// The precision of a result, or nothing.
fn precision(tree: &Option<Precision>, pen: &mut Pen) {
    match tree {
        None => {}
        Some(Precision::Single { place }) => plain("single", *place, pen),
        Some(Precision::Double { place }) => plain("double", *place, pen),
    }
}

/// The type of a result, or nothing.
fn returns(tree: &Returns, pen: &mut Pen) {
    match tree {
        Returns::Untyped => {}
        Returns::Typed {
            kind,
            precision: how,
        } => {
            type_of(kind, pen);
            precision(how, pen);
        }
    }
}

/// The head of a unit.
fn head(tree: &Head, pen: &mut Pen) {
    match tree {
        Head::Program { place } => plain("program", *place, pen),
        Head::Compool { place } => plain("compool", *place, pen),
        Head::Task { place } => plain("task", *place, pen),
        Head::Procedure {
            place,
            inputs,
            outputs,
            mode: shared,
        } => {
            pen.open("procedure", *place);
            name_list(inputs, pen);
            name_list(outputs, pen);
            mode(shared, pen);
            pen.close();
        }
        Head::Function {
            place,
            inputs,
            returns: result,
            mode: shared,
        } => {
            pen.open("function", *place);
            name_list(inputs, pen);
            returns(result, pen);
            mode(shared, pen);
            pen.close();
        }
    }
}

/// A unit.
#[cycle(showing_units)]
fn unit(tree: &Unit, pen: &mut Pen) {
    pen.word("(unit");
    pen.name(&tree.name);
    head(&tree.head, pen);
    pen.open_list();
    declarations(&tree.declarations, pen);
    pen.close_list();
    pen.open_list();
    elements(&tree.elements, pen);
    pen.close_list();
    pen.optional_name("close", &tree.close);
    pen.close();
}

/// A statement or a unit.
#[cycle(showing_units)]
fn element(tree: &Element, pen: &mut Pen) {
    match tree {
        Element::Statement(inner) => statement(inner, pen),
        Element::Unit(inner) => unit(inner, pen),
    }
}

/// Statements and units.
#[cycle(showing_units)]
pub(crate) fn elements(trees: &[Element], pen: &mut Pen) {
    for tree in trees {
        element(tree, pen);
    }
}

/// A template.
fn template(tree: &Template, pen: &mut Pen) {
    pen.word("(template");
    pen.name(&tree.name);
    head(&tree.head, pen);
    pen.open_list();
    declarations(&tree.declarations, pen);
    pen.close_list();
    pen.optional_name("close", &tree.close);
    pen.close();
}

/// INCLUDE or a template.
fn preface(tree: &Preface, pen: &mut Pen) {
    match tree {
        Preface::Include { place, name } => {
            pen.open("include", *place);
            pen.name(name);
            pen.close();
        }
        Preface::Template(inner) => template(inner, pen),
    }
}

/// A file.
pub(crate) fn file(tree: &File, pen: &mut Pen) {
    for one in &tree.prefaces {
        preface(one, pen);
    }
    unit(&tree.unit, pen);
}
