//! Declarations as rows write them: `(declare [integer double] [A (B (array 3))])`, where an item is its name, or its name and attributes in
//! brackets; `(structure S [(1 A integer) (1 B)])`; attributes as `(array 2 3)`, `(lock 1)`, `(lock *)`, `(initial 1 2)`, `(constant 1)`,
//! `single`, types as `integer`, `(bit 8)`, `(of S)` and `(of S 3)` for `S-STRUCTURE` and `S-STRUCTURE(3)`; repeated initial values as
//! `(3# -1)` and `(3# [1 2])`.

use crate::trees::pen::Pen;
use crate::trees::show_expressions::{expression, expressions, literal};
use hal_base::Place;
use hal_tree::{Attribute, Declaration, Declared, Expr, Initial, Mark, Part, Sign, Type};
use hal_words::Name;

fn word_of_mark(mark: Mark) -> &'static str {
    match mark {
        Mark::Single => "single",
        Mark::Double => "double",
        Mark::Latched => "latched",
        Mark::Static => "static",
        Mark::Automatic => "automatic",
        Mark::Dense => "dense",
        Mark::Aligned => "aligned",
    }
}

/// A word and its place.
fn plain(word: &str, place: Place, pen: &mut Pen) {
    pen.word(word);
    pen.place(place);
}

/// A tree of some kind with one expression.
fn single(kind: &str, place: Place, inner: &Expr, pen: &mut Pen) {
    pen.open(kind, place);
    expression(inner, pen);
    pen.close();
}

/// The type of a structure.
fn structure_type(place: Place, template: &Name, copies: &Option<Expr>, pen: &mut Pen) {
    pen.open("of", place);
    pen.bytes(template.bytes());
    if let Some(count) = copies {
        expression(count, pen);
    }
    pen.close();
}

/// A type.
pub(crate) fn type_of(tree: &Type, pen: &mut Pen) {
    match tree {
        Type::Integer { place } => plain("integer", *place, pen),
        Type::Boolean { place } => plain("boolean", *place, pen),
        Type::Event { place } => plain("event", *place, pen),
        Type::Bit { place, size } => single("bit", *place, size, pen),
        Type::Character { place, size } => single("character", *place, size, pen),
        Type::Structure {
            place,
            template,
            copies,
        } => structure_type(*place, template, copies, pen),
    }
}

/// What a repeated initial value begins with.
fn times(place: Place, count: u32, sign: Option<Sign>, pen: &mut Pen) {
    pen.word("(");
    pen.join();
    pen.number(u64::from(count));
    pen.tail("#");
    pen.place(place);
    if let Some(sign) = sign {
        pen.sign(sign);
    }
}

/// An initial value.
#[cycle(showing_initials)]
fn initial(tree: &Initial, pen: &mut Pen) {
    match tree {
        Initial::Value { value } => expression(value, pen),
        Initial::LiteralTimes {
            place,
            count,
            sign,
            at,
            literal: value,
        } => {
            times(*place, *count, *sign, pen);
            literal(value, *at, pen);
            pen.close();
        }
        Initial::NameTimes {
            place,
            count,
            sign,
            name,
        } => {
            times(*place, *count, *sign, pen);
            pen.name(name);
            pen.close();
        }
        Initial::ListTimes {
            place,
            count,
            values,
        } => {
            times(*place, *count, None, pen);
            pen.open_list();
            initials(values, pen);
            pen.close_list();
            pen.close();
        }
    }
}

/// Initial values.
#[cycle(showing_initials)]
fn initials(trees: &[Initial], pen: &mut Pen) {
    for tree in trees {
        initial(tree, pen);
    }
}

/// A tree of some kind with initial values.
fn with_values(kind: &str, place: Place, values: &[Initial], pen: &mut Pen) {
    pen.open(kind, place);
    initials(values, pen);
    pen.close();
}

/// An attribute.
fn attribute(tree: &Attribute, pen: &mut Pen) {
    match tree {
        Attribute::Dimensions { place, sizes } => {
            pen.open("array", *place);
            expressions(sizes, pen);
            pen.close();
        }
        Attribute::Typed(kind) => type_of(kind, pen),
        Attribute::Marked { place, mark } => plain(word_of_mark(*mark), *place, pen),
        Attribute::LockGroup { place, group } => single("lock", *place, group, pen),
        Attribute::LockAny { place } => {
            pen.open("lock", *place);
            pen.word("*");
            pen.close();
        }
        Attribute::Initial { place, values } => with_values("initial", *place, values, pen),
        Attribute::Constant { place, values } => with_values("constant", *place, values, pen),
    }
}

/// Attributes.
fn attributes(trees: &[Attribute], pen: &mut Pen) {
    for tree in trees {
        attribute(tree, pen);
    }
}

/// A name and its attributes.
fn declared(tree: &Declared, pen: &mut Pen) {
    if tree.attributes.is_empty() {
        return pen.name(&tree.name);
    }
    pen.word("(");
    pen.join();
    pen.name(&tree.name);
    attributes(&tree.attributes, pen);
    pen.close();
}

/// Names and their attributes.
fn items(trees: &[Declared], pen: &mut Pen) {
    pen.open_list();
    for tree in trees {
        declared(tree, pen);
    }
    pen.close_list();
}

/// A part of a structure.
fn part(tree: &Part, pen: &mut Pen) {
    pen.word("(");
    pen.join();
    pen.number(u64::from(tree.level));
    pen.place(tree.place);
    pen.name(&tree.name);
    attributes(&tree.attributes, pen);
    pen.close();
}

/// The parts of a structure.
fn parts(trees: &[Part], pen: &mut Pen) {
    pen.open_list();
    for tree in trees {
        part(tree, pen);
    }
    pen.close_list();
}

/// A declaration.
fn declaration(tree: &Declaration, pen: &mut Pen) {
    match tree {
        Declaration::Declare {
            place,
            common,
            items: all,
        } => {
            pen.open("declare", *place);
            pen.open_list();
            attributes(common, pen);
            pen.close_list();
            items(all, pen);
        }
        Declaration::Structure {
            place,
            name,
            parts: all,
        } => {
            pen.open("structure", *place);
            pen.name(name);
            parts(all, pen);
        }
    }
    pen.close();
}

/// Declarations.
pub(crate) fn declarations(trees: &[Declaration], pen: &mut Pen) {
    for tree in trees {
        declaration(tree, pen);
    }
}
