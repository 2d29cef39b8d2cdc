//! Expressions as rows write them: `(or A B)`, `(and A B)`, `(= A B)`, `(cat A B)`, `(sum -A +B)`, `(product A B)`, `(power A B)`,
//! `(not A)`, `(call F A B)`, `(integer A)`, and `{A}` for a parenthesis. Literals and names stand for themselves, bits as
//! `(bits 4 15)` with their number and what they write, a decimal in thousandths as `500t`. A reference's subscript is `A$K`, `A$1`, or
//! `A$[copies;arrays:components]`, and in it stand `*`, `(to A B)`, `(portion A B)` for `A AT B`, and `(# -1)`.

use crate::trees::pen::Pen;
use hal_base::Place;
use hal_tree::{
    Conversion, Expr, Identifier, LiteralValue, Position, Reference, Relation, SignedTerm, Sub,
    Subscript,
};

fn word_of_relation(relation: Relation) -> &'static str {
    match relation {
        Relation::Equal => "=",
        Relation::Less => "<",
        Relation::Greater => ">",
        Relation::AtMost => "<=",
        Relation::AtLeast => ">=",
        Relation::NotEqual => "not=",
        Relation::NotLess => "not<",
        Relation::NotGreater => "not>",
    }
}

fn word_of_conversion(conversion: Conversion) -> &'static str {
    match conversion {
        Conversion::Integer => "integer",
        Conversion::Bit => "bit",
        Conversion::Character => "character",
    }
}

/// Bits.
fn bits(len: u8, word: u32, pen: &mut Pen) {
    pen.word("(bits");
    pen.number(u64::from(len));
    pen.number(u64::from(word));
    pen.close();
}

/// A literal and its place.
pub(crate) fn literal(literal: &LiteralValue, place: Place, pen: &mut Pen) {
    match literal {
        LiteralValue::Integer(number) => pen.number(u64::from(*number)),
        LiteralValue::Text(text) => {
            pen.word("'");
            pen.join();
            pen.bytes(text.bytes());
            pen.tail("'");
        }
        LiteralValue::Bits { len, word } => bits(*len, *word, pen),
        LiteralValue::True => pen.word("TRUE"),
        LiteralValue::False => pen.word("FALSE"),
        LiteralValue::On => pen.word("ON"),
        LiteralValue::Off => pen.word("OFF"),
    }
    pen.place(place);
}

/// A number of thousandths.
fn decimal(thousandths: u64, place: Place, pen: &mut Pen) {
    pen.number(thousandths);
    pen.tail("t");
    pen.place(place);
}

/// The kind of an expression that stands in brackets with its kind.
fn word_of(tree: &Expr) -> &'static str {
    match tree {
        Expr::Or { .. } => "or",
        Expr::And { .. } => "and",
        Expr::Compare { relation, .. } => word_of_relation(*relation),
        Expr::Cat { .. } => "cat",
        Expr::Sum { .. } => "sum",
        Expr::Product { .. } => "product",
        Expr::Power { .. } => "power",
        Expr::Not { .. } => "not",
        Expr::Call { .. } => "call",
        Expr::Convert { conversion, .. } => word_of_conversion(*conversion),
        _ => "another expression",
    }
}

/// An expression.
#[cycle(showing)]
pub(crate) fn expression(tree: &Expr, pen: &mut Pen) {
    match tree {
        Expr::Literal {
            place,
            literal: value,
        } => literal(&value.value(), *place, pen),
        Expr::Decimal { place, thousandths } => decimal(*thousandths, *place, pen),
        Expr::Reference(inner) => reference(inner, pen),
        Expr::Parenthesis { place, inner } => {
            pen.word("{");
            pen.place(*place);
            pen.join();
            expression(inner, pen);
            pen.tail("}");
        }
        _ => {
            pen.open(word_of(tree), tree.place());
            parts_of(tree, pen);
            pen.close();
        }
    }
}

/// The parts of an expression that stands in brackets with its kind: of one with two parts or more.
#[cycle(showing)]
fn parts_of(tree: &Expr, pen: &mut Pen) {
    match tree {
        Expr::Or { first, others, .. } => {
            expression(first, pen);
            expressions(others, pen);
        }
        Expr::And { first, others, .. } => {
            expression(first, pen);
            expressions(others, pen);
        }
        Expr::Cat { first, others, .. } => {
            expression(first, pen);
            expressions(others, pen);
        }
        Expr::Product { first, others, .. } => {
            expression(first, pen);
            expressions(others, pen);
        }
        Expr::Compare { left, right, .. } => {
            expression(left, pen);
            expression(right, pen);
        }
        Expr::Power { base, exponent, .. } => {
            expression(base, pen);
            expression(exponent, pen);
        }
        _ => other_parts_of(tree, pen),
    }
}

/// The parts of a sum, a call, or an expression with one part.
#[cycle(showing)]
fn other_parts_of(tree: &Expr, pen: &mut Pen) {
    match tree {
        Expr::Sum {
            opening,
            first,
            others,
            ..
        } => {
            if let Some(sign) = opening {
                pen.sign(*sign);
            }
            expression(first, pen);
            terms(others, pen);
        }
        Expr::Call {
            name,
            arguments,
            ..
        } => {
            pen.bytes(name.bytes());
            expressions(arguments, pen);
        }
        Expr::Not { operand, .. } => expression(operand, pen),
        Expr::Convert { operand, .. } => expression(operand, pen),
        _ => {}
    }
}

/// Expressions.
#[cycle(showing)]
pub(crate) fn expressions(trees: &[Expr], pen: &mut Pen) {
    for tree in trees {
        expression(tree, pen);
    }
}

/// Terms with their signs.
#[cycle(showing)]
fn terms(trees: &[SignedTerm], pen: &mut Pen) {
    for tree in trees {
        term(tree, pen);
    }
}

/// A term with its sign.
#[cycle(showing)]
fn term(tree: &SignedTerm, pen: &mut Pen) {
    pen.sign(tree.sign);
    pen.place(tree.place);
    expression(&tree.term, pen);
}

/// The further names of a reference.
fn further(names: &[Identifier], pen: &mut Pen) {
    for name in names {
        pen.tail(".");
        pen.join();
        pen.name(name);
    }
}

/// A reference.
#[cycle(showing)]
pub(crate) fn reference(tree: &Reference, pen: &mut Pen) {
    pen.name_at(&tree.name, tree.place);
    further(&tree.further, pen);
    subscript(&tree.subscript, pen);
}

/// References.
pub(crate) fn references(trees: &[Reference], pen: &mut Pen) {
    for tree in trees {
        reference(tree, pen);
    }
}

/// A subscript, or nothing.
#[cycle(showing)]
fn subscript(tree: &Subscript, pen: &mut Pen) {
    match tree {
        Subscript::None => {}
        Subscript::Name { place, name } => {
            dollar(*place, pen);
            pen.name(name);
        }
        Subscript::Integer { place, at, number } => {
            dollar(*place, pen);
            pen.number(u64::from(*number));
            pen.place(*at);
        }
        Subscript::Parts {
            place,
            copies,
            arrays,
            components,
        } => {
            dollar(*place, pen);
            pen.open_list();
            subs(copies, pen);
            pen.tail(";");
            pen.join();
            subs(arrays, pen);
            pen.tail(":");
            pen.join();
            subs(components, pen);
            pen.close_list();
        }
    }
}

/// What a subscript begins with.
fn dollar(place: Place, pen: &mut Pen) {
    pen.tail("$");
    pen.place(place);
    pen.join();
}

/// The subscripts of one part.
#[cycle(showing)]
fn subs(trees: &[Sub], pen: &mut Pen) {
    for tree in trees {
        sub(tree, pen);
    }
}

/// One subscript.
#[cycle(showing)]
fn sub(tree: &Sub, pen: &mut Pen) {
    match tree {
        Sub::Every { place } => {
            pen.word("*");
            pen.place(*place);
        }
        Sub::One { position: only } => position(only, pen),
        Sub::Range { first, last } => {
            pen.word("(to");
            position(first, pen);
            position(last, pen);
            pen.close();
        }
        Sub::Portion { count, first } => {
            pen.word("(portion");
            expression(count, pen);
            position(first, pen);
            pen.close();
        }
    }
}

/// A position.
#[cycle(showing)]
fn position(tree: &Position, pen: &mut Pen) {
    match tree {
        Position::FromBeginning { position } => expression(position, pen),
        Position::FromEnd { place, terms: more } => {
            pen.open("#", *place);
            terms(more, pen);
            pen.close();
        }
    }
}
