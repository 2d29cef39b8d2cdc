//! The values of constant expressions.

ghost use Rattle.std.specs.Prelude.{◌≡◌, map};
ghost use Rattle.hal_constants.specs.declared.operation.Operation.TheVariants as operation;
ghost use Rattle.hal_tree.specs.Rows.{expressions, subscripts, terms};
ghost use Rattle.hal_tree.specs.SeenExpressions.{seen_expression, seen_position, seen_reference, seen_signed, seen_sub, seen_subscript};
ghost use Rattle.hal_tree.specs.SeenLeaves.{seen_literal};
ghost use Rattle.hal_storage.specs.referents.SeenReferents.{seen_meant, seen_referent};
ghost use Rattle.hal_gen_expr.specs.Constants as constants;
ghost use Rattle.hal_gen_expr.specs.SeenSites.{seen_site, IsSite};

use crate::names::referent;
use crate::results::{
    add, apply_one, apply_two, convert, integer_in, one_place, part_of, places_at, places_to,
    signed,
};
use crate::site::Site;
use hal_constants::{Operation, operation_of};
use hal_operations::{Op1, Op2, Part, place_count};
use hal_storage::referents::{Meant, Referent};
use hal_tree::{Expr, LiteralValue, Position, Reference, SignedTerm, Sub, Subscript};
use hal_values::{Text, Value};
use hal_words::{Literal, Name};

/// An integer, where it has 31 bits.
fn whole(number: u32) -> Option<Value>
    ensures { result ≡ constants.whole number }
{
    match i32::try_from(number) {
        Ok(number) => Some(Value::Int(number)),
        Err(_) => None,
    }
}

/// The text of a literal, where it isn't too long.
fn literal_text(text: &Literal) -> Option<Value>
    ensures { result ≡ constants.literal_text text.now }
{
    match Text::of(text.bytes()) {
        None => None,
        Some(text) => Some(Value::Text(text)),
    }
}

/// The value of a literal, where its integer has 31 bits and its text isn't too long.
fn literal_of(literal: LiteralValue) -> Option<Value>
    ensures { result ≡ constants.literal_of (seen_literal literal) }
{
    match literal {
        LiteralValue::Integer(number) => whole(number),
        LiteralValue::Text(text) => literal_text(&text),
        LiteralValue::Bits { len, word } => Some(Value::Bits { len, word }),
        LiteralValue::True => Some(Value::Bits { len: 1, word: 1 }),
        LiteralValue::On => Some(Value::Bits { len: 1, word: 1 }),
        LiteralValue::False => Some(Value::Bits { len: 1, word: 0 }),
        LiteralValue::Off => Some(Value::Bits { len: 1, word: 0 }),
    }
}

/// The exponent that a literal is.
fn exponent_in(literal: LiteralValue) -> Option<Value>
    ensures { result ≡ constants.exponent_in (seen_literal literal) }
{
    match literal {
        LiteralValue::Integer(number) => whole(number),
        _ => None,
    }
}

/// An exponent; another one than an integer literal is none.
#[tactic(auto, using(hal_tree::proofs::MadeExpressions::made_or, hal_tree::proofs::MadeExpressions::made_and, hal_tree::proofs::MadeExpressions::made_compare, hal_tree::proofs::MadeExpressions::made_cat, hal_tree::proofs::MadeExpressions::made_sum, hal_tree::proofs::MadeExpressions::made_product, hal_tree::proofs::MadeExpressions::made_power, hal_tree::proofs::MadeExpressions::made_not, hal_tree::proofs::MadeExpressions::made_literal, hal_tree::proofs::MadeExpressions::made_decimal, hal_tree::proofs::MadeExpressions::made_referred, hal_tree::proofs::MadeExpressions::made_call, hal_tree::proofs::MadeExpressions::made_convert, hal_tree::proofs::MadeExpressions::made_parenthesis))]
fn exponent(tree: &Expr) -> Option<Value>
    ensures { result ≡ constants.exponent (seen_expression tree.now) }
{
    match tree {
        Expr::Literal { place: _, literal } => exponent_in(literal.value()),
        Expr::Or { .. } => None,
        Expr::And { .. } => None,
        Expr::Compare { .. } => None,
        Expr::Cat { .. } => None,
        Expr::Sum { .. } => None,
        Expr::Product { .. } => None,
        Expr::Power { .. } => None,
        Expr::Not { .. } => None,
        Expr::Decimal { .. } => None,
        Expr::Reference(_) => None,
        Expr::Call { .. } => None,
        Expr::Convert { .. } => None,
        Expr::Parenthesis { .. } => None,
    }
}

/// The value that a CONSTANT is.
fn referent_value(referent: &Referent) -> Option<Value>
    ensures { result ≡ constants.referent_value (seen_referent referent.now) }
{
    match referent {
        Referent::Constant(value) => Some(value.copy()),
        Referent::Data { .. } => None,
        Referent::Event(_) => None,
        Referent::Block(_) => None,
        Referent::Nothing => None,
    }
}

/// The value of what a name means.
fn meant_value(meant: Meant<'_>) -> Option<Value>
    ensures { result ≡ constants.referent_value (seen_meant meant.entry) }
{
    match meant {
        Meant::Declared(referent) => referent_value(referent),
        Meant::Builtin(_) => None,
        Meant::Nothing => None,
    }
}

/// What a name is worth where it has no subscript.
fn named(site: &Site<'_>, name: &Name) -> Option<Value>
    requires site { IsSite site.now }
    ensures { result ≡ constants.named (seen_site site.now) name.now }
{
    meant_value(referent(site, name))
}

/// The place of a value that a name in its subscript chooses.
fn place_named(site: &Site<'_>, name: &Name) -> Option<Part>
    requires site { IsSite site.now }
    ensures { result ≡ constants.one_place (constants.integer_in (constants.named (seen_site site.now) name.now)) }
{
    one_place(integer_in(&named(site, name)))
}

/// The place of a value that an integer is.
fn place_numbered(number: u32) -> Option<Part>
    ensures { result ≡ constants.one_place (constants.integer_in (constants.whole number)) }
{
    one_place(integer_in(&whole(number)))
}

/// The value of a constant expression, as far as it has one: where each operation takes its operands and none raises an error (language document, Constant
/// expressions).
#[cycle(constants)]
#[tactic(auto, using(hal_tree::proofs::MadeExpressions::made_or, hal_tree::proofs::MadeExpressions::made_and, hal_tree::proofs::MadeExpressions::made_compare, hal_tree::proofs::MadeExpressions::made_cat, hal_tree::proofs::MadeExpressions::made_sum, hal_tree::proofs::MadeExpressions::made_product, hal_tree::proofs::MadeExpressions::made_power, hal_tree::proofs::MadeExpressions::made_not, hal_tree::proofs::MadeExpressions::made_literal, hal_tree::proofs::MadeExpressions::made_decimal, hal_tree::proofs::MadeExpressions::made_referred, hal_tree::proofs::MadeExpressions::made_call, hal_tree::proofs::MadeExpressions::made_convert, hal_tree::proofs::MadeExpressions::made_parenthesis))]
fn value_of(tree: &Expr, site: &Site<'_>) -> Option<Value>
    requires site { IsSite site.now }
    ensures { result ≡ constants.value_of (seen_site site.now) (seen_expression tree.now) }
{
    match tree {
        Expr::Or { first, others, .. } => {
            let first = value_of(first, site);
            folded(others, first, Op2::Or, site)
        }
        Expr::And { first, others, .. } => {
            let first = value_of(first, site);
            folded(others, first, Op2::And, site)
        }
        Expr::Compare { .. } => None,
        Expr::Cat { first, others, .. } => {
            let first = value_of(first, site);
            folded(others, first, Op2::Cat, site)
        }
        Expr::Sum {
            place: _,
            opening,
            first,
            others,
        } => {
            let first = signed(*opening, value_of(first, site));
            summed(others, first, site)
        }
        Expr::Product { first, others, .. } => {
            let first = value_of(first, site);
            folded(others, first, Op2::Product, site)
        }
        Expr::Power {
            place: _,
            base,
            exponent: raised,
        } => apply_two(Op2::Power, &value_of(base, site), &exponent(raised)),
        Expr::Not { operand, .. } => apply_one(Op1::Not, &value_of(operand, site)),
        Expr::Literal { place: _, literal } => literal_of(literal.value()),
        Expr::Decimal { .. } => None,
        Expr::Reference(reference) => referred(reference, site),
        Expr::Call {
            place: _,
            name,
            arguments,
        } => called(arguments, referent(site, name), site),
        Expr::Convert {
            place: _,
            conversion,
            operand,
        } => convert(*conversion, &value_of(operand, site)),
        Expr::Parenthesis { inner, .. } => value_of(inner, site),
    }
}

/// An operation between a value and each of these in turn.
#[cycle(constants)]
#[tactic(auto, unfolding(hal_tree::specs::Rows::expressions))]
fn folded(trees: &[Expr], first: Option<Value>, op: Op2, site: &Site<'_>) -> Option<Value>
    requires site { IsSite site.now }
    ensures { result ≡ constants.folded (seen_site site.now) op first (expressions (map seen_expression trees.now)) }
{
    let mut so_far = first;
    for tree in trees {
        so_far = apply_two(op, &so_far, &value_of(tree, site));
    }
    so_far
}

/// Terms that are added to a value or taken from it.
#[cycle(constants)]
#[tactic(auto, unfolding(hal_tree::specs::Rows::terms))]
fn summed(list: &[SignedTerm], first: Option<Value>, site: &Site<'_>) -> Option<Value>
    requires site { IsSite site.now }
    ensures { result ≡ constants.summed (seen_site site.now) first (terms (map seen_signed list.now)) }
{
    let mut so_far = first;
    for term in list {
        so_far = with_term(term, &so_far, site);
    }
    so_far
}

/// A term that is added to a value or taken from it.
#[cycle(constants)]
#[tactic(auto, using(hal_tree::proofs::MadeExpressions::made_signed))]
fn with_term(term: &SignedTerm, so_far: &Option<Value>, site: &Site<'_>) -> Option<Value>
    requires site { IsSite site.now }
    ensures { result ≡ constants.with_term (seen_site site.now) so_far.now (seen_signed term.now) }
{
    add(term.sign, so_far, &value_of(&term.term, site))
}

/// A name with a list: the product of a CONSTANT and a parenthesis, or a built-in function.
#[cycle(constants)]
fn called(arguments: &[Expr], meant: Meant<'_>, site: &Site<'_>) -> Option<Value>
    requires site { IsSite site.now }
    ensures { result ≡ constants.of_call (seen_site site.now) (expressions (map seen_expression arguments.now)) (seen_meant meant.entry) }
{
    match meant {
        Meant::Declared(referent) => multiplied(arguments, referent, site),
        Meant::Builtin(builtin) => built(arguments, operation_of(builtin), site),
        Meant::Nothing => None,
    }
}

/// The product of a CONSTANT and a parenthesis.
#[cycle(constants)]
fn multiplied(arguments: &[Expr], referent: &Referent, site: &Site<'_>) -> Option<Value>
    requires site { IsSite site.now }
    ensures { result ≡ constants.of_call (seen_site site.now) (expressions (map seen_expression arguments.now)) (seen_referent referent.now) }
{
    match referent {
        Referent::Constant(value) => folded(arguments, Some(value.copy()), Op2::Product, site),
        Referent::Data { .. } => None,
        Referent::Event(_) => None,
        Referent::Block(_) => None,
        Referent::Nothing => None,
    }
}

/// A built-in function of these arguments.
#[cycle(constants)]
fn built(arguments: &[Expr], computes: Operation, site: &Site<'_>) -> Option<Value>
    requires site { IsSite site.now }
    ensures { result ≡ constants.built (seen_site site.now) computes (expressions (map seen_expression arguments.now)) }
{
    match computes {
        Operation::One(op) => built_one(arguments, op, site),
        Operation::Two(op) => built_two(arguments, op, site),
        Operation::Size => None,
        Operation::Nothing => None,
    }
}

/// A built-in function of one argument.
#[cycle(constants)]
#[tactic(auto, using(hal_kinds::proofs::Lists::none_left), unfolding(hal_tree::specs::Rows::expressions))]
fn built_one(arguments: &[Expr], op: Op1, site: &Site<'_>) -> Option<Value>
    requires site { IsSite site.now }
    ensures { result ≡ constants.built (seen_site site.now) (operation.One op) (expressions (map seen_expression arguments.now)) }
{
    let Some((tree, others)) = arguments.split_first() else {
        return None;
    };
    if others.is_empty() {
        apply_one(op, &value_of(tree, site))
    } else {
        None
    }
}

/// A built-in function of two arguments.
#[cycle(constants)]
#[tactic(auto, using(hal_kinds::proofs::Lists::none_left), unfolding(hal_tree::specs::Rows::expressions))]
fn built_two(arguments: &[Expr], op: Op2, site: &Site<'_>) -> Option<Value>
    requires site { IsSite site.now }
    ensures { result ≡ constants.built (seen_site site.now) (operation.Two op) (expressions (map seen_expression arguments.now)) }
{
    let Some((left, others)) = arguments.split_first() else {
        return None;
    };
    let Some((right, more)) = others.split_first() else {
        return None;
    };
    if more.is_empty() {
        let left = value_of(left, site);
        apply_two(op, &left, &value_of(right, site))
    } else {
        None
    }
}

/// A reference.
#[cycle(constants)]
#[tactic(auto, using(hal_tree::proofs::MadeExpressions::made_reference))]
fn referred(reference: &Reference, site: &Site<'_>) -> Option<Value>
    requires site { IsSite site.now }
    ensures { result ≡ constants.referred (seen_site site.now) (seen_reference reference.now) }
{
    match named(site, &reference.name) {
        None => None,
        Some(value) => component(&reference.subscript, value, site),
    }
}

/// The component of a value that a subscript chooses.
#[cycle(constants)]
#[tactic(auto, using(hal_tree::proofs::MadeExpressions::made_unsubscripted, hal_tree::proofs::MadeExpressions::made_by_name, hal_tree::proofs::MadeExpressions::made_by_integer, hal_tree::proofs::MadeExpressions::made_by_parts))]
fn component(subscript: &Subscript, value: Value, site: &Site<'_>) -> Option<Value>
    requires site { IsSite site.now }
    ensures { result ≡ constants.component (seen_site site.now) value (seen_subscript subscript.now) }
{
    match subscript {
        Subscript::None => Some(value),
        Subscript::Name { place: _, name } => part_of(&value, place_named(site, &name.name)),
        Subscript::Integer { number, .. } => part_of(&value, place_numbered(*number)),
        Subscript::Parts { components, .. } => parts_of(components, &value, site),
    }
}

/// The component of a value that the first of these subscripts chooses.
#[cycle(constants)]
#[tactic(auto, unfolding(hal_tree::specs::Rows::subscripts))]
fn parts_of(subs: &[Sub], value: &Value, site: &Site<'_>) -> Option<Value>
    requires site { IsSite site.now }
    ensures { result ≡ constants.parts_of (seen_site site.now) value.now (subscripts (map seen_sub subs.now)) }
{
    let Some((first, _)) = subs.split_first() else {
        return None;
    };
    part_of(
        value,
        part_chosen(first, u16::from(place_count(value)), site),
    )
}

/// The places of a component that a subscript chooses.
#[cycle(constants)]
#[tactic(auto, using(hal_tree::proofs::MadeExpressions::made_every, hal_tree::proofs::MadeExpressions::made_one, hal_tree::proofs::MadeExpressions::made_range, hal_tree::proofs::MadeExpressions::made_portion))]
fn part_chosen(sub: &Sub, size: u16, site: &Site<'_>) -> Option<Part>
    requires site { IsSite site.now }
    ensures { result ≡ constants.part_chosen (seen_site site.now) size (seen_sub sub.now) }
{
    match sub {
        Sub::Every { place: _ } => Some(Part::To {
            first: 1,
            last: i32::from(size),
        }),
        Sub::One { position } => one_place(place_of(position, size, site)),
        Sub::Range { first, last } => {
            let first = place_of(first, size, site);
            places_to(first, place_of(last, size, site))
        }
        Sub::Portion { count, first } => {
            let count = integer_in(&value_of(count, site));
            places_at(count, place_of(first, size, site))
        }
    }
}

/// A place of so many, where it is constant; `#` is the last one.
#[cycle(constants)]
#[tactic(auto, using(hal_tree::proofs::MadeExpressions::made_from_beginning, hal_tree::proofs::MadeExpressions::made_from_end))]
pub(crate) fn place_of(position: &Position, size: u16, site: &Site<'_>) -> Option<i32>
    requires site { IsSite site.now }
    ensures { result ≡ constants.place_of (seen_site site.now) size (seen_position position.now) }
{
    match position {
        Position::FromBeginning { position } => integer_in(&value_of(position, site)),
        Position::FromEnd { place: _, terms } => {
            let last = Some(Value::Int(i32::from(size)));
            integer_in(&summed(terms, last, site))
        }
    }
}

/// The integer that a constant expression is, where it has a value and that is one (language document, Constant expressions).
pub fn integer_of(tree: &Expr, site: &Site<'_>) -> Option<i32>
    requires site { IsSite site.now }
    ensures { result ≡ constants.integer_of (seen_site site.now) (seen_expression tree.now) }
{
    integer_in(&value_of(tree, site))
}
