//! Constant expressions.

ghost use Rattle.std.specs.Prelude.{◌≡◌, map};
ghost use Rattle.std.specs.Option.{option_map};
ghost use Rattle.hal_tree.specs.Rows.{expressions, subscripts, terms};
ghost use Rattle.hal_tree.specs.SeenExpressions.{seen_expression, seen_position, seen_reference, seen_signed, seen_sub, seen_subscript};
ghost use Rattle.hal_tree.specs.SeenLeaves.{seen_conversion, seen_literal, seen_sign};
ghost use Rattle.hal_phrases.specs.SeenPhrases.{seen_phrase};
ghost use Rattle.hal_names.specs.SeenNames.{seen_names};
ghost use Rattle.hal_constants.specs.Constants as constants;
ghost use Rattle.hal_constants.specs.Results.{apply_two};
ghost use Rattle.hal_constants.specs.SeenKnown.{seen_known};

use crate::constant::Constant;
use crate::known::Known;
use crate::naming::{constant_at, constant_named, literal_constant, operation_named};
use crate::operation::Operation;
use crate::results::{
    apply_one, apply_two, picked_all, picked_from, picked_one, picked_to, whole, worse,
};
use hal_names::Names;
use hal_operations::{Op1, Op2, place_count};
use hal_phrases::{Node, Phrase};
use hal_tree::{
    Conversion, Expr, LiteralValue, Position, Reference, Sign, SignedTerm, Sub, Subscript,
};
use hal_values::Value;

/// The operation of a sign between two terms (language document, Expressions).
#[tactic(auto, unfolding(crate::specs::Constants::operation_of_sign))]
pub fn operation_of_sign(sign: Sign) -> Op2
    ensures { result ≡ constants.operation_of_sign (seen_sign sign) }
{
    match sign {
        Sign::Plus => Op2::Plus,
        Sign::Minus => Op2::Minus,
    }
}

/// A sign before a term.
#[tactic(auto, unfolding(crate::specs::Constants::signed))]
pub(crate) fn signed(sign: Option<Sign>, term: Constant) -> Constant
    ensures { result ≡ constants.signed (option_map seen_sign sign) term }
{
    match sign {
        None => term,
        Some(Sign::Plus) => term,
        Some(Sign::Minus) => apply_one(Op1::Minus, term),
    }
}

/// The operation of a conversion (language document, Expressions).
#[tactic(auto, unfolding(crate::specs::Constants::operation_of_conversion))]
pub fn operation_of_conversion(conversion: Conversion) -> Op1
    ensures { result ≡ constants.operation_of_conversion (seen_conversion conversion) }
{
    match conversion {
        Conversion::Integer => Op1::Integer,
        Conversion::Bit => Op1::Bit,
        Conversion::Character => Op1::Character,
    }
}

/// The exponent that a literal is.
#[tactic(auto, unfolding(crate::specs::Constants::raised_to))]
fn raised_to(base: &Constant, exponent: LiteralValue) -> Constant
    ensures { result ≡ constants.raised_to base.now (seen_literal exponent) }
{
    match exponent {
        LiteralValue::Integer(number) => apply_two(Op2::Power, base, &whole(number)),
        _ => Constant::Unfit,
    }
}

/// A power; another exponent than an integer literal is none.
#[tactic(auto, using(hal_tree::proofs::MadeExpressions::made_or, hal_tree::proofs::MadeExpressions::made_and, hal_tree::proofs::MadeExpressions::made_compare, hal_tree::proofs::MadeExpressions::made_cat, hal_tree::proofs::MadeExpressions::made_sum, hal_tree::proofs::MadeExpressions::made_product, hal_tree::proofs::MadeExpressions::made_power, hal_tree::proofs::MadeExpressions::made_not, hal_tree::proofs::MadeExpressions::made_literal, hal_tree::proofs::MadeExpressions::made_decimal, hal_tree::proofs::MadeExpressions::made_referred, hal_tree::proofs::MadeExpressions::made_call, hal_tree::proofs::MadeExpressions::made_convert, hal_tree::proofs::MadeExpressions::made_parenthesis), unfolding(crate::specs::Constants::raised))]
fn raised(base: &Constant, exponent: &Expr) -> Constant
    ensures { result ≡ constants.raised base.now (seen_expression exponent.now) }
{
    match exponent {
        Expr::Literal { place: _, literal } => raised_to(base, literal.value()),
        Expr::Or { .. } => Constant::Unfit,
        Expr::And { .. } => Constant::Unfit,
        Expr::Compare { .. } => Constant::Unfit,
        Expr::Cat { .. } => Constant::Unfit,
        Expr::Sum { .. } => Constant::Unfit,
        Expr::Product { .. } => Constant::Unfit,
        Expr::Power { .. } => Constant::Unfit,
        Expr::Not { .. } => Constant::Unfit,
        Expr::Decimal { .. } => Constant::Unfit,
        Expr::Reference(_) => Constant::Unfit,
        Expr::Call { .. } => Constant::Unfit,
        Expr::Convert { .. } => Constant::Unfit,
        Expr::Parenthesis { .. } => Constant::Unfit,
    }
}

/// What the call form of a declared name may be: the product of a constant and a parenthesis.
#[tactic(auto, unfolding(crate::specs::Constants::factor_at))]
fn factor_at(
    names: &Names<'_>,
    known: &Known,
    phrase: &Phrase<'_>,
    declared: &Phrase<'_>,
) -> Constant
    ensures { result ≡ constants.factor_at (seen_names names.now) (seen_known known.now) (seen_phrase phrase.now) (seen_phrase declared.now) (seen_phrase declared.now).node }
{
    match declared.node {
        Node::Item { .. } => constant_at(names, known, phrase, declared, &[]),
        Node::TemporaryGroup { .. } => Constant::Open,
        Node::Template { .. } => Constant::Open,
        Node::Unit { .. } => Constant::Open,
        _ => Constant::Unfit,
    }
}

/// What is called by the name that the phrase with this number declares.
fn called_at(names: &Names<'_>, known: &Known, phrase: &Phrase<'_>, number: usize) -> Constant
    ensures { result ≡ constants.called_at (seen_names names.now) (seen_known known.now) (seen_phrase phrase.now) number }
{
    match names.phrase(number) {
        None => Constant::Unfit,
        Some(declared) => factor_at(names, known, phrase, &declared),
    }
}

/// What an expression comes to where a constant is wanted, in this phrase (language document, Constant expressions).
#[cycle(constants)]
#[tactic(auto, using(hal_tree::proofs::MadeExpressions::made_or, hal_tree::proofs::MadeExpressions::made_and, hal_tree::proofs::MadeExpressions::made_compare, hal_tree::proofs::MadeExpressions::made_cat, hal_tree::proofs::MadeExpressions::made_sum, hal_tree::proofs::MadeExpressions::made_product, hal_tree::proofs::MadeExpressions::made_power, hal_tree::proofs::MadeExpressions::made_not, hal_tree::proofs::MadeExpressions::made_literal, hal_tree::proofs::MadeExpressions::made_decimal, hal_tree::proofs::MadeExpressions::made_referred, hal_tree::proofs::MadeExpressions::made_call, hal_tree::proofs::MadeExpressions::made_convert, hal_tree::proofs::MadeExpressions::made_parenthesis), unfolding(crate::specs::Constants::constant_of))]
pub fn constant_of(tree: &Expr, names: &Names<'_>, known: &Known, phrase: &Phrase<'_>) -> Constant
    ensures { result ≡ constants.constant_of (seen_names names.now) (seen_known known.now) (seen_phrase phrase.now) (seen_expression tree.now) }
{
    match tree {
        Expr::Or { first, others, .. } => {
            let first = constant_of(first, names, known, phrase);
            folded(others, first, Op2::Or, names, known, phrase)
        }
        Expr::And { first, others, .. } => {
            let first = constant_of(first, names, known, phrase);
            folded(others, first, Op2::And, names, known, phrase)
        }
        Expr::Compare { .. } => Constant::Open,
        Expr::Cat { first, others, .. } => {
            let first = constant_of(first, names, known, phrase);
            folded(others, first, Op2::Cat, names, known, phrase)
        }
        Expr::Sum {
            place: _,
            opening,
            first,
            others,
        } => {
            let first = signed(*opening, constant_of(first, names, known, phrase));
            summed(others, first, names, known, phrase)
        }
        Expr::Product { first, others, .. } => {
            let first = constant_of(first, names, known, phrase);
            folded(others, first, Op2::Product, names, known, phrase)
        }
        Expr::Power {
            place: _,
            base,
            exponent,
        } => raised(&constant_of(base, names, known, phrase), exponent),
        Expr::Not { operand, .. } => {
            apply_one(Op1::Not, constant_of(operand, names, known, phrase))
        }
        Expr::Literal { place: _, literal } => literal_constant(literal.value()),
        Expr::Decimal { .. } => Constant::Unfit,
        Expr::Reference(reference) => referred(reference, names, known, phrase),
        Expr::Call {
            place: _,
            name,
            arguments,
        } => match names.means(phrase.around.block, name) {
            None => computed(arguments, operation_named(name), names, known, phrase),
            Some(number) => multiplied(
                arguments,
                called_at(names, known, phrase, number),
                names,
                known,
                phrase,
            ),
        },
        Expr::Convert {
            place: _,
            conversion,
            operand,
        } => apply_one(
            operation_of_conversion(*conversion),
            constant_of(operand, names, known, phrase),
        ),
        Expr::Parenthesis { inner, .. } => constant_of(inner, names, known, phrase),
    }
}

/// An operation between a constant and each of these in turn.
#[cycle(constants)]
#[tactic(auto, unfolding(crate::specs::Constants::folded, hal_tree::specs::Rows::expressions))]
fn folded(
    trees: &[Expr],
    first: Constant,
    op: Op2,
    names: &Names<'_>,
    known: &Known,
    phrase: &Phrase<'_>,
) -> Constant
    ensures { result ≡ constants.folded (seen_names names.now) (seen_known known.now) (seen_phrase phrase.now) op first (expressions (map seen_expression trees.now)) }
{
    let mut so_far = first;
    for tree in trees {
        so_far = apply_two(op, &so_far, &constant_of(tree, names, known, phrase));
    }
    so_far
}

/// Terms that are added to a constant or taken from it (language document, Constant expressions).
#[cycle(constants)]
#[tactic(auto, unfolding(crate::specs::Constants::summed, hal_tree::specs::Rows::terms))]
pub fn summed(
    list: &[SignedTerm],
    first: Constant,
    names: &Names<'_>,
    known: &Known,
    phrase: &Phrase<'_>,
) -> Constant
    ensures { result ≡ constants.summed (seen_names names.now) (seen_known known.now) (seen_phrase phrase.now) first (terms (map seen_signed list.now)) }
{
    let mut so_far = first;
    for term in list {
        so_far = added(term, &so_far, names, known, phrase);
    }
    so_far
}

/// A term that is added to a constant or taken from it.
#[cycle(constants)]
#[tactic(auto, using(hal_tree::proofs::MadeExpressions::made_signed))]
fn added(
    term: &SignedTerm,
    so_far: &Constant,
    names: &Names<'_>,
    known: &Known,
    phrase: &Phrase<'_>,
) -> Constant
    ensures { result ≡ apply_two (constants.operation_of_sign (seen_signed term.now).1) so_far.now (constants.constant_of (seen_names names.now) (seen_known known.now) (seen_phrase phrase.now) (seen_signed term.now).2) }
{
    let next = constant_of(&term.term, names, known, phrase);
    apply_two(operation_of_sign(term.sign), so_far, &next)
}

/// A built-in function of these arguments.
#[cycle(constants)]
#[tactic(auto, using(hal_kinds::proofs::Lists::none_left), unfolding(crate::specs::Constants::computed, crate::specs::Constants::computed_second, hal_tree::specs::Rows::expressions))]
fn computed(
    arguments: &[Expr],
    operation: Operation,
    names: &Names<'_>,
    known: &Known,
    phrase: &Phrase<'_>,
) -> Constant
    ensures { result ≡ constants.computed (seen_names names.now) (seen_known known.now) (seen_phrase phrase.now) operation (expressions (map seen_expression arguments.now)) }
{
    if let Operation::Size = operation {
        return Constant::Open;
    }
    let Some((tree, others)) = arguments.split_first() else {
        return Constant::Unfit;
    };
    match operation {
        Operation::Size => Constant::Open,
        Operation::One(op) => {
            if others.is_empty() {
                apply_one(op, constant_of(tree, names, known, phrase))
            } else {
                Constant::Unfit
            }
        }
        Operation::Two(op) => {
            let first = constant_of(tree, names, known, phrase);
            let Some((second, more)) = others.split_first() else {
                return Constant::Unfit;
            };
            if more.is_empty() {
                apply_two(op, &first, &constant_of(second, names, known, phrase))
            } else {
                Constant::Unfit
            }
        }
        Operation::Nothing => Constant::Unfit,
    }
}

/// The product of a constant and a parenthesis; with another list it is no constant where what stands before it is none, as a FUNCTION.
#[cycle(constants)]
#[tactic(auto, using(hal_kinds::proofs::Lists::none_left), unfolding(crate::specs::Constants::multiplied, hal_tree::specs::Rows::expressions))]
fn multiplied(
    arguments: &[Expr],
    factor: Constant,
    names: &Names<'_>,
    known: &Known,
    phrase: &Phrase<'_>,
) -> Constant
    ensures { result ≡ constants.multiplied (seen_names names.now) (seen_known known.now) (seen_phrase phrase.now) factor (expressions (map seen_expression arguments.now)) }
{
    let Some((tree, others)) = arguments.split_first() else {
        return worse(&factor, &Constant::Unfit);
    };
    if others.is_empty() {
        apply_two(
            Op2::Product,
            &factor,
            &constant_of(tree, names, known, phrase),
        )
    } else {
        worse(&factor, &Constant::Unfit)
    }
}

/// A reference.
#[cycle(constants)]
#[tactic(auto, using(hal_tree::proofs::MadeExpressions::made_reference), unfolding(crate::specs::Constants::referred))]
fn referred(
    reference: &Reference,
    names: &Names<'_>,
    known: &Known,
    phrase: &Phrase<'_>,
) -> Constant
    ensures { result ≡ constants.referred (seen_names names.now) (seen_known known.now) (seen_phrase phrase.now) (seen_reference reference.now) }
{
    match constant_named(names, known, phrase, &reference.name, &reference.further) {
        Constant::Worth(value) => { subscripted(&reference.subscript, value, names, known, phrase) }
        other => other,
    }
}

/// A value with a subscript.
#[cycle(constants)]
#[tactic(auto, using(hal_tree::proofs::MadeExpressions::made_unsubscripted, hal_tree::proofs::MadeExpressions::made_by_name, hal_tree::proofs::MadeExpressions::made_by_integer, hal_tree::proofs::MadeExpressions::made_by_parts, crate::proofs::Lists::no_subscript), unfolding(crate::specs::Constants::subscripted))]
fn subscripted(
    subscript: &Subscript,
    value: Value,
    names: &Names<'_>,
    known: &Known,
    phrase: &Phrase<'_>,
) -> Constant
    ensures { result ≡ constants.subscripted (seen_names names.now) (seen_known known.now) (seen_phrase phrase.now) value (seen_subscript subscript.now) }
{
    match subscript {
        Subscript::None => Constant::Worth(value),
        Subscript::Name { place: _, name } => picked_one(
            &value,
            constant_named(names, known, phrase, &name.name, &[]),
        ),
        Subscript::Integer { number, .. } => picked_one(&value, whole(*number)),
        Subscript::Parts {
            place: _,
            copies,
            arrays,
            components,
        } => {
            if copies.is_empty() && arrays.is_empty() {
                component_of(components, &value, names, known, phrase)
            } else {
                Constant::Unfit
            }
        }
    }
}

/// The component of a value that subscripts choose.
#[cycle(constants)]
#[tactic(auto, using(crate::proofs::Lists::no_subscript), unfolding(crate::specs::Constants::component_of, hal_tree::specs::Rows::subscripts))]
fn component_of(
    subs: &[Sub],
    value: &Value,
    names: &Names<'_>,
    known: &Known,
    phrase: &Phrase<'_>,
) -> Constant
    ensures { result ≡ constants.component_of (seen_names names.now) (seen_known known.now) (seen_phrase phrase.now) value.now (subscripts (map seen_sub subs.now)) }
{
    let Some((sub, others)) = subs.split_first() else {
        return Constant::Unfit;
    };
    if others.is_empty() {
        component_by(sub, value, names, known, phrase)
    } else {
        Constant::Unfit
    }
}

/// The component of a value that one subscript chooses.
#[cycle(constants)]
#[tactic(auto, using(hal_tree::proofs::MadeExpressions::made_every, hal_tree::proofs::MadeExpressions::made_one, hal_tree::proofs::MadeExpressions::made_range, hal_tree::proofs::MadeExpressions::made_portion), unfolding(crate::specs::Constants::component_by))]
fn component_by(
    sub: &Sub,
    value: &Value,
    names: &Names<'_>,
    known: &Known,
    phrase: &Phrase<'_>,
) -> Constant
    ensures { result ≡ constants.component_by (seen_names names.now) (seen_known known.now) (seen_phrase phrase.now) value.now (seen_sub sub.now) }
{
    match sub {
        Sub::Every { place: _ } => picked_all(value),
        Sub::One { position } => {
            picked_one(value, place_of(position, value, names, known, phrase))
        }
        Sub::Range { first, last } => picked_to(
            value,
            &place_of(first, value, names, known, phrase),
            &place_of(last, value, names, known, phrase),
        ),
        Sub::Portion { count, first } => picked_from(
            value,
            &constant_of(count, names, known, phrase),
            &place_of(first, value, names, known, phrase),
        ),
    }
}

/// A place of a value; `#` is its last one.
#[cycle(constants)]
#[tactic(auto, using(hal_tree::proofs::MadeExpressions::made_from_beginning, hal_tree::proofs::MadeExpressions::made_from_end), unfolding(crate::specs::Constants::place_of))]
fn place_of(
    position: &Position,
    value: &Value,
    names: &Names<'_>,
    known: &Known,
    phrase: &Phrase<'_>,
) -> Constant
    ensures { result ≡ constants.place_of (seen_names names.now) (seen_known known.now) (seen_phrase phrase.now) value.now (seen_position position.now) }
{
    match position {
        Position::FromBeginning { position } => constant_of(position, names, known, phrase),
        Position::FromEnd { place: _, terms } => {
            let last = whole(u32::from(place_count(value)));
            summed(terms, last, names, known, phrase)
        }
    }
}
