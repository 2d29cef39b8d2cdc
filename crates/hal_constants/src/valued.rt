//! The values and the kinds of what is declared.

ghost use Rattle.std.specs.Prelude.{◌≡◌, ◌≤◌, IfSome, map};
ghost use Rattle.std.specs.Option.{option_map};
ghost use Rattle.hal_tree.specs.Rows.{initials};
ghost use Rattle.hal_tree.specs.SeenDeclarations.{seen_attribute, seen_declared, seen_initial, seen_type};
ghost use Rattle.hal_tree.specs.SeenLeaves.{seen_literal, seen_name, seen_sign};
ghost use Rattle.hal_phrases.specs.SeenPhrases.{seen_phrase};
ghost use Rattle.hal_names.specs.SeenNames.{seen_names};
ghost use Rattle.hal_constants.specs.Known as facts;
ghost use Rattle.hal_constants.specs.SeenKnown.{seen_known};

use crate::constant::Constant;
use crate::constants::{constant_of, signed};
use crate::known::Known;
use crate::naming::{constant_named, is_value_item, literal_constant};
use crate::operands::is_storable;
use hal_base::{BIT_LIMIT, CHARACTER_LIMIT};
use hal_kinds::{constant_of as constant_values, is_marked};
use hal_names::Names;
use hal_operations::fit;
use hal_phrases::{Node, Phrase};
use hal_scope::type_of;
use hal_tree::{Attribute, Declared, Identifier, Initial, LiteralValue, Mark, Sign, Type};
use hal_values::{Kind, Value};

/// The size that an integer is, within a limit (language document, Sizes).
#[tactic(auto, unfolding(crate::specs::Known::size_of_integer))]
pub fn size_of_integer(limit: u16, number: i32) -> Option<u16>
    ensures size { result ≡ facts.size_of_integer limit number }
    ensures within { IfSome result (λ n. n ≤ limit) }
{
    if 1 <= number && number <= i32::from(limit) {
        Some(number as u16)
    } else {
        None
    }
}

/// The size that a constant is, within a limit (language document, Sizes).
#[tactic(auto, unfolding(crate::specs::Known::size_of, crate::specs::Known::size_of_value))]
pub fn size_of(limit: u16, size: &Constant) -> Option<u16>
    ensures size { result ≡ facts.size_of limit size.now }
    ensures within { IfSome result (λ n. n ≤ limit) }
{
    match size {
        Constant::Worth(Value::Int(number)) => size_of_integer(limit, *number),
        _ => None,
    }
}

/// The kind of the cells of a type, DOUBLE or not; None of structures, and where a length isn't known.
#[tactic(auto, using(hal_tree::proofs::MadeDeclarations::made_integer_type, hal_tree::proofs::MadeDeclarations::made_boolean_type, hal_tree::proofs::MadeDeclarations::made_event_type, hal_tree::proofs::MadeDeclarations::made_bit_type, hal_tree::proofs::MadeDeclarations::made_character_type, hal_tree::proofs::MadeDeclarations::made_structure_type), unfolding(crate::specs::Known::kind_of, crate::specs::Known::bits_kind, crate::specs::Known::text_kind))]
pub fn kind_of(
    names: &Names<'_>,
    known: &Known,
    phrase: &Phrase<'_>,
    double: bool,
    kind: &Type,
) -> Option<Kind>
    ensures { result ≡ facts.kind_of (seen_names names.now) (seen_known known.now) (seen_phrase phrase.now) double (seen_type kind.now) }
{
    match kind {
        Type::Integer { place: _ } => Some(if double { Kind::Double } else { Kind::Single }),
        Type::Boolean { place: _ } => Some(Kind::Bits(1)),
        Type::Event { place: _ } => Some(Kind::Bits(1)),
        Type::Bit { place: _, size } => {
            let len = size_of(
                u16::from(BIT_LIMIT),
                &constant_of(size, names, known, phrase),
            )?;
            Some(Kind::Bits(len as u8))
        }
        Type::Character { place: _, size } => {
            let len = size_of(
                CHARACTER_LIMIT as u16,
                &constant_of(size, names, known, phrase),
            )?;
            Some(Kind::Text(len as u8))
        }
        Type::Structure { .. } => None,
    }
}

/// The kind of the cells of what has this type, if it has one.
#[tactic(auto, unfolding(crate::specs::Known::kind_of_type))]
pub fn kind_of_type(
    names: &Names<'_>,
    known: &Known,
    phrase: &Phrase<'_>,
    double: bool,
    kind: Option<&Type>,
) -> Option<Kind>
    ensures { result ≡ facts.kind_of_type (seen_names names.now) (seen_known known.now) (seen_phrase phrase.now) double (option_map (λ kind. seen_type kind.now) kind.entry) }
{
    kind_of(names, known, phrase, double, kind?)
}

/// The kind of what is declared.
pub fn kind_of_item(
    names: &Names<'_>,
    known: &Known,
    phrase: &Phrase<'_>,
    common: &[Attribute],
    item: &Declared,
) -> Option<Kind>
    ensures { result ≡ facts.kind_of_item (seen_names names.now) (seen_known known.now) (seen_phrase phrase.now) (map seen_attribute common.now) (seen_declared item.now) }
{
    let double = is_marked(Mark::Double, common, item);
    kind_of_type(names, known, phrase, double, type_of(common, item))
}

/// A literal behind a sign.
pub fn signed_literal(sign: Option<Sign>, literal: LiteralValue) -> Constant
    ensures { result ≡ facts.signed_literal (option_map seen_sign sign) (seen_literal literal) }
{
    signed(sign, literal_constant(literal))
}

/// A name behind a sign.
pub fn signed_name(
    names: &Names<'_>,
    known: &Known,
    phrase: &Phrase<'_>,
    sign: Option<Sign>,
    name: &Identifier,
) -> Constant
    ensures { result ≡ facts.signed_name (seen_names names.now) (seen_known known.now) (seen_phrase phrase.now) (option_map seen_sign sign) (seen_name name.now) }
{
    signed(sign, constant_named(names, known, phrase, &name.name, &[]))
}

/// Whether an initial value with its repetition gives no value.
#[cycle(none)]
#[tactic(auto, using(hal_tree::proofs::MadeDeclarations::made_value, hal_tree::proofs::MadeDeclarations::made_literal_times, hal_tree::proofs::MadeDeclarations::made_name_times, hal_tree::proofs::MadeDeclarations::made_list_times), unfolding(crate::specs::Known::gives_none))]
fn gives_none(initial: &Initial) -> bool
    ensures { result ≡ facts.gives_none (seen_initial initial.now) }
{
    match initial {
        Initial::Value { .. } => false,
        Initial::LiteralTimes { count, .. } => *count == 0,
        Initial::NameTimes { count, .. } => *count == 0,
        Initial::ListTimes { count, values, .. } => *count == 0 || give_none(values),
    }
}

/// The same of initial values.
#[cycle(none)]
#[tactic(auto, unfolding(crate::specs::Known::give_none, hal_tree::specs::Rows::initials))]
fn give_none(values: &[Initial]) -> bool
    ensures { result ≡ facts.give_none (initials (map seen_initial values.now)) }
{
    for initial in values {
        if !gives_none(initial) {
            return false;
        }
    }
    true
}

/// The one value that an initial value gives, where it gives one.
#[cycle(only)]
#[tactic(auto, using(hal_tree::proofs::MadeDeclarations::made_value, hal_tree::proofs::MadeDeclarations::made_literal_times, hal_tree::proofs::MadeDeclarations::made_name_times, hal_tree::proofs::MadeDeclarations::made_list_times), unfolding(crate::specs::Known::only_of))]
fn only_of(initial: &Initial, names: &Names<'_>, known: &Known, phrase: &Phrase<'_>) -> Constant
    ensures { result ≡ facts.only_of (seen_names names.now) (seen_known known.now) (seen_phrase phrase.now) (seen_initial initial.now) }
{
    match initial {
        Initial::Value { value } => constant_of(value, names, known, phrase),
        Initial::LiteralTimes {
            count,
            sign,
            literal,
            ..
        } => {
            if *count == 1 {
                signed_literal(*sign, *literal)
            } else {
                Constant::Unfit
            }
        }
        Initial::NameTimes {
            count,
            sign,
            name,
            ..
        } => {
            if *count == 1 {
                signed_name(names, known, phrase, *sign, name)
            } else {
                Constant::Unfit
            }
        }
        Initial::ListTimes { count, values, .. } => {
            if *count == 1 {
                only_among(values, names, known, phrase)
            } else {
                Constant::Unfit
            }
        }
    }
}

/// The same of initial values.
#[cycle(only)]
#[tactic(auto, unfolding(crate::specs::Known::only_with, hal_tree::specs::Rows::initials))]
fn only_among(values: &[Initial], names: &Names<'_>, known: &Known, phrase: &Phrase<'_>) -> Constant
    ensures { result ≡ facts.only_among (seen_names names.now) (seen_known known.now) (seen_phrase phrase.now) (initials (map seen_initial values.now)) }
{
    let mut so_far = Constant::Unfit;
    let mut one = false;
    for initial in values {
        if !gives_none(initial) {
            if one {
                return Constant::Unfit;
            }
            so_far = only_of(initial, names, known, phrase);
            one = true;
        }
    }
    so_far
}

/// A value as a cell of the kind holds it.
#[tactic(auto, unfolding(crate::specs::Known::fitted, crate::specs::Known::kept))]
fn fitted(kind: Option<Kind>, constant: &Constant) -> Option<Value>
    ensures { result ≡ facts.fitted kind constant.now }
{
    match (kind, constant) {
        (Some(kind), Constant::Worth(value)) => {
            if is_storable(kind, value) {
                fit(kind, value).ok()
            } else {
                None
            }
        }
        _ => None,
    }
}

/// The value of a constant that a phrase declares.
#[tactic(auto, unfolding(crate::specs::Known::declared_value, crate::specs::Known::only_in))]
pub(crate) fn declared_value(names: &Names<'_>, known: &Known, phrase: &Phrase<'_>) -> Option<Value>
    ensures { result ≡ facts.declared_value (seen_names names.now) (seen_known known.now) (seen_phrase phrase.now) (seen_phrase phrase.now).node }
{
    match phrase.node {
        Node::Item { common, item } => {
            if !is_value_item(common, item) {
                return None;
            }
            let only = match constant_values(common, item) {
                None => Constant::Unfit,
                Some(values) => only_among(values, names, known, phrase),
            };
            fitted(kind_of_item(names, known, phrase, common, item), &only)
        }
        _ => None,
    }
}
