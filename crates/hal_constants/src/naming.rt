//! Which names are constants.

ghost use Rattle.std.specs.Prelude.{◌≡◌, map};
ghost use Rattle.std.specs.Option.{option_map};
ghost use Rattle.hal_tree.specs.SeenDeclarations.{seen_attribute, seen_declared};
ghost use Rattle.hal_tree.specs.SeenLeaves.{seen_literal, seen_name};
ghost use Rattle.hal_phrases.specs.SeenPhrases.{seen_phrase};
ghost use Rattle.hal_names.specs.SeenNames.{seen_names};
ghost use Rattle.hal_constants.specs.Naming as naming;
ghost use Rattle.hal_constants.specs.SeenKnown.{seen_known};

use crate::constant::Constant;
use crate::known::Known;
use crate::operation::Operation;
use crate::results::whole;
use hal_kinds::{constant_of, is_structure_type, sizes_of};
use hal_names::{Names, is_compool_unit};
use hal_operations::{Op1, Op2};
use hal_phrases::{Node, Phrase};
use hal_scope::{Builtin, builtin_named, type_of};
use hal_tree::{Attribute, Declared, Identifier, LiteralValue};
use hal_values::{Text, Value};
use hal_words::{Literal, Name};

/// Whether a name is a constant that is its value: it has no array and is no structure (language document, Constant expressions).
#[tactic(auto, using(hal_kinds::proofs::Options::some_mapped))]
pub fn is_value_item(common: &[Attribute], item: &Declared) -> bool
    ensures { result ≡ naming.is_value_item (map seen_attribute common.now) (seen_declared item.now) }
{
    constant_of(common, item).is_some()
        && (!sizes_of(common, item).is_some() && !is_structure_type(type_of(common, item)))
}

/// Whether the phrase with this number is a COMPOOL's unit.
pub(crate) fn is_compool_at(names: &Names<'_>, number: usize) -> bool
    ensures { result ≡ naming.is_compool_at (seen_names names.now) number }
{
    match names.phrase(number) {
        None => false,
        Some(phrase) => is_compool_unit(phrase.node),
    }
}

/// Whether what one phrase declares stands before another one: in the text, or in the COMPOOL of another unit, whose template
/// stands before.
fn is_before(names: &Names<'_>, phrase: &Phrase<'_>, declared: &Phrase<'_>) -> bool
    ensures { result ≡ naming.is_before (seen_names names.now) (seen_phrase phrase.now) (seen_phrase declared.now) }
{
    declared.number < phrase.number
        || (is_compool_at(names, declared.around.home)
            && !(declared.around.home == phrase.around.home))
}

/// The constant that one phrase declares, in another one.
#[tactic(auto, using(hal_scope::proofs::Lists::nil_seen), unfolding(crate::specs::Naming::constant_at))]
pub(crate) fn constant_at(
    names: &Names<'_>,
    known: &Known,
    phrase: &Phrase<'_>,
    declared: &Phrase<'_>,
    path: &[Identifier],
) -> Constant
    ensures { result ≡ naming.constant_at (seen_names names.now) (seen_known known.now) (seen_phrase phrase.now) (seen_phrase declared.now) (map seen_name path.now) (seen_phrase declared.now).node }
{
    match declared.node {
        Node::Item { common, item } => {
            if path.is_empty()
                && (is_value_item(common, item) && is_before(names, phrase, declared))
            {
                known.constant(declared.number)
            } else {
                Constant::Open
            }
        }
        _ => Constant::Open,
    }
}

/// A name that isn't declared: a built-in function is no constant.
fn undeclared(name: &Name) -> Constant
    ensures { result ≡ naming.undeclared name.now }
{
    if builtin_named(name).is_some() {
        Constant::Open
    } else {
        Constant::Unfit
    }
}

/// A name with a path, in this phrase.
pub(crate) fn constant_named(
    names: &Names<'_>,
    known: &Known,
    phrase: &Phrase<'_>,
    name: &Name,
    path: &[Identifier],
) -> Constant
    ensures { result ≡ naming.constant_named (seen_names names.now) (seen_known known.now) (seen_phrase phrase.now) name.now (map seen_name path.now) }
{
    let Some(number) = names.means(phrase.around.block, name) else {
        return undeclared(name);
    };
    match names.phrase(number) {
        None => Constant::Unfit,
        Some(declared) => constant_at(names, known, phrase, &declared, path),
    }
}

/// A text of a literal.
fn literal_text(text: &Literal) -> Constant
    ensures { result ≡ naming.literal_text text.now }
{
    match Text::of(text.bytes()) {
        Some(text) => Constant::Worth(Value::Text(text)),
        None => Constant::Failed,
    }
}

/// A literal.
#[tactic(auto, unfolding(crate::specs::Naming::literal_constant))]
pub(crate) fn literal_constant(literal: LiteralValue) -> Constant
    ensures { result ≡ naming.literal_constant (seen_literal literal) }
{
    match literal {
        LiteralValue::Integer(number) => whole(number),
        LiteralValue::Text(text) => literal_text(&text),
        LiteralValue::Bits { len, word } => Constant::Worth(Value::Bits { len, word }),
        LiteralValue::True => Constant::Worth(Value::Bits { len: 1, word: 1 }),
        LiteralValue::On => Constant::Worth(Value::Bits { len: 1, word: 1 }),
        LiteralValue::False => Constant::Worth(Value::Bits { len: 1, word: 0 }),
        LiteralValue::Off => Constant::Worth(Value::Bits { len: 1, word: 0 }),
    }
}

/// What a built-in function computes (language document, Expressions).
#[tactic(auto, unfolding(crate::specs::Naming::operation_of))]
pub fn operation_of(builtin: Builtin) -> Operation
    ensures { result ≡ naming.operation_of builtin }
{
    match builtin {
        Builtin::Abs => Operation::One(Op1::Abs),
        Builtin::Signum => Operation::One(Op1::Signum),
        Builtin::Odd => Operation::One(Op1::Odd),
        Builtin::Length => Operation::One(Op1::Length),
        Builtin::Trim => Operation::One(Op1::Trim),
        Builtin::Div => Operation::Two(Op2::Div),
        Builtin::Mod => Operation::Two(Op2::Mod),
        Builtin::Remainder => Operation::Two(Op2::Remainder),
        Builtin::Shl => Operation::Two(Op2::Shl),
        Builtin::Shr => Operation::Two(Op2::Shr),
        Builtin::Index => Operation::Two(Op2::Index),
        Builtin::Ljust => Operation::Two(Op2::Ljust),
        Builtin::Rjust => Operation::Two(Op2::Rjust),
        Builtin::Xor => Operation::Two(Op2::Xor),
        Builtin::Size => Operation::Size,
        _ => Operation::Nothing,
    }
}

/// What a name that isn't declared computes.
pub(crate) fn operation_named(name: &Name) -> Operation
    ensures { result ≡ naming.operation_named name.now }
{
    match builtin_named(name) {
        None => Operation::Nothing,
        Some(builtin) => operation_of(builtin),
    }
}
