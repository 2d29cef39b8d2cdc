//! The kinds of operands, and which operations take them.

ghost use Rattle.std.specs.Prelude.{◌≡◌, ◌^◌, nat_lt};
ghost use Rattle.std.specs.Option.{option_map};
ghost use Rattle.hal_operations.specs.Values.{is_comparison};
ghost use Rattle.hal_states.specs.OfKinds.{is_of, lies_within};
ghost use Rattle.hal_code.specs.Effects.{is_value, has_places, same_value, sort_of_target};
ghost use Rattle.hal_code.specs.Sorts.{I, B, T, is_kind, is_initial, same_kind, sort_of, one_gives, two_give, integers_give, strings_give, texts_give, text_and_integer_give, integer_and_text_give, takes, takes_part, sort_of_result};
ghost use Rattle.hal_verify.specs.SeenSorts.{seen_sort};

use crate::sort::Sort;
use hal_base::{BIT_LIMIT, CHARACTER_LIMIT, SINGLE_LEAST, SINGLE_MOST};
use hal_code::{ResultKind, Target};
use hal_operations::{Op1, Op2};
use hal_values::{Kind, Value};

/// Whether two kinds are the same.
pub(crate) fn same_kind(one: Kind, other: Kind) -> bool
    ensures { result ≡ same_kind one other }
{
    match (one, other) {
        (Kind::Single, Kind::Single) => true,
        (Kind::Double, Kind::Double) => true,
        (Kind::Bits(m), Kind::Bits(n)) => m == n,
        (Kind::Text(m), Kind::Text(n)) => m == n,
        _ => false,
    }
}

/// Whether a kind is in its range.
pub(crate) fn is_kind(kind: Kind) -> bool
    ensures { result ≡ is_kind kind }
{
    match kind {
        Kind::Single => true,
        Kind::Double => true,
        Kind::Bits(bits) => 1 <= bits && bits <= BIT_LIMIT,
        Kind::Text(most) => 1 <= most && usize::from(most) <= CHARACTER_LIMIT,
    }
}

/// Whether an integer lies within bounds.
fn lies_within(low: i32, high: i32, number: i32) -> bool
    ensures { result ≡ lies_within low high number }
{
    !(number < low) && !(high < number)
}

/// Whether a word has so many bits at most.
pub(crate) fn has_bits_below(len: u8, word: u32) -> bool
    ensures { result ≡ nat_lt word (2 ^ len) }
{
    len >= 32 || word < 1u32 << len
}

/// Whether a value is of the kind.
#[tactic(auto, unfolding(hal_states::specs::OfKinds::is_of))]
fn is_of(kind: Kind, value: &Value) -> bool
    ensures { result ≡ is_of kind value.now }
{
    match (kind, value) {
        (Kind::Single, Value::Int(number)) => lies_within(SINGLE_LEAST, SINGLE_MOST, *number),
        (Kind::Double, Value::Int(number)) => lies_within(i32::MIN, i32::MAX, *number),
        (Kind::Bits(bits), Value::Bits { len, word }) => *len == bits
            && has_bits_below(bits, *word),
        (Kind::Text(most), Value::Text(text)) => text.bytes().len() <= usize::from(most),
        _ => false,
    }
}

/// Whether a kind is in its range and the initial value of it.
pub(crate) fn is_initial(kind: Kind, value: &Value) -> bool
    ensures { result ≡ is_initial kind value.now }
{
    is_kind(kind) && is_of(kind, value)
}

/// The sort of the values of a kind.
pub(crate) fn sort_of(kind: Kind) -> Sort
    ensures { seen_sort result ≡ sort_of kind }
{
    match kind {
        Kind::Single => Sort::Integer,
        Kind::Double => Sort::Integer,
        Kind::Bits(_) => Sort::Bits,
        Kind::Text(_) => Sort::Text,
    }
}

/// The sort of the addresses that a view gives.
pub(crate) fn sort_of_target(target: Target) -> Sort
    ensures { seen_sort result ≡ sort_of_target target }
{
    match target {
        Target::Cell(kind) => Sort::Address(kind),
        Target::Shape(shape) => Sort::Area(shape),
    }
}

/// The sort of what a block gives.
pub(crate) fn sort_of_result(kind: ResultKind) -> Option<Sort>
    ensures { option_map seen_sort result ≡ sort_of_result kind }
{
    match kind {
        ResultKind::Nothing => None,
        ResultKind::Integer => Some(Sort::Integer),
        ResultKind::Bits => Some(Sort::Bits),
        ResultKind::Text => Some(Sort::Text),
    }
}

/// Whether a sort is that of a value.
pub(crate) fn is_value(sort: Sort) -> bool
    ensures { result ≡ is_value (seen_sort sort) }
{
    match sort {
        Sort::Integer => true,
        Sort::Bits => true,
        Sort::Text => true,
        Sort::Address(_) => false,
        Sort::Area(_) => false,
    }
}

/// Whether it is one that has places: bits or a text.
pub(crate) fn has_places(sort: Sort) -> bool
    ensures { result ≡ has_places (seen_sort sort) }
{
    match sort {
        Sort::Integer => false,
        Sort::Bits => true,
        Sort::Text => true,
        Sort::Address(_) => false,
        Sort::Area(_) => false,
    }
}

/// Whether two sorts of values are the same.
pub(crate) fn same_value(one: Sort, other: Sort) -> bool
    ensures { result ≡ same_value (seen_sort one) (seen_sort other) }
{
    match (one, other) {
        (Sort::Integer, Sort::Integer) => true,
        (Sort::Bits, Sort::Bits) => true,
        (Sort::Text, Sort::Text) => true,
        _ => false,
    }
}

/// What an operation gives of an integer.
fn one_of_integer(op: Op1) -> Option<Sort>
    ensures { option_map seen_sort result ≡ one_gives op I }
{
    match op {
        Op1::Minus => Some(Sort::Integer),
        Op1::Abs => Some(Sort::Integer),
        Op1::Signum => Some(Sort::Integer),
        Op1::Odd => Some(Sort::Bits),
        Op1::Character => Some(Sort::Text),
        Op1::Bit => Some(Sort::Bits),
        Op1::Not | Op1::Length | Op1::Trim | Op1::Integer => None,
    }
}

/// What an operation gives of a string of bits.
fn one_of_bits(op: Op1) -> Option<Sort>
    ensures { option_map seen_sort result ≡ one_gives op B }
{
    match op {
        Op1::Not => Some(Sort::Bits),
        Op1::Character => Some(Sort::Text),
        Op1::Integer => Some(Sort::Integer),
        _ => None,
    }
}

/// What an operation gives of a text.
fn one_of_text(op: Op1) -> Option<Sort>
    ensures { option_map seen_sort result ≡ one_gives op T }
{
    match op {
        Op1::Length => Some(Sort::Integer),
        Op1::Trim => Some(Sort::Text),
        Op1::Character => Some(Sort::Text),
        Op1::Integer => Some(Sort::Integer),
        _ => None,
    }
}

/// The sort that an operation with one operand gives, where it takes this one.
#[tactic(auto, using(crate::proofs::Giving::one_of_address, crate::proofs::Giving::one_of_area))]
pub(crate) fn one_gives(op: Op1, sort: Sort) -> Option<Sort>
    ensures { option_map seen_sort result ≡ one_gives op (seen_sort sort) }
{
    match sort {
        Sort::Integer => one_of_integer(op),
        Sort::Bits => one_of_bits(op),
        Sort::Text => one_of_text(op),
        Sort::Address(_) => None,
        Sort::Area(_) => None,
    }
}

/// Whether an operation compares.
fn is_comparison(op: Op2) -> bool
    ensures { result ≡ is_comparison op }
{
    match op {
        Op2::Equal
        | Op2::NotEqual
        | Op2::Less
        | Op2::Greater
        | Op2::LessOrEqual
        | Op2::GreaterOrEqual => true,
        _ => false,
    }
}

/// What an operation gives of two integers.
fn integers_give(op: Op2) -> Option<Sort>
    ensures { option_map seen_sort result ≡ integers_give op }
{
    match op {
        Op2::And | Op2::Or | Op2::Xor | Op2::Cat | Op2::Index | Op2::Ljust | Op2::Rjust => None,
        Op2::Equal
        | Op2::NotEqual
        | Op2::Less
        | Op2::Greater
        | Op2::LessOrEqual
        | Op2::GreaterOrEqual => Some(Sort::Bits),
        Op2::Plus
        | Op2::Minus
        | Op2::Product
        | Op2::Power
        | Op2::Div
        | Op2::Remainder
        | Op2::Mod
        | Op2::Shl
        | Op2::Shr => Some(Sort::Integer),
    }
}

/// What an operation gives of two strings of bits.
fn strings_give(op: Op2) -> Option<Sort>
    ensures { option_map seen_sort result ≡ strings_give op }
{
    match op {
        Op2::And | Op2::Or | Op2::Xor | Op2::Cat | Op2::Equal | Op2::NotEqual => Some(Sort::Bits),
        _ => None,
    }
}

/// What an operation gives of two texts.
fn texts_give(op: Op2) -> Option<Sort>
    ensures { option_map seen_sort result ≡ texts_give op }
{
    match op {
        Op2::Cat => Some(Sort::Text),
        Op2::Index => Some(Sort::Integer),
        Op2::Equal
        | Op2::NotEqual
        | Op2::Less
        | Op2::Greater
        | Op2::LessOrEqual
        | Op2::GreaterOrEqual => Some(Sort::Bits),
        _ => None,
    }
}

/// What an operation gives of a text and an integer.
fn text_and_integer_give(op: Op2) -> Option<Sort>
    ensures { option_map seen_sort result ≡ text_and_integer_give op }
{
    match op {
        Op2::Cat | Op2::Ljust | Op2::Rjust => Some(Sort::Text),
        _ => None,
    }
}

/// What an operation gives of an integer and a text.
fn integer_and_text_give(op: Op2) -> Option<Sort>
    ensures { option_map seen_sort result ≡ integer_and_text_give op }
{
    match op {
        Op2::Cat => Some(Sort::Text),
        _ => None,
    }
}

/// The sort that an operation with two operands gives, where it takes these.
pub(crate) fn two_give(op: Op2, left: Sort, right: Sort) -> Option<Sort>
    ensures { option_map seen_sort result ≡ two_give op (seen_sort left) (seen_sort right) }
{
    match (left, right) {
        (Sort::Integer, Sort::Integer) => integers_give(op),
        (Sort::Bits, Sort::Bits) => strings_give(op),
        (Sort::Text, Sort::Text) => texts_give(op),
        (Sort::Text, Sort::Integer) => text_and_integer_give(op),
        (Sort::Integer, Sort::Text) => integer_and_text_give(op),
        _ => None,
    }
}

/// Whether a cell of the kind takes a value of the sort.
pub(crate) fn takes(kind: Kind, sort: Sort) -> bool
    ensures { result ≡ takes kind (seen_sort sort) }
{
    match (kind, sort) {
        (Kind::Single, Sort::Integer) => true,
        (Kind::Double, Sort::Integer) => true,
        (Kind::Bits(_), Sort::Bits) => true,
        (Kind::Text(_), Sort::Integer) => true,
        (Kind::Text(_), Sort::Text) => true,
        _ => false,
    }
}

/// Whether a part of a cell of the kind, which holds a value of the first sort, takes one of the second.
pub(crate) fn takes_part(kind: Kind, old: Sort, new: Sort) -> bool
    ensures { result ≡ takes_part kind (seen_sort old) (seen_sort new) }
{
    match (kind, old, new) {
        (Kind::Bits(_), Sort::Bits, Sort::Bits) => true,
        (Kind::Text(_), Sort::Text, Sort::Integer) => true,
        (Kind::Text(_), Sort::Text, Sort::Text) => true,
        _ => false,
    }
}
