//! What cells of a kind hold.

ghost use Rattle.std.specs.Prelude.{◌≡◌, ◌^◌, ◌%◌, nat_lt, pos, negsuc};
ghost use Rattle.hal_states.specs.OfKinds as kinds;
ghost use Rattle.hal_meaning.specs.InitialValues as initial;
ghost use Rattle.hal_values.specs.declared.value.Kind.TheVariants as kind;
ghost use Rattle.hal_values.specs.declared.value.Value.TheVariants as value;

use hal_base::{SINGLE_LEAST, SINGLE_MOST};
use hal_operations::mend_fit;
use hal_values::{Kind, Text, Value};

/// What a cell of the kind holds without a value: zero, zeros, or the empty text.
pub fn nothing(kind: Kind) -> Value
    ensures { result ≡ kinds.nothing kind }
{
    match kind {
        Kind::Single => Value::Int(0),
        Kind::Double => Value::Int(0),
        Kind::Bits(len) => Value::Bits { len, word: 0 },
        Kind::Text(_) => Value::Text(Text::new()),
    }
}

/// Whether an integer is one that a SINGLE holds.
fn is_single(number: i32) -> bool
    ensures { result ≡ kinds.lies_within (negsuc 32767) (pos 32767) number }
{
    !(number < SINGLE_LEAST) && !(SINGLE_MOST < number)
}

/// Whether an integer is one that a DOUBLE holds.
fn is_double(number: i32) -> bool
    ensures { result ≡ kinds.lies_within (negsuc 2147483647) (pos 2147483647) number }
{
    let number = i64::from(number);
    !(number < -2_147_483_648) && !(2_147_483_647 < number)
}

/// Whether a word has no bits in front of its last ones.
#[tactic(auto, using(crate::proofs::first_values::Cut::is_bounded))]
fn has_bits(word: u32, bits: u8) -> bool
    ensures { result ≡ nat_lt word (2 ^ bits) }
{
    bits >= 32 || word < 1u32 << bits
}

/// Whether a value is of the kind.
#[tactic(auto, unfolding(hal_states::specs::OfKinds::is_of))]
fn is_of(kind: Kind, value: &Value) -> bool
    ensures { result ≡ kinds.is_of kind value.now }
{
    match (kind, value) {
        (Kind::Single, Value::Int(number)) => is_single(*number),
        (Kind::Double, Value::Int(number)) => is_double(*number),
        (Kind::Bits(n), Value::Bits { len, word }) => *len == n && has_bits(*word, n),
        (Kind::Text(n), Value::Text(text)) => text.bytes().len() <= usize::from(n),
        _ => false,
    }
}

/// The value, where it is of the kind, else none.
fn of_kind(kind: Kind, value: Value) -> Value
    ensures { result ≡ kinds.of_kind kind value }
{
    if is_of(kind, &value) {
        value
    } else {
        nothing(kind)
    }
}

/// The last bits of a word.
#[tactic(auto, using(crate::proofs::first_values::Cut::whole))]
fn low_bits(word: u32, len: u8) -> u32
    ensures { result ≡ word % 2 ^ len }
{
    if len >= 32 {
        word
    } else {
        word % (1u32 << len)
    }
}

/// What a cell of strings of this length holds of a string.
#[tactic(auto, using(crate::proofs::first_values::Cut::bits_cut))]
fn held_string(kept: u8, len: u8, word: u32) -> Value
    ensures { result ≡ initial.held (kind.Bits kept) (value.Bits len word) }
{
    Value::Bits {
        len: kept,
        word: low_bits(low_bits(word, len), kept),
    }
}

/// What a cell of texts of at most so many bytes holds of a value.
#[tactic(auto, using(crate::proofs::first_values::Cut::no_room), unfolding(hal_states::specs::OfKinds::is_of))]
fn held_text(most: u8, value: &Value) -> Value
    ensures { result ≡ initial.held (kind.Text most) value.now }
{
    let kind = Kind::Text(most);
    if most == 0 {
        return nothing(kind);
    }
    match value {
        Value::Bits { .. } => nothing(kind),
        Value::Int(_) => of_kind(kind, mend_fit(kind, value)),
        Value::Text(_) => of_kind(kind, mend_fit(kind, value)),
    }
}

/// What a cell of the kind holds of a value: strings keep their last bits, texts their first bytes, and a SINGLE the nearest integer; nothing of
/// a value that it doesn't take, which no accepted set has there (language document, Places).
#[tactic(auto, unfolding(hal_states::specs::OfKinds::is_of))]
pub fn held(kind: Kind, value: &Value) -> Value
    ensures { result ≡ initial.held kind value.now }
{
    match (kind, value) {
        (Kind::Single, Value::Int(_)) => of_kind(kind, mend_fit(kind, value)),
        (Kind::Double, Value::Int(_)) => of_kind(kind, mend_fit(kind, value)),
        (Kind::Bits(kept), Value::Bits { len, word }) => held_string(kept, *len, *word),
        (Kind::Text(most), _) => held_text(most, value),
        _ => nothing(kind),
    }
}
