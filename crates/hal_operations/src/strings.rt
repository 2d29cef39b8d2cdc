//! Strings of bits as words. A string of `len` bits is a word below 2 to the power `len`.

ghost use Rattle.std.specs.Prelude.{◌≡◌, ◌≤◌, ◌<◌, ◌-◌, ◌^◌, ◌%◌, ◌&&◌, ◌||◌, not, map};
ghost use Rattle.hal_values.specs.declared.value.Value.TheVariants as value;
ghost use Rattle.hal_operations.specs.Operands.{IsString};
ghost use Rattle.hal_operations.specs.Strings.{bits_of, string, one_bit, bitwise, differ, are_equal, joined, fitted_string};
ghost use Rattle.hal_operations.specs.Parts.{taken, patched_string};

use hal_base::BIT_LIMIT;
use hal_values::Value;

/// A string of bits: the last `len` bits of a word whose other bits are zeros.
#[derive(Clone, Copy)]
pub struct BitString {
    pub len: u8,
    pub word: u32,
}

impl BitString {
    /// The string as a value.
    pub(crate) fn value(self) -> Value
        ensures { result ≡ value.Bits self.len self.word }
    {
        Value::Bits {
            len: self.len,
            word: self.word,
        }
    }
}

/// One bit.
pub(crate) fn one_bit(bit: bool) -> BitString
    ensures { value.Bits result.len result.word ≡ one_bit bit }
{
    BitString {
        len: 1,
        word: u32::from(bit),
    }
}

/// So many ones.
fn ones(len: u8) -> u32
    requires { len ≤ 32 }
    ensures { result ≡ 2 ^ len - 1 }
{
    ((1u64 << len) - 1) as u32
}

/// The other bits.
#[tactic(auto, using(crate::proofs::BitWords::not_string))]
pub(crate) fn not(len: u8, word: u32) -> Value
    requires { IsString len word }
    ensures { result ≡ string (map not (bits_of len word)) }
{
    Value::Bits {
        len,
        word: ones(len) - word,
    }
}

/// The bits that both have.
#[tactic(auto, using(crate::proofs::BitWords::and_string))]
pub(crate) fn and(m: u8, x: u32, n: u8, y: u32) -> BitString
    requires left { IsString m x }
    requires right { IsString n y }
    ensures { value.Bits result.len result.word ≡ string (bitwise (λ a b. a && b) (bits_of m x) (bits_of n y)) }
{
    BitString {
        len: m.max(n),
        word: x & y,
    }
}

/// The bits that one of them has.
#[tactic(auto, using(crate::proofs::BitWords::or_string))]
pub(crate) fn or(m: u8, x: u32, n: u8, y: u32) -> BitString
    requires left { IsString m x }
    requires right { IsString n y }
    ensures { value.Bits result.len result.word ≡ string (bitwise (λ a b. a || b) (bits_of m x) (bits_of n y)) }
{
    BitString {
        len: m.max(n),
        word: x | y,
    }
}

/// The bits that one of them has, and not both.
#[tactic(auto, using(crate::proofs::BitWords::xor_string))]
pub(crate) fn xor(m: u8, x: u32, n: u8, y: u32) -> BitString
    requires left { IsString m x }
    requires right { IsString n y }
    ensures { value.Bits result.len result.word ≡ string (bitwise differ (bits_of m x) (bits_of n y)) }
{
    BitString {
        len: m.max(n),
        word: x ^ y,
    }
}

/// Whether they are equal, the shorter filled with zeros.
#[tactic(auto, using(crate::proofs::BitWords::equal_strings))]
pub(crate) fn are_equal(m: u8, x: u32, n: u8, y: u32) -> bool
    requires left { IsString m x }
    requires right { IsString n y }
    ensures { result ≡ are_equal (bits_of m x) (bits_of n y) }
{
    let _lengths = (m, n);
    x == y
}

/// The last bits of a word.
fn low_bits(word: u64, len: u8) -> u32
    requires { len ≤ 32 }
    ensures { result ≡ word % 2 ^ len }
{
    (word % (1u64 << len)) as u32
}

/// The two joined, of which the last 32 bits are kept.
#[tactic(auto, using(crate::proofs::BitWords::joined_string))]
pub(crate) fn joined(m: u8, x: u32, n: u8, y: u32) -> BitString
    requires left { IsString m x }
    requires right { IsString n y }
    ensures { value.Bits result.len result.word ≡ string (joined (bits_of m x) (bits_of n y)) }
{
    let len = (m + n).min(BIT_LIMIT);
    let whole = (u64::from(x) << n) + u64::from(y);
    BitString {
        len,
        word: low_bits(whole, len),
    }
}

/// What a string is as a word of `n` bits: cut on its left, or filled with zeros there. See docs/LANGUAGE.md, "Operations", on stores.
#[tactic(auto, using(crate::proofs::BitWords::fitted_word))]
pub fn fit_string(n: u8, len: u8, word: u32) -> u32
    requires room { n ≤ 32 }
    requires string { IsString len word }
    ensures { value.Bits n result ≡ string (fitted_string n (bits_of len word)) }
{
    let _length = len;
    low_bits(u64::from(word), n)
}

/// The bits of a part.
#[tactic(auto, using(crate::proofs::BitWords::taken_string))]
pub(crate) fn taken(from: u8, to: u8, len: u8, word: u32) -> Value
    requires order { from ≤ to }
    requires bound { to ≤ len }
    requires string { IsString len word }
    ensures { result ≡ string (taken from to (bits_of len word)) }
{
    let size = to - from;
    Value::Bits {
        len: size,
        word: low_bits(u64::from(word) >> (len - to), size),
    }
}

/// A string with another one in place of a part.
#[tactic(auto, using(crate::proofs::BitWords::patched_below, crate::proofs::BitWords::patched_bits))]
pub(crate) fn patched(from: u8, to: u8, n: u8, y: u32, len: u8, word: u32) -> Value
    requires order { from < to }
    requires bound { to ≤ len }
    requires new { IsString n y }
    requires string { IsString len word }
    ensures { result ≡ string (patched_string from to (bits_of n y) (bits_of len word)) }
{
    let _length = n;
    let after = len - to;
    let high = u64::from(word) >> (len - from) << (len - from);
    let new = u64::from(low_bits(u64::from(y), to - from)) << after;
    let low = u64::from(low_bits(u64::from(word), after));
    Value::Bits {
        len,
        word: (high + new + low) as u32,
    }
}
