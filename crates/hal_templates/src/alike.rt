//! Whether what attributes say is the same.

ghost use Rattle.std.specs.Prelude.{◌≡◌};
ghost use Rattle.hal_templates.specs.Alike as alike;

use crate::traits::Traits;
use hal_values::Kind;
use hal_words::Name;

/// Whether both hold, or neither does.
pub(crate) fn both_or_neither(one: bool, other: bool) -> bool
    ensures { result ≡ alike.both_or_neither one other }
{
    if one { other } else { !other }
}

/// Two kinds of cells.
#[tactic(auto, unfolding(crate::specs::Alike::same_kind))]
fn same_kind(one: Kind, other: Kind) -> bool
    ensures { result ≡ alike.same_kind one other }
{
    match (one, other) {
        (Kind::Single, Kind::Single) => true,
        (Kind::Double, Kind::Double) => true,
        (Kind::Bits(m), Kind::Bits(n)) => m == n,
        (Kind::Text(m), Kind::Text(n)) => m == n,
        _ => false,
    }
}

/// The same, as far as both are known.
#[tactic(auto, unfolding(crate::specs::Alike::may_be_kind))]
pub(crate) fn may_be_kind(one: Option<Kind>, other: Option<Kind>) -> bool
    ensures { result ≡ alike.may_be_kind one other }
{
    match (one, other) {
        (Some(one), Some(other)) => same_kind(one, other),
        _ => true,
    }
}

/// Two numbers, as far as both are known.
#[tactic(auto, unfolding(crate::specs::Alike::may_be_number))]
pub(crate) fn may_be_number(one: Option<u16>, other: Option<u16>) -> bool
    ensures { result ≡ alike.may_be_number one other }
{
    match (one, other) {
        (Some(one), Some(other)) => one == other,
        _ => true,
    }
}

/// The names of two structure templates, where there are some.
#[tactic(auto, unfolding(crate::specs::Alike::same_template))]
pub(crate) fn same_template(one: Option<Name>, other: Option<Name>) -> bool
    ensures { result ≡ alike.same_template one other }
{
    match (one, other) {
        (Some(one), Some(other)) => one.bytes() == other.bytes(),
        (None, None) => true,
        _ => false,
    }
}

/// What two types say.
fn same_type(one: &Traits, other: &Traits) -> bool
    ensures { result ≡ alike.same_type one.now other.now }
{
    both_or_neither(one.typed, other.typed)
        && (both_or_neither(one.event, other.event) && may_be_kind(one.kind, other.kind))
}

/// What two locks say.
fn same_lock(one: &Traits, other: &Traits) -> bool
    ensures { result ≡ alike.same_lock one.now other.now }
{
    both_or_neither(one.starred, other.starred)
        && (both_or_neither(one.locked, other.locked) && may_be_number(one.group, other.group))
}

/// What two words say of storage, and whether there are CONSTANT values.
fn same_storage(one: &Traits, other: &Traits) -> bool
    ensures { result ≡ alike.same_storage one.now other.now }
{
    both_or_neither(one.latched, other.latched)
        && (both_or_neither(one.automatic, other.automatic)
            && both_or_neither(one.constant, other.constant))
}

/// Whether the attributes of two names mean the same, as far as it is known (language document, Templates).
pub(crate) fn same_traits(one: &Traits, other: &Traits) -> bool
    ensures { result ≡ alike.same_traits one.now other.now }
{
    same_type(one, other) && (same_lock(one, other) && same_storage(one, other))
}
