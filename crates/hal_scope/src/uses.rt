//! The rules of names that phrases use.

ghost use Rattle.std.specs.Prelude.{◌≡◌};
ghost use Rattle.hal_phrases.specs.SeenPhrases.{seen_phrase};
ghost use Rattle.hal_names.specs.SeenNames.{seen_names};
ghost use Rattle.hal_scope.specs.Uses as uses;

use crate::builtin::builtin_named;
use crate::events::{is_in_event, sort_at};
use crate::sort::Sort;
use crate::sorts::{fits, fits_builtin, is_known, used};
use crate::usage::Usage;
use crate::used::Use;
use hal_base::Place;
use hal_names::Names;
use hal_phrases::Phrase;
use hal_words::Name;

/// The place, unless all is right.
pub fn unless(right: bool, place: Place) -> Option<Place>
    ensures { result ≡ uses.unless right place }
{
    if right { None } else { Some(place) }
}

/// Whether the built-in function of this name is known where it is used so.
fn is_known_builtin(name: &Name, usage: Usage) -> bool
    ensures { result ≡ uses.is_known_builtin name.now usage }
{
    match builtin_named(name) {
        None => false,
        Some(builtin) => is_known(usage, builtin.form()),
    }
}

/// Whether a name is known where it is used.
fn is_known_use(names: &Names<'_>, block: usize, one: &Use) -> bool
    ensures { result ≡ uses.is_known_use (seen_names names.now) block one.now }
{
    names.means(block, &one.name).is_some() || is_known_builtin(&one.name, one.usage)
}

/// Where a phrase breaks rule 601.
#[tactic(auto, unfolding(crate::specs::Uses::unknown))]
pub(crate) fn unknown(names: &Names<'_>, phrase: &Phrase<'_>) -> Option<Place>
    ensures { result ≡ uses.unknown (seen_names names.now) (seen_phrase phrase.now) }
{
    let one = used(phrase.node)?;
    unless(is_known_use(names, phrase.around.block, &one), one.place)
}

/// Whether a name that is declared is one of the right sort where it is used.
fn fits_declared(names: &Names<'_>, phrase: &Phrase<'_>, usage: Usage, sort: Option<Sort>) -> bool
    ensures { result ≡ uses.fits_declared (seen_names names.now) (seen_phrase phrase.now) usage sort }
{
    let Some(sort) = sort else {
        return true;
    };
    match usage {
        Usage::EventOrTime => fits(usage, sort) || is_in_event(names, phrase),
        _ => fits(usage, sort),
    }
}

/// Whether a built-in function, where its name is one that is known, may be used so.
fn fits_named(name: &Name, usage: Usage) -> bool
    ensures { result ≡ uses.fits_named name.now usage }
{
    match builtin_named(name) {
        None => true,
        Some(builtin) => { !is_known(usage, builtin.form()) || fits_builtin(usage, builtin.form()) }
    }
}

/// Whether a name, where it is known, is a name of the right sort.
fn fits_use(names: &Names<'_>, phrase: &Phrase<'_>, one: &Use) -> bool
    ensures { result ≡ uses.fits_use (seen_names names.now) (seen_phrase phrase.now) one.now }
{
    match names.means(phrase.around.block, &one.name) {
        None => fits_named(&one.name, one.usage),
        Some(number) => fits_declared(names, phrase, one.usage, sort_at(names, number)),
    }
}

/// Where a phrase breaks rule 603.
#[tactic(auto, unfolding(crate::specs::Uses::misused))]
pub(crate) fn misused(names: &Names<'_>, phrase: &Phrase<'_>) -> Option<Place>
    ensures { result ≡ uses.misused (seen_names names.now) (seen_phrase phrase.now) }
{
    let one = used(phrase.node)?;
    unless(fits_use(names, phrase, &one), one.place)
}
