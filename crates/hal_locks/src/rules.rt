//! The rules of locks over phrases.

ghost use Rattle.std.specs.Prelude.{◌≡◌};
ghost use Rattle.hal_phrases.specs.SeenPhrases.{seen_phrase};
ghost use Rattle.hal_names.specs.SeenNames.{seen_names};
ghost use Rattle.hal_constants.specs.SeenKnown.{seen_known};
ghost use Rattle.hal_locks.specs.Locked as locked;
ghost use Rattle.hal_locks.specs.Rules as table;
ghost use Rattle.hal_locks.specs.Updates as updates;

use crate::barred::barred_within;
use crate::callees::misled;
use crate::locked::has_grouped;
use crate::passed::mispassed;
use crate::placed::misplaced;
use crate::updates::{nested, returned, unheld};
use hal_base::Place;
use hal_base::rules::{
    BARRED_CALL_IN_UPDATE, BARRED_IN_UPDATE, LOCK_DATA_OUTSIDE_UPDATE, LOCK_DATA_PASSED,
    MISPLACED_LOCK, NESTED_UPDATE, RETURN_IN_UPDATE,
};
use hal_constants::Known;
use hal_names::Names;
use hal_phrases::Phrase;
use hal_scope::ruled;

/// Where a phrase breaks rule 801, by whether the set has data of a known lock group at all.
#[tactic(auto, using(crate::proofs::Grouped::none_unheld))]
fn unheld_among(names: &Names<'_>, grouped: bool, phrase: &Phrase<'_>) -> Option<Place>
    requires all { grouped ≡ locked.has_grouped (seen_names names.now) }
    ensures { result ≡ updates.unheld (seen_names names.now) (seen_phrase phrase.now) }
{
    if grouped { unheld(names, phrase) } else { None }
}

/// The first rule of locks that a phrase breaks, and where, by the units that an UPDATE block may not call, and by whether the set has data of a known lock group.
fn fault(
    names: &Names<'_>,
    known: &Known,
    units: &[usize],
    grouped: bool,
    phrase: &Phrase<'_>,
) -> Option<(u16, Place)>
    requires all { grouped ≡ locked.has_grouped (seen_names names.now) }
    ensures { result ≡ table.fault_with (seen_names names.now) (seen_known known.now) units.now (seen_phrase phrase.now) }
{
    let later = ruled(RETURN_IN_UPDATE, returned(phrase));
    let later = ruled(LOCK_DATA_PASSED, mispassed(names, phrase)).or(later);
    let later = ruled(MISPLACED_LOCK, misplaced(names, known, phrase)).or(later);
    let later = ruled(BARRED_CALL_IN_UPDATE, misled(names, units, phrase)).or(later);
    let later = ruled(BARRED_IN_UPDATE, barred_within(names, phrase)).or(later);
    let later = ruled(NESTED_UPDATE, nested(phrase)).or(later);
    ruled(
        LOCK_DATA_OUTSIDE_UPDATE,
        unheld_among(names, grouped, phrase),
    )
    .or(later)
}

/// The first rule of locks that one of the phrases breaks, and where.
#[tactic(auto, unfolding(crate::specs::Rules::first_with))]
pub(crate) fn first_fault(names: &Names<'_>, known: &Known, units: &[usize]) -> Option<(u16, Place)>
    ensures { result ≡ table.first_with (seen_names names.now) (seen_known known.now) units.now (seen_names names.now) }
{
    let grouped = has_grouped(names);
    let phrases = names.phrases();
    for phrase in phrases {
        let found = fault(names, known, units, grouped, phrase);
        if found.is_some() {
            return found;
        }
    }
    None
}
