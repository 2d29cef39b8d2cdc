//! The units that do what an UPDATE block may not do, and calls of them.

ghost use Rattle.std.specs.Prelude.{◌≡◌, IfOk, OnOk};
ghost use Rattle.hal_phrases.specs.SeenPhrases.{seen_phrase};
ghost use Rattle.hal_names.specs.SeenNames.{seen_names};
ghost use Rattle.hal_locks.specs.Callees as callees;

use crate::barred::barred;
use crate::updates::{named_in, updating};
use hal_base::Place;
use hal_names::Names;
use hal_phrases::Phrase;
use hal_reach::{Units, callee, is_among};
use hal_scope::unless;
use std::alloc::{AllocError, Global};

/// Whether a phrase is UPDATE, or does what an UPDATE block may not do.
fn is_barred(names: &Names<'_>, phrase: &Phrase<'_>) -> bool
    ensures { result ≡ callees.is_barred (seen_names names.now) (seen_phrase phrase.now) }
{
    updating(phrase.node).is_some() || barred(names, phrase.around.block, phrase.node).is_some()
}

/// Adds the block of a phrase of this sort, unless it is there.
fn add_home(
    homes: &mut Vec<usize>,
    names: &Names<'_>,
    phrase: &Phrase<'_>,
) -> Result<(), AllocError>
    ensures { OnOk result (homes.new.items ≡ callees.with_home (seen_names names.now) homes.old.items (seen_phrase phrase.now)) }
{
    if is_among(homes, phrase.around.home) {
        return Ok(());
    }
    if is_barred(names, phrase) {
        homes.push(phrase.around.home)?;
    }
    Ok(())
}

/// The blocks that have a phrase of this sort.
#[tactic(auto, unfolding(crate::specs::Callees::with_homes))]
fn barred_homes(alloc: Global, names: &Names<'_>) -> Result<Vec<usize>, AllocError>
    ensures { IfOk result (λ homes. homes.items ≡ callees.barred_homes (seen_names names.now)) }
{
    let mut homes = Vec::new(alloc);
    let phrases = names.phrases();
    for phrase in phrases {
        add_home(&mut homes, names, phrase)?;
    }
    Ok(homes)
}

/// The numbers of the units that have a phrase of this sort, or reach one by calls that has.
#[tactic(auto, unfolding(crate::specs::Callees::barred_units))]
pub(crate) fn barred_units(alloc: Global, units: &Units<'_>) -> Result<Vec<usize>, AllocError>
    ensures { IfOk result (λ barred. barred.items ≡ callees.barred_units (seen_names units.now.names.now)) }
{
    let homes = barred_homes(alloc, units.names())?;
    units.reaching_any(alloc, &homes)
}

/// Whether a phrase calls one of these units.
fn calls_one(names: &Names<'_>, units: &[usize], phrase: &Phrase<'_>) -> bool
    ensures { result ≡ callees.calls_one (seen_names names.now) units.now (seen_phrase phrase.now) }
{
    match callee(names, phrase) {
        None => false,
        Some(unit) => is_among(units, unit),
    }
}

/// Where a phrase calls, if that is a call of this sort.
fn calling(sort: bool, phrase: &Phrase<'_>) -> Option<Place>
    ensures { result ≡ callees.calling sort (seen_phrase phrase.now) }
{
    let named = named_in(phrase.node)?;
    unless(!sort, named.place)
}

/// Where a phrase breaks rule 804, by the units that an UPDATE block may not call (language document, Locks).
pub(crate) fn misled(names: &Names<'_>, units: &[usize], phrase: &Phrase<'_>) -> Option<Place>
    ensures { result ≡ callees.misled_by (seen_names names.now) units.now (seen_phrase phrase.now) }
{
    if phrase.around.update.is_none() {
        return None;
    }
    calling(calls_one(names, units, phrase), phrase)
}
