//! What the lock groups of UPDATE blocks are found by.

ghost use Rattle.std.specs.Prelude.{◌≡◌, IfOk};
ghost use Rattle.hal_phrases.specs.SeenPhrases.{seen_phrase};
ghost use Rattle.hal_names.specs.SeenNames.{seen_names};
ghost use Rattle.hal_constants.specs.SeenKnown.{seen_known};
ghost use Rattle.hal_lock_groups.specs.Shared as shared;
ghost use Rattle.hal_lock_groups.specs.SeenShared.{seen_shared};

use crate::naming::all_storings;
use crate::plain::plain_homes;
use hal_constants::Known;
use hal_names::Names;
use hal_phrases::Phrase;
use hal_reach::{Units, callee, is_among};
use hal_storage::cells::Storing;
use std::alloc::{AllocError, Global};

/// How the data of a set of files are stored, and who uses the plain ones.
#[derive(Drop)]
pub(crate) struct Shared {
    /// How what each phrase declares is stored.
    pub(crate) storings: Vec<Storing>,
    /// The numbers of the units that name plain shared data, or reach one by calls that does.
    pub(crate) plain: Vec<usize>,
}

/// What is shared in a set of files.
#[tactic(auto, unfolding(crate::specs::Shared::shared_of))]
pub(crate) fn shared_of(
    alloc: Global,
    units: &Units<'_>,
    known: &Known,
) -> Result<Shared, AllocError>
    ensures { IfOk result (λ found. seen_shared found ≡ shared.shared_of (seen_names units.now.names.now) (seen_known known.now)) }
{
    let names = units.names();
    let storings = all_storings(alloc, names, known)?;
    let homes = plain_homes(alloc, names, &storings)?;
    let plain = units.reaching_any(alloc, &homes)?;
    Ok(Shared { storings, plain })
}

/// Whether a phrase calls one of these units.
pub(crate) fn calls_one(names: &Names<'_>, units: &[usize], phrase: &Phrase<'_>) -> bool
    ensures { result ≡ shared.calls_one (seen_names names.now) units.now (seen_phrase phrase.now) }
{
    match callee(names, phrase) {
        None => false,
        Some(unit) => is_among(units, unit),
    }
}
