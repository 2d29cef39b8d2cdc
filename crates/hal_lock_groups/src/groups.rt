//! The lock groups that a phrase uses.

ghost use Rattle.std.specs.Prelude.{◌≡◌};
ghost use Rattle.hal_phrases.specs.SeenPhrases.{seen_phrase};
ghost use Rattle.hal_names.specs.SeenNames.{seen_names};
ghost use Rattle.hal_storage.specs.cells.SeenStoring.{seen_storing};
ghost use Rattle.hal_lock_groups.specs.Groups as groups;
ghost use Rattle.hal_lock_groups.specs.SeenShared.{seen_shared};

use crate::naming::storing_named;
use crate::shared::{Shared, calls_one};
use hal_names::Names;
use hal_phrases::Phrase;
use hal_storage::cells::Storing;

/// The bit of a lock group, 0 where there is no such group.
#[tactic(auto, using(crate::proofs::Bits::one_bit))]
fn bit_of(group: u8) -> u16
    ensures { result ≡ groups.bit_of group }
{
    if group < 16 { 1u16 << group } else { 0 }
}

/// The bit of the group of data that are stored so, that of group 0 for an ASSIGN parameter.
fn bit_stored(storing: Storing) -> u16
    ensures { result ≡ groups.bit_stored (seen_storing storing) }
{
    match storing {
        Storing::InCells(group) => bit_of(group),
        Storing::ByReference => 1,
        Storing::InPlaces | Storing::Unstored => 0,
    }
}

/// The bits of the groups that a phrase uses: that of the data that it names, and that of group 0 where it calls a unit that uses it.
pub(crate) fn bits_at(names: &Names<'_>, shared: &Shared, phrase: &Phrase<'_>) -> u16
    ensures { result ≡ groups.bits_at (seen_names names.now) (seen_shared shared.now) (seen_phrase phrase.now) }
{
    let bit = bit_stored(storing_named(names, &shared.storings, phrase));
    if calls_one(names, &shared.plain, phrase) {
        bit | 1
    } else {
        bit
    }
}
