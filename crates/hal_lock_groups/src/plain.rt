//! The homes of phrases that name plain shared data.

ghost use Rattle.std.specs.Prelude.{◌≡◌, IfOk, OnOk, map};
ghost use Rattle.hal_phrases.specs.SeenPhrases.{seen_phrase};
ghost use Rattle.hal_names.specs.SeenNames.{seen_names};
ghost use Rattle.hal_storage.specs.cells.SeenStoring.{seen_storing};
ghost use Rattle.hal_meaning.specs.LockGroups as locks;
ghost use Rattle.hal_lock_groups.specs.Shared as shared;

use crate::naming::storing_named;
use hal_names::Names;
use hal_phrases::Phrase;
use hal_reach::is_among;
use hal_storage::cells::Storing;
use std::alloc::{AllocError, Global};

/// Whether data that are stored so are plain shared data or an ASSIGN parameter.
fn is_plain(storing: Storing) -> bool
    ensures { result ≡ locks.is_plain (seen_storing storing) }
{
    match storing {
        Storing::InCells(group) => group == 0,
        Storing::ByReference => true,
        Storing::InPlaces | Storing::Unstored => false,
    }
}

/// Adds a number, unless it is there.
fn add_number(numbers: &mut Vec<usize>, number: usize) -> Result<(), AllocError>
    ensures { OnOk result (numbers.new.items ≡ shared.with_number numbers.old.items number) }
{
    if is_among(numbers, number) {
        return Ok(());
    }
    numbers.push(number)?;
    Ok(())
}

/// Adds the home of a phrase where it names plain shared data.
fn add_home(
    homes: &mut Vec<usize>,
    names: &Names<'_>,
    storings: &[Storing],
    phrase: &Phrase<'_>,
) -> Result<(), AllocError>
    ensures { OnOk result (homes.new.items ≡ shared.with_home (seen_names names.now) (map seen_storing storings.now) homes.old.items (seen_phrase phrase.now)) }
{
    if is_plain(storing_named(names, storings, phrase)) {
        add_number(homes, phrase.around.home)?;
    }
    Ok(())
}

/// The homes of the phrases that name plain shared data.
#[tactic(auto, unfolding(crate::specs::Shared::with_homes))]
pub(crate) fn plain_homes(
    alloc: Global,
    names: &Names<'_>,
    storings: &[Storing],
) -> Result<Vec<usize>, AllocError>
    ensures { IfOk result (λ homes. homes.items ≡ shared.plain_homes (seen_names names.now) (map seen_storing storings.now)) }
{
    let mut homes = Vec::new(alloc);
    let phrases = names.phrases();
    for phrase in phrases {
        add_home(&mut homes, names, storings, phrase)?;
    }
    Ok(homes)
}
