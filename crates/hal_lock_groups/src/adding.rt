//! The lock groups of all UPDATE blocks of a set, gathered phrase by phrase.

ghost use Rattle.std.specs.Prelude.{◌≡◌, IfOk, OnOk};
ghost use Rattle.hal_phrases.specs.SeenPhrases.{seen_phrase};
ghost use Rattle.hal_names.specs.SeenNames.{seen_names};
ghost use Rattle.hal_lock_groups.specs.Gathering as gathering;
ghost use Rattle.hal_lock_groups.specs.SeenShared.{seen_shared};

use crate::groups::bits_at;
use crate::shared::Shared;
use hal_names::Names;
use hal_phrases::Phrase;
use std::alloc::{AllocError, Global};

/// Makes a list longer where it ends before this number.
#[tactic(auto, using(crate::proofs::Gathering::long_enough))]
fn hold(list: &mut Vec<u16>, number: usize) -> Result<(), AllocError>
    ensures { OnOk result (list.new.items ≡ gathering.held list.old.items number) }
{
    let Some(least) = number.checked_add(1) else {
        return Err(AllocError);
    };
    if list.len() < least {
        list.resize(least, 0)?;
    }
    Ok(())
}

/// Adds bits to those for a number, where the list has a place for it.
fn join(list: &mut Vec<u16>, number: usize, bits: u16)
    ensures { list.new.items ≡ gathering.joined list.old.items number bits }
{
    if let Some(groups) = list.get_mut(number) {
        *groups |= bits;
    }
}

/// Adds the bits of the groups that a phrase uses to those of the UPDATE block around it.
fn add_phrase(
    list: &mut Vec<u16>,
    names: &Names<'_>,
    shared: &Shared,
    phrase: &Phrase<'_>,
) -> Result<(), AllocError>
    ensures { OnOk result (list.new.items ≡ gathering.with_phrase (seen_names names.now) (seen_shared shared.now) list.old.items (seen_phrase phrase.now)) }
{
    let Some(update) = phrase.around.update else {
        return Ok(());
    };
    hold(list, update)?;
    join(list, update, bits_at(names, shared, phrase));
    Ok(())
}

/// The bits of the lock groups of each UPDATE block at the number of its phrase, by what is shared in the set.
#[tactic(auto, unfolding(crate::specs::Gathering::with_phrases))]
pub(crate) fn gathered(
    alloc: Global,
    names: &Names<'_>,
    shared: &Shared,
) -> Result<Vec<u16>, AllocError>
    ensures { IfOk result (λ list. list.items ≡ gathering.gathered (seen_names names.now) (seen_shared shared.now)) }
{
    let mut list = Vec::new(alloc);
    let phrases = names.phrases();
    for phrase in phrases {
        add_phrase(&mut list, names, shared, phrase)?;
    }
    Ok(list)
}
