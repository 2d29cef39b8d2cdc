//! The index of the names that phrases declare.

ghost use Rattle.std.specs.Prelude.{◌≡◌, map, IfOk, OnOk};
ghost use Rattle.hal_phrases.specs.SeenPhrases.{seen_phrase};
ghost use Rattle.hal_names.specs.Index.{found, IsIndex, IsNoted};

use crate::declaring::declared_by;
use crate::key::Key;
use hal_phrases::Phrase;
use indexmap::IndexMap;
use std::alloc::{AllocError, Global};

/// What the index has for a key.
pub(crate) fn number_of(index: &IndexMap<Key, usize>, key: &Key) -> Option<usize>
    ensures { result ≡ found index.now.entries key.now }
{
    index.get(key).copied()
}

/// Notes the name that a phrase declares, where none before it declares the same.
#[tactic(auto, using(crate::proofs::Indexed::noted_nothing, crate::proofs::Indexed::noted_again))]
fn note(index: &mut IndexMap<Key, usize>, phrase: &Phrase<'_>) -> Result<(), AllocError>
    ensures { OnOk result (IsNoted index.old.entries index.new.entries (seen_phrase phrase.now)) }
{
    let Some(key) = declared_by(phrase) else {
        return Ok(());
    };
    match number_of(index, &key) {
        Some(_) => Ok(()),
        None => {
            index.insert(key, phrase.number)?;
            Ok(())
        }
    }
}

/// The index of phrases.
#[tactic(auto, using(crate::proofs::Indexed::nothing_noted))]
pub(crate) fn index_of(
    alloc: Global,
    phrases: &[Phrase<'_>],
) -> Result<IndexMap<Key, usize>, AllocError>
    ensures { IfOk result (λ index. IsIndex index.entries (map seen_phrase phrases.now)) }
{
    let mut index = IndexMap::new(alloc);
    for phrase in phrases {
        note(&mut index, phrase)?;
    }
    Ok(index)
}
