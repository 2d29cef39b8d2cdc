//! The rules of calls over phrases.

ghost use Rattle.std.specs.Prelude.{◌≡◌};
ghost use Rattle.hal_phrases.specs.SeenPhrases.{seen_phrase};
ghost use Rattle.hal_names.specs.SeenNames.{seen_names};
ghost use Rattle.hal_calls.specs.Rules as table;

use crate::blocks::{lone_among, named_among};
use crate::placed::{misplaced, nested};
use hal_base::Place;
use hal_base::rules::{
    MISPLACED_TASK, NESTED_ON_ERROR, RECURSIVE_BLOCK, SHARED_BLOCK_NOT_REENTRANT,
};
use hal_names::Names;
use hal_phrases::Phrase;
use hal_scope::ruled;

/// The first of the rules 901 to 904 that a phrase breaks, and where, by the units that reach themselves and those that more than one process
/// reaches.
fn fault(
    names: &Names<'_>,
    recursive: &[usize],
    contended: &[usize],
    phrase: &Phrase<'_>,
) -> Option<(u16, Place)>
    ensures { result ≡ table.fault_with (seen_names names.now) recursive.now contended.now (seen_phrase phrase.now) }
{
    let later = ruled(MISPLACED_TASK, misplaced(names, phrase));
    let later = ruled(NESTED_ON_ERROR, nested(phrase)).or(later);
    let later = ruled(SHARED_BLOCK_NOT_REENTRANT, lone_among(contended, phrase)).or(later);
    ruled(RECURSIVE_BLOCK, named_among(recursive, phrase)).or(later)
}

/// The first one that one of the phrases breaks, and where.
#[tactic(auto, unfolding(crate::specs::Rules::first_with))]
pub(crate) fn first_fault(
    names: &Names<'_>,
    recursive: &[usize],
    contended: &[usize],
) -> Option<(u16, Place)>
    ensures { result ≡ table.first_with (seen_names names.now) recursive.now contended.now (seen_names names.now) }
{
    let phrases = names.phrases();
    for phrase in phrases {
        let found = fault(names, recursive, contended, phrase);
        if found.is_some() {
            return found;
        }
    }
    None
}
