//! The rules of templates over phrases.

ghost use Rattle.std.specs.Prelude.{◌≡◌, IfOk};
ghost use Rattle.hal_phrases.specs.SeenPhrases.{seen_phrase};
ghost use Rattle.hal_names.specs.SeenNames.{seen_names};
ghost use Rattle.hal_constants.specs.SeenKnown.{seen_known};
ghost use Rattle.hal_templates.specs.Rules as table;

use crate::templates::{differing, doubled, lacking};
use hal_base::Place;
use hal_base::rules::{DIFFERING_TEMPLATE, REPEATED_UNIT_NAME, TEMPLATE_WITHOUT_UNIT};
use hal_constants::Known;
use hal_names::Names;
use hal_phrases::Phrase;
use hal_scope::ruled;
use std::alloc::{AllocError, Global};

/// The first rule of templates that a phrase breaks, and where, unless memory is wanting.
fn fault(
    alloc: Global,
    names: &Names<'_>,
    known: &Known,
    phrase: &Phrase<'_>,
) -> Result<Option<(u16, Place)>, AllocError>
    ensures { IfOk result (λ found. found ≡ table.fault_with (seen_names names.now) (seen_known known.now) (seen_phrase phrase.now)) }
{
    let differing = differing(alloc, names, known, phrase)?;
    let later = ruled(REPEATED_UNIT_NAME, doubled(names, phrase));
    let later = ruled(TEMPLATE_WITHOUT_UNIT, lacking(names, phrase)).or(later);
    Ok(ruled(DIFFERING_TEMPLATE, differing).or(later))
}

/// The first rule of templates that one of the phrases breaks, and where, unless memory is wanting.
#[tactic(auto, using(crate::proofs::Found::first_declared), unfolding(crate::specs::Rules::first_with))]
pub(crate) fn first_fault(
    alloc: Global,
    names: &Names<'_>,
    known: &Known,
) -> Result<Option<(u16, Place)>, AllocError>
    ensures { IfOk result (λ found. found ≡ table.first_with (seen_names names.now) (seen_known known.now) (seen_names names.now)) }
{
    let phrases = names.declarations(alloc)?;
    for phrase in &phrases {
        let found = fault(alloc, names, known, phrase)?;
        if found.is_some() {
            return Ok(found);
        }
    }
    Ok(None)
}
