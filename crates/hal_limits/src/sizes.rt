//! How many cells or places data have.

ghost use Rattle.std.specs.Prelude.{◌≡◌, map, IfOk};
ghost use Rattle.hal_tree.specs.SeenDeclarations.{seen_attribute, seen_declared};
ghost use Rattle.hal_phrases.specs.SeenPhrases.{seen_phrase};
ghost use Rattle.hal_names.specs.SeenNames.{seen_names};
ghost use Rattle.hal_constants.specs.SeenKnown.{seen_known};
ghost use Rattle.hal_storage.specs.elements.SeenComponents.{seen_shape};
ghost use Rattle.hal_limits.specs.Counts.{capped};
ghost use Rattle.hal_limits.specs.Sizes as sizes;

use hal_constants::Known;
use hal_names::Names;
use hal_phrases::Phrase;
use hal_storage::elements::{Shape, copy_size, shape_of};
use hal_tree::{Attribute, Declared};
use std::alloc::{AllocError, Global};

/// How many elements data of this shape have, 4,294,967,295 where they have more.
#[tactic(auto, using(crate::proofs::Sized::shape_sized))]
fn size_of_shape(shape: &Shape) -> u32
    ensures { result ≡ capped (sizes.size_of_shape (seen_shape shape.now)) }
{
    u32::from(shape.copies.unwrap_or(1)).saturating_mul(copy_size(&shape.components))
}

/// How many elements what a phrase declares behind these common attributes has, 4,294,967,295 where it has more (language document, Places).
pub(crate) fn size_of_item(
    alloc: Global,
    names: &Names<'_>,
    known: &Known,
    phrase: &Phrase<'_>,
    common: &[Attribute],
    item: &Declared,
) -> Result<u32, AllocError>
    ensures { IfOk result (λ size. size ≡ capped (sizes.size_of_item (seen_names names.now) (seen_known known.now) (seen_phrase phrase.now) (map seen_attribute common.now) (seen_declared item.now))) }
{
    let shape = shape_of(alloc, names, known, phrase, common, item)?;
    Ok(size_of_shape(&shape))
}

/// A number, 4,294,967,295 where it is more.
pub(crate) fn capped(number: usize) -> u32
    ensures { result ≡ capped number }
{
    if number < 4_294_967_295 {
        number as u32
    } else {
        4_294_967_295
    }
}
