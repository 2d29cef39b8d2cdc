//! The parts to which the cells of a structure belong.

ghost use Rattle.std.specs.Prelude.{◌≡◌, ◌++◌, [], IfOk, OnOk, map};
ghost use Rattle.hal_tree.specs.SeenDeclarations.{seen_part};
ghost use Rattle.hal_phrases.specs.SeenPhrases.{seen_phrase};
ghost use Rattle.hal_names.specs.SeenNames.{seen_names};
ghost use Rattle.hal_sizes.specs.Parts.{bottoms};
ghost use Rattle.hal_constants.specs.SeenKnown.{seen_known};
ghost use Rattle.hal_initials.specs.Falling as falling;
ghost use Rattle.hal_initials.specs.SeenCells.{seen_cells};

use hal_constants::Known;
use hal_names::Names;
use hal_phrases::Phrase;
use hal_sizes::{Extent, bottom, extent_of_part, places_in};
use hal_tree::Part;
use std::alloc::{AllocError, Global};

/// How many places a part has, none where that isn't known.
#[tactic(auto, unfolding(crate::specs::Falling::known_places))]
fn known_places(extent: Option<Extent>) -> u128
    ensures { result ≡ falling.known_places extent }
{
    match extent {
        None => 0,
        Some(extent) => places_in(extent),
    }
}

/// Adds a part so many times.
#[tactic(auto, using(crate::proofs::Laid::one_more, crate::proofs::Laid::none_behind), unfolding(crate::specs::Falling::repeated))]
fn repeat<'a>(into: &mut Vec<&'a Part>, part: &'a Part, times: u128) -> Result<(), AllocError>
    ensures { OnOk result (seen_cells into.new.items ≡ seen_cells into.old.items ++ falling.repeated times (seen_part part.now) []) }
{
    let mut left = times;
    while let Some(fewer) = left.checked_sub(1) {
        into.push(part)?;
        left = fewer;
    }
    Ok(())
}

/// The parts to which the cells of one copy belong, cell by cell.
#[tactic(auto, using(crate::proofs::Laid::one_more, crate::proofs::Laid::none_behind, crate::proofs::Laid::before), unfolding(crate::specs::Falling::laid))]
pub(crate) fn laid<'a>(
    alloc: Global,
    names: &Names<'_>,
    known: &Known,
    structure: &Phrase<'_>,
    parts: &'a [Part],
) -> Result<Vec<&'a Part>, AllocError>
    ensures { IfOk result (λ cells. seen_cells cells.items ≡ falling.laid (seen_names names.now) (seen_known known.now) (seen_phrase structure.now) (bottoms 0 (map seen_part parts.now))) }
{
    let mut cells = Vec::new(alloc);
    let mut rest = parts;
    while let Some((part, later)) = bottom(0, rest) {
        let places = known_places(extent_of_part(names, known, structure, part));
        repeat(&mut cells, part, places)?;
        rest = later;
    }
    Ok(cells)
}
