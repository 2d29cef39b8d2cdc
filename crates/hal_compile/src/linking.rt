//! The image of a set that is known to keep the rules.

ghost use Rattle.std.specs.Prelude.{◌≡◌, ◌≤◌, ◌+◌, ◌∷◌, [], IfOk, Ok, length, map, true};
ghost use Rattle.hal_tree.specs.SeenUnits.{seen_file};
ghost use Rattle.hal_phrases.specs.GatheredUnits.{phrases_of};
ghost use Rattle.hal_names.specs.Laws.{IsCounted};
ghost use Rattle.hal_names.specs.SeenNames.{seen_names};
ghost use Rattle.hal_constants.specs.Known as facts;
ghost use Rattle.hal_constants.specs.SeenKnown.{seen_known};
ghost use Rattle.hal_storage.specs.layout.Layouts as layouts;
ghost use Rattle.hal_storage.specs.layout.SeenLayout.{seen_layout};
ghost use Rattle.hal_storage.specs.sets.SeenSets.{seen_set};
ghost use Rattle.hal_meaning.specs.Bodies as meant;
ghost use Rattle.hal_meaning.specs.Events as events;
ghost use Rattle.hal_limits.specs.Limits.{IsWithin};
ghost use Rattle.hal_link.specs.Linking as links;
ghost use Rattle.hal_link.specs.CalledViews as views;
ghost use Rattle.hal_verify.specs.Limits.{spread_kept};
ghost use Rattle.hal_checked.specs.Checking.{IsWhole, LinksWhole, LinksWholeBy, linked_in};
ghost use Rattle.hal_compile.specs.Compiling.{Fits, IsImageOf};

use crate::fitness::is_narrow;
use crate::lacking::Lacking;
use hal_base::{Place, TURN_LIMIT};
use hal_code::ImageParts;
use hal_constants::Known;
use hal_link::{Unlinked, link};
use hal_object::is_spelled;
use hal_reach::Units;
use hal_storage::layout::{Layout, layout_of};
use hal_storage::sets::{Set, bodies_of};
use hal_tree::File;
use hal_verify::spread_kept;
use std::alloc::{AllocError, Global};

/// The beginning of a set.
pub(crate) const BEGINNING: Place = Place {
    unit: 0,
    line: 1,
    column: 1,
};

/// This image, which is right and each of whose views has a cell, where it has bytes, so that it can run.
#[tactic(auto, using(crate::proofs::Running::fits, crate::proofs::Running::cannot_run))]
fn runnable(image: ImageParts) -> Result<ImageParts, Lacking>
    requires few { spread_kept image ≡ true }
    requires whole { IsWhole image }
    ensures { Fits (Ok image) result }
{
    if is_spelled(&image) {
        Ok(image)
    } else {
        Err(Lacking::Code(BEGINNING))
    }
}

/// This image, where its shapes and views have few enough cells, and it can run.
#[tactic(auto, using(crate::proofs::Running::spreads))]
fn fitting(image: ImageParts) -> Result<ImageParts, Lacking>
    requires whole { spread_kept image ≡ true → IsWhole image }
    ensures { Fits (Ok image) result }
{
    if spread_kept(&image) {
        runnable(image)
    } else {
        Err(Lacking::Room)
    }
}

/// The image of a set with these units whose tables have room, where it can run; or what the set lacks.
#[tactic(auto, using(crate::proofs::Running::linked_image, crate::proofs::Running::told_there, crate::proofs::Running::told_nowhere))]
fn image_of_set(
    alloc: Global,
    set: &Set<'_>,
    units: &Units<'_>,
) -> Result<Result<ImageParts, Lacking>, AllocError>
    requires units { seen_names units.now.names.now ≡ (seen_set set.now).phrases }
    requires few_processes { length (meant.processes_of (seen_set set.now).phrases) ≤ 128 }
    requires few_events { length (meant.processes_of (seen_set set.now).phrases) + length (events.declared_events (seen_set set.now).phrases) ≤ 65535 }
    requires laid { seen_layout set.now.layout.now ≡ layouts.layout_of (seen_set set.now).phrases (seen_set set.now).constants }
    requires narrow { layouts.IsNarrow (seen_layout set.now.layout.now) }
    requires whole { LinksWholeBy (links.image_of (seen_set set.now) (views.views_of (seen_set set.now))) }
    ensures { IfOk result (Fits (links.image_of (seen_set set.now) (views.views_of (seen_set set.now)))) }
{
    match link(alloc, set, units) {
        Ok(image) => Ok(fitting(image)),
        Err(Unlinked::At(place)) => Ok(Err(Lacking::Code(place))),
        Err(Unlinked::Lost | Unlinked::Wide) => Ok(Err(Lacking::Code(BEGINNING))),
        Err(Unlinked::Memory(error)) => Err(error),
    }
}

/// The image of files with these units, constants and layout, whose tables have room, where it can run; or what they lack.
#[tactic(auto, using(crate::proofs::Running::linked_set))]
fn image_laid(
    alloc: Global,
    files: &[File],
    units: &Units<'_>,
    known: &Known,
    layout: &Layout,
) -> Result<Result<ImageParts, Lacking>, AllocError>
    requires names { seen_names units.now.names.now ≡ phrases_of (map seen_file files.now) }
    requires constants { seen_known known.now ≡ facts.known (phrases_of (map seen_file files.now)) }
    requires within { IsWithin (phrases_of (map seen_file files.now)) (facts.known (phrases_of (map seen_file files.now))) }
    requires layout { seen_layout layout.now ≡ layouts.layout_of (phrases_of (map seen_file files.now)) (facts.known (phrases_of (map seen_file files.now))) }
    requires narrow { layouts.IsNarrow (seen_layout layout.now) }
    requires whole { LinksWhole (map seen_file files.now) }
    ensures { IfOk result (Fits (linked_in (map seen_file files.now))) }
{
    let names = units.names();
    let set = Set {
        names,
        known,
        layout,
        bodies: bodies_of(alloc, files, names)?,
        turns: u32::from(TURN_LIMIT),
    };
    image_of_set(alloc, &set, units)
}

/// The image of files with these units and constants, or what they lack.
#[tactic(auto, using(crate::proofs::Running::room_for, crate::proofs::Running::image_found, crate::proofs::Running::too_wide))]
pub(crate) fn image_in(
    alloc: Global,
    files: &[File],
    units: &Units<'_>,
    known: &Known,
) -> Result<Result<ImageParts, Lacking>, AllocError>
    requires names { seen_names units.now.names.now ≡ phrases_of (map seen_file files.now) }
    requires constants { seen_known known.now ≡ facts.known (phrases_of (map seen_file files.now)) }
    requires counted { IsCounted (seen_names units.now.names.now) }
    requires within { IsWithin (phrases_of (map seen_file files.now)) (facts.known (phrases_of (map seen_file files.now))) }
    requires whole { LinksWhole (map seen_file files.now) }
    ensures { IfOk result (IsImageOf (map seen_file files.now)) }
{
    let layout = layout_of(alloc, units, known)?;
    if is_narrow(&layout) {
        image_laid(alloc, files, units, known, &layout)
    } else {
        Ok(Err(Lacking::Code(BEGINNING)))
    }
}
