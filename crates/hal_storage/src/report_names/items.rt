//! The rows of what phrases declare.

ghost use Rattle.std.specs.Prelude.{◌≡◌, ◌++◌, [], ◌∷◌, map, IfOk, OnOk};
ghost use Rattle.hal_tree.specs.SeenDeclarations.{seen_attribute, seen_declared};
ghost use Rattle.hal_phrases.specs.SeenPhrases.{seen_phrase};
ghost use Rattle.hal_names.specs.SeenNames.{seen_names};
ghost use Rattle.hal_constants.specs.SeenKnown.{seen_known};
ghost use Rattle.hal_storage.specs.elements.SeenComponents.{seen_shape};
ghost use Rattle.hal_storage.specs.cells.SeenStoring.{seen_storing};
ghost use Rattle.hal_meaning.specs.Elements as elements;
ghost use Rattle.hal_meaning.specs.ReportNames as reports;
ghost use Rattle.hal_storage.specs.report_names.Rooms as rooms;
ghost use Rattle.hal_storage.specs.report_names.Rows as rows;
ghost use Rattle.hal_storage.specs.report_names.SeenLookups.{seen_lookups};

use crate::cells::{Storing, is_in_unit, parameter, storing_of};
use crate::elements::{Shape, shape_of};
use crate::event_expressions::event_of;
use crate::processes::{joined, path_of};
use crate::report_names::lookups::Lookups;
use crate::report_names::places::place_of;
use crate::report_names::rows::push_shape;
use crate::report_names::showing::showing_among;
use hal_constants::Known;
use hal_kinds::{constant_of, is_event_type, is_marked};
use hal_names::Names;
use hal_phrases::{Node, Phrase};
use hal_scope::type_of;
use hal_tree::{Attribute, Declared, Mark};
use hal_values::{Listing, ReportBase, ReportName};
use std::alloc::{AllocError, Global};

/// Adds the rows of data in own places that this process shows.
#[tactic(auto, using(crate::proofs::elements::Repeated::none_behind))]
fn push_in_places(
    alloc: Global,
    into: &mut Vec<ReportName>,
    lookups: &Lookups,
    phrase: &Phrase<'_>,
    name: &[u8],
    shape: &Shape,
    process: Option<usize>,
) -> Result<(), AllocError>
    requires room { rooms.HasRoomInPlaces (seen_lookups lookups.now) (seen_phrase phrase.now) (seen_shape shape.now) process }
    ensures { OnOk result (into.new.items ≡ into.old.items ++ rows.rows_in_places (seen_lookups lookups.now) (seen_phrase phrase.now) name.now (seen_shape shape.now) process) }
{
    match process {
        None => Ok(()),
        Some(process) => {
            let first = place_of(&lookups.own, process, phrase.number);
            let base = ReportBase::Own(process as u8);
            push_shape(alloc, into, name, base, first, shape)
        }
    }
}

/// Adds the rows of data that are stored so, whose first shared cell this one is.
#[tactic(auto, using(crate::proofs::elements::Repeated::none_behind))]
fn push_stored(
    alloc: Global,
    into: &mut Vec<ReportName>,
    lookups: &Lookups,
    cell: usize,
    phrase: &Phrase<'_>,
    name: &[u8],
    shape: &Shape,
    storing: Storing,
) -> Result<(), AllocError>
    requires room { rooms.HasRoomStored (seen_lookups lookups.now) cell (seen_phrase phrase.now) (seen_shape shape.now) (seen_storing storing) }
    ensures { OnOk result (into.new.items ≡ into.old.items ++ rows.rows_stored (seen_lookups lookups.now) cell (seen_phrase phrase.now) name.now (seen_shape shape.now) (seen_storing storing)) }
{
    match storing {
        Storing::InCells(_) => {
            push_shape(alloc, into, name, ReportBase::Shared, cell as u32, shape)
        }
        Storing::InPlaces => {
            let process = showing_among(&lookups.processes, &lookups.units, phrase.around.home);
            push_in_places(alloc, into, lookups, phrase, name, shape, process)
        }
        Storing::ByReference => Ok(()),
        Storing::Unstored => Ok(()),
    }
}

/// The name that the report shows of what a phrase declares: the path of its unit, and its own name.
#[tactic(auto, using(hal_tree::proofs::MadeDeclarations::made_declared))]
fn name_of(
    alloc: Global,
    names: &Names<'_>,
    phrase: &Phrase<'_>,
    item: &Declared,
) -> Result<Vec<u8>, AllocError>
    ensures { IfOk result (λ name. name.items ≡ rows.name_of (seen_names names.now) (seen_phrase phrase.now) (seen_declared item.now)) }
{
    let path = path_of(alloc, names, phrase.around.home)?;
    joined(path, &item.name.name)
}

/// Whether the report shows data: they are STATIC, and neither constant nor a parameter.
#[tactic(auto, using(hal_tree::proofs::MadeDeclarations::made_declared, crate::proofs::elements::Attributes::mark_behind, hal_kinds::proofs::Options::some_mapped))]
fn is_shown(names: &Names<'_>, phrase: &Phrase<'_>, common: &[Attribute], item: &Declared) -> bool
    ensures { result ≡ reports.is_shown (seen_names names.now) (seen_phrase phrase.now) (map seen_attribute common.now) (seen_declared item.now) }
{
    !is_marked(Mark::Automatic, common, item)
        && (!constant_of(common, item).is_some()
            && !parameter(names, phrase.around.home, &item.name.name).is_some())
}

/// Adds the rows of data.
#[tactic(auto, using(crate::proofs::elements::Repeated::none_behind))]
fn push_data(
    alloc: Global,
    into: &mut Vec<ReportName>,
    names: &Names<'_>,
    known: &Known,
    lookups: &Lookups,
    cell: usize,
    phrase: &Phrase<'_>,
    common: &[Attribute],
    item: &Declared,
    storing: Storing,
) -> Result<(), AllocError>
    requires room { rooms.HasRoomStored (seen_lookups lookups.now) cell (seen_phrase phrase.now) (elements.shape_of (seen_names names.now) (seen_known known.now) (seen_phrase phrase.now) (map seen_attribute common.now) (seen_declared item.now)) (seen_storing storing) }
    ensures { OnOk result (into.new.items ≡ into.old.items ++ rows.rows_of_data (seen_names names.now) (seen_known known.now) (seen_lookups lookups.now) cell (seen_phrase phrase.now) (map seen_attribute common.now) (seen_declared item.now) (seen_storing storing)) }
{
    if !is_shown(names, phrase, common, item) {
        return Ok(());
    }
    let name = name_of(alloc, names, phrase, item)?;
    let shape = shape_of(alloc, names, known, phrase, common, item)?;
    push_stored(alloc, into, lookups, cell, phrase, &name, &shape, storing)
}

/// Adds the row of a latched event.
fn push_event(
    alloc: Global,
    into: &mut Vec<ReportName>,
    lookups: &Lookups,
    phrase: &Phrase<'_>,
    name: Vec<u8>,
) -> Result<(), AllocError>
    requires few { rooms.AreFew (seen_lookups lookups.now) }
    ensures { OnOk result (into.new.items ≡ into.old.items ++ (rows.event_row (seen_lookups lookups.now) (seen_phrase phrase.now) name.items ∷ [])) }
{
    let number = event_of(&lookups.processes, &lookups.events, phrase.number);
    into.push(ReportName {
        name: Listing::new(name),
        base: ReportBase::Event,
        first: u32::from(number.unwrap_or(0)),
        copies: 0,
        stride: 0,
        dimensions: Listing::empty(alloc),
    })?;
    Ok(())
}

/// Adds the rows of an event.
#[tactic(auto, using(crate::proofs::elements::Attributes::mark_behind, crate::proofs::elements::Repeated::none_behind))]
fn push_any_event(
    alloc: Global,
    into: &mut Vec<ReportName>,
    names: &Names<'_>,
    lookups: &Lookups,
    phrase: &Phrase<'_>,
    common: &[Attribute],
    item: &Declared,
) -> Result<(), AllocError>
    requires few { rooms.AreFew (seen_lookups lookups.now) }
    ensures { OnOk result (into.new.items ≡ into.old.items ++ rows.rows_of_any_event (seen_names names.now) (seen_lookups lookups.now) (seen_phrase phrase.now) (map seen_attribute common.now) (seen_declared item.now)) }
{
    if !is_marked(Mark::Latched, common, item) {
        return Ok(());
    }
    let name = name_of(alloc, names, phrase, item)?;
    push_event(alloc, into, lookups, phrase, name)
}

/// Adds the rows of data or of an event.
fn push_item(
    alloc: Global,
    into: &mut Vec<ReportName>,
    names: &Names<'_>,
    known: &Known,
    lookups: &Lookups,
    cell: usize,
    phrase: &Phrase<'_>,
    common: &[Attribute],
    item: &Declared,
    storing: Storing,
) -> Result<(), AllocError>
    requires few { rooms.AreFew (seen_lookups lookups.now) }
    requires room { rooms.HasRoomStored (seen_lookups lookups.now) cell (seen_phrase phrase.now) (elements.shape_of (seen_names names.now) (seen_known known.now) (seen_phrase phrase.now) (map seen_attribute common.now) (seen_declared item.now)) (seen_storing storing) }
    ensures { OnOk result (into.new.items ≡ into.old.items ++ rows.rows_of_item (seen_names names.now) (seen_known known.now) (seen_lookups lookups.now) cell (seen_phrase phrase.now) (map seen_attribute common.now) (seen_declared item.now) (seen_storing storing)) }
{
    if is_event_type(type_of(common, item)) {
        push_any_event(alloc, into, names, lookups, phrase, common, item)
    } else {
        push_data(
            alloc, into, names, known, lookups, cell, phrase, common, item, storing,
        )
    }
}

/// Adds the rows of what a phrase declares.
#[tactic(auto, using(crate::proofs::elements::Repeated::none_behind))]
pub(crate) fn push_phrase(
    alloc: Global,
    into: &mut Vec<ReportName>,
    names: &Names<'_>,
    known: &Known,
    lookups: &Lookups,
    cell: usize,
    phrase: &Phrase<'_>,
) -> Result<(), AllocError>
    requires few { rooms.AreFew (seen_lookups lookups.now) }
    requires room { rooms.HasRoomAt (seen_names names.now) (seen_known known.now) (seen_lookups lookups.now) cell (seen_phrase phrase.now) (seen_phrase phrase.now).node }
    ensures { OnOk result (into.new.items ≡ into.old.items ++ rows.rows_at (seen_names names.now) (seen_known known.now) (seen_lookups lookups.now) cell (seen_phrase phrase.now) (seen_phrase phrase.now).node) }
{
    let storing = storing_of(names, known, phrase);
    let inside = is_in_unit(names, phrase.around.home);
    match phrase.node {
        Node::Item { common, item } => {
            if inside {
                push_item(
                    alloc, into, names, known, lookups, cell, phrase, common, item, storing,
                )
            } else {
                Ok(())
            }
        }
        _ => Ok(()),
    }
}
