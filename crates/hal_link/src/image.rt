//! The image of a set of files.

ghost use Rattle.std.specs.Prelude.{◌≡◌, ◌≤◌, ◌+◌, [], IfOk, length, map};
ghost use Rattle.std.specs.Option.{option_map};
ghost use Rattle.hal_storage.specs.processes.SeenPaths.{seen_path};
ghost use Rattle.hal_storage.specs.layout.Layouts.{layout_of};
ghost use Rattle.hal_storage.specs.layout.SeenLayout.{seen_layout};
ghost use Rattle.hal_storage.specs.referents.FirstCells.{AreFirstCells};
ghost use Rattle.hal_storage.specs.referents.Referents as naming;
ghost use Rattle.hal_storage.specs.referents.SeenReferents.{seen_referent};
ghost use Rattle.hal_names.specs.SeenNames.{seen_names};
ghost use Rattle.hal_storage.specs.sets.SeenSets.{seen_set};
ghost use Rattle.hal_meaning.specs.Bodies.{processes_of};
ghost use Rattle.hal_meaning.specs.Events.{declared_events};
ghost use Rattle.hal_gen_expr.specs.FirstPlaces.{AreFirstPlaces};
ghost use Rattle.hal_gen_expr.specs.SeenSites.{IsSite};
ghost use Rattle.hal_link.specs.CalledViews.{views_of};
ghost use Rattle.hal_link.specs.Links.{HasImage, MakesImage};
ghost use Rattle.hal_link.specs.Linking as linking;
ghost use Rattle.hal_link.specs.Outlines as outlining;
ghost use Rattle.hal_link.specs.SeenLinking as seen;
ghost use Rattle.hal_link.specs.Shapes.{shapes_of};
ghost use Rattle.hal_link.specs.SeenOutlines.{seen_outline};

use crate::called_views::push_outlines;
use crate::linking::{link_outlines, uncalled, views_of};
use crate::outlines::{Outline, outlines_of, own_block};
use crate::places::places_of;
use crate::rows::{cell_rows, event_rows, place_rows};
use crate::shapes::shapes_of;
use crate::unlinked::Unlinked;
use hal_code::{Block, ImageParts, Instr, Process, Run, View};
use hal_gen_expr::{Events, FirstPlaces, Site, Views};
use hal_lock_groups::all_groups;
use hal_reach::{Units, processes_of};
use hal_storage::events::declared_events;
use hal_storage::layout::items_of;
use hal_storage::referents::{FirstCells, Referent, referents_of};
use hal_storage::sets::Set;
use hal_values::{Kind, Listing, ReportName, Text};
use std::alloc::{AllocError, Global};

/// The site from which those of processes are made.
fn whole_of<'a>(
    alloc: Global,
    set: &'a Set<'a>,
    referents: &'a [Referent],
    cells: &'a FirstCells,
    events: Events<'a>,
    shapes: &'a [Listing<Run<Kind>>],
    first_places: &'a FirstPlaces,
    views: &'a Views,
) -> Site<'a>
    requires listed { map seen_referent referents.now ≡ naming.referents (seen_set set.now).phrases (seen_set set.now).constants }
    requires counted { AreFirstCells (seen_set set.now).phrases (seen_set set.now).constants cells.now }
    requires processes { events.processes.now ≡ processes_of (seen_set set.now).phrases }
    requires declared { events.declared.now ≡ declared_events (seen_set set.now).phrases }
    requires few { length events.processes.now + length events.declared.now ≤ 65535 }
    requires placed { AreFirstPlaces [] first_places.now }
    ensures site { IsSite result }
    ensures set { result.set.now ≡ set.now }
    ensures shapes { result.shapes.now ≡ shapes.now }
{
    Site {
        alloc,
        set,
        referents,
        cells,
        events,
        places: &[],
        first_places,
        unit: 0,
        block: 0,
        marks: &[],
        shapes,
        views,
        calls: uncalled(),
    }
}

/// The number of the block of the process with this number.
fn block_of(outlines: &[Outline], process: usize) -> Result<u32, AllocError>
    ensures { IfOk result (λ block. block ≡ outlining.block_of (map seen_outline outlines.now) process) }
{
    let Some(outline) = outlines.get(process) else {
        return Ok(0);
    };
    match u32::try_from(own_block(outline)?) {
        Ok(block) => Ok(block),
        Err(_) => Err(AllocError),
    }
}

/// The row of a process of this name.
#[tactic(auto, using(crate::proofs::Placed::places_laid))]
fn process_row(
    alloc: Global,
    set: &Set<'_>,
    shapes: &[Listing<Run<Kind>>],
    outlines: &[Outline],
    process: usize,
    name: Text,
) -> Result<Process, AllocError>
    requires laid { seen.IsLaid set.now }
    requires shapes { shapes.now ≡ shapes_of (seen_set set.now) }
    ensures { IfOk result (λ row. row ≡ seen.process_row (seen_set set.now) (map seen_outline outlines.now) process name) }
{
    let places = places_of(alloc, &set.layout.own, process)?;
    Ok(Process {
        name,
        block: block_of(outlines, process)?,
        places: place_rows(alloc, set, shapes, &places)?,
    })
}

/// The rows of processes of these names, None where one of them has more than 255 bytes.
#[tactic(auto, unfolding(crate::specs::SeenLinking::rows_if))]
fn process_rows(
    alloc: Global,
    set: &Set<'_>,
    shapes: &[Listing<Run<Kind>>],
    outlines: &[Outline],
    names: &[Vec<u8>],
) -> Result<Option<Vec<Process>>, AllocError>
    requires laid { seen.IsLaid set.now }
    requires shapes { shapes.now ≡ shapes_of (seen_set set.now) }
    ensures { IfOk result (λ found. option_map seen.seen_rows found ≡ seen.rows_if (seen_set set.now) (map seen_outline outlines.now) 0 [] (map seen_path names.now)) }
{
    let mut rows = Vec::new(alloc);
    for (process, name) in names.iter().enumerate() {
        let Some(text) = Text::of(name) else {
            return Ok(None);
        };
        rows.push(process_row(alloc, set, shapes, outlines, process, text)?)?;
    }
    Ok(Some(rows))
}

/// A name of the report, once more.
fn copied_name(alloc: Global, name: &ReportName) -> Result<ReportName, AllocError>
    ensures { IfOk result (λ copy. copy ≡ name.now) }
{
    let mut text = Listing::empty(alloc);
    text.extend(name.name.as_slice())?;
    let mut dimensions = Listing::empty(alloc);
    dimensions.extend(name.dimensions.as_slice())?;
    Ok(ReportName {
        name: text,
        base: name.base,
        first: name.first,
        copies: name.copies,
        stride: name.stride,
        dimensions,
    })
}

/// The names of the report, once more.
#[tactic(auto, using(hal_storage::proofs::elements::Repeated::behind, hal_storage::proofs::elements::Repeated::none_behind))]
fn copied_names(alloc: Global, names: &[ReportName]) -> Result<Listing<ReportName>, AllocError>
    ensures { IfOk result (λ copies. copies ≡ names.now) }
{
    let mut list = Vec::new(alloc);
    for name in names {
        list.push(copied_name(alloc, name)?)?;
    }
    Ok(Listing::new(list))
}

/// The image of a set with these views, code and blocks.
#[tactic(auto, using(crate::proofs::Narrow::rows_narrow, crate::proofs::Narrow::rows_wide))]
fn image_with(
    alloc: Global,
    set: &Set<'_>,
    shapes: Vec<Listing<Run<Kind>>>,
    outlines: &[Outline],
    views: Vec<View>,
    code: Vec<Instr>,
    blocks: Vec<Block>,
) -> Result<ImageParts, Unlinked>
    requires laid { seen.IsLaid set.now }
    requires shapes { shapes.items ≡ shapes_of (seen_set set.now) }
    requires outlined { map seen_outline outlines.now ≡ outlining.outlines_of (seen_set set.now) }
    ensures { MakesImage set.now (linking.image_with (seen_set set.now) views.items (linking.linked code.items blocks.items)) result }
{
    let layout = set.layout;
    let Some(processes) = process_rows(alloc, set, &shapes, outlines, &layout.processes)? else {
        return Err(Unlinked::Wide);
    };
    let Ok(first) = u8::try_from(layout.first) else {
        return Err(Unlinked::Wide);
    };
    Ok(ImageParts {
        cells: cell_rows(alloc, &layout.cells)?,
        events: event_rows(alloc, &layout.events)?,
        common: Listing::empty(alloc),
        processes: Listing::new(processes),
        first,
        shapes: Listing::new(shapes),
        views: Listing::new(views),
        expressions: Listing::new(items_of(alloc, &layout.expressions)?),
        blocks: Listing::new(blocks),
        names: copied_names(alloc, &layout.names)?,
        code: Listing::new(code),
    })
}

/// The views that the code of a set names, whose processes these are.
fn views_in(
    whole: &Site<'_>,
    processes: &[usize],
    outlines: &[Outline],
) -> Result<Views, AllocError>
    requires whole { IsSite whole.now }
    requires laid { seen.IsLaid whole.now.set.now }
    requires shapes { whole.now.shapes.now ≡ shapes_of (seen_set whole.now.set.now) }
    requires processes { processes.now ≡ processes_of (seen_set whole.now.set.now).phrases }
    requires outlined { map seen_outline outlines.now ≡ outlining.outlines_of (seen_set whole.now.set.now) }
    ensures { IfOk result (λ found. found.list.items ≡ views_of (seen_set whole.now.set.now)) }
{
    let mut views = views_of(whole, processes)?;
    push_outlines(&mut views, whole, outlines)?;
    Ok(views)
}

/// The image of a set of files with these units, or the place of the first phrase that has no code yet (image document, The image of a set).
pub fn link(alloc: Global, set: &Set<'_>, units: &Units<'_>) -> Result<ImageParts, Unlinked>
    requires units { seen_names units.now.names.now ≡ (seen_set set.now).phrases }
    requires few_processes { length (processes_of (seen_set set.now).phrases) ≤ 128 }
    requires few_events { length (processes_of (seen_set set.now).phrases) + length (declared_events (seen_set set.now).phrases) ≤ 65535 }
    requires laid { seen_layout set.now.layout.now ≡ layout_of (seen_set set.now).phrases (seen_set set.now).constants }
    ensures { HasImage set.now result }
{
    let referents = referents_of(alloc, set.names, set.known)?;
    let cells = FirstCells::new(alloc, set.names, set.known)?;
    let processes = processes_of(alloc, set.names)?;
    let declared = declared_events(alloc, set.names)?;
    let events = Events {
        processes: &processes,
        declared: &declared,
    };
    let shapes = shapes_of(alloc, set)?;
    let unplaced = FirstPlaces::of(alloc, &[])?;
    let unviewed = Views::new(alloc);
    let whole = whole_of(
        alloc, &*set, &referents, &cells, events, &shapes, &unplaced, &unviewed,
    );
    let outlines = outlines_of(alloc, set, units, &processes)?;
    let views = views_in(&whole, &processes, &outlines)?;
    let groups = all_groups(alloc, units, set.known)?;
    // A phrase has about two instructions.
    let mut code = Vec::with_capacity(alloc, set.names.phrases().len().saturating_mul(2))?;
    let mut blocks = Vec::new(alloc);
    link_outlines(&mut code, &mut blocks, &whole, &views, &groups, &outlines)?;
    image_with(
        alloc,
        set,
        shapes,
        &outlines,
        views.into_list(),
        code,
        blocks,
    )
}
