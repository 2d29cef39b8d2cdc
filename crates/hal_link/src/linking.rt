//! The code of a set of files.

ghost use Rattle.std.specs.Prelude.{◌≡◌, ◌≤◌, ◌<◌, ◌+◌, [], length, map, IfOk, OnOk};
ghost use Rattle.hal_storage.specs.sets.SeenBodies.{seen_body};
ghost use Rattle.hal_storage.specs.sets.SeenSets.{seen_set};
ghost use Rattle.hal_gen_expr.specs.SeenSites.{lent_place, seen_site, seen_numbering, IsSite};
ghost use Rattle.hal_gen_expr.specs.Numbering.{numbering_with};
ghost use Rattle.hal_lock_groups.specs.Gathering.{bits_for};
ghost use Rattle.hal_lock_groups.specs.Updates.{AreGroups};
ghost use Rattle.hal_meaning.specs.Runs.{places_of_process};
ghost use Rattle.hal_meaning.specs.Sets as sets;
ghost use Rattle.hal_link.specs.Finding as finding;
ghost use Rattle.hal_link.specs.Links.{Links};
ghost use Rattle.hal_link.specs.Linking as linking;
ghost use Rattle.hal_link.specs.Outlines as outlines;
ghost use Rattle.hal_link.specs.SeenLinking.{IsLaid};
ghost use Rattle.hal_link.specs.SeenOutlines.{seen_outline};
ghost use Rattle.hal_link.specs.Views as views;

use crate::first_placed::Placed;
use crate::outlines::Outline;
use crate::places::placed_of;
use crate::processes::link_process_at;
use crate::units::link_unit_at;
use crate::unlinked::Unlinked;
use crate::views::push_home;
use hal_code::{Block, Instr};
use hal_gen::Locks;
use hal_gen_expr::{Calls, Site, Views, body_at};
use hal_lock_groups::groups_at;
use hal_storage::sets::Body;
use std::alloc::{AllocError, Global};

/// The calls of code that calls no unit.
pub(crate) fn uncalled<'a>() -> Calls<'a> {
    Calls {
        first: 0,
        units: &[],
    }
}

/// Where the statements of a unit stand in a process, among these views and calls.
#[tactic(auto, unfolding(hal_gen_expr::specs::SeenSites::seen_site, hal_gen_expr::specs::SeenSites::seen_numbering))]
pub(crate) fn site_in<'a>(
    whole: &Site<'a>,
    placed: &'a Placed<'a>,
    body: &'a Body<'a>,
    views: &'a Views,
    calls: Calls<'a>,
) -> Site<'a>
    requires whole { IsSite whole.now }
    ensures site { IsSite result }
    ensures seen { seen_site result ≡ finding.site_with (seen_set whole.now.set.now) (map lent_place placed.now.places.items) (seen_body body.now) }
    ensures shapes { result.shapes.now ≡ whole.now.shapes.now }
    ensures views { seen_numbering result ≡ numbering_with whole.now.shapes.now views.now.list.items calls.entry.first calls.entry.units.now }
{
    Site {
        alloc: whole.alloc,
        set: whole.set,
        referents: whole.referents,
        cells: whole.cells,
        events: whole.events,
        places: &placed.places,
        first_places: &placed.first_places,
        unit: body.number,
        block: body.number,
        marks: &body.marks,
        shapes: whole.shapes,
        views,
        calls,
    }
}

/// The lock groups of the UPDATE blocks of a unit, by its marks and those of all UPDATE blocks.
#[tactic(auto, using(hal_storage::proofs::elements::Repeated::behind, hal_storage::proofs::elements::Repeated::none_behind))]
fn locks_of(alloc: Global, groups: &[u16], marks: &[usize]) -> Result<Vec<u16>, AllocError>
    ensures { IfOk result (λ list. list.items ≡ map (bits_for groups.now) marks.now) }
{
    let mut list = Vec::new(alloc);
    for mark in marks {
        list.push(groups_at(groups, *mark))?;
    }
    Ok(list)
}

/// The calls of a process.
fn calls_of(outline: &Outline) -> Calls<'_>
    ensures first { result.first ≡ outline.now.first }
    ensures units { result.units.now ≡ outline.now.called.items }
{
    Calls {
        first: outline.first,
        units: &outline.called,
    }
}

/// Adds the code and the block of the unit with this number, which a process calls that has these own places.
#[tactic(auto, using(crate::proofs::Locked::all_locked), unfolding(hal_gen_expr::specs::SeenSites::seen_site))]
fn link_unit(
    code: &mut Vec<Instr>,
    blocks: &mut Vec<Block>,
    whole: &Site<'_>,
    views: &Views,
    groups: &[u16],
    placed: &Placed<'_>,
    outline: &Outline,
    unit: usize,
) -> Result<(), Unlinked>
    requires whole { IsSite whole.now }
    requires places { map lent_place placed.now.places.items ≡ places_of_process (seen_set whole.now.set.now) outline.now.process }
    requires groups { AreGroups (seen_set whole.now.set.now).phrases (seen_set whole.now.set.now).constants groups.now }
    ensures { Links (linking.with_unit (seen_set whole.now.set.now) (outlines.numbering_of whole.now.shapes.now views.now.list.items (seen_outline outline.now)) outline.now.process (linking.linked code.old.items blocks.old.items) (sets.body_at (seen_set whole.now.set.now) unit)) result code.new.items blocks.new.items }
{
    let Some(body) = body_at(whole, unit) else {
        return Err(Unlinked::Lost);
    };
    let site = site_in(whole, placed, body, views, calls_of(outline));
    let found = locks_of(whole.alloc, groups, &body.marks)?;
    let locks = Locks { groups: &found };
    link_unit_at(code, blocks, &site, &locks, outline.process, body)
}

/// Adds those of these units, one behind the other.
#[tactic(auto, unfolding(crate::specs::Linking::with_units))]
fn link_units(
    code: &mut Vec<Instr>,
    blocks: &mut Vec<Block>,
    whole: &Site<'_>,
    views: &Views,
    groups: &[u16],
    placed: &Placed<'_>,
    outline: &Outline,
    units: &[usize],
) -> Result<(), Unlinked>
    requires whole { IsSite whole.now }
    requires places { map lent_place placed.now.places.items ≡ places_of_process (seen_set whole.now.set.now) outline.now.process }
    requires groups { AreGroups (seen_set whole.now.set.now).phrases (seen_set whole.now.set.now).constants groups.now }
    ensures { Links (linking.with_units (seen_set whole.now.set.now) (outlines.numbering_of whole.now.shapes.now views.now.list.items (seen_outline outline.now)) outline.now.process units.now (linking.linked code.old.items blocks.old.items)) result code.new.items blocks.new.items }
{
    for unit in units {
        link_unit(code, blocks, whole, views, groups, placed, outline, *unit)?;
    }
    Ok(())
}

/// Adds the code and the block of a process that has these own places.
#[tactic(auto, using(crate::proofs::Locked::all_locked), unfolding(hal_gen_expr::specs::SeenSites::seen_site))]
fn link_process(
    code: &mut Vec<Instr>,
    blocks: &mut Vec<Block>,
    whole: &Site<'_>,
    views: &Views,
    groups: &[u16],
    placed: &Placed<'_>,
    outline: &Outline,
) -> Result<(), Unlinked>
    requires whole { IsSite whole.now }
    requires places { map lent_place placed.now.places.items ≡ places_of_process (seen_set whole.now.set.now) outline.now.process }
    requires groups { AreGroups (seen_set whole.now.set.now).phrases (seen_set whole.now.set.now).constants groups.now }
    ensures { Links (linking.with_process (seen_set whole.now.set.now) (outlines.numbering_of whole.now.shapes.now views.now.list.items (seen_outline outline.now)) outline.now.process (linking.linked code.old.items blocks.old.items) (sets.body_at (seen_set whole.now.set.now) outline.now.unit)) result code.new.items blocks.new.items }
{
    let Some(body) = body_at(whole, outline.unit) else {
        return Err(Unlinked::Lost);
    };
    let site = site_in(whole, placed, body, views, calls_of(outline));
    let found = locks_of(whole.alloc, groups, &body.marks)?;
    let locks = Locks { groups: &found };
    link_process_at(code, blocks, &site, &locks, outline.process, body)
}

/// Adds the code and the blocks of a process: first the units that it calls.
#[tactic(auto, using(crate::proofs::Placed::places_laid))]
fn link_outline(
    code: &mut Vec<Instr>,
    blocks: &mut Vec<Block>,
    whole: &Site<'_>,
    views: &Views,
    groups: &[u16],
    outline: &Outline,
) -> Result<(), Unlinked>
    requires whole { IsSite whole.now }
    requires laid { IsLaid whole.now.set.now }
    requires groups { AreGroups (seen_set whole.now.set.now).phrases (seen_set whole.now.set.now).constants groups.now }
    ensures { Links (linking.with_outline (seen_set whole.now.set.now) whole.now.shapes.now views.now.list.items (seen_outline outline.now) (linking.linked code.old.items blocks.old.items)) result code.new.items blocks.new.items }
{
    let placed = placed_of(
        whole.alloc,
        &whole.set.layout.own,
        usize::from(outline.process),
    )?;
    link_units(
        code,
        blocks,
        whole,
        views,
        groups,
        &placed,
        outline,
        &outline.called,
    )?;
    link_process(code, blocks, whole, views, groups, &placed, outline)
}

/// Adds the code and the blocks of these processes, one behind the other.
#[tactic(auto, unfolding(crate::specs::Linking::with_outlines))]
pub(crate) fn link_outlines(
    code: &mut Vec<Instr>,
    blocks: &mut Vec<Block>,
    whole: &Site<'_>,
    views: &Views,
    groups: &[u16],
    list: &[Outline],
) -> Result<(), Unlinked>
    requires whole { IsSite whole.now }
    requires laid { IsLaid whole.now.set.now }
    requires groups { AreGroups (seen_set whole.now.set.now).phrases (seen_set whole.now.set.now).constants groups.now }
    ensures { Links (linking.with_outlines (seen_set whole.now.set.now) whole.now.shapes.now views.now.list.items (map seen_outline list.now) (linking.linked code.old.items blocks.old.items)) result code.new.items blocks.new.items }
{
    for outline in list {
        link_outline(code, blocks, whole, views, groups, outline)?;
    }
    Ok(())
}

/// Adds the views that the code of the unit with this number names in the process with that one, which has these own places.
#[tactic(auto, unfolding(hal_gen_expr::specs::SeenSites::seen_site))]
fn push_unit(
    into: &mut Views,
    whole: &Site<'_>,
    placed: &Placed<'_>,
    unviewed: &Views,
    process: usize,
    unit: usize,
) -> Result<(), AllocError>
    requires whole { IsSite whole.now }
    requires places { map lent_place placed.now.places.items ≡ places_of_process (seen_set whole.now.set.now) process }
    ensures { OnOk result (into.new.list.items ≡ views.with_body whole.now.shapes.now (seen_set whole.now.set.now) process into.old.list.items (sets.body_at (seen_set whole.now.set.now) unit)) }
{
    let Some(body) = body_at(whole, unit) else {
        return Ok(());
    };
    let site = site_in(whole, placed, body, unviewed, uncalled());
    push_home(into, &site)
}

/// Adds the views that the code of the process with this number names, whose unit has that one.
#[tactic(auto, using(crate::proofs::Placed::places_laid))]
fn push_views(
    into: &mut Views,
    whole: &Site<'_>,
    process: usize,
    unit: usize,
) -> Result<(), AllocError>
    requires whole { IsSite whole.now }
    requires laid { IsLaid whole.now.set.now }
    ensures { OnOk result (into.new.list.items ≡ views.with_body whole.now.shapes.now (seen_set whole.now.set.now) process into.old.list.items (sets.body_at (seen_set whole.now.set.now) unit)) }
{
    let placed = placed_of(whole.alloc, &whole.set.layout.own, process)?;
    let unviewed = Views::new(whole.alloc);
    push_unit(into, whole, &placed, &unviewed, process, unit)
}

/// The views that the code of the processes names whose units have these numbers.
#[tactic(auto, unfolding(crate::specs::Views::with_processes))]
pub(crate) fn views_of(whole: &Site<'_>, units: &[usize]) -> Result<Views, AllocError>
    requires whole { IsSite whole.now }
    requires laid { IsLaid whole.now.set.now }
    ensures { IfOk result (λ found. found.list.items ≡ views.with_processes whole.now.shapes.now (seen_set whole.now.set.now) 0 [] units.now) }
{
    let mut list = Views::new(whole.alloc);
    for (process, unit) in units.iter().enumerate() {
        push_views(&mut list, whole, process, *unit)?;
    }
    Ok(list)
}
