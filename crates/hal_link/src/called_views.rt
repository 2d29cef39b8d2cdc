//! The views that the code of called units names.

ghost use Rattle.std.specs.Prelude.{◌≡◌, OnOk, map};
ghost use Rattle.hal_storage.specs.sets.SeenSets.{seen_set};
ghost use Rattle.hal_tree.specs.SeenLeaves.{seen_name};
ghost use Rattle.hal_gen_expr.specs.SeenSites.{lent_place, seen_site, IsSite};
ghost use Rattle.hal_meaning.specs.Calls.{parameter_named};
ghost use Rattle.hal_meaning.specs.Runs.{places_of_process};
ghost use Rattle.hal_meaning.specs.Sets as sets;
ghost use Rattle.hal_link.specs.CalledViews as views;
ghost use Rattle.hal_link.specs.SeenLinking.{IsLaid};
ghost use Rattle.hal_link.specs.SeenOutlines.{seen_outline};

use crate::first_placed::Placed;
use crate::linking::{site_in, uncalled};
use crate::outlines::Outline;
use crate::places::placed_of;
use crate::views::{push_cell, push_home};
use hal_gen_expr::{Site, Views, base_of, body_at, inputs_in, parameter_named};
use hal_storage::cells::Storing;
use hal_tree::Identifier;
use std::alloc::AllocError;

/// Adds that of the parameter of this name of the unit.
#[tactic(auto, unfolding(hal_gen_expr::specs::SeenSites::seen_site))]
fn push_parameter(into: &mut Views, site: &Site<'_>, name: &Identifier) -> Result<(), AllocError>
    requires site { IsSite site.now }
    ensures { OnOk result (into.new.list.items ≡ views.with_parameter (seen_site site.now) into.old.list.items (parameter_named (seen_site site.now).set (seen_site site.now).unit (seen_name name.now))) }
{
    let one = parameter_named(site.alloc, site.set, site.unit, name)?;
    let from = base_of(site, one.declared, Storing::InPlaces, 0);
    push_cell(into, Vec::new(site.alloc), one.kind, from)
}

/// Adds those of the parameters of these names of the unit.
#[tactic(auto, unfolding(crate::specs::CalledViews::with_parameters))]
fn push_parameters(
    into: &mut Views,
    site: &Site<'_>,
    names: &[Identifier],
) -> Result<(), AllocError>
    requires site { IsSite site.now }
    ensures { OnOk result (into.new.list.items ≡ views.with_parameters (seen_site site.now) into.old.list.items (map seen_name names.now)) }
{
    for name in names {
        push_parameter(into, site, name)?;
    }
    Ok(())
}

/// Adds those of the unit with this number, which a process calls that has these own places.
#[tactic(auto, unfolding(hal_gen_expr::specs::SeenSites::seen_site))]
fn push_called(
    into: &mut Views,
    whole: &Site<'_>,
    placed: &Placed<'_>,
    unviewed: &Views,
    process: u8,
    unit: usize,
) -> Result<(), AllocError>
    requires whole { IsSite whole.now }
    requires places { map lent_place placed.now.places.items ≡ places_of_process (seen_set whole.now.set.now) process }
    ensures { OnOk result (into.new.list.items ≡ views.with_called whole.now.shapes.now (seen_set whole.now.set.now) process into.old.list.items (sets.body_at (seen_set whole.now.set.now) unit)) }
{
    let Some(body) = body_at(whole, unit) else {
        return Ok(());
    };
    let site = site_in(whole, placed, body, unviewed, uncalled());
    push_home(into, &site)?;
    push_parameters(into, &site, inputs_in(body))
}

/// Adds those of these units.
#[tactic(auto, unfolding(crate::specs::CalledViews::with_all_called))]
fn push_all_called(
    into: &mut Views,
    whole: &Site<'_>,
    placed: &Placed<'_>,
    unviewed: &Views,
    process: u8,
    units: &[usize],
) -> Result<(), AllocError>
    requires whole { IsSite whole.now }
    requires places { map lent_place placed.now.places.items ≡ places_of_process (seen_set whole.now.set.now) process }
    ensures { OnOk result (into.new.list.items ≡ views.with_all_called whole.now.shapes.now (seen_set whole.now.set.now) process into.old.list.items units.now) }
{
    for unit in units {
        push_called(into, whole, placed, unviewed, process, *unit)?;
    }
    Ok(())
}

/// Adds those of the units that a process calls.
#[tactic(auto, using(crate::proofs::Placed::places_laid))]
fn push_outline(into: &mut Views, whole: &Site<'_>, outline: &Outline) -> Result<(), AllocError>
    requires whole { IsSite whole.now }
    requires laid { IsLaid whole.now.set.now }
    ensures { OnOk result (into.new.list.items ≡ views.with_all_called whole.now.shapes.now (seen_set whole.now.set.now) outline.now.process into.old.list.items outline.now.called.items) }
{
    let placed = placed_of(
        whole.alloc,
        &whole.set.layout.own,
        usize::from(outline.process),
    )?;
    let unviewed = Views::new(whole.alloc);
    push_all_called(
        into,
        whole,
        &placed,
        &unviewed,
        outline.process,
        &outline.called,
    )
}

/// Adds those of the units that these processes call.
#[tactic(auto, unfolding(crate::specs::CalledViews::with_outlines))]
pub(crate) fn push_outlines(
    into: &mut Views,
    whole: &Site<'_>,
    list: &[Outline],
) -> Result<(), AllocError>
    requires whole { IsSite whole.now }
    requires laid { IsLaid whole.now.set.now }
    ensures { OnOk result (into.new.list.items ≡ views.with_outlines whole.now.shapes.now (seen_set whole.now.set.now) into.old.list.items (map seen_outline list.now)) }
{
    for outline in list {
        push_outline(into, whole, outline)?;
    }
    Ok(())
}
