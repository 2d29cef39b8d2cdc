//! The blocks of processes, and of the units that they call.

ghost use Rattle.std.specs.Prelude.{◌≡◌, ◌≤◌, ◌+◌, ◌++◌, IfOk, OnOk, length, map};
ghost use Rattle.hal_names.specs.SeenNames.{seen_names};
ghost use Rattle.hal_storage.specs.sets.SeenSets.{seen_set};
ghost use Rattle.hal_meaning.specs.Bodies.{processes_of};
ghost use Rattle.hal_link.specs.Outlines as outlines;
ghost use Rattle.hal_link.specs.SeenOutlines.{seen_outline, seen_rank};

use crate::ranks::{Rank, ranks_of};
use hal_reach::{Units, is_among};
use hal_storage::sets::Set;
use std::alloc::{AllocError, Global};

/// A process and its blocks.
#[derive(Drop)]
pub(crate) struct Outline {
    pub(crate) process: u8,
    /// Its unit, by the number of its phrase.
    pub(crate) unit: usize,
    /// The number of its first block.
    pub(crate) first: usize,
    /// The units that it calls, in the order of their blocks; its own stands behind them.
    pub(crate) called: Vec<usize>,
}

/// Whether the process whose unit has this number calls a unit.
fn is_called(process: usize, rank: &Rank<'_>) -> bool
    ensures { result ≡ outlines.calls process (seen_rank rank.now) }
{
    rank.unit != process && is_among(rank.processes, process)
}

/// Adds the units that it calls and that so many units reach.
fn push_called_at(
    into: &mut Vec<usize>,
    process: usize,
    callers: usize,
    ranks: &[Rank<'_>],
) -> Result<(), AllocError>
    ensures { OnOk result (into.new.items ≡ into.old.items ++ outlines.called_at process callers (map seen_rank ranks.now)) }
{
    for rank in ranks {
        if rank.callers == callers && is_called(process, rank) {
            into.push(rank.unit)?;
        }
    }
    Ok(())
}

/// The units that it calls, those first that more units reach.
#[tactic(auto, using(hal_storage::proofs::elements::Repeated::behind, hal_storage::proofs::elements::Repeated::none_behind), unfolding(crate::specs::Outlines::called_from))]
fn called_by(alloc: Global, process: usize, ranks: &[Rank<'_>]) -> Result<Vec<usize>, AllocError>
    ensures { IfOk result (λ list. list.items ≡ outlines.called_from process (length ranks.now) (map seen_rank ranks.now)) }
{
    let mut list = Vec::new(alloc);
    let mut callers = ranks.len();
    while let Some(fewer) = callers.checked_sub(1) {
        push_called_at(&mut list, process, callers, ranks)?;
        callers = fewer;
    }
    Ok(list)
}

/// The process with this number, whose unit has that one, and whose first block this is.
fn outline_of(
    alloc: Global,
    ranks: &[Rank<'_>],
    process: u8,
    first: usize,
    unit: usize,
) -> Result<Outline, AllocError>
    ensures { IfOk result (λ one. seen_outline one ≡ outlines.outlined (map seen_rank ranks.now) process first unit) }
{
    Ok(Outline {
        process,
        unit,
        first,
        called: called_by(alloc, unit, ranks)?,
    })
}

/// The number of the process's own block.
pub(crate) fn own_block(outline: &Outline) -> Result<usize, AllocError>
    ensures { IfOk result (λ block. block ≡ outlines.own_block (seen_outline outline.now)) }
{
    match outline.first.checked_add(outline.called.len()) {
        None => Err(AllocError),
        Some(block) => Ok(block),
    }
}

/// The number of the first block behind it.
fn block_behind(outline: &Outline) -> Result<usize, AllocError>
    ensures { IfOk result (λ block. block ≡ outlines.own_block (seen_outline outline.now) + 1) }
{
    match own_block(outline)?.checked_add(1) {
        None => Err(AllocError),
        Some(block) => Ok(block),
    }
}

/// The processes whose units have these numbers, and their blocks.
#[tactic(auto, unfolding(crate::specs::Outlines::outlines_from))]
fn outlines_from(
    alloc: Global,
    ranks: &[Rank<'_>],
    units: &[usize],
) -> Result<Vec<Outline>, AllocError>
    requires few { length units.now ≤ 128 }
    ensures { IfOk result (λ list. map seen_outline list.items ≡ outlines.outlines_from (map seen_rank ranks.now) 0 0 units.now) }
{
    let mut list = Vec::new(alloc);
    let mut first: usize = 0;
    for (process, unit) in units.iter().enumerate() {
        let one = outline_of(alloc, ranks, process as u8, first, *unit)?;
        first = block_behind(&one)?;
        list.push(one)?;
    }
    Ok(list)
}

/// The processes of a set of files with all these units, those whose units have these numbers, and their blocks (image document, The image of a set).
#[tactic(auto, using(crate::proofs::Ranking::ranks_given))]
pub(crate) fn outlines_of(
    alloc: Global,
    set: &Set<'_>,
    all: &Units<'_>,
    units: &[usize],
) -> Result<Vec<Outline>, AllocError>
    requires all { seen_names all.now.names.now ≡ (seen_set set.now).phrases }
    requires few { length units.now ≤ 128 }
    requires units { units.now ≡ processes_of (seen_set set.now).phrases }
    ensures { IfOk result (λ list. map seen_outline list.items ≡ outlines.outlines_of (seen_set set.now)) }
{
    let reached = all.reached(alloc)?;
    let callers = all.callers(alloc)?;
    let ranks = ranks_of(alloc, &reached, &callers)?;
    outlines_from(alloc, &ranks, units)
}
