//! Rows of tables: cells, events, own places, processes, limits, shapes and event expressions.

ghost use Rattle.std.specs.Prelude.{◌≡◌, ◌≤◌, slice_get};
ghost use Rattle.std.specs.List.{list_all};
ghost use Rattle.hal_values.specs.declared.tables.EventStart.{EventStart};
ghost use Rattle.hal_code.specs.declared.choice.Choice.{Choice as ChoiceThere};
ghost use Rattle.hal_code.specs.Operands.{is_known, events_of};
ghost use Rattle.hal_code.specs.Right.{cell_right, place_right, process_right, processes_right, limits_right, shape_right, shapes_right, postfix_right};
ghost use Rattle.hal_verify.specs.Stepping.{block_of, postfix_next};

use crate::counts::{cell_count, shape_count};
use crate::events::{is_event, is_known};
use crate::sorts::{is_initial, is_kind};
use hal_base::{CELL_LIMIT, EVENT_LIMIT, PROCESS_LIMIT};
use hal_code::{Choice, ImageParts, OwnPlace, Process, Run};
use hal_values::{Cell, EventStart, Item, Kind, Listing};

/// How many cells views, shapes and report names may give, counted with repeats.
pub(crate) const SPREAD_LIMIT: u64 = 1_048_576;

/// Whether a row of shared cells is right.
fn cell_right(run: &Run<Cell>) -> bool
    ensures { result ≡ cell_right run.now }
{
    is_initial(run.row.kind, &run.row.initial) && run.row.group <= 15
}

/// Whether all of them are.
pub(crate) fn cells_right(cells: &[Run<Cell>]) -> bool
    ensures { result ≡ list_all cell_right cells.now }
{
    for run in cells {
        if !cell_right(run) {
            return false;
        }
    }
    true
}

/// Whether it is known how each declared event begins.
pub(crate) fn events_right(events: &[Choice<EventStart>]) -> bool
    ensures { result ≡ list_all (λ (one : ChoiceThere EventStart). is_known one) events.now }
{
    for event in events {
        if !is_known(*event) {
            return false;
        }
    }
    true
}

/// Whether a row of own places is right.
fn place_right(image: &ImageParts, run: &Run<OwnPlace>) -> bool
    ensures { result ≡ place_right image.now run.now }
{
    match &run.row {
        OwnPlace::Data { kind, initial } => is_initial(*kind, initial),
        OwnPlace::Reference(shape) => (*shape as usize) < image.shapes.as_slice().len(),
    }
}

/// Whether all of them are.
pub(crate) fn places_right(image: &ImageParts, places: &[Run<OwnPlace>]) -> bool
    ensures { result ≡ list_all (place_right image.now) places.now }
{
    for run in places {
        if !place_right(image, run) {
            return false;
        }
    }
    true
}

/// Whether the block with this number is that of a process.
fn is_block_of(image: &ImageParts, block: u32, process: usize) -> bool
    ensures { result ≡ block_of process (slice_get image.now.blocks block) }
{
    match image.blocks.as_slice().get(block as usize) {
        None => false,
        Some(block) => usize::from(block.process) == process,
    }
}

/// Whether a process has its own block, and right places.
fn process_right(image: &ImageParts, number: usize, process: &Process) -> bool
    ensures { result ≡ process_right image.now number process.now }
{
    is_block_of(image, process.block, number) && places_right(image, process.places.as_slice())
}

/// Whether all processes do.
#[tactic(auto, using(crate::proofs::Stepping::right_process, crate::proofs::Stepping::wrong_process))]
pub(crate) fn processes_right(image: &ImageParts) -> bool
    ensures { result ≡ processes_right image.now 0 image.now.processes }
{
    let processes = image.processes.as_slice();
    for (number, process) in processes.iter().enumerate() {
        if !process_right(image, number, process) {
            return false;
        }
    }
    true
}

/// Whether the limits are kept, and the first process is there.
pub(crate) fn limits_right(image: &ImageParts) -> bool
    ensures { result ≡ limits_right image.now }
{
    let processes = image.processes.as_slice().len();
    cell_count(image) <= u64::from(CELL_LIMIT)
        && processes <= PROCESS_LIMIT as usize
        && image.events.as_slice().len() <= EVENT_LIMIT as usize
        && usize::from(image.first) < processes
}

/// Whether the kinds of a shape are in their ranges.
fn shape_right(runs: &[Run<Kind>]) -> bool
    ensures { result ≡ shape_right runs.now }
{
    for run in runs {
        if !is_kind(run.row) {
            return false;
        }
    }
    true
}

/// Whether those of all shapes are.
fn each_shape_right(shapes: &[Listing<Run<Kind>>]) -> bool
    ensures { result ≡ list_all shape_right shapes.now }
{
    for runs in shapes {
        if !shape_right(runs.as_slice()) {
            return false;
        }
    }
    true
}

/// Whether shapes are right, and have few cells together.
pub(crate) fn shapes_right(image: &ImageParts) -> bool
    ensures { result ≡ shapes_right image.now }
{
    let shapes = image.shapes.as_slice();
    each_shape_right(shapes) && shape_count(shapes) <= SPREAD_LIMIT
}

/// How many operands stand behind an item of an event expression before which so many do, None where it isn't right.
fn postfix_next(image: &ImageParts, operands: usize, item: Item) -> Option<usize>
    requires { operands ≤ 9223372036854775807 }
    ensures { result ≡ postfix_next (events_of image.now) operands item }
{
    match item {
        Item::Event(event) if !is_event(image, event) => None,
        Item::Event(_) => Some(operands + 1),
        Item::Not if operands < 1 => None,
        Item::Not => Some(operands),
        Item::And | Item::Or if operands < 2 => None,
        Item::And | Item::Or => Some(operands - 1),
    }
}

/// Whether an event expression is right.
#[tactic(auto, using(crate::proofs::Stepping::next_item, crate::proofs::Stepping::no_item, crate::proofs::Stepping::few_operands))]
fn postfix_right(image: &ImageParts, items: &[Item]) -> bool
    ensures { result ≡ postfix_right (events_of image.now) 0 items.now }
{
    let mut operands: usize = 0;
    for item in items {
        let Some(after) = postfix_next(image, operands, *item) else {
            return false;
        };
        operands = after;
    }
    operands == 1
}

/// Whether all event expressions are.
pub(crate) fn expressions_right(image: &ImageParts) -> bool
    ensures { result ≡ list_all (postfix_right (events_of image.now) 0) image.now.expressions }
{
    let expressions = image.expressions.as_slice();
    for items in expressions {
        if !postfix_right(image, items.as_slice()) {
            return false;
        }
    }
    true
}
