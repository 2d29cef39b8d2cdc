//! Which lock groups a request touches, and whether another process holds one of them.

ghost use Rattle.std.specs.Prelude.{◌≡◌, ◌≢◌, ◌↔◌, ◌<◌, ◌≤◌, ℕ, IsTrue, IfOk, OnOk, MatchBool, bit_and, length, slice_get};
ghost use Rattle.hal_values.specs.Tables.{process_count};
ghost use Rattle.exec_model.specs.Holding.{touch_groups};
ghost use Rattle.exec_model.specs.Meanings.{meaning};
ghost use Rattle.exec_model.specs.Moments.{moment_of};
ghost use Rattle.exec_model.specs.Processes.{NotLower};
ghost use Rattle.exec_model.specs.Steps.{block_groups, cell_group, touched_groups, IsHolder};

use crate::procs::Procs;
use crate::rows::{process_at, row_at};
use crate::state::State;
use hal_values::{Request, Spot, Tables};
use std::alloc::AllocError;

/// The lock groups that a request touches.
#[derive(Clone, Copy)]
pub(crate) enum Touch {
    Nothing,
    /// Those of an UPDATE block, a bit for each.
    Groups(u16),
    /// That of a shared cell.
    Group(u8),
}

fn touch_of_cell(tables: &Tables, cell: u16) -> Touch
    ensures { touch_groups result ≡ cell_group (slice_get tables.now.cells cell) }
{
    match tables.cells.as_slice().get(usize::from(cell)) {
        Some(cell) => Touch::Group(cell.group),
        None => Touch::Nothing,
    }
}

/// The lock groups that a request touches.
pub(crate) fn touch_of(tables: &Tables, request: &Request) -> Touch
    ensures { touch_groups result ≡ touched_groups tables.now request.now }
{
    match request {
        Request::Read(Spot::Cell(cell)) => touch_of_cell(tables, *cell),
        Request::Write(cell, _) => touch_of_cell(tables, *cell),
        Request::Update(groups) => Touch::Groups(*groups),
        _ => Touch::Nothing,
    }
}

fn groups_of_block(request: &Request) -> u16
    ensures { result ≡ block_groups request.now }
{
    match request {
        Request::Update(groups) => *groups,
        _ => 0,
    }
}

/// Whether an UPDATE block with these groups has one that is touched.
fn is_shared(groups: u16, touch: Touch) -> bool
    ensures { IsTrue result ↔ (bit_and groups (touch_groups touch) ≢ 0) }
{
    match touch {
        Touch::Nothing => false,
        Touch::Groups(others) => groups & others != 0,
        Touch::Group(group) => group < 16 && groups & (1u16 << group) != 0,
    }
}

/// Whether another process is inside an UPDATE block that has one of the lock groups.
pub(crate) fn is_held<P: Procs>(
    procs: &mut P,
    state: &State,
    process: u8,
    touch: Touch,
) -> Result<bool, AllocError>
    requires { length state.now.rows ≡ process_count (P.Of.tables (P.load procs.old)) }
    ensures held { IfOk result (λ held. MatchBool held ((o : ℕ) × IsHolder (meaning P.Of.Load (P.load procs.old)) (moment_of state.now (P.answers procs.old)) process (touch_groups touch) o) ((o : ℕ) → IsHolder (meaning P.Of.Load (P.load procs.old)) (moment_of state.now (P.answers procs.old)) process (touch_groups touch) o → ⊥)) }
    ensures same { (P.load procs.new ≡ P.load procs.old) × (P.answers procs.new ≡ P.answers procs.old) }
{
    let rows = state.rows.as_slice();
    'places: for place in 0..rows.len() {
        let other = process_at(place)?;
        if other == process || !row_at(rows, other).inside {
            continue;
        }
        let asked = procs.ask(other)?;
        if is_shared(groups_of_block(&asked), touch) {
            return Ok(true);
        }
    }
    Ok(false)
}
