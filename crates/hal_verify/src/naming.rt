//! Report names: whether their elements are there.

ghost use Rattle.hal_code.specs.Operands.{events_of};
ghost use Rattle.std.specs.Prelude.{ℕ, ◌≡◌, ◌≤◌, ◌+◌, ◌-◌, ◌*◌, min, IfOk};
ghost use Rattle.std.specs.List.{list_all, sum_by};
ghost use Rattle.hal_values.specs.ReportElements.{size_of};
ghost use Rattle.hal_code.specs.Images.{expanded};
ghost use Rattle.hal_code.specs.Right.{copies_of, line_count, name_right, names_right};
ghost use Rattle.hal_verify.specs.Cursors.{seen_cursor};
ghost use Rattle.hal_verify.specs.Naming.{ends_within, own_there};
ghost use Rattle.hal_verify.specs.Rooms.{all_hold, each_lies};

use crate::counts::{all_lines, copies_of, element_count, row_count};
use crate::cursor::{Cursor, turns_of};
use crate::memory::Memory;
use crate::rooms::rooms_of_process;
use crate::tables::SPREAD_LIMIT;
use hal_code::ImageParts;
use hal_values::{ReportBase, ReportName};
use std::alloc::{AllocError, Global};

/// The number of the first element of the last copy.
#[tactic(auto, using(crate::proofs::Bounds::last_product))]
fn last_first(name: &ReportName) -> u64
    ensures first { result ≡ name.now.first + (copies_of name.now - 1) * name.now.stride }
    ensures small { result ≤ 18446744069414584320 }
{
    let copies = u64::from(copies_of(name) - 1);
    u64::from(name.first) + copies * u64::from(name.stride)
}

/// Whether the elements of the last copy end within so many, where a copy has so many. Both stand still at 2^64 - 1.
fn ends_within(name: &ReportName, size: u64, total: u64) -> bool
    requires { size ≤ 1048576 }
    ensures { (all : ℕ) → total ≡ min all 18446744073709551615 → result ≡ ends_within name.now size all }
{
    last_first(name) + size <= total
}

/// Whether so many places hold values, from each of so many on.
#[tactic(auto, using(crate::proofs::Cursors::one_turn, crate::proofs::Cursors::last_turn, crate::proofs::Cursors::few_turns))]
fn each_holds(at: Cursor<'_>, size: u32, stride: u32, copies: u32) -> bool
    ensures { result ≡ each_lies (all_hold None size) stride copies (seen_cursor at.entry) }
{
    let mut at = at;
    let mut left = turns_of(copies, stride);
    while let Some(fewer) = left.checked_sub(1) {
        if !at.all_hold(None, size) {
            return false;
        }
        at = at.skip(stride);
        left = fewer;
    }
    true
}

/// Whether the elements of each copy stand at own places.
#[tactic(auto, using(crate::proofs::Copies::row_length))]
fn own_there(name: &ReportName, size: u64, rooms: &Memory) -> bool
    requires { size ≤ 1048576 }
    ensures { result ≡ own_there name.now size (expanded rooms.now.runs.items) }
{
    if size == 0 {
        ends_within(name, 0, row_count(&rooms.runs))
    } else {
        let at = rooms.at(name.first);
        each_holds(at, size as u32, name.stride, copies_of(name))
    }
}

/// Whether the elements of a report name are there.
#[tactic(auto, using(crate::proofs::Copies::shared_right, crate::proofs::Copies::own_right, crate::proofs::Copies::event_right))]
fn elements_there(
    alloc: Global,
    image: &ImageParts,
    name: &ReportName,
    size: u64,
) -> Result<bool, AllocError>
    requires few { size ≤ 1048576 }
    requires is { size ≡ size_of name.now.dimensions }
    ensures { IfOk result (λ there. there ≡ name_right image.now name.now) }
{
    match name.base {
        ReportBase::Shared => Ok(ends_within(name, size, row_count(image.cells.as_slice()))),
        ReportBase::Own(process) => {
            let rooms = rooms_of_process(alloc, image, usize::from(process))?;
            Ok(own_there(name, size, &rooms))
        }
        ReportBase::Event => Ok(ends_within(name, size, event_count(image))),
    }
}

/// How many events there are.
fn event_count(image: &ImageParts) -> u64
    ensures { result ≡ min (events_of image.now) 18446744073709551615 }
{
    let processes = image.processes.as_slice().len() as u64;
    processes.saturating_add(image.events.as_slice().len() as u64)
}

/// Whether a report name with few lines is right.
#[tactic(auto, using(crate::proofs::Copies::size_few))]
fn name_right(alloc: Global, image: &ImageParts, name: &ReportName) -> Result<bool, AllocError>
    requires { line_count name.now ≤ 1048576 }
    ensures { IfOk result (λ right. right ≡ name_right image.now name.now) }
{
    elements_there(
        alloc,
        image,
        name,
        element_count(name.dimensions.as_slice()),
    )
}

/// Whether all report names with few lines together are.
#[tactic(auto, using(crate::proofs::Capped::name_more))]
fn each_right(alloc: Global, image: &ImageParts, names: &[ReportName]) -> Result<bool, AllocError>
    requires { sum_by line_count names.now ≤ 1048576 }
    ensures { IfOk result (λ right. right ≡ list_all (name_right image.now) names.now) }
{
    for name in names {
        if !name_right(alloc, image, name)? {
            return Ok(false);
        }
    }
    Ok(true)
}

/// Whether report names are right, and give few lines together.
pub(crate) fn names_right(alloc: Global, image: &ImageParts) -> Result<bool, AllocError>
    ensures { IfOk result (λ right. right ≡ names_right image.now) }
{
    let names = image.names.as_slice();
    if all_lines(names) <= SPREAD_LIMIT {
        each_right(alloc, image, names)
    } else {
        Ok(false)
    }
}
