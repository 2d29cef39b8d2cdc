//! Marks of units, one beside the other: which of them reach one of some blocks by so many calls.

ghost use Rattle.std.specs.Prelude.{◌≡◌, ◌≤◌, ◌<◌, ℕ, suc, true, List, Some, IfOk, IsFalse, IsTrue, length, map, slice_get};
ghost use Rattle.std.specs.List.{list_any};
ghost use Rattle.hal_reach.specs.Marks as marks;
ghost use Rattle.hal_reach.specs.SeenUnits.{seen_unit};
ghost use Rattle.hal_reach.specs.Sweeps.{AreClosed, AreFound, count};

use crate::places::is_among;
use crate::unit::Unit;
use std::alloc::{AllocError, Global};

/// Whether the unit at this place is marked.
fn is_marked(marked: &[bool], place: usize) -> bool
    ensures { result ≡ marks.is_marked marked.now place }
{
    match marked.get(place) {
        None => false,
        Some(mark) => *mark,
    }
}

/// Whether one of the units at these places is.
pub(crate) fn is_any_marked(marked: &[bool], places: &[usize]) -> bool
    ensures { result ≡ list_any (marks.is_marked marked.now) places.now }
{
    for place in places {
        if is_marked(marked, *place) {
            return true;
        }
    }
    false
}

/// Which of the units are one of these blocks.
fn themselves(alloc: Global, units: &[Unit], blocks: &[usize]) -> Result<Vec<bool>, AllocError>
    ensures { IfOk result (λ marked. marked.items ≡ marks.themselves (map seen_unit units.now) blocks.now) }
{
    let mut marked = Vec::new(alloc);
    for unit in units {
        marked.push(is_among(blocks, unit.number))?;
    }
    Ok(marked)
}

/// Marks the unit at this place, where it isn't marked and calls one that is. It tells whether it does.
#[tactic(auto, using(crate::proofs::Swept::one_found, crate::proofs::Swept::one_more))]
fn mark(units: &[Unit], place: usize, marked: &mut Vec<bool>) -> bool
    requires { length marked.old.items ≡ length units.now }
    ensures many { length marked.new.items ≡ length units.now }
    ensures found { (blocks : List ℕ) → AreFound (map seen_unit units.now) blocks marked.old.items → AreFound (map seen_unit units.now) blocks marked.new.items }
    ensures more { IsTrue result → count marked.new.items ≡ suc (count marked.old.items) }
    ensures same { IsFalse result → marked.new.items ≡ marked.old.items }
    ensures closed { IsFalse result → (u : marks.Unit) → slice_get (map seen_unit units.now) place ≡ Some u → list_any (marks.is_marked marked.old.items) u.callees ≡ true → marks.is_marked marked.old.items place ≡ true }
{
    let (Some(unit), Some(mark)) = (units.get(place), marked.get(place)) else {
        return false;
    };
    if *mark || !is_any_marked(marked, &unit.callees) {
        return false;
    }
    marked[place] = true;
    true
}

/// Marks units that call marked ones, from the first one on. It tells whether one was marked.
fn sweep(units: &[Unit], marked: &mut Vec<bool>) -> bool
    requires { length marked.old.items ≡ length units.now }
    ensures many { length marked.new.items ≡ length units.now }
    ensures found { (blocks : List ℕ) → AreFound (map seen_unit units.now) blocks marked.old.items → AreFound (map seen_unit units.now) blocks marked.new.items }
    ensures more { IsTrue result → count marked.old.items < count marked.new.items }
    ensures same { IsFalse result → marked.new.items ≡ marked.old.items }
    ensures closed { IsFalse result → AreClosed (map seen_unit units.now) marked.old.items (length units.now) }
{
    let mut some = false;
    for place in 0..units.len() {
        if mark(units, place, marked) {
            some = true;
        }
    }
    some
}

/// The same, from the last one on.
fn sweep_back(units: &[Unit], marked: &mut Vec<bool>) -> bool
    requires { length marked.old.items ≡ length units.now }
    ensures many { length marked.new.items ≡ length units.now }
    ensures found { (blocks : List ℕ) → AreFound (map seen_unit units.now) blocks marked.old.items → AreFound (map seen_unit units.now) blocks marked.new.items }
    ensures more { count marked.old.items ≤ count marked.new.items }
    ensures same { IsFalse result → marked.new.items ≡ marked.old.items }
{
    let mut some = false;
    let mut left = units.len();
    while let Some(place) = left.checked_sub(1) {
        if mark(units, place, marked) {
            some = true;
        }
        left = place;
    }
    some
}

/// The units that reach one of these blocks by calls, or are one. A unit is marked as soon as one that it calls is, so where units stand behind those that they call, or before
/// them, all are found at once.
pub(crate) fn reaching(
    alloc: Global,
    units: &[Unit],
    blocks: &[usize],
) -> Result<Vec<bool>, AllocError>
    ensures { IfOk result (λ marked. marked.items ≡ marks.reaching (map seen_unit units.now) blocks.now) }
{
    let mut marked = themselves(alloc, units, blocks)?;
    'sweep: while sweep(units, &mut marked) {
        let _more = sweep_back(units, &mut marked);
    }
    Ok(marked)
}
