//! How views are found by where they begin.

ghost use Rattle.std.specs.Prelude.{◌≡◌, ◌++◌, ◌∷◌, [], OnOk};
ghost use Rattle.std.specs.List.{list_any, position};
ghost use Rattle.hal_gen_expr.specs.Numbering as numbering;
ghost use Rattle.hal_gen_expr.specs.ViewSlots as slots;

use crate::view_list::Views;
use crate::view_slots::{add_number, numbers_in, slot_of};
use crate::views::{is_area_view, is_cell_view};
use hal_code::{Base, Dimension, View};
use hal_values::Kind;
use std::alloc::{AllocError, Global};

/// Whether the view with this number is that of cells of this kind in these dimensions, which begins there.
fn is_cell_at(list: &[View], from: Base, rows: &[Dimension], kind: Kind, number: usize) -> bool
    ensures { result ≡ slots.is_at (numbering.is_cell_view from rows.now kind) list.now number }
{
    match list.get(number) {
        None => false,
        Some(view) => is_cell_view(from, rows, kind, view),
    }
}

/// The first of these numbers whose view is.
#[tactic(auto, unfolding(crate::specs::ViewSlots::first_at))]
fn first_cell(
    list: &[View],
    from: Base,
    rows: &[Dimension],
    kind: Kind,
    numbers: &[usize],
) -> Option<usize>
    ensures { result ≡ slots.first_at (numbering.is_cell_view from rows.now kind) list.now numbers.now }
{
    for number in numbers {
        if is_cell_at(list, from, rows, kind, *number) {
            return Some(*number);
        }
    }
    None
}

/// Whether the view with this number is that of the cells of the shape with that one in these dimensions, which begins there.
fn is_area_at(list: &[View], from: Base, rows: &[Dimension], shape: u32, number: usize) -> bool
    ensures { result ≡ slots.is_at (numbering.is_area_view from rows.now shape) list.now number }
{
    match list.get(number) {
        None => false,
        Some(view) => is_area_view(from, rows, shape, view),
    }
}

/// The first of these numbers whose view is.
#[tactic(auto, unfolding(crate::specs::ViewSlots::first_at))]
fn first_area(
    list: &[View],
    from: Base,
    rows: &[Dimension],
    shape: u32,
    numbers: &[usize],
) -> Option<usize>
    ensures { result ≡ slots.first_at (numbering.is_area_view from rows.now shape) list.now numbers.now }
{
    for number in numbers {
        if is_area_at(list, from, rows, shape, *number) {
            return Some(*number);
        }
    }
    None
}

impl Views {
    /// No views.
    #[tactic(auto, using(crate::proofs::IndexedViews::nothing_indexed))]
    pub fn new(alloc: Global) -> Views
        ensures { result.list.items ≡ [] }
    {
        Views {
            alloc,
            list: Vec::new(alloc),
            table: Vec::new(alloc),
        }
    }

    /// The number of the view of cells of this kind in these dimensions, which begins there.
    pub(crate) fn cell_number(&self, from: Base, rows: &[Dimension], kind: Kind) -> Option<usize>
        ensures { result ≡ position (numbering.is_cell_view from rows.now kind) self.now.list.items }
    {
        first_cell(
            &self.list,
            from,
            rows,
            kind,
            numbers_in(&self.table, slot_of(from)),
        )
    }

    /// The number of the view of the cells of the shape with this number in these dimensions, which begins there.
    pub(crate) fn area_number(&self, from: Base, rows: &[Dimension], shape: u32) -> Option<usize>
        ensures { result ≡ position (numbering.is_area_view from rows.now shape) self.now.list.items }
    {
        first_area(
            &self.list,
            from,
            rows,
            shape,
            numbers_in(&self.table, slot_of(from)),
        )
    }

    /// Whether the view of cells of this kind in these dimensions, which begins there, is among them (image document, Views).
    #[tactic(auto, using(crate::proofs::IndexedViews::any_found))]
    pub fn has_cell(&self, from: Base, rows: &[Dimension], kind: Kind) -> bool
        ensures { result ≡ list_any (numbering.is_cell_view from rows.now kind) self.now.list.items }
    {
        self.cell_number(from, rows, kind).is_some()
    }

    /// Whether the view of the cells of the shape with this number in these dimensions, which begins there, is among them (image document, Views).
    #[tactic(auto, using(crate::proofs::IndexedViews::any_found))]
    pub fn has_area(&self, from: Base, rows: &[Dimension], shape: u32) -> bool
        ensures { result ≡ list_any (numbering.is_area_view from rows.now shape) self.now.list.items }
    {
        self.area_number(from, rows, shape).is_some()
    }

    /// Adds a view.
    #[tactic(auto, using(crate::proofs::IndexedViews::push_indexed, crate::proofs::IndexedViews::same_indexed))]
    pub fn push(&mut self, view: View) -> Result<(), AllocError>
        ensures { OnOk result (self.new.list.items ≡ self.old.list.items ++ (view ∷ [])) }
    {
        let number = self.list.len();
        let slot = slot_of(view.base);
        self.list.push(view)?;
        let added = add_number(&mut self.table, self.alloc, slot, number);
        if added.is_err() {
            self.list.pop();
        }
        added
    }

    /// The views alone.
    pub fn into_list(self) -> Vec<View>
        ensures { result.items ≡ self.list.items }
    {
        let Views {
            alloc: _,
            list,
            table: _,
        } = self;
        list
    }
}
