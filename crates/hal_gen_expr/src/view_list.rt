//! Views with what finds them.

ghost use Rattle.std.specs.Prelude.{map};
ghost use Rattle.hal_gen_expr.specs.ViewSlots.{IsIndexed, numbers_of};

use hal_code::View;
use std::alloc::Global;

/// Views, in the order of their numbers. A contract sees the list.
#[derive(Drop)]
pub struct Views {
    pub(crate) alloc: Global,
    pub(crate) list: Vec<View>,
    /// For each slot the numbers of the views that begin there, in order.
    pub(crate) table: Vec<Vec<usize>>,
    ghost indexed: { IsIndexed list.items (map numbers_of table.items) },
}
