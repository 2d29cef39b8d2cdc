//! The rows of data of one shape.

ghost use Rattle.std.specs.Prelude.{◌≡◌, ◌≤◌, ◌+◌, ◌++◌, IfOk, OnOk, map};
ghost use Rattle.hal_storage.specs.elements.SeenComponents.{seen_component, seen_shape};
ghost use Rattle.hal_meaning.specs.Elements as elements;
ghost use Rattle.hal_meaning.specs.ReportNames as reports;
ghost use Rattle.hal_storage.specs.report_names.Rooms as rooms;

use crate::elements::{Component, Shape, copy_size, count};
use crate::report_names::paths::with_path;
use hal_values::{Listing, ReportBase, ReportName};
use std::alloc::{AllocError, Global};

/// Sizes of dimensions, as rows have them.
fn dimensions_of(alloc: Global, sizes: &[u16]) -> Result<Vec<u32>, AllocError>
    ensures { IfOk result (λ list. list.items ≡ sizes.now) }
{
    let mut list = Vec::new(alloc);
    for size in sizes {
        list.push(u32::from(*size))?;
    }
    Ok(list)
}

/// Adds a row for each component, of data whose elements begin there.
#[tactic(auto, using(crate::proofs::elements::Capped::size_of_more, crate::proofs::elements::Capped::size_of_one, crate::proofs::elements::Repeated::behind, crate::proofs::elements::Repeated::none_behind))]
fn push_components(
    alloc: Global,
    into: &mut Vec<ReportName>,
    name: &[u8],
    base: ReportBase,
    first: u32,
    copies: u32,
    stride: u32,
    components: &[Component],
) -> Result<(), AllocError>
    requires room { first + elements.copy_size (map seen_component components.now) ≤ 4294967295 }
    ensures { OnOk result (into.new.items ≡ into.old.items ++ reports.rows_from name.now base first copies stride (map seen_component components.now)) }
{
    let mut next = first;
    for component in components {
        into.push(ReportName {
            name: Listing::new(with_path(alloc, name, &component.path)?),
            base,
            first: next,
            copies,
            stride,
            dimensions: Listing::new(dimensions_of(alloc, &component.sizes)?),
        })?;
        next = next.saturating_add(count(component));
    }
    Ok(())
}

/// Adds the rows of data of this name and shape.
pub(crate) fn push_shape(
    alloc: Global,
    into: &mut Vec<ReportName>,
    name: &[u8],
    base: ReportBase,
    first: u32,
    shape: &Shape,
) -> Result<(), AllocError>
    requires room { rooms.HasRoom first (seen_shape shape.now) }
    ensures { OnOk result (into.new.items ≡ into.old.items ++ reports.rows_of_shape name.now base first (seen_shape shape.now)) }
{
    let copies = u32::from(shape.copies.unwrap_or(0));
    let stride = copy_size(&shape.components);
    push_components(
        alloc,
        into,
        name,
        base,
        first,
        copies,
        stride,
        &shape.components,
    )
}
