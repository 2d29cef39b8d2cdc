//! The views of cells, and their numbers.

ghost use Rattle.std.specs.Prelude.{◌≡◌, ◌+◌, [], map};
ghost use Rattle.std.specs.List.{position};
ghost use Rattle.hal_tree.specs.SeenLeaves.{seen_name};
ghost use Rattle.hal_storage.specs.cells.SeenStoring.{seen_storing};
ghost use Rattle.hal_storage.specs.elements.SeenComponents.{seen_shape};
ghost use Rattle.hal_code.specs.Sorts as sorts;
ghost use Rattle.hal_meaning.specs.ReportNames.{first_place};
ghost use Rattle.hal_gen_expr.specs.Leaves as leaves;
ghost use Rattle.hal_gen_expr.specs.Numbering as numbers;
ghost use Rattle.hal_gen_expr.specs.SeenSites.{seen_site, seen_numbering, IsSite};

use crate::elements::{Element, element_named};
use crate::site::Site;
use hal_code::{Base, Dimension, Instr, Run, Target, View};
use hal_storage::cells::Storing;
use hal_storage::elements::Shape;
use hal_tree::Identifier;
use hal_values::{Kind, Listing};

/// The number of the first own place that the phrase with this number has, 0 where it has none.
#[tactic(auto, using(crate::proofs::Sited::placed_of), unfolding(crate::specs::SeenSites::seen_site))]
fn first_place(site: &Site<'_>, owner: usize) -> usize
    requires site { IsSite site.now }
    ensures { result ≡ first_place (seen_site site.now).places owner }
{
    site.first_places.at(owner)
}

/// The number of the first own place of the parameter that the phrase with this number declares.
pub(crate) fn own_place(site: &Site<'_>, declared: usize) -> Option<u32>
    requires site { IsSite site.now }
    ensures { result ≡ numbers.below numbers.most (first_place (seen_site site.now).places declared) }
{
    numbered(first_place(site, declared))
}

/// A number of 32 bits, below 4,294,967,295.
pub(crate) fn numbered(number: usize) -> Option<u32>
    ensures { result ≡ numbers.below numbers.most number }
{
    if number < 4_294_967_295 {
        Some(number as u32)
    } else {
        None
    }
}

/// The number so many behind the first one.
#[tactic(auto, using(crate::proofs::Capped::none_behind))]
fn number_behind(first: usize, before: u32) -> Option<u32>
    ensures { result ≡ numbers.below numbers.most (first + before) }
{
    match first.checked_add(before as usize) {
        None => None,
        Some(number) => numbered(number),
    }
}

/// Where an element lies of the data that the phrase with this number declares and that are stored so (image document, Views).
#[tactic(auto, using(crate::proofs::Sited::counted_of), unfolding(crate::specs::SeenSites::seen_site))]
pub fn base_of(site: &Site<'_>, declared: usize, stored: Storing, before: u32) -> Option<Base>
    requires site { IsSite site.now }
    ensures { result ≡ numbers.base_of (seen_site site.now) declared before (seen_storing stored) }
{
    match stored {
        Storing::InCells(_) => {
            let number = number_behind(site.cells.before(declared), before)?;
            Some(Base::Shared(number))
        }
        Storing::InPlaces => {
            let number = number_behind(first_place(site, declared), before)?;
            Some(Base::Own(number))
        }
        Storing::ByReference => {
            let place = numbered(first_place(site, declared))?;
            let offset = numbered(before as usize)?;
            Some(Base::Through { place, offset })
        }
        Storing::Unstored => None,
    }
}

/// Whether two bases are the same.
fn is_same_base(one: Base, other: Base) -> bool
    ensures { result ≡ numbers.same_base one other }
{
    match (one, other) {
        (Base::Shared(number), Base::Shared(same)) => number == same,
        (Base::Own(number), Base::Own(same)) => number == same,
        (
            Base::Through { place, offset },
            Base::Through {
                place: same,
                offset: so_far,
            },
        ) => place == same && offset == so_far,
        _ => false,
    }
}

/// Whether two kinds are the same.
fn is_same_kind(one: Kind, other: Kind) -> bool
    ensures { result ≡ sorts.same_kind one other }
{
    match (one, other) {
        (Kind::Single, Kind::Single) => true,
        (Kind::Double, Kind::Double) => true,
        (Kind::Bits(len), Kind::Bits(same)) => len == same,
        (Kind::Text(len), Kind::Text(same)) => len == same,
        _ => false,
    }
}

/// Whether a view gives a cell of this kind.
fn gives_cell(kind: Kind, target: Target) -> bool
    ensures { result ≡ numbers.gives_cell kind target }
{
    match target {
        Target::Cell(other) => is_same_kind(other, kind),
        Target::Shape(_) => false,
    }
}

/// Whether a dimension of a view is this one; from 4,294,967,295 on no stride is one of a view.
fn is_same_row(one: Dimension, other: Dimension) -> bool
    ensures { result ≡ numbers.same_row one other }
{
    one.size == other.size && (one.stride == other.stride && other.stride < 4_294_967_295)
}

/// Whether the dimensions of a view are these.
fn has_rows(found: &[Dimension], wanted: &[Dimension]) -> bool
    ensures { result ≡ numbers.same_rows found.now wanted.now }
{
    let Some((one, ones)) = found.split_first() else {
        return wanted.is_empty();
    };
    let Some((other, others)) = wanted.split_first() else {
        return false;
    };
    is_same_row(*one, *other) && has_rows(ones, others)
}

/// Whether a view is that of cells of this kind in these dimensions, which begins there (image document, Views).
pub(crate) fn is_cell_view(from: Base, rows: &[Dimension], kind: Kind, view: &View) -> bool
    ensures { result ≡ numbers.is_cell_view from rows.now kind view.now }
{
    is_same_base(view.base, from)
        && (has_rows(view.dimensions.as_slice(), rows) && gives_cell(kind, view.target))
}

/// The number of this view.
#[tactic(auto, unfolding(crate::specs::SeenSites::seen_numbering))]
fn view_number(site: &Site<'_>, rows: &[Dimension], kind: Kind, from: Base) -> Option<u32>
    ensures { result ≡ numbers.view_number (seen_numbering site.now) rows.now kind from }
{
    let place = site.views.cell_number(from, rows, kind)?;
    numbered(place)
}

/// CELL of the elements in these dimensions of the data that the phrase with this number declares and that are stored so, before which so many lie.
pub(crate) fn address_of(
    site: &Site<'_>,
    rows: &[Dimension],
    declared: usize,
    stored: Storing,
    one: Element,
) -> Option<Instr>
    requires site { IsSite site.now }
    ensures { result ≡ leaves.address_of (seen_numbering site.now) (seen_site site.now) rows.now declared (seen_storing stored) one.before one.kind }
{
    let from = base_of(site, declared, stored, one.before)?;
    let number = view_number(site, rows, one.kind, from)?;
    Some(Instr::Cell(number))
}

/// Whether a run of a shape is this one; from 4,294,967,295 on no count is one of a shape.
fn is_same_run(one: &Run<Kind>, other: &Run<Kind>) -> bool
    ensures { result ≡ numbers.same_run one.now other.now }
{
    one.repeat == other.repeat && (other.repeat < 4_294_967_295 && is_same_kind(one.row, other.row))
}

/// Whether the runs of a shape are these (image document, Views).
pub fn has_runs(found: &[Run<Kind>], wanted: &[Run<Kind>]) -> bool
    ensures { result ≡ numbers.same_runs found.now wanted.now }
{
    let Some((one, ones)) = found.split_first() else {
        return wanted.is_empty();
    };
    let Some((other, others)) = wanted.split_first() else {
        return false;
    };
    is_same_run(one, other) && has_runs(ones, others)
}

/// The place among shapes of that with these runs.
fn place_among(shapes: &[Listing<Run<Kind>>], runs: &[Run<Kind>]) -> Option<usize>
    ensures { result ≡ position (λ found. numbers.same_runs found runs.now) shapes.now }
{
    shapes
        .iter()
        .position(|found| has_runs(found.as_slice(), runs))
}

/// The number among shapes of that with these runs (image document, Views).
pub fn shape_in(shapes: &[Listing<Run<Kind>>], runs: &[Run<Kind>]) -> Option<u32>
    ensures { result ≡ numbers.shape_in shapes.now runs.now }
{
    let place = place_among(shapes, runs)?;
    numbered(place)
}

/// Whether a view gives the cells of the shape with this number.
fn gives_area(shape: u32, target: Target) -> bool
    ensures { result ≡ numbers.gives_area shape target }
{
    match target {
        Target::Cell(_) => false,
        Target::Shape(other) => other == shape,
    }
}

/// Whether a view is that of the cells of the shape with this number in these dimensions, which begins there (image document, Views).
pub(crate) fn is_area_view(from: Base, rows: &[Dimension], shape: u32, view: &View) -> bool
    ensures { result ≡ numbers.is_area_view from rows.now shape view.now }
{
    is_same_base(view.base, from)
        && (has_rows(view.dimensions.as_slice(), rows) && gives_area(shape, view.target))
}

/// The number of this view.
#[tactic(auto, unfolding(crate::specs::SeenSites::seen_numbering))]
fn area_number(site: &Site<'_>, rows: &[Dimension], shape: u32, from: Base) -> Option<u32>
    ensures { result ≡ numbers.area_number (seen_numbering site.now) rows.now shape from }
{
    let place = site.views.area_number(from, rows, shape)?;
    numbered(place)
}

/// The number of the shape with these runs.
#[tactic(auto, unfolding(crate::specs::SeenSites::seen_numbering))]
pub(crate) fn shape_number(site: &Site<'_>, runs: &[Run<Kind>]) -> Option<u32>
    ensures { result ≡ numbers.shape_number (seen_numbering site.now) runs.now }
{
    shape_in(site.shapes, runs)
}

/// WHOLE of the cells of the shape with this number in these dimensions, of the data that the phrase with this number declares and that are stored so, before which
/// so many lie.
pub(crate) fn area_of(
    site: &Site<'_>,
    rows: &[Dimension],
    shape: u32,
    declared: usize,
    stored: Storing,
    before: u32,
) -> Option<Instr>
    requires site { IsSite site.now }
    ensures { result ≡ leaves.area_of (seen_numbering site.now) (seen_site site.now) rows.now shape declared (seen_storing stored) before }
{
    let from = base_of(site, declared, stored, before)?;
    let number = area_number(site, rows, shape, from)?;
    Some(Instr::Whole(number))
}

/// The number of the view of an own place of kind DOUBLE, before which so many lie of those of the phrase with this number.
pub fn place_view(site: &Site<'_>, owner: usize, before: u32) -> Option<u32>
    requires site { IsSite site.now }
    ensures { result ≡ leaves.place_view (seen_numbering site.now) (seen_site site.now) owner before }
{
    let base = base_of(site, owner, Storing::InPlaces, before)?;
    view_number(site, &[], Kind::Double, base)
}

/// CELL of one element.
fn address_of_one(site: &Site<'_>, declared: usize, stored: Storing, one: Element) -> Option<Instr>
    requires site { IsSite site.now }
    ensures { result ≡ leaves.address_of (seen_numbering site.now) (seen_site site.now) [] declared (seen_storing stored) one.before one.kind }
{
    address_of(site, &[], declared, stored, one)
}

/// CELL of the one element of data to which names lead, where it is one and has a view (image document, Code that stands for a set).
pub fn element_of(
    site: &Site<'_>,
    path: &[Identifier],
    declared: usize,
    stored: Storing,
    shape: &Shape,
) -> Option<Instr>
    requires site { IsSite site.now }
    ensures { result ≡ leaves.element_of (seen_numbering site.now) (seen_site site.now) (map seen_name path.now) declared (seen_storing stored) (seen_shape shape.now) }
{
    if shape.copies.is_some() {
        return None;
    }
    let one = element_named(path, &shape.components)?;
    address_of_one(site, declared, stored, one)
}
