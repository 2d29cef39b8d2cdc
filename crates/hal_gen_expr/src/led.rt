//! Data, and names that lead to some of their elements, among which subscripts choose.

ghost use Rattle.std.specs.Prelude.{◌≡◌, ◌++◌, ◌∷◌, [], IfOk, OnOk, map, min, if◌then◌else◌};
ghost use Rattle.std.specs.Option.{option_map};
ghost use Rattle.hal_tree.specs.Rows.{subscripts};
ghost use Rattle.hal_tree.specs.SeenExpressions.{seen_sub, seen_subscript};
ghost use Rattle.hal_tree.specs.SeenLeaves.{seen_name};
ghost use Rattle.hal_storage.specs.elements.SeenComponents.{seen_shape};
ghost use Rattle.hal_meaning.specs.Elements as elements;
ghost use Rattle.hal_meaning.specs.Expressions.{copies_of};
ghost use Rattle.hal_meaning.specs.Variables as variables;
ghost use Rattle.hal_agreement.specs.PlacedExpressions.{single_dimensions};
ghost use Rattle.hal_storage.specs.referents.SeenReferents.{seen_meant, seen_referent};
ghost use Rattle.hal_gen_expr.specs.Emits.{Emits};
ghost use Rattle.hal_gen_expr.specs.ExpressionCode as codes;
ghost use Rattle.hal_gen_expr.specs.Led as leading;
ghost use Rattle.hal_gen_expr.specs.Numbering.{row_of};
ghost use Rattle.hal_gen_expr.specs.SeenLed.{seen_led};
ghost use Rattle.hal_gen_expr.specs.SeenSites.{seen_site, seen_numbering, IsSite};

use crate::aims::Aim;
use crate::elements::{Element, first_element, sizes_named};
use crate::leaves::emit_one;
use crate::site::Site;
use crate::spans::{copies_skipped, places_of_array_skipped};
use crate::subscripts::are_none;
use crate::uncoded::Uncoded;
use crate::views::{address_of, area_of, element_of};
use hal_base::Place;
use hal_code::{Dimension, Instr};
use hal_storage::cells::Storing;
use hal_storage::elements::{Shape, copy_size};
use hal_storage::referents::{Meant, Referent};
use hal_tree::{Identifier, Sub, Subscript};
use std::alloc::{AllocError, Global};

/// Data, and the names that lead to some of their elements.
#[derive(Clone, Copy)]
pub struct Led<'a> {
    pub path: &'a [Identifier],
    /// The phrase that declares the data.
    pub declared: usize,
    pub stored: Storing,
    pub shape: &'a Shape,
}

/// Data that a phrase declares, and these names.
#[tactic(auto, unfolding(crate::specs::SeenLed::seen_led))]
fn led_declared<'a>(path: &'a [Identifier], referent: &'a Referent) -> Option<Led<'a>>
    ensures { option_map seen_led result ≡ leading.led_by (map seen_name path.now) (seen_referent referent.now) }
{
    match referent {
        Referent::Data {
            declared,
            stored,
            shape,
        } => Some(Led {
            path,
            declared: *declared,
            stored: *stored,
            shape,
        }),
        Referent::Constant(_) => None,
        Referent::Event(_) => None,
        Referent::Block(_) => None,
        Referent::Nothing => None,
    }
}

/// Those of a name, where it means data.
pub fn led_by<'a>(path: &'a [Identifier], meant: Meant<'a>) -> Option<Led<'a>>
    ensures { option_map seen_led result ≡ leading.led_by (map seen_name path.now) (seen_meant meant.entry) }
{
    match meant {
        Meant::Declared(referent) => led_declared(path, referent),
        Meant::Builtin(_) => None,
        Meant::Nothing => None,
    }
}

/// The sizes of the array to whose elements they lead; none where there is none.
#[tactic(auto, unfolding(crate::specs::SeenLed::seen_led))]
pub fn sizes_led<'a>(led: Led<'a>) -> &'a [u16]
    ensures { result.now ≡ leading.sizes_led (seen_led led.entry) }
{
    sizes_named(led.path, &led.shape.components)
}

/// How many elements an array with these sizes has, 4,294,967,295 where it has more: so far is the next place of a dimension before them.
#[tactic(auto, using(hal_storage::proofs::elements::Capped::capped))]
pub(crate) fn stride(sizes: &[u16]) -> u32
    ensures { result ≡ min (elements.product sizes.now) 4294967295 }
{
    match sizes.split_first() {
        None => 1,
        Some((size, others)) => u32::from(*size).saturating_mul(stride(others)),
    }
}

/// Adds the dimensions of an array with these sizes.
#[tactic(auto, using(hal_storage::proofs::elements::Repeated::behind, hal_storage::proofs::elements::Repeated::none_behind))]
fn push_sizes(into: &mut Vec<Dimension>, sizes: &[u16]) -> Result<(), AllocError>
    ensures { OnOk result (into.new.items ≡ into.old.items ++ map row_of (variables.dimensions_of sizes.now)) }
{
    match sizes.split_first() {
        None => Ok(()),
        Some((size, others)) => {
            into.push(Dimension {
                size: u32::from(*size),
                stride: stride(others),
            })?;
            push_sizes(into, others)
        }
    }
}

/// Whether a subscript chooses one place.
#[tactic(auto, using(hal_tree::proofs::MadeExpressions::made_every, hal_tree::proofs::MadeExpressions::made_one, hal_tree::proofs::MadeExpressions::made_range, hal_tree::proofs::MadeExpressions::made_portion))]
fn is_single(sub: &Sub) -> bool
    ensures { result ≡ leading.is_single (seen_sub sub.now) }
{
    match sub {
        Sub::Every { .. } => false,
        Sub::One { .. } => true,
        Sub::Range { .. } => false,
        Sub::Portion { .. } => false,
    }
}

/// The dimension of the copies, where there are some and subscripts choose one of them.
#[tactic(auto, using(crate::proofs::Singled::none_single, crate::proofs::Singled::next_single), unfolding(hal_tree::specs::Rows::subscripts))]
fn copies_left(alloc: Global, subs: &[Sub], shape: &Shape) -> Result<Vec<Dimension>, AllocError>
    ensures { IfOk result (λ rows. rows.items ≡ map row_of (single_dimensions (copies_of (seen_shape shape.now)) (subscripts (map seen_sub subs.now)))) }
{
    let mut rows = Vec::new(alloc);
    let Some((first, _)) = subs.split_first() else {
        return Ok(rows);
    };
    let Some(count) = shape.copies else {
        return Ok(rows);
    };
    if is_single(first) {
        rows.push(Dimension {
            size: u32::from(count),
            stride: copy_size(&shape.components),
        })?;
    }
    Ok(rows)
}

/// Adds a dimension in which a subscript chooses one place.
fn push_single(into: &mut Vec<Dimension>, sub: &Sub, row: Dimension) -> Result<(), AllocError>
    ensures { OnOk result (into.new.items ≡ (if leading.is_single (seen_sub sub.now) then into.old.items ++ (row ∷ []) else into.old.items)) }
{
    if is_single(sub) {
        into.push(row)?;
    }
    Ok(())
}

/// Adds those of an array with these sizes in which subscripts choose one place.
#[tactic(auto, using(hal_storage::proofs::elements::Repeated::behind, hal_storage::proofs::elements::Repeated::none_behind, crate::proofs::Singled::none_left, crate::proofs::Singled::next_single), unfolding(hal_tree::specs::Rows::subscripts))]
fn push_singles(into: &mut Vec<Dimension>, subs: &[Sub], sizes: &[u16]) -> Result<(), AllocError>
    ensures { OnOk result (into.new.items ≡ into.old.items ++ map row_of (single_dimensions (variables.dimensions_of sizes.now) (subscripts (map seen_sub subs.now)))) }
{
    match sizes.split_first() {
        None => Ok(()),
        Some((size, others)) => match subs.split_first() {
            None => Ok(()),
            Some((first, more)) => {
                let row = Dimension {
                    size: u32::from(*size),
                    stride: stride(others),
                };
                push_single(into, first, row)?;
                push_singles(into, more, others)
            }
        },
    }
}

/// The subscripts of an array: those without a mark are its where no others are (language document, Subscripts).
fn array_list<'a>(arrays: &'a [Sub], components: &'a [Sub]) -> &'a [Sub]
    ensures { subscripts (map seen_sub result.now) ≡ leading.array_list (subscripts (map seen_sub arrays.now)) (subscripts (map seen_sub components.now)) }
{
    if are_none(arrays) { components } else { arrays }
}

/// The dimensions of an array with these sizes, behind none.
#[tactic(auto, using(crate::proofs::Listed::nothing_before))]
fn array_left(alloc: Global, sizes: &[u16]) -> Result<Vec<Dimension>, AllocError>
    ensures { IfOk result (λ rows. rows.items ≡ map row_of (variables.dimensions_of sizes.now)) }
{
    let mut rows = Vec::new(alloc);
    push_sizes(&mut rows, sizes)?;
    Ok(rows)
}

/// The dimensions in which a subscript chooses one place, whose number its code leaves (image document, Views).
#[tactic(auto, using(crate::proofs::Listed::both_mapped, hal_tree::proofs::MadeExpressions::made_unsubscripted, hal_tree::proofs::MadeExpressions::made_by_name, hal_tree::proofs::MadeExpressions::made_by_integer, hal_tree::proofs::MadeExpressions::made_by_parts), unfolding(crate::specs::SeenLed::seen_led))]
pub fn rows_left(
    alloc: Global,
    subscript: &Subscript,
    led: Led<'_>,
) -> Result<Vec<Dimension>, AllocError>
    ensures { IfOk result (λ rows. rows.items ≡ map row_of (leading.rows_left (seen_subscript subscript.now) (seen_led led.entry))) }
{
    match subscript {
        Subscript::None => Ok(Vec::new(alloc)),
        Subscript::Name { .. } => array_left(alloc, sizes_led(led)),
        Subscript::Integer { .. } => array_left(alloc, sizes_led(led)),
        Subscript::Parts {
            place: _,
            copies,
            arrays,
            components,
        } => {
            let mut rows = copies_left(alloc, copies, led.shape)?;
            push_singles(&mut rows, array_list(arrays, components), sizes_led(led))?;
            Ok(rows)
        }
    }
}

/// How many elements lie before those that a subscript chooses as several, 4,294,967,295 where there are more: the address lies so much further on.
#[tactic(auto, using(crate::proofs::Skipped::more_capped, hal_tree::proofs::MadeExpressions::made_unsubscripted, hal_tree::proofs::MadeExpressions::made_by_name, hal_tree::proofs::MadeExpressions::made_by_integer, hal_tree::proofs::MadeExpressions::made_by_parts), unfolding(crate::specs::SeenLed::seen_led))]
fn skips_led(subscript: &Subscript, led: Led<'_>, site: &Site<'_>) -> u32
    requires site { IsSite site.now }
    ensures { result ≡ min (leading.skips_led (seen_site site.now) (seen_subscript subscript.now) (seen_led led.entry)) 4294967295 }
{
    match subscript {
        Subscript::None => 0,
        Subscript::Name { .. } => 0,
        Subscript::Integer { .. } => 0,
        Subscript::Parts {
            place: _,
            copies,
            arrays,
            components,
        } => {
            let skipped = copies_skipped(copies, led.shape, site);
            let places = array_list(arrays, components);
            skipped.saturating_add(places_of_array_skipped(places, sizes_led(led), site))
        }
    }
}

/// The first one of the elements to which they lead.
#[tactic(auto, unfolding(crate::specs::SeenLed::seen_led))]
pub fn first_led(led: Led<'_>) -> Element
    ensures { result ≡ leading.first_led (seen_led led.entry) }
{
    first_element(led.path, &led.shape.components)
}

/// The element so many elements further on.
fn moved(one: Element, skipped: u32) -> Element
    ensures { result ≡ leading.moved skipped one }
{
    Element {
        before: skipped.saturating_add(one.before),
        kind: one.kind,
    }
}

/// The address of what they lead to in these dimensions, so many elements further on, where a view leads to it.
#[tactic(auto, using(crate::proofs::Skipped::more_capped, crate::proofs::Capped::address_capped, crate::proofs::Capped::area_capped), unfolding(crate::specs::SeenLed::seen_led))]
fn addressed(
    site: &Site<'_>,
    aim: Aim,
    rows: &[Dimension],
    one: Element,
    led: Led<'_>,
) -> Option<Instr>
    requires site { IsSite site.now }
    ensures { result ≡ leading.addressed_from (seen_numbering site.now) (seen_site site.now) aim rows.now one (seen_led led.entry) }
{
    match aim {
        Aim::Cell => address_of(site, rows, led.declared, led.stored, one),
        Aim::Shape(shape) => area_of(site, rows, shape, led.declared, led.stored, one.before),
    }
}

/// The first element that a subscript chooses among those to which they lead.
pub fn first_chosen(subscript: &Subscript, led: Led<'_>, site: &Site<'_>) -> Element
    requires site { IsSite site.now }
    ensures { result ≡ leading.first_chosen (seen_site site.now) (seen_subscript subscript.now) (seen_led led.entry) }
{
    moved(first_led(led), skips_led(subscript, led, site))
}

/// The address of what a subscript chooses among them.
#[tactic(auto, using(crate::proofs::Skipped::address_from))]
fn aimed(
    site: &Site<'_>,
    aim: Aim,
    subscript: &Subscript,
    led: Led<'_>,
) -> Result<Option<Instr>, AllocError>
    requires site { IsSite site.now }
    ensures { IfOk result (λ address. address ≡ leading.aimed (seen_numbering site.now) (seen_site site.now) aim (seen_subscript subscript.now) (seen_led led.entry)) }
{
    let rows = rows_left(site.alloc, subscript, led)?;
    let one = first_chosen(subscript, led, site);
    Ok(addressed(site, aim, &rows, one, led))
}

/// The address of what they lead to without subscripts: a cell is the one element.
#[tactic(auto, using(crate::proofs::Capped::area_capped), unfolding(crate::specs::SeenLed::seen_led))]
pub(crate) fn plainly_aimed(site: &Site<'_>, aim: Aim, led: Led<'_>) -> Option<Instr>
    requires site { IsSite site.now }
    ensures { result ≡ leading.plainly_aimed (seen_numbering site.now) (seen_site site.now) aim (seen_led led.entry) }
{
    match aim {
        Aim::Cell => element_of(site, led.path, led.declared, led.stored, led.shape),
        Aim::Shape(shape) => {
            let one = first_led(led);
            area_of(site, &[], shape, led.declared, led.stored, one.before)
        }
    }
}

/// Adds the address of what subscripts choose among them, behind the code of these subscripts.
pub(crate) fn emit_address(
    code: &mut Vec<Instr>,
    site: &Site<'_>,
    place: Place,
    aim: Aim,
    subscript: &Subscript,
    led: Led<'_>,
) -> Result<(), Uncoded>
    requires site { IsSite site.now }
    ensures { Emits (codes.address_code (seen_numbering site.now) (seen_site site.now) code.old.items place aim (seen_subscript subscript.now) (seen_led led.entry)) result code.new.items }
{
    match aimed(site, aim, subscript, led)? {
        None => Err(Uncoded::At(place)),
        Some(address) => emit_one(code, place, address),
    }
}
