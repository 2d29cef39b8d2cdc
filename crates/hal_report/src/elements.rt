//! The elements that a report shows.

ghost use Rattle.std.specs.Prelude.{◌≡◌, ◌++◌, ◌<◌, ◌==◌, ◌+◌, ◌*◌, [], ◌∷◌, ℕ, Some, OnOk, IfOk, map, flat_map, length};
ghost use Rattle.std.specs.List.{range_with_len};
ghost use Rattle.hal_report.specs.Arrays.{AreArrays, IsArray};
ghost use Rattle.hal_values.specs.ReportElements.{size_of, places, joined, subscript, copy_number, element, copy_elements, same_base, is_of_structure, structure_rest, structure_elements, elements_in};

use hal_values::{Listing, ReportBase, ReportName};
use std::alloc::{AllocError, Global};
use std::marker::Model;

/// An element that the report shows: what its line calls it, where it lies, and its number there.
#[derive(Drop)]
pub struct Shown {
    pub(crate) label: Listing<u8>,
    pub(crate) base: ReportBase,
    pub(crate) number: usize,
}

impl Model for Shown {
    ghost use Rattle.hal_values.specs.ReportElements.{Element};

    ghost Value = { Element };

    ghost view = { λ shown. record { label = shown.label; base = shown.base; number = shown.number } };
}

impl Shown {
    ghost use Rattle.std.specs.Prelude.{◌≡◌};

    /// Where it lies.
    pub fn base(&self) -> ReportBase
        ensures { result ≡ self.now.base }
    {
        self.base
    }

    /// Its number there.
    pub fn number(&self) -> usize
        ensures { result ≡ self.now.number }
    {
        self.number
    }
}

/// How many elements an array of these dimensions has.
#[tactic(auto, using(crate::proofs::Sizes::rest_is))]
fn size_of(dimensions: &[u32]) -> u32
    requires { IsArray dimensions.now }
    ensures { result ≡ size_of dimensions.now }
{
    match dimensions {
        [] => 1,
        [dimension, others @ ..] => {
            if *dimension > 0 {
                *dimension * size_of(others)
            } else {
                0
            }
        }
    }
}

/// Adds the places of the element of this number, counted from 1.
#[tactic(auto, using(crate::proofs::Sizes::rest_there, crate::proofs::Sizes::some_there))]
fn add_places(found: &mut Vec<u32>, dimensions: &[u32], number: u32) -> Result<(), AllocError>
    requires array { IsArray dimensions.now }
    requires within { number < size_of dimensions.now }
    ensures { OnOk result (found.new.items ≡ found.old.items ++ places dimensions.now number) }
{
    match dimensions {
        [] => Ok(()),
        [_, others @ ..] => {
            let size = size_of(others);
            found.push(number / size + 1)?;
            add_places(found, others, number % size)
        }
    }
}

/// Adds numbers with commas between.
#[tactic(auto, using(crate::proofs::Joined::joined_none, crate::proofs::Joined::joined_one, crate::proofs::Joined::joined_more))]
fn add_joined(alloc: Global, text: &mut Vec<u8>, numbers: &[u32]) -> Result<(), AllocError>
    ensures { OnOk result (text.new.items ≡ text.old.items ++ joined numbers.now) }
{
    let Some((number, others)) = numbers.split_first() else {
        return Ok(());
    };
    if others.is_empty() {
        let digits = format!(in alloc; "{number}")?;
        text.extend_from_slice(digits.as_bytes())?;
        return Ok(());
    }
    let digits = format!(in alloc; "{number},")?;
    text.extend_from_slice(digits.as_bytes())?;
    add_joined(alloc, text, others)?;
    Ok(())
}

/// Adds the subscript of a copy, counted from 1, and of places.
fn add_subscript(
    alloc: Global,
    text: &mut Vec<u8>,
    copy: Option<u64>,
    places: &[u32],
) -> Result<(), AllocError>
    ensures { OnOk result (text.new.items ≡ text.old.items ++ subscript copy places.now) }
{
    match copy {
        None => {
            if places.is_empty() {
                return Ok(());
            }
            text.extend_from_slice(b"$(")?;
            add_joined(alloc, text, places)?;
            text.extend_from_slice(b")")?;
            Ok(())
        }
        Some(copy) => {
            let head = format!(in alloc; "$({copy};")?;
            text.extend_from_slice(head.as_bytes())?;
            add_joined(alloc, text, places)?;
            text.extend_from_slice(b")")?;
            Ok(())
        }
    }
}

/// The copy, counted from 1.
fn copy_number(copy: Option<u32>) -> Option<u64>
    ensures { result ≡ copy_number copy }
{
    match copy {
        None => None,
        Some(copy) => Some(u64::from(copy) + 1),
    }
}

/// The number of an element. The sum of such products is below 2^64 for any four numbers.
fn number_of(first: u32, copy: u32, stride: u32, number: u32) -> usize
    ensures { result ≡ first + (copy * stride + number) }
{
    first as usize + (copy as usize * stride as usize + number as usize)
}

/// The element of a name at a copy, counted from 0, and at a number within it.
fn element(
    alloc: Global,
    named: &ReportName,
    copy: Option<u32>,
    number: u32,
) -> Result<Shown, AllocError>
    requires array { IsArray named.now.dimensions }
    requires within { number < size_of named.now.dimensions }
    ensures { IfOk result (λ shown. shown ≡ element named.now copy number) }
{
    let mut places = Vec::new(alloc);
    add_places(&mut places, named.dimensions.as_slice(), number)?;
    let mut label = Vec::new(alloc);
    label.extend_from_slice(named.name.as_slice())?;
    add_subscript(alloc, &mut label, copy_number(copy), places.as_slice())?;
    let number = number_of(named.first, copy.unwrap_or(0), named.stride, number);
    Ok(Shown {
        label: Listing::new(label),
        base: named.base,
        number,
    })
}

/// Adds the elements of a name at a copy.
fn add_copy(
    alloc: Global,
    shown: &mut Vec<Shown>,
    copy: Option<u32>,
    named: &ReportName,
) -> Result<(), AllocError>
    requires { IsArray named.now.dimensions }
    ensures { OnOk result (shown.new.items ≡ shown.old.items ++ copy_elements copy named.now) }
{
    let size = size_of(named.dimensions.as_slice());
    'numbers: for number in 0..size {
        shown.push(element(alloc, named, copy, number)?)?;
    }
    Ok(())
}

/// Adds the elements of a structure's names at a copy.
fn add_names(
    alloc: Global,
    shown: &mut Vec<Shown>,
    copy: u32,
    names: &[ReportName],
) -> Result<(), AllocError>
    requires { AreArrays names.now }
    ensures { OnOk result (shown.new.items ≡ shown.old.items ++ flat_map (copy_elements (Some copy)) names.now) }
{
    for named in names {
        add_copy(alloc, shown, Some(copy), named)?;
    }
    Ok(())
}

/// Adds the elements of a structure's names, copy by copy.
fn add_structure(
    alloc: Global,
    shown: &mut Vec<Shown>,
    copies: u32,
    names: &[ReportName],
) -> Result<(), AllocError>
    requires { AreArrays names.now }
    ensures { OnOk result (shown.new.items ≡ shown.old.items ++ structure_elements copies names.now) }
{
    'copies: for copy in 0..copies {
        add_names(alloc, shown, copy, names)?;
    }
    Ok(())
}

fn is_same_base(one: ReportBase, other: ReportBase) -> bool
    ensures { result ≡ same_base one other }
{
    match (one, other) {
        (ReportBase::Shared, ReportBase::Shared) => true,
        (ReportBase::Own(p), ReportBase::Own(o)) => p == o,
        (ReportBase::Event, ReportBase::Event) => true,
        _ => false,
    }
}

/// Whether the name is of the structure that begins with the first one.
fn is_of_structure(head: &ReportName, named: &ReportName) -> bool
    ensures { result ≡ is_of_structure head.now named.now }
{
    is_same_base(head.base, named.base)
        && (head.copies == named.copies && head.stride == named.stride)
        && (head.first <= named.first
            && u64::from(named.first) < u64::from(head.first) + u64::from(head.stride))
}

/// How many of the names that follow are of the structure.
fn structure_rest(head: &ReportName, names: &[ReportName]) -> usize
    ensures { result ≡ structure_rest head.now names.now }
{
    match names {
        [] => 0,
        [named, others @ ..] => {
            if is_of_structure(head, named) {
                1 + structure_rest(head, others)
            } else {
                0
            }
        }
    }
}

/// The elements that these names give, in their order.
pub fn elements_of(alloc: Global, names: &[ReportName]) -> Result<Vec<Shown>, AllocError>
    requires { AreArrays names.now }
    ensures { IfOk result (λ shown. shown.items ≡ elements_in (length names.now) names.now) }
{
    let mut shown = Vec::new(alloc);
    let mut rest = names;
    'names: while let Some((named, others)) = rest.split_first() {
        if named.copies == 0 {
            add_copy(alloc, &mut shown, None, named)?;
            rest = others;
        } else {
            let count = structure_rest(named, others) + 1;
            let (within, after) = rest.split_at(count);
            add_structure(alloc, &mut shown, named.copies, within)?;
            rest = after;
        }
    }
    Ok(shown)
}
