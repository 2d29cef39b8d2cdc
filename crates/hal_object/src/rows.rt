//! The rows of an image's tables, both ways.

ghost use Rattle.std.specs.Prelude.{◌≡◌, ◌↔◌, ◌++◌, ◌∷◌, ◌<◌, ◌^◌, IsTrue, OnOk, IfOk, length, flat_map};
ghost use Rattle.hal_object.specs.Numbers.{in_four, list_bytes, AreFew};
ghost use Rattle.hal_object.specs.Choices.{choice_bytes, FitsChoice, start_code};
ghost use Rattle.hal_object.specs.Rows.{run_bytes, FitsRun, process_bytes, FitsProcess, base_bytes, FitsBase, dimension_bytes, FitsDimension, target_bytes, FitsTarget, view_bytes, FitsView, item_bytes, FitsItem, block_bytes, FitsBlock, named_bytes, elements_bytes, name_bytes, FitsName};
ghost use Rattle.hal_object.specs.Fields.{Gives, four_at, list_at};
ghost use Rattle.hal_object.specs.Reading.{choice_at, all_starts, run_at, process_at, base_behind, base_at, dimension_at, dimensions_of, dimensions_at, target_at, view_at, item_at, block_at, named_at, long_text_at, sizes_at, name_at};

use crate::choices::{has_byte, result_byte, result_of, start_byte, start_of};
use crate::fault::ReadFault;
use crate::fits::{fits_eight, fits_four, fits_named, fits_one, fits_target, fits_text, fits_two};
use crate::kinds::{kind_of, write_kind, write_text};
use crate::numbers::{
    byte_of, eight_of, four_of, front_of, put_eight, put_four, put_two, text_of, two_of,
};
use crate::row::{Row, has_list_bytes, have_bytes, list_of, rows_of, write_list, write_rows};
use hal_code::{Base, Block, Choice, Dimension, Process, Run, Target, View};
use hal_values::{EventStart, Item, Listing, ReportBase, ReportName};
use std::alloc::{AllocError, Global};

impl Row for u32 {
    ghost at = { four_at };

    ghost spelling = { in_four };

    ghost fits = { λ n. n < 2 ^ 32 };

    fn has_bytes(&self) -> bool {
        fits_four(*self);
        true
    }

    fn read(alloc: Global, bytes: &[u8]) -> Result<(u32, &[u8]), ReadFault> {
        four_of(bytes)
    }

    fn write(&self, into: &mut Vec<u8>) -> Result<(), AllocError> {
        put_four(*self, into)
    }
}

impl Row for Choice<EventStart> {
    ghost at = { choice_at all_starts };

    ghost spelling = { choice_bytes start_code };

    ghost fits = { FitsChoice 3 };

    fn has_bytes(&self) -> bool {
        has_byte(*self, 3)
    }

    fn read(alloc: Global, bytes: &[u8]) -> Result<(Choice<EventStart>, &[u8]), ReadFault> {
        start_of(bytes)
    }

    fn write(&self, into: &mut Vec<u8>) -> Result<(), AllocError> {
        into.push(start_byte(*self))?;
        Ok(())
    }
}

impl<T: Row> Row for Run<T> {
    ghost at = { run_at T.at };

    ghost spelling = { run_bytes T.spelling };

    ghost fits = { FitsRun T.fits };

    fn has_bytes(&self) -> bool {
        fits_four(self.repeat);
        self.row.has_bytes()
    }

    fn read(alloc: Global, bytes: &[u8]) -> Result<(Run<T>, &[u8]), ReadFault> {
        let (repeat, rest) = four_of(bytes)?;
        let (row, rest) = T::read(alloc, rest)?;
        Ok((Run { repeat, row }, rest))
    }

    fn write(&self, into: &mut Vec<u8>) -> Result<(), AllocError> {
        put_four(self.repeat, into)?;
        self.row.write(into)
    }
}

impl<T: Row> Row for Listing<T> {
    ghost at = { list_at T.at };

    ghost spelling = { list_bytes T.spelling };

    ghost fits = { AreFew (2 ^ 32) T.fits };

    fn has_bytes(&self) -> bool {
        has_list_bytes(self)
    }

    fn read(alloc: Global, bytes: &[u8]) -> Result<(Listing<T>, &[u8]), ReadFault> {
        list_of(alloc, bytes)
    }

    fn write(&self, into: &mut Vec<u8>) -> Result<(), AllocError> {
        write_list(self, into)
    }
}

impl Row for Process {
    ghost at = { process_at };

    ghost spelling = { process_bytes };

    ghost fits = { FitsProcess };

    fn has_bytes(&self) -> bool {
        fits_text(&self.name);
        fits_four(self.block);
        has_list_bytes(&self.places)
    }

    #[tactic(auto, unfolding(crate::specs::Reading::process_at))]
    fn read(alloc: Global, bytes: &[u8]) -> Result<(Process, &[u8]), ReadFault> {
        let (name, rest) = text_of(bytes)?;
        let (block, rest) = four_of(rest)?;
        let (places, rest) = list_of(alloc, rest)?;
        Ok((
            Process {
                name,
                block,
                places,
            },
            rest,
        ))
    }

    fn write(&self, into: &mut Vec<u8>) -> Result<(), AllocError> {
        write_text(&self.name, into)?;
        put_four(self.block, into)?;
        write_list(&self.places, into)
    }
}

/// Where a view begins, behind the byte that says which base it has.
#[tactic(auto, unfolding(crate::specs::Reading::base_behind))]
fn base_behind_of(base: u8, bytes: &[u8]) -> Result<(Base, &[u8]), ReadFault>
    ensures { Gives (λ x. (x.0, x.1.now)) result (base_behind base bytes.now) }
{
    let (number, rest) = four_of(bytes)?;
    match base {
        0 => Ok((Base::Shared(number), rest)),
        1 => Ok((Base::Own(number), rest)),
        2 => {
            let (offset, rest) = four_of(rest)?;
            Ok((
                Base::Through {
                    place: number,
                    offset,
                },
                rest,
            ))
        }
        _ => Ok((Base::Other { base, number }, rest)),
    }
}

/// Where a view begins.
#[tactic(auto, unfolding(crate::specs::Reading::base_at))]
fn base_of(bytes: &[u8]) -> Result<(Base, &[u8]), ReadFault>
    ensures { Gives (λ x. (x.0, x.1.now)) result (base_at bytes.now) }
{
    let (base, rest) = byte_of(bytes)?;
    base_behind_of(base, rest)
}

/// Whether where a view begins has bytes: a base that is kept as it stands is none of the three.
fn has_base_bytes(base: Base) -> bool
    ensures { IsTrue result ↔ FitsBase base }
{
    match base {
        Base::Other { base, .. } => 3 <= base,
        _ => true,
    }
}

/// The bytes of where a view begins, behind others.
fn write_base(base: Base, into: &mut Vec<u8>) -> Result<(), AllocError>
    ensures { OnOk result (into.new.items ≡ into.old.items ++ base_bytes base) }
{
    match base {
        Base::Shared(number) => {
            into.push(0)?;
            put_four(number, into)
        }
        Base::Own(number) => {
            into.push(1)?;
            put_four(number, into)
        }
        Base::Through { place, offset } => {
            into.push(2)?;
            put_four(place, into)?;
            put_four(offset, into)
        }
        Base::Other { base, number } => {
            into.push(base)?;
            put_four(number, into)
        }
    }
}

impl Row for Dimension {
    ghost at = { dimension_at };

    ghost spelling = { dimension_bytes };

    ghost fits = { FitsDimension };

    fn has_bytes(&self) -> bool {
        fits_four(self.size);
        fits_four(self.stride);
        true
    }

    #[tactic(auto, unfolding(crate::specs::Reading::dimension_at))]
    fn read(alloc: Global, bytes: &[u8]) -> Result<(Dimension, &[u8]), ReadFault> {
        let (size, rest) = four_of(bytes)?;
        let (stride, rest) = four_of(rest)?;
        Ok((Dimension { size, stride }, rest))
    }

    fn write(&self, into: &mut Vec<u8>) -> Result<(), AllocError> {
        put_four(self.size, into)?;
        put_four(self.stride, into)
    }
}

/// The dimensions of a view, of which there are four at most.
#[tactic(auto, unfolding(crate::specs::Reading::dimensions_at, crate::specs::Reading::dimensions_of))]
fn dimensions_in(alloc: Global, bytes: &[u8]) -> Result<(Listing<Dimension>, &[u8]), ReadFault>
    ensures { Gives (λ x. (x.0, x.1.now)) result (dimensions_at bytes.now) }
{
    let (count, rest) = byte_of(bytes)?;
    if count >= 5 {
        return Err(ReadFault::NotImage);
    }
    rows_of(alloc, u64::from(count), rest)
}

/// What a view gives.
#[tactic(auto, unfolding(crate::specs::Reading::target_at))]
fn target_of(bytes: &[u8]) -> Result<(Target, &[u8]), ReadFault>
    ensures { Gives (λ x. (x.0, x.1.now)) result (target_at bytes.now) }
{
    let (target, rest) = byte_of(bytes)?;
    match target {
        0 => {
            let (kind, rest) = kind_of(rest)?;
            Ok((Target::Cell(kind), rest))
        }
        1 => {
            let (shape, rest) = four_of(rest)?;
            Ok((Target::Shape(shape), rest))
        }
        _ => Err(ReadFault::NotImage),
    }
}

/// The bytes of what a view gives, behind others.
fn write_target(target: Target, into: &mut Vec<u8>) -> Result<(), AllocError>
    ensures { OnOk result (into.new.items ≡ into.old.items ++ target_bytes target) }
{
    match target {
        Target::Cell(kind) => {
            into.push(0)?;
            write_kind(kind, into)
        }
        Target::Shape(shape) => {
            into.push(1)?;
            put_four(shape, into)
        }
    }
}

impl Row for View {
    ghost at = { view_at };

    ghost spelling = { view_bytes };

    ghost fits = { FitsView };

    fn has_bytes(&self) -> bool {
        fits_target(self.target);
        let dimensions = self.dimensions.as_slice();
        has_base_bytes(self.base) && dimensions.len() < 5 && have_bytes(dimensions)
    }

    #[tactic(auto, unfolding(crate::specs::Reading::view_at))]
    fn read(alloc: Global, bytes: &[u8]) -> Result<(View, &[u8]), ReadFault> {
        let (base, rest) = base_of(bytes)?;
        let (dimensions, rest) = dimensions_in(alloc, rest)?;
        let (target, rest) = target_of(rest)?;
        Ok((
            View {
                base,
                dimensions,
                target,
            },
            rest,
        ))
    }

    fn write(&self, into: &mut Vec<u8>) -> Result<(), AllocError> {
        write_base(self.base, into)?;
        let dimensions = self.dimensions.as_slice();
        into.push(dimensions.len() as u8)?;
        write_rows(dimensions, into)?;
        write_target(self.target, into)
    }
}

impl Row for Item {
    ghost at = { item_at };

    ghost spelling = { item_bytes };

    ghost fits = { FitsItem };

    fn has_bytes(&self) -> bool {
        match self {
            Item::Event(event) => {
                fits_two(*event);
                true
            }
            Item::Not | Item::And | Item::Or => true,
        }
    }

    #[tactic(auto, unfolding(crate::specs::Reading::item_at))]
    fn read(alloc: Global, bytes: &[u8]) -> Result<(Item, &[u8]), ReadFault> {
        let (item, rest) = byte_of(bytes)?;
        match item {
            0 => {
                let (event, rest) = two_of(rest)?;
                Ok((Item::Event(event), rest))
            }
            1 => Ok((Item::Not, rest)),
            2 => Ok((Item::And, rest)),
            3 => Ok((Item::Or, rest)),
            _ => Err(ReadFault::NotImage),
        }
    }

    fn write(&self, into: &mut Vec<u8>) -> Result<(), AllocError> {
        match self {
            Item::Event(event) => {
                into.push(0)?;
                put_two(*event, into)?;
            }
            Item::Not => into.push(1)?,
            Item::And => into.push(2)?,
            Item::Or => into.push(3)?,
        }
        Ok(())
    }
}

impl Row for Block {
    ghost at = { block_at };

    ghost spelling = { block_bytes };

    ghost fits = { FitsBlock };

    fn has_bytes(&self) -> bool {
        fits_one(self.process);
        fits_eight(self.first);
        fits_eight(self.end);
        has_byte(self.result, 4)
    }

    #[tactic(auto, unfolding(crate::specs::Reading::block_at))]
    fn read(alloc: Global, bytes: &[u8]) -> Result<(Block, &[u8]), ReadFault> {
        let (process, rest) = byte_of(bytes)?;
        let (first, rest) = eight_of(rest)?;
        let (end, rest) = eight_of(rest)?;
        let (result, rest) = result_of(rest)?;
        Ok((
            Block {
                process,
                first,
                end,
                result,
            },
            rest,
        ))
    }

    fn write(&self, into: &mut Vec<u8>) -> Result<(), AllocError> {
        into.push(self.process)?;
        put_eight(self.first, into)?;
        put_eight(self.end, into)?;
        into.push(result_byte(self.result))?;
        Ok(())
    }
}

/// Where the elements of a report's name lie.
#[tactic(auto, unfolding(crate::specs::Reading::named_at))]
fn named_of(bytes: &[u8]) -> Result<(ReportBase, &[u8]), ReadFault>
    ensures { Gives (λ x. (x.0, x.1.now)) result (named_at bytes.now) }
{
    let (base, rest) = byte_of(bytes)?;
    match base {
        0 => Ok((ReportBase::Shared, rest)),
        1 => {
            let (process, rest) = byte_of(rest)?;
            Ok((ReportBase::Own(process), rest))
        }
        2 => Ok((ReportBase::Event, rest)),
        _ => Err(ReadFault::NotImage),
    }
}

/// The bytes of where the elements of a report's name lie, behind others.
fn write_named(base: ReportBase, into: &mut Vec<u8>) -> Result<(), AllocError>
    ensures { OnOk result (into.new.items ≡ into.old.items ++ named_bytes base) }
{
    match base {
        ReportBase::Shared => into.push(0)?,
        ReportBase::Own(process) => into.extend_from_slice(&[1, process])?,
        ReportBase::Event => into.push(2)?,
    }
    Ok(())
}

/// A text behind two bytes for its length.
#[tactic(auto, unfolding(crate::specs::Reading::long_text_at))]
fn long_text_of(alloc: Global, bytes: &[u8]) -> Result<(Listing<u8>, &[u8]), ReadFault>
    ensures { Gives (λ x. (x.0, x.1.now)) result (long_text_at bytes.now) }
{
    let (count, rest) = two_of(bytes)?;
    let (text, rest) = front_of(usize::from(count), rest)?;
    let text = Vec::from_slice(alloc, text)?;
    Ok((Listing::new(text), rest))
}

/// The sizes of dimensions.
#[tactic(auto, unfolding(crate::specs::Reading::sizes_at))]
fn sizes_of(alloc: Global, bytes: &[u8]) -> Result<(Listing<u32>, &[u8]), ReadFault>
    ensures { Gives (λ x. (x.0, x.1.now)) result (sizes_at bytes.now) }
{
    let (count, rest) = byte_of(bytes)?;
    rows_of(alloc, u64::from(count), rest)
}

/// The bytes of where the elements of a report's name lie behind its base, behind others.
fn write_elements(name: &ReportName, into: &mut Vec<u8>) -> Result<(), AllocError>
    requires { FitsName name.now }
    ensures { OnOk result (into.new.items ≡ into.old.items ++ elements_bytes name.now) }
{
    put_four(name.first, into)?;
    put_four(name.copies, into)?;
    put_four(name.stride, into)?;
    let dimensions = name.dimensions.as_slice();
    into.push(dimensions.len() as u8)?;
    write_rows(dimensions, into)
}

impl Row for ReportName {
    ghost at = { name_at };

    ghost spelling = { name_bytes };

    ghost fits = { FitsName };

    fn has_bytes(&self) -> bool {
        fits_named(self.base);
        fits_four(self.first);
        fits_four(self.copies);
        fits_four(self.stride);
        let dimensions = self.dimensions.as_slice();
        self.name.as_slice().len() < 65_536 && dimensions.len() < 256 && have_bytes(dimensions)
    }

    #[tactic(auto, unfolding(crate::specs::Reading::name_at))]
    fn read(alloc: Global, bytes: &[u8]) -> Result<(ReportName, &[u8]), ReadFault> {
        let (name, rest) = long_text_of(alloc, bytes)?;
        let (base, rest) = named_of(rest)?;
        let (first, rest) = four_of(rest)?;
        let (copies, rest) = four_of(rest)?;
        let (stride, rest) = four_of(rest)?;
        let (dimensions, rest) = sizes_of(alloc, rest)?;
        Ok((
            ReportName {
                name,
                base,
                first,
                copies,
                stride,
                dimensions,
            },
            rest,
        ))
    }

    fn write(&self, into: &mut Vec<u8>) -> Result<(), AllocError> {
        let name = self.name.as_slice();
        put_two(name.len() as u16, into)?;
        into.extend_from_slice(name)?;
        write_named(self.base, into)?;
        write_elements(self, into)
    }
}
