//! What an instruction takes from the stack and leaves there. The answer is whether the stack fits; where it doesn't, what is left there says nothing.

ghost use Rattle.std.specs.Prelude.{◌≡◌, slice_get, Some, IfOk};
ghost use Rattle.std.specs.Option.{option_map, option_and_then};
ghost use Rattle.hal_code.specs.Effects.{giving, integers_taken, value_taken, viewed_sorts, fetched_sorts, peeked_sorts, kept_sorts, doubled_sorts, one_sorts, two_sorts, length_sorts, places_taken, picked_sorts, patched_sorts, bits_taken, called_sorts, result_taken, returned_sorts, next_sorts};
ghost use Rattle.hal_verify.specs.SeenSorts.{seen_sort, seen_stack, left_where};

use crate::sort::Sort;
use crate::sorts::{
    has_places, is_value, one_gives, same_value, sort_of, sort_of_result, sort_of_target, takes,
    takes_part, two_give,
};
use crate::stack::Stack;
use hal_code::{Block, Choice, Places, ResultKind, View};
use hal_operations::{Op1, Op2};
use std::alloc::AllocError;

impl Stack {
    /// One is put on top, which always fits.
    pub(crate) fn give(&mut self, sort: Sort) -> Result<bool, AllocError>
        ensures { IfOk result (λ fits. left_where fits (seen_stack self.new) ≡ giving (Some (seen_sort sort)) (seen_stack self.old)) }
    {
        self.push(sort)?;
        Ok(true)
    }

    /// One is put on top, where it is there.
    fn give_some(&mut self, sort: Option<Sort>) -> Result<bool, AllocError>
        ensures { IfOk result (λ fits. left_where fits (seen_stack self.new) ≡ giving (option_map seen_sort sort) (seen_stack self.old)) }
    {
        match sort {
            None => Ok(false),
            Some(sort) => self.give(sort),
        }
    }

    /// An integer is taken.
    fn take_integer(&mut self) -> bool
        ensures { left_where result (seen_stack self.new) ≡ integers_taken 1 (seen_stack self.old) }
    {
        match self.pop() {
            Some(Sort::Integer) => true,
            _ => false,
        }
    }

    /// So many integers are taken.

    pub(crate) fn take_integers(&mut self, count: usize) -> bool
        ensures { left_where result (seen_stack self.new) ≡ integers_taken count (seen_stack self.old) }
    {
        let mut left = count;
        while let Some(fewer) = left.checked_sub(1) {
            if !self.take_integer() {
                return false;
            }
            left = fewer;
        }
        true
    }

    /// A value is taken.
    pub(crate) fn take_value(&mut self) -> bool
        ensures { left_where result (seen_stack self.new) ≡ value_taken (seen_stack self.old) }
    {
        match self.pop() {
            None => false,
            Some(one) => is_value(one),
        }
    }

    /// Integers for the dimensions of a view give its address.
    fn view_one(&mut self, view: &View) -> Result<bool, AllocError>
        ensures { IfOk result (λ fits. left_where fits (seen_stack self.new) ≡ viewed_sorts (Some view.now) (seen_stack self.old)) }
    {
        if self.take_integers(view.dimensions.as_slice().len()) {
            self.give(sort_of_target(view.target))
        } else {
            Ok(false)
        }
    }

    /// CELL and WHOLE of the view with this number.
    pub(crate) fn view(&mut self, views: &[View], view: u32) -> Result<bool, AllocError>
        ensures { IfOk result (λ fits. left_where fits (seen_stack self.new) ≡ viewed_sorts (slice_get views.now view) (seen_stack self.old)) }
    {
        match views.get(view as usize) {
            None => Ok(false),
            Some(view) => self.view_one(view),
        }
    }

    /// FETCH.
    pub(crate) fn fetch(&mut self) -> Result<bool, AllocError>
        ensures { IfOk result (λ fits. left_where fits (seen_stack self.new) ≡ fetched_sorts (seen_stack self.old)) }
    {
        match self.pop() {
            Some(Sort::Address(kind)) => self.give(sort_of(kind)),
            _ => Ok(false),
        }
    }

    /// PEEK.
    pub(crate) fn peek(&mut self) -> Result<bool, AllocError>
        ensures { IfOk result (λ fits. left_where fits (seen_stack self.new) ≡ peeked_sorts (seen_stack self.old)) }
    {
        match self.pop() {
            Some(Sort::Address(kind)) => {
                self.push(Sort::Address(kind))?;
                self.give(sort_of(kind))
            }
            _ => Ok(false),
        }
    }

    /// KEEP.
    pub(crate) fn keep(&mut self) -> bool
        ensures { left_where result (seen_stack self.new) ≡ kept_sorts (seen_stack self.old) }
    {
        match (self.pop(), self.pop()) {
            (Some(Sort::Address(kind)), Some(one)) => takes(kind, one),
            _ => false,
        }
    }

    /// DUP.
    pub(crate) fn double(&mut self) -> Result<bool, AllocError>
        ensures { IfOk result (λ fits. left_where fits (seen_stack self.new) ≡ doubled_sorts (seen_stack self.old)) }
    {
        match self.pop() {
            None => Ok(false),
            Some(one) => {
                self.push(one)?;
                self.push(one)?;
                Ok(is_value(one))
            }
        }
    }

    /// OP1.
    pub(crate) fn one(&mut self, op: Choice<Op1>) -> Result<bool, AllocError>
        ensures { IfOk result (λ fits. left_where fits (seen_stack self.new) ≡ one_sorts op (seen_stack self.old)) }
    {
        match (op, self.pop()) {
            (Choice::Known(op), Some(one)) => self.give_some(one_gives(op, one)),
            _ => Ok(false),
        }
    }

    /// OP2.
    pub(crate) fn two(&mut self, op: Choice<Op2>) -> Result<bool, AllocError>
        ensures { IfOk result (λ fits. left_where fits (seen_stack self.new) ≡ two_sorts op (seen_stack self.old)) }
    {
        match (op, self.pop(), self.pop()) {
            (Choice::Known(op), Some(right), Some(left)) => self.give_some(two_give(
                op, left, right,
            )),
            _ => Ok(false),
        }
    }

    /// LEN of the value so deep below the top.
    pub(crate) fn measure(&mut self, depth: u8) -> Result<bool, AllocError>
        ensures { IfOk result (λ fits. left_where fits (seen_stack self.new) ≡ length_sorts (slice_get (seen_stack self.old) depth) (seen_stack self.old)) }
    {
        match self.at(usize::from(depth)) {
            None => Ok(false),
            Some(one) => {
                self.push(Sort::Integer)?;
                Ok(has_places(one))
            }
        }
    }

    /// The integers that choose places are taken.
    fn take_places(&mut self, chosen: Choice<Places>) -> bool
        ensures { left_where result (seen_stack self.new) ≡ places_taken chosen (seen_stack self.old) }
    {
        match chosen {
            Choice::Known(Places::One) => self.take_integers(1),
            Choice::Known(Places::To) => self.take_integers(2),
            Choice::Known(Places::At) => self.take_integers(2),
            Choice::Other(_) => false,
        }
    }

    /// A part of what lies on top takes its place.
    fn pick_part(&mut self) -> Result<bool, AllocError>
        ensures { IfOk result (λ fits. left_where fits (seen_stack self.new) ≡ picked_sorts (seen_stack self.old)) }
    {
        match self.pop() {
            None => Ok(false),
            Some(one) => {
                self.push(one)?;
                Ok(has_places(one))
            }
        }
    }

    /// PICK.
    pub(crate) fn pick(&mut self, chosen: Choice<Places>) -> Result<bool, AllocError>
        ensures { IfOk result (λ fits. left_where fits (seen_stack self.new) ≡ option_and_then picked_sorts (places_taken chosen (seen_stack self.old))) }
    {
        if self.take_places(chosen) {
            self.pick_part()
        } else {
            Ok(false)
        }
    }

    /// A value with a part replaced comes below the address.
    fn patch_part(&mut self) -> Result<bool, AllocError>
        ensures { IfOk result (λ fits. left_where fits (seen_stack self.new) ≡ patched_sorts (seen_stack self.old)) }
    {
        match (self.pop(), self.pop(), self.pop()) {
            (Some(old), Some(Sort::Address(kind)), Some(new)) => {
                self.push(sort_of(kind))?;
                self.push(Sort::Address(kind))?;
                Ok(takes_part(kind, old, new))
            }
            _ => Ok(false),
        }
    }

    /// PATCH.
    pub(crate) fn patch(&mut self, chosen: Choice<Places>) -> Result<bool, AllocError>
        ensures { IfOk result (λ fits. left_where fits (seen_stack self.new) ≡ option_and_then patched_sorts (places_taken chosen (seen_stack self.old))) }
    {
        if self.take_places(chosen) {
            self.patch_part()
        } else {
            Ok(false)
        }
    }

    /// A string of bits is taken.
    pub(crate) fn take_bits(&mut self) -> bool
        ensures { left_where result (seen_stack self.new) ≡ bits_taken (seen_stack self.old) }
    {
        match self.pop() {
            Some(Sort::Bits) => true,
            _ => false,
        }
    }

    /// What a block gives is put on top.
    fn give_result(&mut self, block: &Block) -> Result<bool, AllocError>
        ensures { IfOk result (λ fits. left_where fits (seen_stack self.new) ≡ called_sorts (Some block.now) (seen_stack self.old)) }
    {
        match block.result {
            Choice::Other(_) => Ok(false),
            Choice::Known(kind) => match sort_of_result(kind) {
                None => Ok(true),
                Some(one) => self.give(one),
            },
        }
    }

    /// CALL of the block with this number.
    pub(crate) fn call(&mut self, blocks: &[Block], callee: u32) -> Result<bool, AllocError>
        ensures { IfOk result (λ fits. left_where fits (seen_stack self.new) ≡ called_sorts (slice_get blocks.now callee) (seen_stack self.old)) }
    {
        match blocks.get(callee as usize) {
            None => Ok(false),
            Some(block) => self.give_result(block),
        }
    }

    /// A block's result is taken.
    fn take_result(&mut self, wanted: Option<Sort>) -> bool
        ensures { left_where result (seen_stack self.new) ≡ result_taken (option_map seen_sort wanted) (seen_stack self.old) }
    {
        match wanted {
            None => true,
            Some(wanted) => match self.pop() {
                None => false,
                Some(one) => same_value(wanted, one),
            },
        }
    }

    /// RETURN.
    pub(crate) fn give_back(&mut self, result_kind: Choice<ResultKind>) -> bool
        ensures { left_where result (seen_stack self.new) ≡ returned_sorts result_kind (seen_stack self.old) }
    {
        match result_kind {
            Choice::Known(kind) => self.take_result(sort_of_result(kind)),
            Choice::Other(_) => false,
        }
    }

    /// NEXT.
    pub(crate) fn next(&mut self) -> Result<bool, AllocError>
        ensures { IfOk result (λ fits. left_where fits (seen_stack self.new) ≡ next_sorts (seen_stack self.old)) }
    {
        match (self.pop(), self.pop(), self.pop()) {
            (Some(Sort::Integer), Some(Sort::Integer), Some(Sort::Integer)) => {
                self.push(Sort::Integer)?;
                self.give(Sort::Bits)
            }
            _ => Ok(false),
        }
    }
}
