//! When an instruction's own operands are right.

ghost use Rattle.std.specs.Prelude.{◌≡◌, ◌^◌, ◌&&◌, nat_le, nat_lt, slice_get, Some, IfOk};
ghost use Rattle.hal_code.specs.Operands.{is_known, is_process, is_start, is_round, is_limit, is_view_for, names_cell, names_shape, may_call, operands_right};

use crate::events::{
    Handler, is_declared, is_delay, is_event, is_handler, is_known, is_latched, is_limit, is_named,
    is_process, is_round, is_selector, is_start,
};
use crate::rooms::is_common;
use crate::scope::Scope;
use crate::sorts::{has_bits_below, is_kind};
use crate::viewing::{is_of_cell, is_own};
use hal_base::{BIT_LIMIT, CHANNEL_COUNT};
use hal_code::{Choice, Instr, Limit, Round, Start, View};
use std::alloc::AllocError;

/// Whether a string of bits is one.
fn is_string(len: u8, word: u32) -> bool
    ensures { result ≡ ((nat_le 1 len && nat_le len 32) && nat_lt word (2 ^ len)) }
{
    1 <= len && len <= BIT_LIMIT && has_bits_below(len, word)
}

/// What SCHEDULE says.
#[derive(Clone, Copy)]
struct Scheduled {
    process: u8,
    start: Start,
    priority: Choice<bool>,
    dependent: Choice<bool>,
    round: Round,
    limit: Limit,
}

impl Scope<'_> {
    /// Whether the block may name a view, which has this number: that of a common block uses common places alone.
    fn is_view_for(&self, number: u32, view: &View) -> Result<bool, AllocError>
        requires { slice_get self.now.image.now.views number ≡ Some view.now }
        ensures { IfOk result (λ right. right ≡ is_view_for self.now.image.now self.now.block.now view.now) }
    {
        if is_common(self.block) && is_own(view) {
            self.fits(number, view)
        } else {
            Ok(true)
        }
    }

    /// Whether the block may name the view with this number in CELL.
    fn names_cell(&self, view: u32) -> Result<bool, AllocError>
        ensures { IfOk result (λ right. right ≡ names_cell self.now.image.now self.now.block.now view) }
    {
        match self.image.views.as_slice().get(view as usize) {
            None => Ok(false),
            Some(one) if !is_of_cell(one) => Ok(false),
            Some(one) => self.is_view_for(view, one),
        }
    }

    /// The same in WHOLE.
    fn names_shape(&self, view: u32) -> Result<bool, AllocError>
        ensures { IfOk result (λ right. right ≡ names_shape self.now.image.now self.now.block.now view) }
    {
        match self.image.views.as_slice().get(view as usize) {
            None => Ok(false),
            Some(one) if is_of_cell(one) => Ok(false),
            Some(one) => self.is_view_for(view, one),
        }
    }

    /// Whether the block may call another one.
    fn may_call(&self, callee: u32) -> bool
        ensures { result ≡ may_call self.now.image.now self.now.block.now self.now.number callee }
    {
        match self.image.blocks.as_slice().get(callee as usize) {
            None => false,
            Some(one) => {
                (callee as usize) < self.number
                    && (is_common(one) || one.process == self.block.process)
            }
        }
    }

    /// Whether what SCHEDULE says is right.
    fn is_scheduled(&self, one: &Scheduled) -> bool
        ensures { result ≡ ((is_process self.now.image.now one.now.process && (is_start self.now.image.now one.now.start && is_known one.now.priority)) && (is_known one.now.dependent && (is_round one.now.round && is_limit self.now.image.now one.now.limit))) }
    {
        is_process(self.image, one.process)
            && is_start(self.image, one.start)
            && is_known(one.priority)
            && is_known(one.dependent)
            && is_round(one.round)
            && is_limit(self.image, one.limit)
    }

    /// Whether an instruction's own operands are right, in this block.
    pub(crate) fn operands_right(&self, instr: &Instr) -> Result<bool, AllocError>
        ensures { IfOk result (λ right. right ≡ operands_right self.now.image.now self.now.block.now self.now.number instr.now) }
    {
        match instr {
            Instr::Bits { len, word } => Ok(is_string(*len, *word)),
            Instr::Cell(view) => self.names_cell(*view),
            Instr::Whole(view) => self.names_shape(*view),
            Instr::Event(event) => Ok(is_event(self.image, *event)),
            Instr::Op1(op) => Ok(is_known(*op)),
            Instr::Op2(op) => Ok(is_known(*op)),
            Instr::Pick(chosen) => Ok(is_known(*chosen)),
            Instr::Patch(chosen) => Ok(is_known(*chosen)),
            Instr::Call(callee) => Ok(self.may_call(*callee)),
            Instr::On {
                group,
                number,
                response,
                change,
                event,
                target: _,
            } => Ok(is_handler(
                self.image,
                *group,
                *number,
                Handler {
                    response: *response,
                    change: *change,
                    event: *event,
                },
            )),
            Instr::Off { group, number } => Ok(is_selector(*group, *number)),
            Instr::Raise { group, number } => Ok(1 <= *group && 1 <= *number),
            Instr::Bind(place) => Ok(self.referred_shape(*place).is_some()),
            Instr::Copy(place) => Ok(self.has_place(*place)),
            Instr::Clear { place, count } => Ok(self.are_data(*place, *count)),
            Instr::Schedule {
                process,
                start,
                priority,
                dependent,
                round,
                limit,
            } => Ok(self.is_scheduled(&Scheduled {
                process: *process,
                start: *start,
                priority: *priority,
                dependent: *dependent,
                round: *round,
                limit: *limit,
            })),
            Instr::Cancel(process) => Ok(is_named(self.image, *process)),
            Instr::Terminate(process) => Ok(is_named(self.image, *process)),
            Instr::Wait(delay) => Ok(is_delay(self.image, *delay)),
            Instr::Signal(event) => Ok(is_declared(self.image, *event)),
            Instr::Set(event) => Ok(is_latched(self.image, *event)),
            Instr::Reset(event) => Ok(is_latched(self.image, *event)),
            Instr::Priority(process) => Ok(is_named(self.image, *process)),
            Instr::Print(channel) => Ok(*channel < CHANNEL_COUNT),
            Instr::Input {
                channel,
                kind,
                target: _,
            } => Ok(*channel < CHANNEL_COUNT && is_kind(*kind)),
            _ => Ok(true),
        }
    }
}
