//! How control goes through a block, by its notes: jumps, UPDATE blocks, and the block's beginning and end.

ghost use Rattle.std.specs.Prelude.{◌≡◌, ◌<◌, length, slice_get};
ghost use Rattle.hal_code.specs.Flow.{same_part, is_inside, is_turn_over};
ghost use Rattle.hal_code.specs.Right.{stands_inside, stands_outside, stands_right, frames_right, is_last};
ghost use Rattle.hal_verify.specs.Noting.{begins_in, entry_noted, leads_noted, jump_noted, jumps_noted, ends_noted, instr_noted, first_noted};
ghost use Rattle.hal_verify.specs.SeenBodies.{seen_body};

use crate::body::Body;
use crate::note::Note;
use crate::noting::part_next;
use crate::worldly::is_kept_out;
use hal_code::{Choice, Instr, Response};

/// Whether two instructions stand in the same UPDATE block, or outside of all.
fn same_part(one: Option<usize>, other: Option<usize>) -> bool
    ensures { result ≡ same_part one other }
{
    match (one, other) {
        (None, None) => true,
        (Some(one), Some(other)) => one == other,
        _ => false,
    }
}

/// Whether an instruction stands inside an UPDATE block.
fn is_inside(part: Option<usize>) -> bool
    ensures { result ≡ is_inside part }
{
    match part {
        None => false,
        Some(_) => true,
    }
}

/// Whether a statement begins at an instruction that may be there, in this UPDATE block or outside of all.
fn begins_in(part: Option<usize>, there: Option<Note>) -> bool
    ensures { result ≡ begins_in part there }
{
    match there {
        None => false,
        Some(note) => note.depth == 0 && same_part(part, note.part),
    }
}

/// Whether an instruction is a TURN whose own target is behind an address.
fn is_turn_over(at: u64, instr: &Instr) -> bool
    ensures { result ≡ is_turn_over at instr.now }
{
    match instr {
        Instr::Turn(target) => at < *target,
        _ => false,
    }
}

/// Whether an instruction goes away from its block's end.
fn is_last(instr: &Instr) -> bool
    ensures { result ≡ is_last instr.now }
{
    match instr {
        Instr::Jump(_) | Instr::Return | Instr::Finish => true,
        _ => false,
    }
}

/// Whether an instruction may stand outside UPDATE blocks.
fn stands_outside(instr: &Instr) -> bool
    ensures { result ≡ stands_outside instr.now }
{
    match instr {
        Instr::Close => false,
        _ => true,
    }
}

/// Whether an instruction may frame the code of a block, of a process or of none, at its beginning or behind it.
fn frames_right(of_process: bool, first: bool, instr: &Instr) -> bool
    ensures { result ≡ frames_right of_process first instr.now }
{
    match instr {
        Instr::Begin => of_process && first,
        Instr::Finish => of_process && !first,
        Instr::Return => !of_process,
        _ => !(of_process && first),
    }
}

impl Body<'_> {
    /// Whether a statement begins at an address of the block, in this UPDATE block or outside of all.
    fn is_entry(&self, part: Option<usize>, target: u64) -> bool
        ensures { result ≡ entry_noted (seen_body self.now) part target }
    {
        let first = self.block.first;
        if target < first || self.block.end <= target {
            return false;
        }
        begins_in(part, self.notes.get((target - first) as usize).copied())
    }

    /// Whether a jump goes on, or back to a TURN that leads on.
    fn leads_on(&self, at: u64, target: u64) -> bool
        ensures { result ≡ leads_noted (seen_body self.now) at target }
    {
        if at < target {
            return true;
        }
        match self
            .code
            .get(target.saturating_sub(self.block.first) as usize)
        {
            None => false,
            Some(instr) => is_turn_over(at, instr),
        }
    }

    /// Whether a jump is right before which so many operands stand.
    fn jump_right(&self, at: u64, depth: usize, part: Option<usize>, target: u64) -> bool
        ensures { result ≡ jump_noted (seen_body self.now) at depth part target }
    {
        depth == 0 && self.is_entry(part, target) && self.leads_on(at, target)
    }

    /// Whether an instruction jumps to where it may, if it does.
    fn jumps_right(&self, at: u64, note: Note, instr: &Instr) -> bool
        ensures { result ≡ jumps_noted (seen_body self.now) at note instr.now }
    {
        match instr {
            Instr::Jump(target) => self.jump_right(at, note.depth, note.part, *target),
            Instr::JumpNot(target) => {
                self.jump_right(at, note.depth.saturating_sub(1), note.part, *target)
            }
            Instr::Turn(target) => {
                note.depth == 0 && self.is_entry(note.part, *target) && at < *target
            }
            Instr::Input {
                channel: _,
                kind: _,
                target,
            } => self.jump_right(at, note.depth, note.part, *target),
            Instr::On {
                group: _,
                number: _,
                response: Choice::Known(Response::Statement),
                change: _,
                event: _,
                target,
            } => self.is_entry(note.part, *target),
            _ => true,
        }
    }

    /// Whether an instruction may stand inside UPDATE blocks.
    fn stands_inside(&self, instr: &Instr) -> bool
        ensures { result ≡ stands_inside self.now.outward.now instr.now }
    {
        match instr {
            Instr::Call(callee) => match self.outward.get(*callee as usize) {
                None => true,
                Some(outward) => !*outward,
            },
            _ => !is_kept_out(instr),
        }
    }

    /// Whether an instruction may stand inside UPDATE blocks or outside, as it does.
    fn stands_right(&self, inside: bool, instr: &Instr) -> bool
        ensures { result ≡ stands_right self.now.outward.now inside instr.now }
    {
        if inside {
            self.stands_inside(instr)
        } else {
            stands_outside(instr)
        }
    }

    /// Whether the block may end behind an instruction, where it does.
    fn ends_right(&self, number: usize, note: Note, instr: &Instr) -> bool
        requires { number < length self.now.code.now }
        ensures { result ≡ ends_noted (seen_body self.now) number note instr.now }
    {
        if number + 1 == self.code.len() {
            is_last(instr) && !is_inside(part_next(number, instr, note.part))
        } else {
            true
        }
    }

    /// Whether the instruction with this number in the block is right.
    fn instr_right(&self, number: usize, note: Note, instr: &Instr) -> bool
        requires { number < length self.now.code.now }
        ensures { result ≡ instr_noted (seen_body self.now) number note instr.now }
    {
        note.fits
            && self.jumps_right(self.block.first + number as u64, note, instr)
            && self.stands_right(is_inside(note.part), instr)
            && frames_right(self.of_process, number == 0, instr)
            && self.ends_right(number, note, instr)
    }

    /// What was noted of the instruction with this number.
    fn note(&self, number: usize) -> Option<Note>
        ensures { result ≡ slice_get self.now.notes.now number }
    {
        self.notes.get(number).copied()
    }

    /// The first instruction of the block that isn't right.
    pub(crate) fn first_wrong(&self) -> Option<u64>
        ensures { result ≡ first_noted (seen_body self.now) 0 self.now.code.now }
    {
        for (number, instr) in self.code.iter().enumerate() {
            match self.note(number) {
                None => return None,
                Some(note) => {
                    if !self.instr_right(number, note, instr) {
                        return Some(self.block.first + number as u64);
                    }
                }
            }
        }
        None
    }
}
