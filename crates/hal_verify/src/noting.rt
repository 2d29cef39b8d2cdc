//! What is noted of the instructions of a block: the stack before each, and the UPDATE block in which it stands.

ghost use Rattle.std.specs.Prelude.{◌≡◌, ◌&&◌, ◌++◌, ◌∷◌, [], None, length, IfOk, OnOk};
ghost use Rattle.hal_code.specs.Flow.{goes_away, part_next, sorts_next};
ghost use Rattle.hal_code.specs.Operands.{operands_right};
ghost use Rattle.hal_code.specs.Right.{stack_right};
ghost use Rattle.hal_verify.specs.Noting.{note_of, notes};
ghost use Rattle.hal_verify.specs.SeenSorts.{seen_stack};

use crate::note::Note;
use crate::scope::Scope;
use crate::stack::Stack;
use hal_code::Instr;
use std::alloc::AllocError;

/// Whether no instruction goes on behind this one with its operands.
fn goes_away(instr: &Instr) -> bool
    ensures { result ≡ goes_away instr.now }
{
    match instr {
        Instr::Jump(_) | Instr::Return | Instr::Finish => true,
        _ => false,
    }
}

/// The UPDATE block in which the next instruction stands.
pub(crate) fn part_next(number: usize, instr: &Instr, part: Option<usize>) -> Option<usize>
    ensures { result ≡ part_next number instr.now part }
{
    match instr {
        Instr::Open(_) => Some(number),
        Instr::Close => None,
        _ => part,
    }
}

impl Stack {
    /// The stack before the next instruction takes the place of that before this one. The answer is whether this one's own operands are right and the stack fits.
    fn step(&mut self, scope: &Scope<'_>, instr: &Instr) -> Result<bool, AllocError>
        ensures fits { IfOk result (λ fits. fits ≡ (operands_right scope.now.image.now scope.now.block.now scope.now.number instr.now && stack_right scope.now.image.now scope.now.block.now instr.now (seen_stack self.old))) }
        ensures next { OnOk result (seen_stack self.new ≡ sorts_next scope.now.image.now scope.now.block.now scope.now.number instr.now (seen_stack self.old)) }
    {
        let right = scope.operands_right(instr)?;
        let fits = self.act(scope, instr)?;
        if goes_away(instr) || !right || !fits {
            self.clear();
        }
        Ok(right && fits)
    }
}

/// What was noted so far, and what holds before the next instruction.
#[derive(Drop)]
struct Walk {
    notes: Vec<Note>,
    stack: Stack,
    part: Option<usize>,
}

impl Walk {
    /// Notes the next instruction.
    fn step(&mut self, scope: &Scope<'_>, instr: &Instr) -> Result<(), AllocError>
        ensures notes { OnOk result (self.new.notes.items ≡ self.old.notes.items ++ (note_of scope.now.image.now scope.now.block.now scope.now.number self.old.part instr.now (seen_stack self.old.stack) ∷ [])) }
        ensures part { OnOk result (self.new.part ≡ part_next (length self.old.notes.items) instr.now self.old.part) }
        ensures stack { OnOk result (seen_stack self.new.stack ≡ sorts_next scope.now.image.now scope.now.block.now scope.now.number instr.now (seen_stack self.old.stack)) }
    {
        let depth = self.stack.len();
        let part = self.part;
        let number = self.notes.len();
        let fits = self.stack.step(scope, instr)?;
        self.notes.push(Note { fits, depth, part })?;
        self.part = part_next(number, instr, part);
        Ok(())
    }
}

/// What is noted of the instructions of a block.
#[tactic(auto, using(crate::proofs::Notes::one_more, crate::proofs::Notes::none_left))]
pub(crate) fn notes_of(scope: &Scope<'_>, code: &[Instr]) -> Result<Vec<Note>, AllocError>
    ensures { IfOk result (λ list. list.items ≡ notes scope.now.image.now scope.now.block.now scope.now.number 0 code.now None []) }
{
    let mut walk = Walk {
        notes: Vec::new(scope.alloc),
        stack: Stack::new(scope.alloc),
        part: None,
    };
    for instr in code {
        walk.step(scope, instr)?;
    }
    Ok(walk.notes)
}
