//! The stack after each instruction.

ghost use Rattle.std.specs.Prelude.{◌≡◌, IfOk};
ghost use Rattle.hal_code.specs.Effects.{bound_sorts, copied_sorts, sorts_after};
ghost use Rattle.hal_verify.specs.SeenSorts.{seen_stack, left_where};

use crate::scope::Scope;
use crate::sort::Sort;
use crate::sorts::sort_of;
use crate::stack::Stack;
use hal_code::Instr;
use std::alloc::AllocError;

impl Stack {
    /// BIND.
    fn bind(&mut self, scope: &Scope<'_>, place: u32) -> bool
        ensures { left_where result (seen_stack self.new) ≡ bound_sorts scope.now.image.now scope.now.block.now place (seen_stack self.old) }
    {
        match self.pop() {
            Some(Sort::Area(shape)) => match scope.referred_shape(place) {
                None => false,
                Some(wanted) => wanted == shape,
            },
            _ => false,
        }
    }

    /// COPY.
    fn copy(&mut self, scope: &Scope<'_>, place: u32) -> bool
        ensures { left_where result (seen_stack self.new) ≡ copied_sorts scope.now.image.now scope.now.block.now place (seen_stack self.old) }
    {
        match self.pop() {
            Some(Sort::Area(shape)) => scope.has_shape(place, shape),
            _ => false,
        }
    }

    /// An instruction of a block. The answer is whether the stack fits; where it doesn't, what is left there says nothing.
    pub(crate) fn act(&mut self, scope: &Scope<'_>, instr: &Instr) -> Result<bool, AllocError>
        ensures { IfOk result (λ fits. left_where fits (seen_stack self.new) ≡ sorts_after scope.now.image.now scope.now.block.now instr.now (seen_stack self.old)) }
    {
        match instr {
            Instr::Int(_) => self.give(Sort::Integer),
            Instr::Bits { .. } => self.give(Sort::Bits),
            Instr::Text(_) => self.give(Sort::Text),
            Instr::Cell(view) => self.view(scope.image.views.as_slice(), *view),
            Instr::Whole(view) => self.view(scope.image.views.as_slice(), *view),
            Instr::Fetch => self.fetch(),
            Instr::Peek => self.peek(),
            Instr::Keep => Ok(self.keep()),
            Instr::Dup => self.double(),
            Instr::Drop => Ok(self.take_value()),
            Instr::Event(_) => self.give(Sort::Bits),
            Instr::Op1(op) => self.one(*op),
            Instr::Op2(op) => self.two(*op),
            Instr::Len(depth) => self.measure(*depth),
            Instr::Pick(chosen) => self.pick(*chosen),
            Instr::Patch(chosen) => self.patch(*chosen),
            Instr::JumpNot(_) => Ok(self.take_bits()),
            Instr::Call(callee) => self.call(scope.image.blocks.as_slice(), *callee),
            Instr::Return => Ok(self.give_back(scope.block.result)),
            Instr::ErrGrp => self.give(Sort::Integer),
            Instr::ErrNum => self.give(Sort::Integer),
            Instr::Bind(place) => Ok(self.bind(scope, *place)),
            Instr::Copy(place) => Ok(self.copy(scope, *place)),
            Instr::Next => self.next(),
            Instr::Schedule {
                process: _,
                start,
                priority,
                dependent: _,
                round,
                limit,
            } => Ok(self.schedule(*start, *priority, *round, *limit)),
            Instr::Wait(delay) => Ok(self.wait(*delay)),
            Instr::Priority(_) => Ok(self.take_integers(1)),
            Instr::Item => Ok(self.take_value()),
            Instr::Input {
                channel: _,
                kind,
                target: _,
            } => self.give(sort_of(*kind)),
            Instr::Now => self.give(Sort::Integer),
            _ => Ok(true),
        }
    }
}
