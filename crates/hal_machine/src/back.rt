//! Where calls go on.

ghost use Rattle.std.specs.Prelude.{◌≡◌, ◌≤◌, [], map, vec_capacity, IfOk};
ghost use Rattle.std.specs.Bool.{OnTrue};
ghost use Rattle.hal_code.specs.Controlling.{zero_of};
ghost use Rattle.hal_machine.specs.Blocks.{Gives, IsPlain};
ghost use Rattle.hal_machine.specs.Stacks.{stack_seen, return_seen, back_seen};

use crate::operands::Operands;
use hal_code::{Choice, ResultKind};
use std::alloc::{AllocError, Global};

/// Where a call goes on, and the result that is wanted of it.
#[derive(Drop)]
pub struct Return {
    pub at: usize,
    pub operands: Operands,
    pub line: Vec<u8>,
    pub result: Choice<ResultKind>,
}

impl Return {
    /// A block that is called with no operands and no line goes on there. It takes no memory.
    #[inline(always)]
    pub(crate) fn plain(alloc: Global, at: usize, wanted: Choice<ResultKind>) -> Return
        ensures place { result.at ≡ at }
        ensures stack { stack_seen result.operands ≡ [] }
        ensures line { result.line.items ≡ [] }
        ensures wanted { result.result ≡ wanted }
    {
        Return {
            at,
            operands: Operands::new(alloc),
            line: Vec::new(alloc),
            result: wanted,
        }
    }

    /// Whether a value is wanted.
    #[inline(always)]
    pub(crate) fn wants_value(&self) -> bool
        ensures { Gives result (zero_of self.now.result) }
    {
        match self.result {
            Choice::Known(ResultKind::Nothing) => false,
            Choice::Known(ResultKind::Integer) => true,
            Choice::Known(ResultKind::Bits) => true,
            Choice::Known(ResultKind::Text) => true,
            Choice::Other(_) => false,
        }
    }

    /// Whether there are no operands and no line.
    #[inline(always)]
    pub(crate) fn is_plain(&self) -> bool
        ensures { OnTrue result (IsPlain self.now.at (return_seen self.now)) }
    {
        self.operands.is_empty() && self.line.as_slice().is_empty()
    }

    /// The same once more.
    fn copy(&self, alloc: Global) -> Result<Return, AllocError>
        ensures { IfOk result (λ copy. return_seen copy ≡ return_seen self.now) }
    {
        Ok(Return {
            at: self.at,
            operands: self.operands.copy(alloc)?,
            line: Vec::from_slice(alloc, self.line.as_slice())?,
            result: self.result,
        })
    }
}

/// Where a call goes on, if it does, once more.
fn back_of(alloc: Global, back: &Option<Return>) -> Result<Option<Return>, AllocError>
    ensures { IfOk result (λ copy. back_seen copy ≡ back_seen back.now) }
{
    match back {
        None => Ok(None),
        Some(back) => Ok(Some(back.copy(alloc)?)),
    }
}

/// The same of some, with at least this room.
pub(crate) fn backs_of(
    alloc: Global,
    room: usize,
    backs: &[Option<Return>],
) -> Result<Vec<Option<Return>>, AllocError>
    ensures same { IfOk result (λ copy. map back_seen copy.items ≡ map back_seen backs.now) }
    ensures room { IfOk result (λ copy. room ≤ vec_capacity copy) }
{
    let mut copy = Vec::with_capacity(alloc, room)?;
    for back in backs {
        copy.push(back_of(alloc, back)?)?;
    }
    Ok(copy)
}
