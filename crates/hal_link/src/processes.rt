//! The code of processes.

ghost use Rattle.std.specs.Prelude.{◌≡◌, ◌++◌, ◌∷◌, [], IfOk, OnOk};
ghost use Rattle.hal_tree.specs.SeenUnits.{seen_head};
ghost use Rattle.hal_storage.specs.sets.SeenBodies.{seen_body};
ghost use Rattle.hal_gen_expr.specs.Emits.{Emits};
ghost use Rattle.hal_gen_expr.specs.SeenSites.{lent_place, seen_site, seen_numbering, IsSite};
ghost use Rattle.hal_gen.specs.SeenLocks.{AreGroups};
ghost use Rattle.hal_meaning.specs.Calls as calls;
ghost use Rattle.hal_link.specs.Links.{Links};
ghost use Rattle.hal_link.specs.Linking as linking;
ghost use Rattle.hal_link.specs.ProcessCode as codes;

use crate::members::{elements_size, emit_elements};
use crate::unlinked::Unlinked;
use hal_code::{Block, Choice, Instr, ResultKind};
use hal_gen::{Exits, Leaving, Locks};
use hal_gen_expr::{Site, Uncoded, push};
use hal_storage::sets::Body;
use hal_tree::Head;
use std::alloc::AllocError;

/// Where FINISH of a process stands, whose BEGIN is the next instruction.
#[tactic(auto, using(crate::proofs::Coded::statements_listed))]
fn finish_of(code: &[Instr], site: &Site<'_>, body: &Body<'_>) -> Result<usize, AllocError>
    requires site { IsSite site.now }
    ensures { IfOk result (λ finish. finish ≡ codes.finish_of (seen_numbering site.now) (seen_site site.now) code.now (seen_body body.now).statements) }
{
    let size = elements_size(&body.unit.elements, site)?;
    let Some(behind) = code.len().checked_add(1) else {
        return Err(AllocError);
    };
    match behind.checked_add(size) {
        None => Err(AllocError),
        Some(finish) => Ok(finish),
    }
}

/// Adds the code of a process: BEGIN, its statements, and FINISH.
#[tactic(auto, using(crate::proofs::Coded::statements_listed))]
fn emit_process(
    code: &mut Vec<Instr>,
    site: &Site<'_>,
    locks: &Locks<'_>,
    body: &Body<'_>,
) -> Result<(), Uncoded>
    requires site { IsSite site.now }
    requires locks { AreGroups site.now locks.now }
    ensures { Emits (codes.process_code (seen_numbering site.now) (seen_site site.now) code.old.items (seen_body body.now).statements) result code.new.items }
{
    let finish = finish_of(code, site, body)?;
    push(code, Instr::Begin)?;
    let exits = Exits::of_body(site.alloc, Leaving::ToFinish(finish));
    emit_elements(&body.unit.elements, code, site, locks, &exits)?;
    push(code, Instr::Finish)?;
    Ok(())
}

/// Whether a head is that of a FUNCTION.
#[tactic(auto, using(hal_tree::proofs::MadeUnits::made_program, hal_tree::proofs::MadeUnits::made_compool, hal_tree::proofs::MadeUnits::made_task, hal_tree::proofs::MadeUnits::made_procedure, hal_tree::proofs::MadeUnits::made_function))]
pub(crate) fn is_function(head: &Head) -> bool
    ensures { result ≡ calls.is_function (seen_head head.now) }
{
    match head {
        Head::Program { .. } => false,
        Head::Compool { .. } => false,
        Head::Task { .. } => false,
        Head::Procedure { .. } => false,
        Head::Function { .. } => true,
    }
}

/// The block of a process: from one instruction to another.
fn process_block(process: u8, first: usize, end: usize) -> Block
    ensures { result ≡ linking.process_block process first end }
{
    Block {
        process,
        first: first as u64,
        end: end as u64,
        result: Choice::Known(ResultKind::Nothing),
    }
}

/// Adds a block.
pub(crate) fn push_block(blocks: &mut Vec<Block>, block: Block) -> Result<(), AllocError>
    ensures { OnOk result (blocks.new.items ≡ blocks.old.items ++ (block ∷ [])) }
{
    blocks.push(block)?;
    Ok(())
}

/// Adds the code and the block of the process with this number, which stands at this site.
#[tactic(auto, using(crate::proofs::Coded::head_listed))]
pub(crate) fn link_process_at(
    code: &mut Vec<Instr>,
    blocks: &mut Vec<Block>,
    site: &Site<'_>,
    locks: &Locks<'_>,
    process: u8,
    body: &Body<'_>,
) -> Result<(), Unlinked>
    requires site { IsSite site.now }
    requires locks { AreGroups site.now locks.now }
    ensures { Links (linking.with_process_at (seen_numbering site.now) (seen_site site.now) process (linking.linked code.old.items blocks.old.items) (seen_body body.now)) result code.new.items blocks.new.items }
{
    if is_function(&body.unit.head) {
        return Err(Unlinked::Lost);
    }
    let first = code.len();
    emit_process(code, site, locks, body)?;
    push_block(blocks, process_block(process, first, code.len()))?;
    Ok(())
}
