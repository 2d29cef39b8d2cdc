//! Groups, loops and UPDATE blocks: their tests, where they begin, and where control goes from inside them.

ghost use Rattle.std.specs.Prelude.{◌≡◌, ◌+◌, ◌∷◌, [], suc, None, Some, IfOk, map};
ghost use Rattle.std.specs.Option.{option_map};
ghost use Rattle.hal_tree.specs.SeenExpressions.{seen_expression};
ghost use Rattle.hal_tree.specs.SeenLeaves.{seen_name};
ghost use Rattle.hal_tree.specs.SeenStatements.{seen_alternative, seen_group, seen_guard, seen_statement};
ghost use Rattle.hal_code.specs.declared.instr.Instr.TheVariants as instr;
ghost use Rattle.hal_meaning.specs.Statements.{label_name, update_groups};
ghost use Rattle.hal_agreement.specs.PlacedStatements as placed;
ghost use Rattle.hal_agreement.specs.Sites.{here_at};
ghost use Rattle.hal_gen_expr.specs.Emits.{Emits};
ghost use Rattle.hal_gen_expr.specs.Emitting as emitting;
ghost use Rattle.hal_gen_expr.specs.Numbering as numbers;
ghost use Rattle.hal_gen_expr.specs.SeenSites.{seen_site, seen_numbering, IsSite};
ghost use Rattle.hal_gen.specs.SeenExits.{seen_exits};
ghost use Rattle.hal_gen.specs.SeenLocks.{AreGroups};
ghost use Rattle.hal_gen.specs.Sizes as sizes;
ghost use Rattle.hal_gen.specs.StatementCode as codes;

use crate::exits::{Exits, Opened, again_of, exit_of};
use crate::locks::{Locks, groups_at};
use crate::marks::next;
use crate::sizes::{group_size, jump_size, statement_size, sum};
use hal_base::Place;
use hal_code::Instr;
use hal_gen_expr::{Site, Uncoded, emit_expression, emit_one, emit_two};
use hal_tree::{Expr, Group, Guard, Identifier, Statement};
use std::alloc::AllocError;

/// Adds a condition, behind which control goes on where it holds, and else to a target.
fn emit_condition(
    condition: &Expr,
    code: &mut Vec<Instr>,
    site: &Site<'_>,
    place: Place,
    target: usize,
) -> Result<(), Uncoded>
    requires site { IsSite site.now }
    ensures { Emits (codes.condition_code (seen_numbering site.now) (seen_site site.now) code.old.items place (seen_expression condition.now) target) result code.new.items }
{
    emit_expression(condition, code, site)?;
    emit_one(code, place, Instr::JumpNot(target as u64))
}

/// Adds the first test of a loop, from which control goes to its end: UNTIL isn't tested.
#[tactic(auto, using(hal_tree::proofs::MadeStatements::made_while, hal_tree::proofs::MadeStatements::made_until))]
pub(crate) fn emit_first_test(
    guard: &Guard,
    code: &mut Vec<Instr>,
    site: &Site<'_>,
    exit: usize,
) -> Result<(), Uncoded>
    requires site { IsSite site.now }
    ensures { Emits (codes.first_test_code (seen_numbering site.now) (seen_site site.now) code.old.items (seen_guard guard.now) exit) result code.new.items }
{
    match guard {
        Guard::While { place, condition } => emit_condition(condition, code, site, *place, exit),
        Guard::Until { .. } => Ok(()),
    }
}

/// Adds the test behind a turn of a loop, from which control goes to its TURN or to its end.
#[tactic(auto, using(hal_tree::proofs::MadeStatements::made_while, hal_tree::proofs::MadeStatements::made_until))]
pub(crate) fn emit_test(
    guard: &Guard,
    code: &mut Vec<Instr>,
    site: &Site<'_>,
    turn: usize,
    exit: usize,
) -> Result<(), Uncoded>
    requires site { IsSite site.now }
    ensures { Emits (codes.test_code (seen_numbering site.now) (seen_site site.now) code.old.items (seen_guard guard.now) turn exit) result code.new.items }
{
    match guard {
        Guard::While { place, condition } => {
            emit_expression(condition, code, site)?;
            emit_two(
                code,
                *place,
                Some(Instr::JumpNot(exit as u64)),
                Instr::Jump(turn as u64),
            )
        }
        Guard::Until { place, condition } => emit_condition(condition, code, site, *place, turn),
    }
}

/// Adds a jump, where there is a target.
fn emit_jump(code: &mut Vec<Instr>, place: Place, target: Option<usize>) -> Result<(), Uncoded>
    ensures { Emits (emitting.emit code.old.items place (codes.jump_to target)) result code.new.items }
{
    match target {
        None => Err(Uncoded::At(place)),
        Some(target) => emit_one(code, place, Instr::Jump(target as u64)),
    }
}

/// Adds EXIT (language document, Statements).
pub(crate) fn emit_exit(
    code: &mut Vec<Instr>,
    exits: &Exits<'_>,
    place: Place,
    label: &Option<Identifier>,
) -> Result<(), Uncoded>
    ensures { Emits (emitting.emit code.old.items place (codes.jump_to (placed.exit_of (seen_exits exits.now).groups (label_name (option_map seen_name label.now))))) result code.new.items }
{
    emit_jump(code, place, exit_of(&exits.groups, label))
}

/// Adds REPEAT (language document, Statements).
pub(crate) fn emit_again(
    code: &mut Vec<Instr>,
    exits: &Exits<'_>,
    place: Place,
    label: &Option<Identifier>,
) -> Result<(), Uncoded>
    ensures { Emits (emitting.emit code.old.items place (codes.jump_to (placed.again_of (seen_exits exits.now).groups (label_name (option_map seen_name label.now))))) result code.new.items }
{
    emit_jump(code, place, again_of(&exits.groups, label))
}

/// Where control goes from inside a group without turns whose code begins there; before its statements the next mark has this number.
pub(crate) fn in_group<'a>(
    exits: &Exits<'a>,
    labels: &'a [Identifier],
    group: &Group,
    site: &Site<'_>,
    mark: usize,
    begin: usize,
) -> Result<Exits<'a>, AllocError>
    requires site { IsSite site.now }
    ensures { IfOk result (λ inner. seen_exits inner ≡ placed.within_group (placed.opened (map seen_name labels.now) (begin + sizes.group_size (seen_numbering site.now) (seen_site site.now) mark (seen_group group.now)) None) (seen_exits exits.now)) }
{
    let exit = sum(begin, group_size(group, site, mark)?)?;
    exits.within(
        site.alloc,
        Opened {
            labels,
            exit,
            again: None,
        },
    )
}

/// Where control goes from inside a DO CASE whose end stands there.
pub(crate) fn in_cases<'a>(
    exits: &Exits<'a>,
    labels: &'a [Identifier],
    site: &Site<'_>,
    exit: usize,
) -> Result<Exits<'a>, AllocError>
    ensures { IfOk result (λ inner. seen_exits inner ≡ placed.within_group (placed.opened (map seen_name labels.now) exit None) (seen_exits exits.now)) }
{
    exits.within(
        site.alloc,
        Opened {
            labels,
            exit,
            again: None,
        },
    )
}

/// The same of a loop whose TURN stands there, and whose end there.
pub(crate) fn in_loop<'a>(
    exits: &Exits<'a>,
    labels: &'a [Identifier],
    group: &Group,
    site: &Site<'_>,
    mark: usize,
    turn: usize,
    exit: usize,
) -> Result<Exits<'a>, AllocError>
    requires site { IsSite site.now }
    ensures { IfOk result (λ inner. seen_exits inner ≡ placed.within_group (placed.opened (map seen_name labels.now) exit (Some (suc turn + sizes.group_size (seen_numbering site.now) (seen_site site.now) mark (seen_group group.now)))) (seen_exits exits.now)) }
{
    let again = sum(next(turn)?, group_size(group, site, mark)?)?;
    exits.within(
        site.alloc,
        Opened {
            labels,
            exit,
            again: Some(again),
        },
    )
}

/// Where the code behind a consequence begins, with the jump over what stands after ELSE, if the test before it stands there.
pub(crate) fn other_branch(
    consequence: &Statement,
    alternative: &Option<Box<Statement>>,
    site: &Site<'_>,
    mark: usize,
    test: usize,
) -> Result<usize, AllocError>
    requires site { IsSite site.now }
    ensures { IfOk result (λ other. other ≡ suc test + (sizes.statement_size (seen_numbering site.now) (seen_site site.now) mark (seen_statement consequence.now) + sizes.jump_size (seen_alternative alternative.now))) }
{
    let size = sum(
        statement_size(consequence, site, mark)?,
        jump_size(alternative),
    )?;
    sum(next(test)?, size)
}

/// Adds the beginning of the UPDATE block of the mark with this number (language document, Lock groups).
pub(crate) fn emit_open(
    code: &mut Vec<Instr>,
    site: &Site<'_>,
    locks: &Locks<'_>,
    place: Place,
    mark: usize,
) -> Result<(), Uncoded>
    requires locks { AreGroups site.now locks.now }
    ensures { Emits (emitting.emit code.old.items place (option_map (λ groups. instr.Open groups ∷ []) (numbers.below 65536 (update_groups (here_at (seen_site site.now)) mark)))) result code.new.items }
{
    let groups = groups_at(locks, mark);
    emit_one(code, place, Instr::Open(groups))
}
