//! The code of statements.

ghost use Rattle.std.specs.Prelude.{suc, map};
ghost use Rattle.std.specs.Option.{option_map};
ghost use Rattle.hal_tree.specs.Rows.{statements};
ghost use Rattle.hal_tree.specs.SeenLeaves.{seen_name};
ghost use Rattle.hal_tree.specs.SeenStatements.{seen_alternative, seen_basic, seen_group, seen_guard, seen_span, seen_statement};
ghost use Rattle.hal_meaning.specs.Marks as marks;
ghost use Rattle.hal_agreement.specs.PlacedStatements as placed;
ghost use Rattle.hal_gen_expr.specs.Emits.{Emits};
ghost use Rattle.hal_gen_expr.specs.SeenSites.{seen_site, seen_numbering, IsSite};
ghost use Rattle.hal_gen.specs.BlockExits as blocks;
ghost use Rattle.hal_gen.specs.SeenExits.{seen_exits};
ghost use Rattle.hal_gen.specs.SeenLocks.{AreGroups};
ghost use Rattle.hal_gen.specs.Sizes as sizes;
ghost use Rattle.hal_gen.specs.StatementCode as codes;

use crate::calls::emit_call;
use crate::channels::{emit_input, emit_output};
use crate::errors::{emit_entry, emit_off, emit_raise, emit_response};
use crate::events::{emit_event, emit_event_pause};
use crate::exits::{Exits, Leaving};
use crate::groups::{
    emit_again, emit_exit, emit_first_test, emit_open, emit_test, in_cases, in_group, in_loop,
    other_branch,
};
use crate::kept::{Cells, cell_of, cells_of, emit_case, push_keeping};
use crate::locks::Locks;
use crate::loops::{Spanned, emit_span_end, emit_span_start};
use crate::marks::{after_alternative, after_statement, next};
use crate::real_time::{Ask, emit_named};
use crate::receivers::emit_receivers;
use crate::returns::emit_return;
use crate::schedules::{emit_schedule, emit_update_priority};
use crate::sites::group_site;
use crate::sizes::{loop_size, selection_size, spanned_size, statement_size, sum};
use crate::times::{emit_wait, emit_wait_until};
use hal_base::Place;
use hal_code::{Delay, Instr};
use hal_gen_expr::{Site, Uncoded, emit_expression, emit_one, push};
use hal_tree::{Basic, Group, Guard, Identifier, Span, Statement};
use hal_words::Name;

/// A DO CASE.
#[derive(Clone, Copy)]
struct Selection {
    place: Place,
    /// The view of the own place that keeps its number.
    cell: u32,
    /// Where its code ends.
    end: usize,
}

/// A DO FOR, without its group.
#[derive(Clone, Copy)]
struct Range<'a> {
    labels: &'a [Identifier],
    place: Place,
    /// The views of its own places.
    cells: Cells,
    /// The name of its variable.
    name: &'a Name,
    span: &'a Span,
    guard: &'a Option<Guard>,
}

/// Adds the code of a statement before which the next mark has this number, or tells the place of the first part of it that has none yet (image document, Code
/// that stands for a set).
#[cycle(statements)]
#[tactic(auto, using(hal_tree::proofs::MadeStatements::made_statement))]
fn emit_statement<'a>(
    tree: &'a Statement,
    code: &mut Vec<Instr>,
    site: &Site<'_>,
    locks: &Locks<'_>,
    exits: &Exits<'a>,
    mark: usize,
) -> Result<(), Uncoded>
    requires site { IsSite site.now }
    requires locks { AreGroups site.now locks.now }
    ensures { Emits (codes.statement_code (seen_numbering site.now) (seen_site site.now) code.old.items (seen_exits exits.now) mark (seen_statement tree.now)) result code.new.items }
{
    emit_basic(&tree.basic, &tree.labels, code, site, locks, exits, mark)
}

/// Adds the code of statements one after another (image document, Code that stands for a set).
#[cycle(statements)]
#[tactic(auto, unfolding(hal_tree::specs::Rows::statements))]
fn emit_statements<'a>(
    list: &'a [Statement],
    code: &mut Vec<Instr>,
    site: &Site<'_>,
    locks: &Locks<'_>,
    exits: &Exits<'a>,
    mark: usize,
) -> Result<(), Uncoded>
    requires site { IsSite site.now }
    requires locks { AreGroups site.now locks.now }
    ensures { Emits (codes.statements_code (seen_numbering site.now) (seen_site site.now) code.old.items (seen_exits exits.now) mark (statements (map seen_statement list.now))) result code.new.items }
{
    let mut following = mark;
    for tree in list {
        emit_statement(tree, code, site, locks, exits, following)?;
        following = after_statement(tree, following)?;
    }
    Ok(())
}

/// Adds the code of a group.
#[cycle(statements)]
#[tactic(auto, using(hal_tree::proofs::MadeStatements::parts_of_group))]
fn emit_group<'a>(
    tree: &'a Group,
    code: &mut Vec<Instr>,
    site: &Site<'_>,
    locks: &Locks<'_>,
    exits: &Exits<'a>,
    mark: usize,
) -> Result<(), Uncoded>
    requires site { IsSite site.now }
    requires locks { AreGroups site.now locks.now }
    ensures { Emits (codes.group_code (seen_numbering site.now) (seen_site site.now) code.old.items (seen_exits exits.now) mark (seen_group tree.now)) result code.new.items }
{
    emit_statements(&tree.statements, code, site, locks, exits, mark)
}

/// Adds the code of what stands after ELSE, with a jump over it before it; before the consequence the next mark has this number.
#[cycle(statements)]
fn emit_alternative<'a>(
    tree: &'a Option<Box<Statement>>,
    consequence: &Statement,
    code: &mut Vec<Instr>,
    site: &Site<'_>,
    locks: &Locks<'_>,
    exits: &Exits<'a>,
    mark: usize,
) -> Result<(), Uncoded>
    requires site { IsSite site.now }
    requires locks { AreGroups site.now locks.now }
    ensures { Emits (codes.alternative_code (seen_numbering site.now) (seen_site site.now) code.old.items (seen_exits exits.now) (marks.after_statement mark (seen_statement consequence.now)) (seen_alternative tree.now)) result code.new.items }
{
    match tree {
        None => Ok(()),
        Some(statement) => {
            let following = after_statement(consequence, mark)?;
            let size = statement_size(statement, site, following)?;
            let end = sum(next(code.len())?, size)?;
            push(code, Instr::Jump(end as u64))?;
            emit_statement(statement, code, site, locks, exits, following)
        }
    }
}

/// Adds the code of a statement that stands directly in a block's body, where alone ON ERROR with a statement has code (language document, rule 903).
#[cycle(statements)]
#[tactic(auto, using(hal_tree::proofs::MadeStatements::made_statement, hal_tree::proofs::MadeStatements::made_on_error_statement))]
pub fn emit_direct<'a>(
    tree: &'a Statement,
    code: &mut Vec<Instr>,
    site: &Site<'_>,
    locks: &Locks<'_>,
    exits: &Exits<'a>,
    mark: usize,
) -> Result<(), Uncoded>
    requires site { IsSite site.now }
    requires locks { AreGroups site.now locks.now }
    ensures { Emits (codes.direct_code (seen_numbering site.now) (seen_site site.now) code.old.items (seen_exits exits.now) mark (seen_statement tree.now)) result code.new.items }
{
    match &tree.basic {
        Basic::OnErrorStatement {
            place,
            selector,
            handler,
        } => {
            let following = next(mark)?;
            let size = statement_size(handler, site, following)?;
            emit_entry(code, *place, *selector, size)?;
            emit_statement(handler, code, site, locks, exits, following)
        }
        _ => emit_basic(&tree.basic, &tree.labels, code, site, locks, exits, mark),
    }
}

/// Adds the code of the statements of a block's body one after another (image document, Code that stands for a set).
#[cycle(statements)]
#[tactic(auto, unfolding(hal_tree::specs::Rows::statements))]
fn emit_block<'a>(
    list: &'a [Statement],
    code: &mut Vec<Instr>,
    site: &Site<'_>,
    locks: &Locks<'_>,
    exits: &Exits<'a>,
    mark: usize,
) -> Result<(), Uncoded>
    requires site { IsSite site.now }
    requires locks { AreGroups site.now locks.now }
    ensures { Emits (codes.block_code (seen_numbering site.now) (seen_site site.now) code.old.items (seen_exits exits.now) mark (statements (map seen_statement list.now))) result code.new.items }
{
    let mut following = mark;
    for tree in list {
        emit_direct(tree, code, site, locks, exits, following)?;
        following = after_statement(tree, following)?;
    }
    Ok(())
}

/// Adds the code of the statements of an UPDATE block.
#[cycle(statements)]
fn emit_updating(
    body: &Vec<Statement>,
    code: &mut Vec<Instr>,
    site: &Site<'_>,
    locks: &Locks<'_>,
    mark: usize,
) -> Result<(), Uncoded>
    requires site { IsSite site.now }
    requires locks { AreGroups site.now locks.now }
    ensures { Emits (codes.block_code (seen_numbering site.now) (seen_site site.now) code.old.items (blocks.of_body placed.NoReturn) (suc mark) (statements (map seen_statement body.now.items))) result code.new.items }
{
    let inner = Exits::of_body(site.alloc, Leaving::NoReturn);
    emit_block(body, code, site, locks, &inner, next(mark)?)
}

/// Adds the code of the statements of a DO CASE, each behind a test and before a jump to the end.
#[cycle(statements)]
#[tactic(auto, unfolding(hal_tree::specs::Rows::statements))]
fn emit_selected<'a>(
    list: &'a [Statement],
    selection: Selection,
    code: &mut Vec<Instr>,
    site: &Site<'_>,
    locks: &Locks<'_>,
    exits: &Exits<'a>,
    mark: usize,
) -> Result<(), Uncoded>
    requires site { IsSite site.now }
    requires locks { AreGroups site.now locks.now }
    ensures { Emits (codes.selected_code (seen_numbering site.now) (seen_site site.now) code.old.items (seen_exits exits.now) selection.place selection.cell selection.end mark 1 (statements (map seen_statement list.now))) result code.new.items }
{
    let mut following = mark;
    let mut number: usize = 1;
    for tree in list {
        let size = statement_size(tree, site, following)?;
        emit_case(code, selection.place, selection.cell, number, size)?;
        emit_statement(tree, code, site, locks, exits, following)?;
        push(code, Instr::Jump(selection.end as u64))?;
        following = after_statement(tree, following)?;
        number = next(number)?;
    }
    Ok(())
}

/// Adds the code of the group of a DO CASE.
#[cycle(statements)]
#[tactic(auto, using(hal_tree::proofs::MadeStatements::parts_of_group))]
fn emit_cases<'a>(
    tree: &'a Group,
    selection: Selection,
    code: &mut Vec<Instr>,
    site: &Site<'_>,
    locks: &Locks<'_>,
    exits: &Exits<'a>,
    mark: usize,
) -> Result<(), Uncoded>
    requires site { IsSite site.now }
    requires locks { AreGroups site.now locks.now }
    ensures { Emits (codes.cases_code (seen_numbering site.now) (seen_site site.now) code.old.items (seen_exits exits.now) selection.place selection.cell selection.end mark (seen_group tree.now)) result code.new.items }
{
    emit_selected(&tree.statements, selection, code, site, locks, exits, mark)
}

/// Adds what a DO CASE at this place does where its number selects no statement.
#[cycle(statements)]
fn emit_uncased<'a>(
    tree: &'a Option<Box<Statement>>,
    code: &mut Vec<Instr>,
    site: &Site<'_>,
    locks: &Locks<'_>,
    exits: &Exits<'a>,
    place: Place,
    mark: usize,
) -> Result<(), Uncoded>
    requires site { IsSite site.now }
    requires locks { AreGroups site.now locks.now }
    ensures { Emits (codes.uncased_code (seen_numbering site.now) (seen_site site.now) code.old.items (seen_exits exits.now) place mark (seen_alternative tree.now)) result code.new.items }
{
    match tree {
        None => emit_one(
            code,
            place,
            Instr::Raise {
                group: 1,
                number: 6,
            },
        ),
        Some(statement) => emit_statement(statement, code, site, locks, exits, mark),
    }
}

/// Adds the code of a DO FOR at the site of its group, before which the next mark has this number.
#[cycle(statements)]
fn emit_range<'a>(
    group: &'a Group,
    range: Range<'a>,
    code: &mut Vec<Instr>,
    site: &Site<'_>,
    locks: &Locks<'_>,
    exits: &Exits<'a>,
    mark: usize,
) -> Result<(), Uncoded>
    requires site { IsSite site.now }
    requires locks { AreGroups site.now locks.now }
    ensures { Emits (codes.spanned_code (seen_numbering site.now) (seen_site site.now) code.old.items (seen_exits exits.now) (map seen_name range.entry.labels.now) range.entry.place range.entry.name.now range.entry.cells (seen_span range.entry.span.now) (option_map seen_guard range.entry.guard.now) (sizes.group_size (seen_numbering site.now) (seen_site site.now) mark (seen_group group.now)) (λ start inner. codes.group_code (seen_numbering site.now) (seen_site site.now) start inner mark (seen_group group.now))) result code.new.items }
{
    let Range {
        labels,
        place,
        cells,
        name,
        span,
        guard,
    } = range;
    let exit = sum(code.len(), spanned_size(group, span, guard, site, mark)?)?;
    let spanned = Spanned { place, cells, exit };
    emit_span_start(span, guard, code, site, name, spanned)?;
    let turn = code.len();
    push(code, Instr::Turn(exit as u64))?;
    let inner = in_loop(exits, labels, group, site, mark, turn, exit)?;
    emit_group(group, code, site, locks, &inner, mark)?;
    emit_span_end(span, guard, code, site, name, spanned, turn)
}

/// Adds the code of a statement with these labels; those without code yet tell their place.
#[cycle(statements)]
#[tactic(auto, using(hal_tree::proofs::MadeStatements::made_null, hal_tree::proofs::MadeStatements::made_assignment, hal_tree::proofs::MadeStatements::made_if, hal_tree::proofs::MadeStatements::made_do, hal_tree::proofs::MadeStatements::made_do_case, hal_tree::proofs::MadeStatements::made_do_loop, hal_tree::proofs::MadeStatements::made_do_for, hal_tree::proofs::MadeStatements::made_exit, hal_tree::proofs::MadeStatements::made_repeat, hal_tree::proofs::MadeStatements::made_return, hal_tree::proofs::MadeStatements::made_call_statement, hal_tree::proofs::MadeStatements::made_read, hal_tree::proofs::MadeStatements::made_write, hal_tree::proofs::MadeStatements::made_update, hal_tree::proofs::MadeStatements::made_schedule_statement, hal_tree::proofs::MadeStatements::made_cancel, hal_tree::proofs::MadeStatements::made_terminate, hal_tree::proofs::MadeStatements::made_wait, hal_tree::proofs::MadeStatements::made_wait_until, hal_tree::proofs::MadeStatements::made_wait_for_dependent, hal_tree::proofs::MadeStatements::made_wait_for, hal_tree::proofs::MadeStatements::made_event, hal_tree::proofs::MadeStatements::made_update_priority, hal_tree::proofs::MadeStatements::made_on_error_statement, hal_tree::proofs::MadeStatements::made_on_error_response, hal_tree::proofs::MadeStatements::made_off_error, hal_tree::proofs::MadeStatements::made_send_error, crate::proofs::Grouped::locks_there))]
fn emit_basic<'a>(
    tree: &'a Basic,
    labels: &'a [Identifier],
    code: &mut Vec<Instr>,
    site: &Site<'_>,
    locks: &Locks<'_>,
    exits: &Exits<'a>,
    mark: usize,
) -> Result<(), Uncoded>
    requires site { IsSite site.now }
    requires locks { AreGroups site.now locks.now }
    ensures { Emits (codes.basic_code (seen_numbering site.now) (seen_site site.now) code.old.items (seen_exits exits.now) mark (map seen_name labels.now) (seen_basic tree.now)) result code.new.items }
{
    match tree {
        Basic::If {
            place: _,
            condition,
            consequence,
            alternative,
        } => {
            emit_expression(condition, code, site)?;
            let other = other_branch(consequence, alternative, site, mark, code.len())?;
            push(code, Instr::JumpNot(other as u64))?;
            emit_statement(consequence, code, site, locks, exits, mark)?;
            emit_alternative(alternative, consequence, code, site, locks, exits, mark)
        }
        Basic::Do { place: _, group } => {
            let following = next(mark)?;
            let inner = in_group(exits, labels, group, site, following, code.len())?;
            emit_group(group, code, site, locks, &inner, following)
        }
        Basic::DoCase {
            place,
            selector,
            alternative,
            group,
        } => {
            let Some(cell) = cell_of(site, mark, 0) else {
                return Err(Uncoded::At(*place));
            };
            let size = selection_size(group, selector, alternative, site, mark)?;
            let end = sum(code.len(), size)?;
            let inner = in_cases(exits, labels, site, end)?;
            let selection = Selection {
                place: *place,
                cell,
                end,
            };
            emit_expression(selector, code, site)?;
            push_keeping(code, cell)?;
            let following = after_alternative(alternative, next(mark)?)?;
            emit_cases(group, selection, code, site, locks, &inner, following)?;
            emit_uncased(alternative, code, site, locks, &inner, *place, next(mark)?)
        }
        Basic::DoLoop {
            place: _,
            guard,
            group,
        } => {
            let exit = sum(code.len(), loop_size(group, guard, site, mark)?)?;
            emit_first_test(guard, code, site, exit)?;
            let turn = code.len();
            push(code, Instr::Turn(exit as u64))?;
            let following = next(mark)?;
            let inner = in_loop(exits, labels, group, site, following, turn, exit)?;
            emit_group(group, code, site, locks, &inner, following)?;
            emit_test(guard, code, site, turn, exit)
        }
        Basic::DoFor {
            place,
            temporary,
            variable,
            span,
            guard,
            group,
        } => {
            let Some(cells) = cells_of(site, *temporary, mark) else {
                return Err(Uncoded::At(*place));
            };
            let inner = group_site(site, *temporary, mark);
            let range = Range {
                labels,
                place: *place,
                cells,
                name: &variable.name,
                span,
                guard,
            };
            emit_range(group, range, code, &inner, locks, exits, next(mark)?)
        }
        Basic::Update {
            place,
            body,
            close: _,
        } => {
            emit_open(code, site, locks, *place, mark)?;
            emit_updating(body, code, site, locks, mark)?;
            emit_one(code, *place, Instr::Close)
        }
        Basic::Null { place: _ } => Ok(()),
        Basic::Assignment {
            place,
            receivers,
            value,
        } => {
            emit_expression(value, code, site)?;
            emit_receivers(receivers, code, site, *place)
        }
        Basic::Exit { place, label } => emit_exit(code, exits, *place, label),
        Basic::Repeat { place, label } => emit_again(code, exits, *place, label),
        Basic::Return { place, value } => emit_return(value, code, site, exits, *place),
        Basic::Read {
            place,
            channel,
            receivers,
        } => emit_input(channel, receivers, code, site, *place),
        Basic::Write {
            place,
            channel,
            items,
        } => emit_output(channel, items, code, site, *place),
        Basic::Event(change) => emit_event(change, code, site),
        Basic::Cancel { place, names } => emit_named(names, code, site, *place, Ask::Cancel),
        Basic::Terminate { place, names } => emit_named(names, code, site, *place, Ask::Terminate),
        Basic::Wait { place, time } => emit_wait(time, code, site, *place),
        Basic::WaitUntil { place, time } => emit_wait_until(time, code, site, *place),
        Basic::WaitForDependent { place } => emit_one(code, *place, Instr::Wait(Delay::Dependents)),
        Basic::WaitFor { place, .. } => emit_event_pause(code, site, *place, mark),
        Basic::OnErrorResponse {
            place,
            selector,
            response,
            event,
        } => emit_response(code, site, *place, *selector, *response, event),
        Basic::OffError { place, selector } => emit_off(code, *place, *selector),
        Basic::SendError {
            place,
            group,
            number,
            ..
        } => emit_raise(code, *place, *group, *number),
        Basic::Call {
            place,
            name,
            arguments,
            receivers,
        } => emit_call(name, arguments, receivers, code, site, *place),
        Basic::Schedule { place, schedule } => emit_schedule(schedule, code, site, *place, mark),
        Basic::UpdatePriority {
            place,
            name,
            priority,
        } => emit_update_priority(name, priority, code, site, *place),
        Basic::OnErrorStatement { place, .. } => Err(Uncoded::At(*place)),
    }
}
