//! SCHEDULE and UPDATE PRIORITY.

ghost use Rattle.std.specs.Prelude.{◌≡◌, ◌∷◌, [], IfOk};
ghost use Rattle.std.specs.Option.{option_map};
ghost use Rattle.hal_tree.specs.SeenExpressions.{seen_expression};
ghost use Rattle.hal_tree.specs.SeenLeaves.{seen_name};
ghost use Rattle.hal_tree.specs.SeenStatements.{seen_cycle, seen_guard, seen_schedule, seen_start};
ghost use Rattle.hal_scope.specs.Uses as uses;
ghost use Rattle.hal_meaning.specs.RealTime.{stated_at_mark};
ghost use Rattle.hal_agreement.specs.Sites.{here_at};
ghost use Rattle.hal_gen_expr.specs.Emits.{Emits};
ghost use Rattle.hal_gen_expr.specs.Emitting as emitting;
ghost use Rattle.hal_gen_expr.specs.SeenSites.{seen_site, seen_numbering, IsSite};
ghost use Rattle.hal_gen.specs.Timing as timing;

use crate::events::{first_event, last_event};
use crate::real_time::named_process;
use crate::sizes::{expression_size, sum};
use crate::times::{emit_time, time_operand, time_size};
use hal_base::Place;
use hal_code::{Choice, Instr, Limit, Round, Start};
use hal_gen_expr::{Site, Uncoded, emit_expression, emit_one};
use hal_scope::holds_event;
use hal_tree::{Cycle, Expr, Guard, Identifier, Schedule};
use std::alloc::AllocError;

/// Adds what is evaluated for a start.
#[tactic(auto, using(hal_tree::proofs::MadeStatements::made_start_at, hal_tree::proofs::MadeStatements::made_start_in, hal_tree::proofs::MadeStatements::made_start_on))]
fn emit_start(
    start: &Option<hal_tree::Start>,
    code: &mut Vec<Instr>,
    site: &Site<'_>,
) -> Result<(), Uncoded>
    requires site { IsSite site.now }
    ensures { Emits (timing.start_code (seen_numbering site.now) (seen_site site.now) code.old.items (option_map seen_start start.now)) result code.new.items }
{
    match start {
        None => Ok(()),
        Some(hal_tree::Start::At { place: _, time }) => emit_time(time, code, site),
        Some(hal_tree::Start::In { place: _, time }) => emit_time(time, code, site),
        Some(hal_tree::Start::On { place: _, event: _ }) => Ok(()),
    }
}

/// How many instructions these are.
#[tactic(auto, using(hal_tree::proofs::MadeStatements::made_start_at, hal_tree::proofs::MadeStatements::made_start_in, hal_tree::proofs::MadeStatements::made_start_on))]
fn start_size(start: &Option<hal_tree::Start>, site: &Site<'_>) -> Result<usize, AllocError>
    requires site { IsSite site.now }
    ensures { IfOk result (λ size. size ≡ timing.start_size (seen_numbering site.now) (seen_site site.now) (option_map seen_start start.now)) }
{
    match start {
        None => Ok(0),
        Some(hal_tree::Start::At { place: _, time }) => time_size(time, site),
        Some(hal_tree::Start::In { place: _, time }) => time_size(time, site),
        Some(hal_tree::Start::On { place: _, event: _ }) => Ok(0),
    }
}

/// A start as an operand, by the statement's first event expression.
#[tactic(auto, using(hal_tree::proofs::MadeStatements::made_start_at, hal_tree::proofs::MadeStatements::made_start_in, hal_tree::proofs::MadeStatements::made_start_on))]
fn start_operand(start: &Option<hal_tree::Start>, first: Option<u32>) -> Option<Start>
    ensures { result ≡ timing.start_operand first (option_map seen_start start.now) }
{
    match start {
        None => Some(Start::Now),
        Some(hal_tree::Start::At { place: _, time }) => Some(Start::At(time_operand(time))),
        Some(hal_tree::Start::In { place: _, time }) => Some(Start::In(time_operand(time))),
        Some(hal_tree::Start::On { place: _, event: _ }) => match first {
            None => None,
            Some(number) => Some(Start::On(number)),
        },
    }
}

/// Adds what is evaluated for a priority.
fn emit_priority(
    priority: &Option<Expr>,
    code: &mut Vec<Instr>,
    site: &Site<'_>,
) -> Result<(), Uncoded>
    requires site { IsSite site.now }
    ensures { Emits (timing.priority_code (seen_numbering site.now) (seen_site site.now) code.old.items (option_map seen_expression priority.now)) result code.new.items }
{
    match priority {
        None => Ok(()),
        Some(tree) => emit_expression(tree, code, site),
    }
}

/// How many instructions these are.
fn priority_size(priority: &Option<Expr>, site: &Site<'_>) -> Result<usize, AllocError>
    requires site { IsSite site.now }
    ensures { IfOk result (λ size. size ≡ timing.priority_size (seen_numbering site.now) (seen_site site.now) (option_map seen_expression priority.now)) }
{
    match priority {
        None => Ok(0),
        Some(tree) => expression_size(tree, site),
    }
}

/// Whether there is a priority.
fn is_given(priority: &Option<Expr>) -> bool
    ensures { result ≡ timing.is_given (option_map seen_expression priority.now) }
{
    match priority {
        None => false,
        Some(_) => true,
    }
}

/// Adds what is evaluated for a cycle.
#[tactic(auto, using(hal_tree::proofs::MadeStatements::made_cycle, hal_tree::proofs::MadeStatements::made_cycle_every, hal_tree::proofs::MadeStatements::made_cycle_after))]
fn emit_round(cycle: &Option<Cycle>, code: &mut Vec<Instr>, site: &Site<'_>) -> Result<(), Uncoded>
    requires site { IsSite site.now }
    ensures { Emits (timing.round_code (seen_numbering site.now) (seen_site site.now) code.old.items (option_map seen_cycle cycle.now)) result code.new.items }
{
    match cycle {
        None => Ok(()),
        Some(Cycle::Repeat { place: _ }) => Ok(()),
        Some(Cycle::Every { place: _, time }) => emit_time(time, code, site),
        Some(Cycle::After { place: _, time }) => emit_time(time, code, site),
    }
}

/// How many instructions these are.
#[tactic(auto, using(hal_tree::proofs::MadeStatements::made_cycle, hal_tree::proofs::MadeStatements::made_cycle_every, hal_tree::proofs::MadeStatements::made_cycle_after))]
fn round_size(cycle: &Option<Cycle>, site: &Site<'_>) -> Result<usize, AllocError>
    requires site { IsSite site.now }
    ensures { IfOk result (λ size. size ≡ timing.round_size (seen_numbering site.now) (seen_site site.now) (option_map seen_cycle cycle.now)) }
{
    match cycle {
        None => Ok(0),
        Some(Cycle::Repeat { place: _ }) => Ok(0),
        Some(Cycle::Every { place: _, time }) => time_size(time, site),
        Some(Cycle::After { place: _, time }) => time_size(time, site),
    }
}

/// A cycle as an operand.
#[tactic(auto, using(hal_tree::proofs::MadeStatements::made_cycle, hal_tree::proofs::MadeStatements::made_cycle_every, hal_tree::proofs::MadeStatements::made_cycle_after))]
fn round_operand(cycle: &Option<Cycle>) -> Round
    ensures { result ≡ timing.round_operand (option_map seen_cycle cycle.now) }
{
    match cycle {
        None => Round::Once,
        Some(Cycle::Repeat { place: _ }) => Round::Repeat,
        Some(Cycle::Every { place: _, time }) => Round::Every(time_operand(time)),
        Some(Cycle::After { place: _, time }) => Round::After(time_operand(time)),
    }
}

/// Whether UNTIL waits for an event expression, and not for a time.
#[tactic(auto, unfolding(hal_gen_expr::specs::SeenSites::seen_site))]
fn is_event(tree: &Expr, site: &Site<'_>) -> bool
    ensures { result ≡ uses.holds_event (seen_site site.now).set.phrases (seen_site site.now).block (seen_expression tree.now) }
{
    holds_event(tree, site.set.names, site.block)
}

/// Adds what is evaluated for what ends the cycles.
#[tactic(auto, using(hal_tree::proofs::MadeStatements::made_while, hal_tree::proofs::MadeStatements::made_until))]
fn emit_limit(guard: &Option<Guard>, code: &mut Vec<Instr>, site: &Site<'_>) -> Result<(), Uncoded>
    requires site { IsSite site.now }
    ensures { Emits (timing.limit_code (seen_numbering site.now) (seen_site site.now) code.old.items (option_map seen_guard guard.now)) result code.new.items }
{
    match guard {
        None => Ok(()),
        Some(Guard::While { .. }) => Ok(()),
        Some(
            Guard::Until {
                place: _,
                condition,
            },
        ) => {
            if is_event(condition, site) {
                Ok(())
            } else {
                emit_time(condition, code, site)
            }
        }
    }
}

/// How many instructions these are.
#[tactic(auto, using(hal_tree::proofs::MadeStatements::made_while, hal_tree::proofs::MadeStatements::made_until))]
fn limit_size(guard: &Option<Guard>, site: &Site<'_>) -> Result<usize, AllocError>
    requires site { IsSite site.now }
    ensures { IfOk result (λ size. size ≡ timing.limit_size (seen_numbering site.now) (seen_site site.now) (option_map seen_guard guard.now)) }
{
    match guard {
        None => Ok(0),
        Some(Guard::While { .. }) => Ok(0),
        Some(
            Guard::Until {
                place: _,
                condition,
            },
        ) => {
            if is_event(condition, site) {
                Ok(0)
            } else {
                time_size(condition, site)
            }
        }
    }
}

/// UNTIL as an operand, by the statement's last event expression.
fn until_operand(tree: &Expr, site: &Site<'_>, last: Option<u32>) -> Option<Limit>
    ensures { result ≡ timing.until_operand last (uses.holds_event (seen_site site.now).set.phrases (seen_site site.now).block (seen_expression tree.now)) (seen_expression tree.now) }
{
    if is_event(tree, site) {
        match last {
            None => None,
            Some(number) => Some(Limit::Until(number)),
        }
    } else {
        Some(Limit::UntilTime(time_operand(tree)))
    }
}

/// What ends the cycles, as an operand.
#[tactic(auto, using(hal_tree::proofs::MadeStatements::made_while, hal_tree::proofs::MadeStatements::made_until))]
fn limit_operand(guard: &Option<Guard>, site: &Site<'_>, last: Option<u32>) -> Option<Limit>
    ensures { result ≡ timing.limit_operand (seen_site site.now) last (option_map seen_guard guard.now) }
{
    match guard {
        None => Some(Limit::Free),
        Some(Guard::While { .. }) => match last {
            None => None,
            Some(number) => Some(Limit::While(number)),
        },
        Some(
            Guard::Until {
                place: _,
                condition,
            },
        ) => until_operand(condition, site, last),
    }
}

/// The instruction of SCHEDULE.
#[tactic(auto, using(hal_tree::proofs::MadeStatements::made_schedule))]
fn instr_of(schedule: &Schedule, site: &Site<'_>, mark: usize) -> Option<Instr>
    requires site { IsSite site.now }
    ensures { timing.schedule_of (seen_site site.now) (stated_at_mark (here_at (seen_site site.now)) mark) (seen_schedule schedule.now) ≡ option_map (λ instr. instr ∷ []) result }
{
    let process = named_process(site, &schedule.name)?;
    let start = start_operand(&schedule.start, first_event(site, mark))?;
    let limit = limit_operand(&schedule.guard, site, last_event(site, mark))?;
    Some(Instr::Schedule {
        process,
        start,
        priority: Choice::Known(is_given(&schedule.priority)),
        dependent: Choice::Known(schedule.dependent),
        round: round_operand(&schedule.cycle),
        limit,
    })
}

/// Adds SCHEDULE: what it evaluates in its order, and the instruction that takes it (language document, Statements).
#[tactic(auto, using(hal_tree::proofs::MadeStatements::made_schedule))]
pub(crate) fn emit_schedule(
    schedule: &Schedule,
    code: &mut Vec<Instr>,
    site: &Site<'_>,
    place: Place,
    mark: usize,
) -> Result<(), Uncoded>
    requires site { IsSite site.now }
    ensures { Emits (timing.schedule_code (seen_numbering site.now) (seen_site site.now) code.old.items place (stated_at_mark (here_at (seen_site site.now)) mark) (seen_schedule schedule.now)) result code.new.items }
{
    emit_start(&schedule.start, code, site)?;
    emit_priority(&schedule.priority, code, site)?;
    emit_round(&schedule.cycle, code, site)?;
    emit_limit(&schedule.guard, code, site)?;
    match instr_of(schedule, site, mark) {
        None => Err(Uncoded::At(place)),
        Some(instr) => emit_one(code, place, instr),
    }
}

/// The size of SCHEDULE.
#[tactic(auto, using(hal_tree::proofs::MadeStatements::made_schedule))]
pub(crate) fn schedule_size(schedule: &Schedule, site: &Site<'_>) -> Result<usize, AllocError>
    requires site { IsSite site.now }
    ensures { IfOk result (λ size. size ≡ timing.schedule_size (seen_numbering site.now) (seen_site site.now) (seen_schedule schedule.now)) }
{
    let start = start_size(&schedule.start, site)?;
    let priority = priority_size(&schedule.priority, site)?;
    let round = round_size(&schedule.cycle, site)?;
    let limit = sum(limit_size(&schedule.guard, site)?, 1)?;
    sum(start, sum(priority, sum(round, limit)?)?)
}

/// The process that UPDATE PRIORITY speaks of: one that is named, or the process itself.
fn named_or_self(name: &Option<Identifier>, site: &Site<'_>) -> Option<u8>
    requires site { IsSite site.now }
    ensures { result ≡ timing.named_or_self (seen_site site.now) (option_map seen_name name.now) }
{
    match name {
        None => Some(255),
        Some(name) => named_process(site, name),
    }
}

/// Adds UPDATE PRIORITY (language document, Statements).
pub(crate) fn emit_update_priority(
    name: &Option<Identifier>,
    priority: &Expr,
    code: &mut Vec<Instr>,
    site: &Site<'_>,
    place: Place,
) -> Result<(), Uncoded>
    requires site { IsSite site.now }
    ensures { Emits (timing.update_priority_code (seen_numbering site.now) (seen_site site.now) code.old.items place (option_map seen_name name.now) (seen_expression priority.now)) result code.new.items }
{
    emit_expression(priority, code, site)?;
    match named_or_self(name, site) {
        None => Err(Uncoded::At(place)),
        Some(process) => emit_one(code, place, Instr::Priority(process)),
    }
}
