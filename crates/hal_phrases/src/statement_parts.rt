//! The phrases of the parts of statements that hold no statements.

ghost use Rattle.std.specs.Prelude.{◌≡◌, map, OnOk};
ghost use Rattle.std.specs.Option.{option_map};
ghost use Rattle.hal_tree.specs.SeenLeaves.{seen_name};
ghost use Rattle.hal_tree.specs.SeenExpressions.{seen_expression, seen_reference};
ghost use Rattle.hal_tree.specs.SeenStatements.{seen_cycle, seen_event, seen_guard, seen_schedule, seen_span, seen_start};
ghost use Rattle.hal_phrases.specs.Phrases.{add, gathered_any, gathered_each};
ghost use Rattle.hal_phrases.specs.GatheredExpressions.{below, gathered};
ghost use Rattle.hal_phrases.specs.GatheredDeclarations.{gathered_optional};
ghost use Rattle.hal_phrases.specs.GatheredStatements.{gathered_close, gathered_cycle, gathered_guard, gathered_label, gathered_limit, gathered_process, gathered_receiver, gathered_schedule, gathered_span, gathered_start};
ghost use Rattle.hal_phrases.specs.SeenPhrases.{seen_node, seen_phrase};

use crate::around::Around;
use crate::expressions::{
    gather_expression, gather_expressions, gather_optional, gather_reference,
};
use crate::node::{Node, Phrase, below, push};
use crate::role::Role;
use hal_tree::{Cycle, Expr, Guard, Identifier, Reference, Schedule, Span, Start};
use std::alloc::AllocError;

/// Adds labels.
pub(crate) fn gather_labels<'a>(
    into: &mut Vec<Phrase<'a>>,
    around: Around,
    labels: &'a [Identifier],
) -> Result<(), AllocError>
    ensures { OnOk result (map seen_phrase into.new.items ≡ gathered_each (gathered_label around) (map seen_phrase into.old.items) (map seen_name labels.now)) }
{
    for name in labels {
        push(into, around, Node::Label { name })?;
    }
    Ok(())
}

/// Adds the name behind CLOSE or END, if there is one.
pub(crate) fn gather_close<'a>(
    into: &mut Vec<Phrase<'a>>,
    around: Around,
    close: &'a Option<Identifier>,
) -> Result<(), AllocError>
    ensures { OnOk result (map seen_phrase into.new.items ≡ gathered_any (gathered_close around) (map seen_phrase into.old.items) (option_map seen_name close.now)) }
{
    match close {
        None => Ok(()),
        Some(name) => push(into, around, Node::Close { name }),
    }
}

/// Adds the names of processes.
pub(crate) fn gather_processes<'a>(
    into: &mut Vec<Phrase<'a>>,
    around: Around,
    names: &'a [Identifier],
) -> Result<(), AllocError>
    ensures { OnOk result (map seen_phrase into.new.items ≡ gathered_each (gathered_process around) (map seen_phrase into.old.items) (map seen_name names.now)) }
{
    for name in names {
        push(into, around, Node::Process { name })?;
    }
    Ok(())
}

/// Adds the phrases of references that take values.
pub(crate) fn gather_receivers<'a>(
    into: &mut Vec<Phrase<'a>>,
    around: Around,
    role: Role,
    trees: &'a [Reference],
) -> Result<(), AllocError>
    ensures { OnOk result (map seen_phrase into.new.items ≡ gathered_each (gathered_receiver around role) (map seen_phrase into.old.items) (map seen_reference trees.now)) }
{
    for tree in trees {
        gather_reference(into, around, role, tree)?;
    }
    Ok(())
}

/// Adds a phrase and those of an expression that is a part of it.
pub(crate) fn gather_with<'a>(
    into: &mut Vec<Phrase<'a>>,
    around: Around,
    node: Node<'a>,
    role: Role,
    tree: &'a Expr,
) -> Result<(), AllocError>
    ensures { OnOk result (map seen_phrase into.new.items ≡ gathered (add (map seen_phrase into.old.items) around (seen_node node.entry)) (below (map seen_phrase into.old.items) around) role (seen_expression tree.now)) }
{
    let below = below(into, around);
    push(into, around, node)?;
    gather_expression(into, below, role, tree)
}

/// Adds the phrases of WHILE or UNTIL of a loop.
#[tactic(auto, using(hal_tree::proofs::MadeStatements::made_while, hal_tree::proofs::MadeStatements::made_until), unfolding(crate::specs::GatheredStatements::gathered_guard))]
pub(crate) fn gather_guard<'a>(
    into: &mut Vec<Phrase<'a>>,
    around: Around,
    guard: &'a Guard,
) -> Result<(), AllocError>
    ensures { OnOk result (map seen_phrase into.new.items ≡ gathered_guard around (map seen_phrase into.old.items) (seen_guard guard.now)) }
{
    match guard {
        Guard::While {
            place: _,
            condition,
        } => gather_expression(into, around, Role::Condition, condition),
        Guard::Until {
            place: _,
            condition,
        } => gather_expression(into, around, Role::Condition, condition),
    }
}

/// Adds the phrases of WHILE or UNTIL of a loop, if there is one.
pub(crate) fn gather_optional_guard<'a>(
    into: &mut Vec<Phrase<'a>>,
    around: Around,
    guard: &'a Option<Guard>,
) -> Result<(), AllocError>
    ensures { OnOk result (map seen_phrase into.new.items ≡ gathered_any (gathered_guard around) (map seen_phrase into.old.items) (option_map seen_guard guard.now)) }
{
    match guard {
        None => Ok(()),
        Some(guard) => gather_guard(into, around, guard),
    }
}

/// Adds the phrases of the values of a loop's variable.
#[tactic(auto, using(hal_tree::proofs::MadeStatements::made_range_span, hal_tree::proofs::MadeStatements::made_list_span), unfolding(crate::specs::GatheredStatements::gathered_span))]
pub(crate) fn gather_span<'a>(
    into: &mut Vec<Phrase<'a>>,
    around: Around,
    span: &'a Span,
) -> Result<(), AllocError>
    ensures { OnOk result (map seen_phrase into.new.items ≡ gathered_span (map seen_phrase into.old.items) around (seen_span span.now)) }
{
    match span {
        Span::Range { first, last, step } => {
            gather_expression(into, around, Role::Bound, first)?;
            gather_expression(into, around, Role::Bound, last)?;
            gather_optional(into, around, Role::Bound, step)
        }
        Span::List { values } => gather_expressions(into, around, Role::Bound, values),
    }
}

/// Adds the phrases of the time or event at which a process starts, if there is one.
#[tactic(auto, using(hal_tree::proofs::MadeStatements::made_start_at, hal_tree::proofs::MadeStatements::made_start_in, hal_tree::proofs::MadeStatements::made_start_on), unfolding(crate::specs::GatheredStatements::gathered_start))]
fn gather_start<'a>(
    into: &mut Vec<Phrase<'a>>,
    around: Around,
    start: &'a Option<Start>,
) -> Result<(), AllocError>
    ensures { OnOk result (map seen_phrase into.new.items ≡ gathered_any (gathered_start around) (map seen_phrase into.old.items) (option_map seen_start start.now)) }
{
    match start {
        None => Ok(()),
        Some(Start::At { place: _, time }) => gather_expression(into, around, Role::Time, time),
        Some(Start::In { place: _, time }) => gather_expression(into, around, Role::Time, time),
        Some(Start::On { place: _, event }) => gather_expression(into, around, Role::Event, event),
    }
}

/// Adds the phrases of the time after which a process runs again, if there is one.
#[tactic(auto, using(hal_tree::proofs::MadeStatements::made_cycle, hal_tree::proofs::MadeStatements::made_cycle_every, hal_tree::proofs::MadeStatements::made_cycle_after), unfolding(crate::specs::GatheredStatements::gathered_cycle))]
fn gather_cycle<'a>(
    into: &mut Vec<Phrase<'a>>,
    around: Around,
    cycle: &'a Option<Cycle>,
) -> Result<(), AllocError>
    ensures { OnOk result (map seen_phrase into.new.items ≡ gathered_any (gathered_cycle around) (map seen_phrase into.old.items) (option_map seen_cycle cycle.now)) }
{
    match cycle {
        None => Ok(()),
        Some(Cycle::Repeat { place: _ }) => Ok(()),
        Some(Cycle::Every { place: _, time }) => gather_expression(into, around, Role::Time, time),
        Some(Cycle::After { place: _, time }) => gather_expression(into, around, Role::Time, time),
    }
}

/// Adds the phrases of WHILE or UNTIL of SCHEDULE, if there is one.
#[tactic(auto, using(hal_tree::proofs::MadeStatements::made_while, hal_tree::proofs::MadeStatements::made_until), unfolding(crate::specs::GatheredStatements::gathered_limit))]
fn gather_limit<'a>(
    into: &mut Vec<Phrase<'a>>,
    around: Around,
    guard: &'a Option<Guard>,
) -> Result<(), AllocError>
    ensures { OnOk result (map seen_phrase into.new.items ≡ gathered_any (gathered_limit around) (map seen_phrase into.old.items) (option_map seen_guard guard.now)) }
{
    match guard {
        None => Ok(()),
        Some(
            Guard::While {
                place: _,
                condition,
            },
        ) => gather_expression(into, around, Role::Event, condition),
        Some(
            Guard::Until {
                place: _,
                condition,
            },
        ) => gather_expression(into, around, Role::EventOrTime, condition),
    }
}

/// Adds the phrases of what SCHEDULE says.
#[tactic(auto, using(hal_tree::proofs::MadeStatements::made_schedule), unfolding(crate::specs::GatheredStatements::gathered_schedule))]
pub(crate) fn gather_schedule<'a>(
    into: &mut Vec<Phrase<'a>>,
    around: Around,
    schedule: &'a Schedule,
) -> Result<(), AllocError>
    ensures { OnOk result (map seen_phrase into.new.items ≡ gathered_schedule (map seen_phrase into.old.items) around (seen_schedule schedule.now)) }
{
    push(
        into,
        around,
        Node::Process {
            name: &schedule.name,
        },
    )?;
    gather_start(into, around, &schedule.start)?;
    gather_optional(into, around, Role::Priority, &schedule.priority)?;
    gather_cycle(into, around, &schedule.cycle)?;
    gather_limit(into, around, &schedule.guard)
}
