//! The phrases of statements that hold no statements, and those with which a group begins.

ghost use Rattle.std.specs.Prelude.{◌≡◌, map, OnOk, true};
ghost use Rattle.std.specs.Option.{option_map};
ghost use Rattle.hal_tree.specs.Rows.{expressions};
ghost use Rattle.hal_tree.specs.SeenLeaves.{seen_name};
ghost use Rattle.hal_tree.specs.SeenExpressions.{seen_expression, seen_reference};
ghost use Rattle.hal_tree.specs.SeenStatements.{seen_event, seen_guard, seen_schedule, seen_span};
ghost use Rattle.hal_phrases.specs.Phrases.{add, gathered_any, gathered_each, OfAssignment, OfCall, OfGroup, OfRead, OfRealTime, OfResponse, OfReturn, OfWrite};
ghost use Rattle.hal_phrases.specs.GatheredExpressions.{below, gathered, gathered_all};
ghost use Rattle.hal_phrases.specs.GatheredDeclarations.{gathered_optional};
ghost use Rattle.hal_phrases.specs.GatheredStatements.{around_for, begun_for, gathered_event, gathered_guard, gathered_process, gathered_receiver, gathered_schedule, gathered_span};
ghost use Rattle.hal_phrases.specs.SeenPhrases.{seen_node, seen_phrase};

use crate::around::Around;
use crate::expressions::{gather_expression, gather_expressions, gather_optional};
use crate::node::{Node, Phrase, below, grouped, push};
use crate::role::Role;
use crate::statement_parts::{
    gather_guard, gather_optional_guard, gather_processes, gather_receivers, gather_schedule,
    gather_span, gather_with,
};
use hal_base::Place;
use hal_tree::{EventChange, Expr, Guard, Identifier, Reference, Schedule, Span};
use std::alloc::AllocError;

/// Adds the phrases of an assignment.
pub(crate) fn gather_assignment<'a>(
    into: &mut Vec<Phrase<'a>>,
    around: Around,
    receivers: &'a [Reference],
    value: &'a Expr,
) -> Result<(), AllocError>
    ensures { OnOk result (map seen_phrase into.new.items ≡ gathered (gathered_each (gathered_receiver (below (map seen_phrase into.old.items) around) Role.Receiver) (add (map seen_phrase into.old.items) around (OfAssignment (map seen_reference receivers.now) (seen_expression value.now))) (map seen_reference receivers.now)) (below (map seen_phrase into.old.items) around) Role.Assigned (seen_expression value.now)) }
{
    let below = below(into, around);
    push(into, around, Node::Assignment { receivers, value })?;
    gather_receivers(into, below, Role::Receiver, receivers)?;
    gather_expression(into, below, Role::Assigned, value)
}

/// Adds the phrases of RETURN.
pub(crate) fn gather_return<'a>(
    into: &mut Vec<Phrase<'a>>,
    around: Around,
    place: Place,
    value: &'a Option<Expr>,
) -> Result<(), AllocError>
    ensures { OnOk result (map seen_phrase into.new.items ≡ gathered_optional (add (map seen_phrase into.old.items) around (OfReturn place (option_map seen_expression value.now))) (below (map seen_phrase into.old.items) around) Role.Returned (option_map seen_expression value.now)) }
{
    let below = below(into, around);
    push(into, around, Node::Return { place, value })?;
    gather_optional(into, below, Role::Returned, value)
}

/// Adds the phrases of CALL.
pub(crate) fn gather_call<'a>(
    into: &mut Vec<Phrase<'a>>,
    around: Around,
    name: &'a Identifier,
    arguments: &'a [Expr],
    receivers: &'a [Reference],
) -> Result<(), AllocError>
    ensures { OnOk result (map seen_phrase into.new.items ≡ gathered_each (gathered_receiver (below (map seen_phrase into.old.items) around) Role.Output) (gathered_all (add (map seen_phrase into.old.items) around (OfCall (seen_name name.now) (expressions (map seen_expression arguments.now)) (map seen_reference receivers.now))) (below (map seen_phrase into.old.items) around) Role.Input (expressions (map seen_expression arguments.now))) (map seen_reference receivers.now)) }
{
    let below = below(into, around);
    push(
        into,
        around,
        Node::Call {
            name,
            arguments,
            receivers,
        },
    )?;
    gather_expressions(into, below, Role::Input, arguments)?;
    gather_receivers(into, below, Role::Output, receivers)
}

/// Adds the phrases of READ.
pub(crate) fn gather_read<'a>(
    into: &mut Vec<Phrase<'a>>,
    around: Around,
    place: Place,
    channel: &'a Expr,
    receivers: &'a [Reference],
) -> Result<(), AllocError>
    ensures { OnOk result (map seen_phrase into.new.items ≡ gathered_each (gathered_receiver (below (map seen_phrase into.old.items) around) Role.Receiver) (gathered (add (map seen_phrase into.old.items) around (OfRead place)) (below (map seen_phrase into.old.items) around) Role.Channel (seen_expression channel.now)) (map seen_reference receivers.now)) }
{
    let below = below(into, around);
    gather_with(into, around, Node::Read { place }, Role::Channel, channel)?;
    gather_receivers(into, below, Role::Receiver, receivers)
}

/// Adds the phrases of WRITE.
pub(crate) fn gather_write<'a>(
    into: &mut Vec<Phrase<'a>>,
    around: Around,
    place: Place,
    channel: &'a Expr,
    items: &'a [Expr],
) -> Result<(), AllocError>
    ensures { OnOk result (map seen_phrase into.new.items ≡ gathered_all (gathered (add (map seen_phrase into.old.items) around (OfWrite place)) (below (map seen_phrase into.old.items) around) Role.Channel (seen_expression channel.now)) (below (map seen_phrase into.old.items) around) Role.Item (expressions (map seen_expression items.now))) }
{
    let below = below(into, around);
    gather_with(into, around, Node::Write { place }, Role::Channel, channel)?;
    gather_expressions(into, below, Role::Item, items)
}

/// Adds the phrases of SCHEDULE.
pub(crate) fn gather_scheduled<'a>(
    into: &mut Vec<Phrase<'a>>,
    around: Around,
    place: Place,
    schedule: &'a Schedule,
) -> Result<(), AllocError>
    ensures { OnOk result (map seen_phrase into.new.items ≡ gathered_schedule (add (map seen_phrase into.old.items) around (OfRealTime place)) (below (map seen_phrase into.old.items) around) (seen_schedule schedule.now)) }
{
    let below = below(into, around);
    push(into, around, Node::RealTime { place })?;
    gather_schedule(into, below, schedule)
}

/// Adds the phrases of CANCEL or TERMINATE.
pub(crate) fn gather_named<'a>(
    into: &mut Vec<Phrase<'a>>,
    around: Around,
    place: Place,
    names: &'a [Identifier],
) -> Result<(), AllocError>
    ensures { OnOk result (map seen_phrase into.new.items ≡ gathered_each (gathered_process (below (map seen_phrase into.old.items) around)) (add (map seen_phrase into.old.items) around (OfRealTime place)) (map seen_name names.now)) }
{
    let below = below(into, around);
    push(into, around, Node::RealTime { place })?;
    gather_processes(into, below, names)
}

/// Adds the name of a process, if there is one.
fn gather_process<'a>(
    into: &mut Vec<Phrase<'a>>,
    around: Around,
    name: &'a Option<Identifier>,
) -> Result<(), AllocError>
    ensures { OnOk result (map seen_phrase into.new.items ≡ gathered_any (gathered_process around) (map seen_phrase into.old.items) (option_map seen_name name.now)) }
{
    match name {
        None => Ok(()),
        Some(name) => push(into, around, Node::Process { name }),
    }
}

/// Adds the phrases of UPDATE PRIORITY.
pub(crate) fn gather_priority<'a>(
    into: &mut Vec<Phrase<'a>>,
    around: Around,
    place: Place,
    name: &'a Option<Identifier>,
    priority: &'a Expr,
) -> Result<(), AllocError>
    ensures { OnOk result (map seen_phrase into.new.items ≡ gathered (gathered_any (gathered_process (below (map seen_phrase into.old.items) around)) (add (map seen_phrase into.old.items) around (OfRealTime place)) (option_map seen_name name.now)) (below (map seen_phrase into.old.items) around) Role.Priority (seen_expression priority.now)) }
{
    let below = below(into, around);
    push(into, around, Node::RealTime { place })?;
    gather_process(into, below, name)?;
    gather_expression(into, below, Role::Priority, priority)
}

/// Adds the phrases of ON ERROR with SYSTEM or IGNORE.
pub(crate) fn gather_response<'a>(
    into: &mut Vec<Phrase<'a>>,
    around: Around,
    node: Node<'a>,
    event: &'a Option<EventChange>,
) -> Result<(), AllocError>
    ensures { OnOk result (map seen_phrase into.new.items ≡ gathered_any (gathered_event (below (map seen_phrase into.old.items) around)) (add (map seen_phrase into.old.items) around (seen_node node.entry)) (option_map seen_event event.now)) }
{
    let below = below(into, around);
    push(into, around, node)?;
    match event {
        None => Ok(()),
        Some(event) => push(into, below, Node::Event(event)),
    }
}

/// Adds the phrases with which a loop with WHILE or UNTIL begins.
pub(crate) fn begin_loop<'a>(
    into: &mut Vec<Phrase<'a>>,
    around: Around,
    labels: &'a [Identifier],
    guard: &'a Guard,
) -> Result<(), AllocError>
    ensures { OnOk result (map seen_phrase into.new.items ≡ gathered_guard (below (map seen_phrase into.old.items) around) (add (map seen_phrase into.old.items) around (OfGroup (map seen_name labels.now) true)) (seen_guard guard.now)) }
{
    let below = below(into, around);
    push(
        into,
        around,
        Node::Group {
            labels,
            looping: true,
        },
    )?;
    gather_guard(into, below, guard)
}

/// Adds the phrase of a DO FOR group, and its variable where it isn't TEMPORARY.
#[tactic(auto, unfolding(crate::specs::GatheredStatements::begun_for))]
fn begin_variable<'a>(
    into: &mut Vec<Phrase<'a>>,
    around: Around,
    labels: &'a [Identifier],
    temporary: bool,
    variable: &'a Identifier,
) -> Result<(), AllocError>
    ensures { OnOk result (map seen_phrase into.new.items ≡ begun_for (map seen_phrase into.old.items) around (map seen_name labels.now) temporary (seen_name variable.now)) }
{
    if temporary {
        return push(into, around, Node::TemporaryGroup { labels, variable });
    }
    let below = below(into, around);
    push(
        into,
        around,
        Node::Group {
            labels,
            looping: true,
        },
    )?;
    push(into, below, Node::Variable { name: variable })
}

/// What stands around the statements of a DO FOR group.
#[tactic(auto, unfolding(crate::specs::GatheredStatements::around_for))]
pub(crate) fn around_for(into: &Vec<Phrase<'_>>, around: Around, temporary: bool) -> Around
    ensures { result ≡ around_for (map seen_phrase into.now.items) around temporary }
{
    let inner = grouped(into, around);
    if temporary {
        inner.scoped(into.len())
    } else {
        inner
    }
}

/// Adds the phrases with which a DO FOR group begins.
pub(crate) fn begin_for<'a>(
    into: &mut Vec<Phrase<'a>>,
    around: Around,
    labels: &'a [Identifier],
    temporary: bool,
    variable: &'a Identifier,
    span: &'a Span,
    guard: &'a Option<Guard>,
) -> Result<(), AllocError>
    ensures { OnOk result (map seen_phrase into.new.items ≡ gathered_any (gathered_guard (around_for (map seen_phrase into.old.items) around temporary)) (gathered_span (begun_for (map seen_phrase into.old.items) around (map seen_name labels.now) temporary (seen_name variable.now)) (around_for (map seen_phrase into.old.items) around temporary) (seen_span span.now)) (option_map seen_guard guard.now)) }
{
    let inner = around_for(into, around, temporary);
    begin_variable(into, around, labels, temporary, variable)?;
    gather_span(into, inner, span)?;
    gather_optional_guard(into, inner, guard)
}
