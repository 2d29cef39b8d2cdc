//! Copies of statements that hold several parts and no statement.

ghost use Rattle.std.specs.Prelude.{◌≡◌, map, IfOk};
ghost use Rattle.hal_grammar.specs.Statements.{Assignment, Call, Read, Write};
ghost use Rattle.hal_tree.specs.Rows.{expressions};
ghost use Rattle.hal_tree.specs.SeenLeaves.{seen_name};
ghost use Rattle.hal_tree.specs.SeenExpressions.{seen_expression, seen_reference};
ghost use Rattle.hal_tree.specs.SeenStatements.{seen_basic};

use crate::expressions::{copy_expression, copy_expressions, copy_references};
use crate::parts::both;
use hal_base::Place;
use hal_tree::{Basic, Expr, Identifier, Reference};
use std::alloc::{AllocError, Global};

/// An assignment like this one.
#[tactic(auto, using(hal_tree::proofs::MadeStatements::made_assignment))]
pub(crate) fn copy_assignment(
    alloc: Global,
    place: Place,
    receivers: &[Reference],
    value: &Expr,
) -> Result<Basic, AllocError>
    ensures { IfOk result (λ copied. seen_basic copied ≡ Assignment place (map seen_reference receivers.now) (seen_expression value.now)) }
{
    let receivers = copy_references(alloc, receivers);
    let (receivers, value) = both(receivers, copy_expression(alloc, value))?;
    Ok(Basic::Assignment {
        place,
        receivers,
        value,
    })
}

/// A CALL like this one.
#[tactic(auto, using(hal_tree::proofs::MadeStatements::made_call_statement))]
pub(crate) fn copy_call(
    alloc: Global,
    place: Place,
    name: Identifier,
    arguments: &[Expr],
    receivers: &[Reference],
) -> Result<Basic, AllocError>
    ensures { IfOk result (λ copied. seen_basic copied ≡ Call place (seen_name name) (expressions (map seen_expression arguments.now)) (map seen_reference receivers.now)) }
{
    let arguments = copy_expressions(alloc, arguments);
    let (arguments, receivers) = both(arguments, copy_references(alloc, receivers))?;
    Ok(Basic::Call {
        place,
        name,
        arguments,
        receivers,
    })
}

/// A READ like this one.
#[tactic(auto, using(hal_tree::proofs::MadeStatements::made_read))]
pub(crate) fn copy_read(
    alloc: Global,
    place: Place,
    channel: &Expr,
    receivers: &[Reference],
) -> Result<Basic, AllocError>
    ensures { IfOk result (λ copied. seen_basic copied ≡ Read place (seen_expression channel.now) (map seen_reference receivers.now)) }
{
    let channel = copy_expression(alloc, channel);
    let (channel, receivers) = both(channel, copy_references(alloc, receivers))?;
    Ok(Basic::Read {
        place,
        channel,
        receivers,
    })
}

/// A WRITE like this one.
#[tactic(auto, using(hal_tree::proofs::MadeStatements::made_write))]
pub(crate) fn copy_write(
    alloc: Global,
    place: Place,
    channel: &Expr,
    items: &[Expr],
) -> Result<Basic, AllocError>
    ensures { IfOk result (λ copied. seen_basic copied ≡ Write place (seen_expression channel.now) (expressions (map seen_expression items.now))) }
{
    let channel = copy_expression(alloc, channel);
    let (channel, items) = both(channel, copy_expressions(alloc, items))?;
    Ok(Basic::Write {
        place,
        channel,
        items,
    })
}
