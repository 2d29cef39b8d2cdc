//! Times, and WAIT of them.

ghost use Rattle.std.specs.Prelude.{◌≡◌, IfOk};
ghost use Rattle.hal_tree.specs.SeenExpressions.{seen_expression};
ghost use Rattle.hal_code.specs.declared.operand.Delay.TheVariants as delay;
ghost use Rattle.hal_gen_expr.specs.Emits.{Emits};
ghost use Rattle.hal_gen_expr.specs.SeenSites.{seen_site, seen_numbering, IsSite};
ghost use Rattle.hal_gen.specs.Leaves as leaves;
ghost use Rattle.hal_gen.specs.Timing as timing;

use crate::sizes::expression_size;
use hal_base::Place;
use hal_code::{Delay, Instr, Time};
use hal_gen_expr::{Site, Uncoded, emit_expression, emit_one};
use hal_tree::Expr;
use std::alloc::AllocError;

/// A time that is written as a decimal, in milliseconds.
#[tactic(auto, using(hal_tree::proofs::MadeExpressions::made_or, hal_tree::proofs::MadeExpressions::made_and, hal_tree::proofs::MadeExpressions::made_compare, hal_tree::proofs::MadeExpressions::made_cat, hal_tree::proofs::MadeExpressions::made_sum, hal_tree::proofs::MadeExpressions::made_product, hal_tree::proofs::MadeExpressions::made_power, hal_tree::proofs::MadeExpressions::made_not, hal_tree::proofs::MadeExpressions::made_literal, hal_tree::proofs::MadeExpressions::made_decimal, hal_tree::proofs::MadeExpressions::made_referred, hal_tree::proofs::MadeExpressions::made_call, hal_tree::proofs::MadeExpressions::made_convert, hal_tree::proofs::MadeExpressions::made_parenthesis))]
fn decimal_of(tree: &Expr) -> Option<u64>
    ensures { result ≡ leaves.decimal_of (seen_expression tree.now) }
{
    match tree {
        Expr::Decimal {
            place: _,
            thousandths,
        } => Some(*thousandths),
        Expr::Or { .. } => None,
        Expr::And { .. } => None,
        Expr::Compare { .. } => None,
        Expr::Cat { .. } => None,
        Expr::Sum { .. } => None,
        Expr::Product { .. } => None,
        Expr::Power { .. } => None,
        Expr::Not { .. } => None,
        Expr::Literal { .. } => None,
        Expr::Reference(_) => None,
        Expr::Call { .. } => None,
        Expr::Convert { .. } => None,
        Expr::Parenthesis { .. } => None,
    }
}

/// A time as an operand: one that is written as a decimal stands in the instruction, all others are on the stack, in seconds.
pub(crate) fn time_operand(tree: &Expr) -> Time
    ensures { result ≡ timing.time_operand (seen_expression tree.now) }
{
    match decimal_of(tree) {
        None => Time::Seconds,
        Some(number) => Time::Milliseconds(number),
    }
}

/// Adds what is evaluated for a time.
pub(crate) fn emit_time(tree: &Expr, code: &mut Vec<Instr>, site: &Site<'_>) -> Result<(), Uncoded>
    requires site { IsSite site.now }
    ensures { Emits (timing.time_code (seen_numbering site.now) (seen_site site.now) code.old.items (seen_expression tree.now)) result code.new.items }
{
    match decimal_of(tree) {
        None => emit_expression(tree, code, site),
        Some(_) => Ok(()),
    }
}

/// How many instructions these are.
pub(crate) fn time_size(tree: &Expr, site: &Site<'_>) -> Result<usize, AllocError>
    requires site { IsSite site.now }
    ensures { IfOk result (λ size. size ≡ timing.time_size (seen_numbering site.now) (seen_site site.now) (seen_expression tree.now)) }
{
    match decimal_of(tree) {
        None => expression_size(tree, site),
        Some(_) => Ok(0),
    }
}

/// Adds WAIT (language document, Statements).
pub(crate) fn emit_wait(
    time: &Expr,
    code: &mut Vec<Instr>,
    site: &Site<'_>,
    place: Place,
) -> Result<(), Uncoded>
    requires site { IsSite site.now }
    ensures { Emits (timing.pause_code (seen_numbering site.now) (seen_site site.now) code.old.items place delay.For (seen_expression time.now)) result code.new.items }
{
    emit_time(time, code, site)?;
    emit_one(code, place, Instr::Wait(Delay::For(time_operand(time))))
}

/// Adds WAIT UNTIL (language document, Statements).
pub(crate) fn emit_wait_until(
    time: &Expr,
    code: &mut Vec<Instr>,
    site: &Site<'_>,
    place: Place,
) -> Result<(), Uncoded>
    requires site { IsSite site.now }
    ensures { Emits (timing.pause_code (seen_numbering site.now) (seen_site site.now) code.old.items place delay.Until (seen_expression time.now)) result code.new.items }
{
    emit_time(time, code, site)?;
    emit_one(code, place, Instr::Wait(Delay::Until(time_operand(time))))
}
