//! Which expressions are conditions, and how bits become some.

ghost use Rattle.std.specs.Prelude.{◌≡◌, map};
ghost use Rattle.hal_tree.specs.Rows.{expressions};
ghost use Rattle.hal_tree.specs.SeenExpressions.{seen_expression};
ghost use Rattle.hal_meaning.specs.Expressions as meaning;
ghost use Rattle.hal_gen_expr.specs.Emits.{Emits};
ghost use Rattle.hal_gen_expr.specs.ExpressionCode as codes;

use crate::leaves::{emit_two, two};
use crate::uncoded::Uncoded;
use hal_base::Place;
use hal_code::Instr;
use hal_operations::Op2;
use hal_tree::Expr;

/// Whether an expression is a condition: a comparison, or what is made of some (language document, Expressions).
#[cycle(conditions)]
#[tactic(auto, using(hal_tree::proofs::MadeExpressions::made_or, hal_tree::proofs::MadeExpressions::made_and, hal_tree::proofs::MadeExpressions::made_compare, hal_tree::proofs::MadeExpressions::made_cat, hal_tree::proofs::MadeExpressions::made_sum, hal_tree::proofs::MadeExpressions::made_product, hal_tree::proofs::MadeExpressions::made_power, hal_tree::proofs::MadeExpressions::made_not, hal_tree::proofs::MadeExpressions::made_literal, hal_tree::proofs::MadeExpressions::made_decimal, hal_tree::proofs::MadeExpressions::made_referred, hal_tree::proofs::MadeExpressions::made_call, hal_tree::proofs::MadeExpressions::made_convert, hal_tree::proofs::MadeExpressions::made_parenthesis))]
pub(crate) fn is_condition(tree: &Expr) -> bool
    ensures { result ≡ meaning.is_condition (seen_expression tree.now) }
{
    match tree {
        Expr::Or { first, others, .. } => is_condition(first) || are_conditions(others),
        Expr::And { first, others, .. } => is_condition(first) || are_conditions(others),
        Expr::Compare { .. } => true,
        Expr::Parenthesis { inner, .. } => is_condition(inner),
        Expr::Cat { .. } => false,
        Expr::Sum { .. } => false,
        Expr::Product { .. } => false,
        Expr::Power { .. } => false,
        Expr::Not { .. } => false,
        Expr::Literal { .. } => false,
        Expr::Decimal { .. } => false,
        Expr::Reference(_) => false,
        Expr::Call { .. } => false,
        Expr::Convert { .. } => false,
    }
}

/// Whether some of these are.
#[cycle(conditions)]
#[tactic(auto, unfolding(hal_tree::specs::Rows::expressions))]
fn are_conditions(trees: &[Expr]) -> bool
    ensures { result ≡ meaning.are_conditions (expressions (map seen_expression trees.now)) }
{
    for tree in trees {
        if is_condition(tree) {
            return true;
        }
    }
    false
}

/// Adds what makes bits a condition, where they become one: they are compared with a zero.
fn emit_where(code: &mut Vec<Instr>, place: Place, becomes: bool) -> Result<(), Uncoded>
    ensures { Emits (codes.operand_code code.old.items place becomes) result code.new.items }
{
    if becomes {
        let zero = Instr::Bits { len: 1, word: 0 };
        emit_two(code, place, Some(zero), two(Op2::NotEqual))
    } else {
        Ok(())
    }
}

/// Adds what makes an operand of AND or OR a condition, where the value before it is one and it is none (language document, Expressions).
pub(crate) fn emit_operand(
    code: &mut Vec<Instr>,
    place: Place,
    condition: bool,
    operand: &Expr,
) -> Result<(), Uncoded>
    ensures { Emits (codes.operand_code code.old.items place (meaning.becomes_condition condition (seen_expression operand.now))) result code.new.items }
{
    emit_where(code, place, condition && !is_condition(operand))
}

/// Adds what makes the value before an operand of AND or OR a condition, where the operand is one and the value is none (language document, Expressions).
pub(crate) fn emit_before_operand(
    code: &mut Vec<Instr>,
    place: Place,
    condition: bool,
    operand: &Expr,
) -> Result<(), Uncoded>
    ensures { Emits (codes.operand_code code.old.items place (meaning.makes_condition condition (seen_expression operand.now))) result code.new.items }
{
    emit_where(code, place, is_condition(operand) && !condition)
}
