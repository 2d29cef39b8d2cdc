//! Rows of operands: with OR, AND or CAT between them, or factors one after another.

ghost use Rattle.std.specs.Prelude.{◌≡◌, map, IfOk};
ghost use Rattle.hal_tree.specs.SeenExpressions.{seen_expression};
ghost use Rattle.hal_parse_expr.specs.ReadingExpressions.{expressions, row_of};
ghost use Rattle.hal_parse_expr.specs.Joints.{make_of};

use hal_base::Place;
use hal_tree::Expr;
use std::alloc::{AllocError, Global};

/// What stands between the operands of a row.
#[derive(Clone, Copy)]
pub(crate) enum Joint {
    Or,
    And,
    Cat,
    /// Nothing: a product.
    Product,
}

/// A row of two operands at least.
#[tactic(auto, using(hal_tree::proofs::MadeExpressions::made_or, hal_tree::proofs::MadeExpressions::made_and, hal_tree::proofs::MadeExpressions::made_cat, hal_tree::proofs::MadeExpressions::made_product), unfolding(crate::specs::Joints::make_of))]
fn node(joint: Joint, place: Place, first: Box<Expr>, others: Vec<Expr>) -> Expr
    ensures { seen_expression result ≡ make_of joint place (seen_expression first.value) (expressions (map seen_expression others.items)) }
{
    match joint {
        Joint::Or => Expr::Or {
            place,
            first,
            others,
        },
        Joint::And => Expr::And {
            place,
            first,
            others,
        },
        Joint::Cat => Expr::Cat {
            place,
            first,
            others,
        },
        Joint::Product => Expr::Product {
            place,
            first,
            others,
        },
    }
}

/// One operand, or the row that it begins.
#[tactic(auto, using(crate::proofs::RowsMade::row_alone, crate::proofs::RowsMade::row_more))]
pub(crate) fn row(
    alloc: Global,
    joint: Joint,
    first: Expr,
    others: Vec<Expr>,
) -> Result<Expr, AllocError>
    ensures { IfOk result (λ whole. seen_expression whole ≡ row_of (make_of joint) (seen_expression first) (map seen_expression others.items)) }
{
    if others.is_empty() {
        return Ok(first);
    }
    let place = first.place();
    let first = Box::new(alloc, first)?;
    Ok(node(joint, place, first, others))
}
