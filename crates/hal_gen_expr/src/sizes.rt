//! The code of SIZE.

ghost use Rattle.std.specs.Prelude.{◌≡◌, map};
ghost use Rattle.hal_tree.specs.Rows.{expressions};
ghost use Rattle.hal_tree.specs.SeenExpressions.{seen_expression, seen_reference};
ghost use Rattle.hal_tree.specs.SeenLeaves.{seen_name};
ghost use Rattle.hal_storage.specs.elements.SeenComponents.{seen_shape};
ghost use Rattle.hal_meaning.specs.Expressions as meaning;
ghost use Rattle.hal_storage.specs.referents.SeenReferents.{seen_meant, seen_referent};
ghost use Rattle.hal_gen_expr.specs.Emits.{Emits};
ghost use Rattle.hal_gen_expr.specs.ExpressionCode as codes;
ghost use Rattle.hal_gen_expr.specs.SeenSites.{seen_site, IsSite};
ghost use Rattle.hal_gen_expr.specs.Sizes as sizing;

use crate::elements::sizes_reached;
use crate::leaves::{emit_one, integer_instr};
use crate::names::referent;
use crate::site::Site;
use crate::uncoded::Uncoded;
use hal_base::Place;
use hal_code::Instr;
use hal_storage::elements::Shape;
use hal_storage::referents::{Meant, Referent};
use hal_tree::{Expr, Identifier, Reference};

/// SIZE of data of this shape, whose array has these sizes: the size of its first dimension, or how many copies they have.
fn size_of(shape: &Shape, sizes: &[u16]) -> u16
    ensures { result ≡ meaning.size_of (seen_shape shape.now) sizes.now }
{
    match sizes.split_first() {
        Some((first, _)) => *first,
        None => shape.copies.unwrap_or(1),
    }
}

/// SIZE of data of this shape, to which names lead.
fn size_of_shape(path: &[Identifier], shape: &Shape) -> u16
    ensures { result ≡ meaning.size_of (seen_shape shape.now) (meaning.sizes_reached (map seen_name path.now) (seen_shape shape.now).components) }
{
    size_of(shape, sizes_reached(path, &shape.components))
}

/// SIZE of what a phrase declares, to which names lead.
fn size_declared(path: &[Identifier], referent: &Referent) -> u16
    ensures { result ≡ sizing.size_referred (map seen_name path.now) (seen_referent referent.now) }
{
    match referent {
        Referent::Data { shape, .. } => size_of_shape(path, shape),
        Referent::Constant(_) => 0,
        Referent::Event(_) => 0,
        Referent::Block(_) => 0,
        Referent::Nothing => 0,
    }
}

/// SIZE of what a name means, to which further names lead.
fn size_meant(path: &[Identifier], meant: Meant<'_>) -> u16
    ensures { result ≡ sizing.size_referred (map seen_name path.now) (seen_meant meant.entry) }
{
    match meant {
        Meant::Declared(referent) => size_declared(path, referent),
        Meant::Builtin(_) => 0,
        Meant::Nothing => 0,
    }
}

/// SIZE of a reference, whose subscripts are not evaluated.
#[tactic(auto, using(hal_tree::proofs::MadeExpressions::made_reference))]
fn size_of_reference(reference: &Reference, site: &Site<'_>) -> u16
    requires site { IsSite site.now }
    ensures { result ≡ sizing.size_of_reference (seen_site site.now) (seen_reference reference.now) }
{
    size_meant(&reference.further, referent(site, &reference.name))
}

/// SIZE of an argument.
#[tactic(auto, using(hal_tree::proofs::MadeExpressions::made_or, hal_tree::proofs::MadeExpressions::made_and, hal_tree::proofs::MadeExpressions::made_compare, hal_tree::proofs::MadeExpressions::made_cat, hal_tree::proofs::MadeExpressions::made_sum, hal_tree::proofs::MadeExpressions::made_product, hal_tree::proofs::MadeExpressions::made_power, hal_tree::proofs::MadeExpressions::made_not, hal_tree::proofs::MadeExpressions::made_literal, hal_tree::proofs::MadeExpressions::made_decimal, hal_tree::proofs::MadeExpressions::made_referred, hal_tree::proofs::MadeExpressions::made_call, hal_tree::proofs::MadeExpressions::made_convert, hal_tree::proofs::MadeExpressions::made_parenthesis))]
fn size_of_argument(tree: &Expr, site: &Site<'_>) -> u16
    requires site { IsSite site.now }
    ensures { result ≡ sizing.size_of_argument (seen_site site.now) (seen_expression tree.now) }
{
    match tree {
        Expr::Reference(reference) => size_of_reference(reference, site),
        Expr::Or { .. } => 0,
        Expr::And { .. } => 0,
        Expr::Compare { .. } => 0,
        Expr::Cat { .. } => 0,
        Expr::Sum { .. } => 0,
        Expr::Product { .. } => 0,
        Expr::Power { .. } => 0,
        Expr::Not { .. } => 0,
        Expr::Literal { .. } => 0,
        Expr::Decimal { .. } => 0,
        Expr::Call { .. } => 0,
        Expr::Convert { .. } => 0,
        Expr::Parenthesis { .. } => 0,
    }
}

/// SIZE of the first of arguments.
#[tactic(auto, unfolding(hal_tree::specs::Rows::expressions))]
fn size_of_arguments(arguments: &[Expr], site: &Site<'_>) -> u16
    requires site { IsSite site.now }
    ensures { result ≡ sizing.size_of_arguments (seen_site site.now) (expressions (map seen_expression arguments.now)) }
{
    match arguments.split_first() {
        None => 0,
        Some((first, _)) => size_of_argument(first, site),
    }
}

/// Adds SIZE of the first of arguments (language document, Operations).
pub(crate) fn emit_size(
    code: &mut Vec<Instr>,
    place: Place,
    arguments: &[Expr],
    site: &Site<'_>,
) -> Result<(), Uncoded>
    requires site { IsSite site.now }
    ensures { Emits (codes.size_code (seen_site site.now) code.old.items place (expressions (map seen_expression arguments.now))) result code.new.items }
{
    let size = size_of_arguments(arguments, site);
    match integer_instr(u32::from(size)) {
        None => Err(Uncoded::At(place)),
        Some(instr) => emit_one(code, place, instr),
    }
}
