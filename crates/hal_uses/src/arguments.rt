//! Arguments of built-in functions, and conditions among arguments.

ghost use Rattle.std.specs.Prelude.{◌≡◌, map};
ghost use Rattle.hal_tree.specs.Rows.{expressions};
ghost use Rattle.hal_tree.specs.SeenExpressions.{seen_expression, seen_reference};
ghost use Rattle.hal_names.specs.SeenNames.{seen_names};
ghost use Rattle.hal_scope.specs.Builtins.{form_of};
ghost use Rattle.hal_uses.specs.Calls as calls;

use crate::signature::Signature;
use hal_base::Place;
use hal_base::rules::{
    ARRAY_FUNCTION_LEFT_OUT, CONDITION_AS_VALUE, WRONG_ARGUMENTS, WRONG_KIND_OF_OPERAND,
};
use hal_kinds::{Class, chosen, class_of, data_named, has_copies_left};
use hal_names::Names;
use hal_operands::{Want, misfit_at};
use hal_scope::{Builtin, Form, builtin_named};
use hal_tree::{Expr, Reference};
use hal_words::Name;

/// Two arguments.
fn two_faults(
    names: &Names<'_>,
    block: usize,
    wants: (Want, Want),
    first: &Expr,
    second: &Expr,
) -> Option<(u16, Place)>
    ensures { result ≡ calls.two_faults (seen_names names.now) block wants.0 wants.1 (seen_expression first.now) (seen_expression second.now) }
{
    let fault = misfit_at(names, block, wants.0, first);
    if fault.is_some() {
        return fault;
    }
    misfit_at(names, block, wants.1, second)
}

/// What follows the first of two arguments.
#[tactic(auto, using(hal_kinds::proofs::Lists::none_left), unfolding(crate::specs::Calls::second_fault, hal_tree::specs::Rows::expressions))]
fn second_fault(
    names: &Names<'_>,
    block: usize,
    place: Place,
    wants: (Want, Want),
    first: &Expr,
    rest: &[Expr],
) -> Option<(u16, Place)>
    ensures { result ≡ calls.second_fault (seen_names names.now) block place wants.0 wants.1 (seen_expression first.now) (expressions (map seen_expression rest.now)) }
{
    let Some((second, others)) = rest.split_first() else {
        return Some((WRONG_ARGUMENTS, place));
    };
    if others.is_empty() {
        two_faults(names, block, wants, first, second)
    } else {
        Some((WRONG_ARGUMENTS, place))
    }
}

/// One argument.
#[tactic(auto, using(hal_kinds::proofs::Lists::none_left))]
fn one_fault(
    names: &Names<'_>,
    block: usize,
    place: Place,
    want: Want,
    first: &Expr,
    rest: &[Expr],
) -> Option<(u16, Place)>
    ensures { result ≡ calls.one_fault (seen_names names.now) block place want (seen_expression first.now) (expressions (map seen_expression rest.now)) }
{
    if rest.is_empty() {
        misfit_at(names, block, want, first)
    } else {
        Some((WRONG_ARGUMENTS, place))
    }
}

/// Arguments of a built-in function: another number than it takes, or the first one that isn't what it takes.
#[tactic(auto, unfolding(crate::specs::Calls::listed_fault, hal_tree::specs::Rows::expressions))]
fn listed_fault(
    names: &Names<'_>,
    block: usize,
    place: Place,
    signature: Signature,
    arguments: &[Expr],
) -> Option<(u16, Place)>
    ensures { result ≡ calls.listed_fault (seen_names names.now) block place signature.first signature.second (expressions (map seen_expression arguments.now)) }
{
    let Some((first, rest)) = arguments.split_first() else {
        return Some((WRONG_ARGUMENTS, place));
    };
    match signature.second {
        None => one_fault(names, block, place, signature.first, first, rest),
        Some(want) => second_fault(names, block, place, (signature.first, want), first, rest),
    }
}

/// Whether a reference is a structure of which several copies are left.
#[tactic(auto, using(hal_tree::proofs::MadeExpressions::made_reference), unfolding(crate::specs::Calls::has_copies_of))]
fn has_copies_of(names: &Names<'_>, block: usize, reference: &Reference) -> bool
    ensures { result ≡ calls.has_copies_of (seen_names names.now) block (seen_reference reference.now) }
{
    match data_named(names, block, &reference.name, &reference.further) {
        None => false,
        Some(found) => has_copies_left(found, chosen(found, &reference.subscript)),
    }
}

/// The same of an expression.
#[tactic(auto, using(hal_tree::proofs::MadeExpressions::made_or, hal_tree::proofs::MadeExpressions::made_and, hal_tree::proofs::MadeExpressions::made_compare, hal_tree::proofs::MadeExpressions::made_cat, hal_tree::proofs::MadeExpressions::made_sum, hal_tree::proofs::MadeExpressions::made_product, hal_tree::proofs::MadeExpressions::made_power, hal_tree::proofs::MadeExpressions::made_not, hal_tree::proofs::MadeExpressions::made_literal, hal_tree::proofs::MadeExpressions::made_decimal, hal_tree::proofs::MadeExpressions::made_referred, hal_tree::proofs::MadeExpressions::made_call, hal_tree::proofs::MadeExpressions::made_convert, hal_tree::proofs::MadeExpressions::made_parenthesis), unfolding(crate::specs::Calls::is_copied))]
fn is_copied(names: &Names<'_>, block: usize, tree: &Expr) -> bool
    ensures { result ≡ calls.is_copied (seen_names names.now) block (seen_expression tree.now) }
{
    match tree {
        Expr::Reference(reference) => has_copies_of(names, block, reference),
        Expr::Or { .. } => false,
        Expr::And { .. } => false,
        Expr::Compare { .. } => false,
        Expr::Cat { .. } => false,
        Expr::Sum { .. } => false,
        Expr::Product { .. } => false,
        Expr::Power { .. } => false,
        Expr::Not { .. } => false,
        Expr::Literal { .. } => false,
        Expr::Decimal { .. } => false,
        Expr::Call { .. } => false,
        Expr::Convert { .. } => false,
        Expr::Parenthesis { .. } => false,
    }
}

/// The rule that the argument of SIZE breaks: it takes an array or copies.
#[tactic(auto, unfolding(crate::specs::Calls::misfit_of_size))]
fn misfit_of_size(copied: bool, class: Class) -> Option<u16>
    ensures { result ≡ calls.misfit_of_size copied class }
{
    match class {
        Class::Array => None,
        Class::Structure => {
            if copied {
                None
            } else {
                Some(WRONG_KIND_OF_OPERAND)
            }
        }
        Class::Condition => Some(CONDITION_AS_VALUE),
        _ => Some(WRONG_KIND_OF_OPERAND),
    }
}

/// The argument of SIZE.
fn size_misfit(names: &Names<'_>, block: usize, tree: &Expr) -> Option<(u16, Place)>
    ensures { result ≡ calls.size_misfit (seen_names names.now) block (seen_expression tree.now) }
{
    let class = class_of(tree, names, block)?;
    let rule = misfit_of_size(is_copied(names, block, tree), class)?;
    Some((rule, tree.place()))
}

/// The argument of SIZE, where it is the only one.
#[tactic(auto, using(hal_kinds::proofs::Lists::none_left), unfolding(crate::specs::Calls::sized, hal_tree::specs::Rows::expressions))]
fn sized(names: &Names<'_>, block: usize, arguments: &[Expr]) -> Option<(u16, Place)>
    ensures { result ≡ calls.sized (seen_names names.now) block (expressions (map seen_expression arguments.now)) }
{
    let (tree, others) = arguments.split_first()?;
    if others.is_empty() {
        size_misfit(names, block, tree)
    } else {
        None
    }
}

/// The same, where this is SIZE.
#[tactic(auto, unfolding(crate::specs::Calls::size_fault))]
fn size_fault(
    names: &Names<'_>,
    block: usize,
    builtin: Builtin,
    arguments: &[Expr],
) -> Option<(u16, Place)>
    ensures { result ≡ calls.size_fault (seen_names names.now) block builtin (expressions (map seen_expression arguments.now)) }
{
    match builtin {
        Builtin::Size => sized(names, block, arguments),
        _ => None,
    }
}

/// The call form of a built-in function with a list.
fn list_fault(
    names: &Names<'_>,
    block: usize,
    place: Place,
    builtin: Builtin,
    arguments: &[Expr],
) -> Option<(u16, Place)>
    ensures { result ≡ calls.list_fault (seen_names names.now) block place builtin (expressions (map seen_expression arguments.now)) }
{
    let fault = listed_fault(names, block, place, Signature::of(builtin), arguments);
    if fault.is_some() {
        return fault;
    }
    size_fault(names, block, builtin, arguments)
}

/// The call form of a built-in function.
#[tactic(auto, unfolding(crate::specs::Calls::formed_fault))]
fn formed_fault(
    names: &Names<'_>,
    block: usize,
    place: Place,
    builtin: Builtin,
    arguments: &[Expr],
) -> Option<(u16, Place)>
    ensures { result ≡ calls.formed_fault (seen_names names.now) block place builtin (form_of builtin) (expressions (map seen_expression arguments.now)) }
{
    match builtin.form() {
        Form::Alone => Some((WRONG_ARGUMENTS, place)),
        Form::Arrayed => Some((ARRAY_FUNCTION_LEFT_OUT, place)),
        Form::Listed => list_fault(names, block, place, builtin, arguments),
    }
}

/// The call form of a name that isn't declared.
pub(crate) fn builtin_fault(
    names: &Names<'_>,
    block: usize,
    place: Place,
    name: &Name,
    arguments: &[Expr],
) -> Option<(u16, Place)>
    ensures { result ≡ calls.builtin_fault (seen_names names.now) block place name.now (expressions (map seen_expression arguments.now)) }
{
    let builtin = builtin_named(name)?;
    formed_fault(names, block, place, builtin, arguments)
}

/// Whether this is a condition.
#[tactic(auto, unfolding(crate::specs::Calls::is_condition))]
fn is_condition(class: Option<Class>) -> bool
    ensures { result ≡ calls.is_condition class }
{
    match class {
        Some(Class::Condition) => true,
        _ => false,
    }
}

/// The first argument that is a condition.
#[tactic(auto, unfolding(crate::specs::Calls::condition_fault, hal_tree::specs::Rows::expressions))]
pub(crate) fn condition_fault(
    names: &Names<'_>,
    block: usize,
    arguments: &[Expr],
) -> Option<(u16, Place)>
    ensures { result ≡ calls.condition_fault (seen_names names.now) block (expressions (map seen_expression arguments.now)) }
{
    for tree in arguments {
        if is_condition(class_of(tree, names, block)) {
            return Some((CONDITION_AS_VALUE, tree.place()));
        }
    }
    None
}
