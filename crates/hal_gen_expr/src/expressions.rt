//! The code of expressions.

ghost use Rattle.std.specs.Prelude.{◌≡◌, true, map};
ghost use Rattle.hal_tree.specs.Rows.{expressions, terms};
ghost use Rattle.hal_tree.specs.SeenExpressions.{seen_expression, seen_signed};
ghost use Rattle.hal_tree.specs.SeenLeaves.{seen_conversion, seen_literal, seen_name};
ghost use Rattle.hal_constants.specs.declared.operation.Operation.TheVariants as operation;
ghost use Rattle.hal_meaning.specs.Expressions as meaning;
ghost use Rattle.hal_storage.specs.referents.Referents.{BuiltinOf};
ghost use Rattle.hal_storage.specs.referents.SeenReferents.{seen_meant, seen_referent};
ghost use Rattle.hal_gen_expr.specs.Called as called;
ghost use Rattle.hal_gen_expr.specs.Calling as calling;
ghost use Rattle.hal_gen_expr.specs.Emits.{Emits};
ghost use Rattle.hal_gen_expr.specs.ExpressionCode as codes;
ghost use Rattle.hal_gen_expr.specs.Leaves as leaves;
ghost use Rattle.hal_gen_expr.specs.SeenSites.{seen_site, seen_numbering, IsSite};

use crate::calls::{emit_call, inputs_at, is_whole_parameter, lacks_names, require_call, runs_in};
use crate::conditions::{emit_before_operand, emit_operand, is_condition};
use crate::leaves::{
    emit_any, emit_one, emit_sign, emit_two, exponent_instr, literal_instr, one,
    operation_of_relation, two,
};
use crate::names::{emit_value, referent};
use crate::references::{emit_area, emit_reference};
use crate::site::Site;
use crate::sizes::emit_size;
use crate::uncoded::Uncoded;
use hal_base::Place;
use hal_code::{Instr, Run};
use hal_constants::{Operation, operation_of, operation_of_conversion, operation_of_sign};
use hal_operations::{Op1, Op2};
use hal_scope::Builtin;
use hal_storage::referents::{Meant, Referent};
use hal_tree::{Conversion, Expr, Identifier, LiteralValue, SignedTerm};
use hal_values::Kind;

/// Whether a built-in function is SIZE.
fn is_size(builtin: Builtin) -> bool
    ensures { result ≡ meaning.is_size builtin }
{
    match builtin {
        Builtin::Size => true,
        _ => false,
    }
}

/// Whether there are no more expressions.
#[tactic(auto, unfolding(hal_tree::specs::Rows::expressions))]
fn ends(trees: &[Expr]) -> bool
    ensures { result ≡ codes.ends (expressions (map seen_expression trees.now)) }
{
    match trees.split_first() {
        None => true,
        Some(_) => false,
    }
}

/// What a name with a list is.
#[derive(Clone, Copy)]
enum Form {
    /// A product of the name's value and the list.
    Multiplied,
    /// An operation of one argument.
    One(Op1),
    /// An operation of two arguments.
    Two(Op2),
    /// SIZE.
    Size,
    /// A call of the FUNCTION with this number.
    Called(usize),
    /// Nothing that has code yet.
    Uncoded,
}

/// What a name is before a list that refers to this declaration.
fn declared_form(referent: &Referent) -> Form
    ensures { result ≡ called.form_of (seen_referent referent.now) }
{
    match referent {
        Referent::Data { .. } => Form::Multiplied,
        Referent::Constant(_) => Form::Multiplied,
        Referent::Event(_) => Form::Uncoded,
        Referent::Block(unit) => Form::Called(*unit),
        Referent::Nothing => Form::Uncoded,
    }
}

/// What a built-in function is before a list.
fn builtin_form(builtin: Builtin) -> Form
    ensures { result ≡ called.form_of (BuiltinOf builtin) }
{
    if is_size(builtin) {
        return Form::Size;
    }
    match operation_of(builtin) {
        Operation::One(op) => Form::One(op),
        Operation::Two(op) => Form::Two(op),
        Operation::Size => Form::Uncoded,
        Operation::Nothing => Form::Uncoded,
    }
}

/// What a name is before a list.
fn form_of(meant: Meant<'_>) -> Form
    ensures { result ≡ called.form_of (seen_meant meant.entry) }
{
    match meant {
        Meant::Declared(referent) => declared_form(referent),
        Meant::Builtin(builtin) => builtin_form(builtin),
        Meant::Nothing => Form::Uncoded,
    }
}

/// The instruction of a conversion.
#[tactic(auto, unfolding(hal_constants::specs::Constants::operation_of_conversion))]
fn converts(conversion: Conversion) -> Instr
    ensures { result ≡ codes.one (meaning.operation_of_conversion (seen_conversion conversion)) }
{
    one(operation_of_conversion(conversion))
}

/// Adds the code of a literal.
fn emit_literal(code: &mut Vec<Instr>, place: Place, literal: LiteralValue) -> Result<(), Uncoded>
    ensures { Emits (codes.emit_any code.old.items place (codes.literal_instr (seen_literal literal))) result code.new.items }
{
    let instr = literal_instr(*code.allocator(), literal)?;
    emit_any(code, place, instr)
}

/// Adds the code of an expression, which leaves its value on the stack, or tells the place of the first part of it that has none yet (image document, Code
/// that stands for a set).
#[cycle(expressions)]
#[tactic(auto, using(hal_tree::proofs::MadeExpressions::made_or, hal_tree::proofs::MadeExpressions::made_and, hal_tree::proofs::MadeExpressions::made_compare, hal_tree::proofs::MadeExpressions::made_cat, hal_tree::proofs::MadeExpressions::made_sum, hal_tree::proofs::MadeExpressions::made_product, hal_tree::proofs::MadeExpressions::made_power, hal_tree::proofs::MadeExpressions::made_not, hal_tree::proofs::MadeExpressions::made_literal, hal_tree::proofs::MadeExpressions::made_decimal, hal_tree::proofs::MadeExpressions::made_referred, hal_tree::proofs::MadeExpressions::made_call, hal_tree::proofs::MadeExpressions::made_convert, hal_tree::proofs::MadeExpressions::made_parenthesis, crate::proofs::Formed::called_formed))]
pub fn emit_expression(tree: &Expr, code: &mut Vec<Instr>, site: &Site<'_>) -> Result<(), Uncoded>
    requires site { IsSite site.now }
    ensures { Emits (codes.expression_code (seen_numbering site.now) (seen_site site.now) code.old.items (seen_expression tree.now)) result code.new.items }
{
    match tree {
        Expr::Or {
            place,
            first,
            others,
        } => {
            emit_expression(first, code, site)?;
            emit_joined(others, code, site, *place, Op2::Or, is_condition(first))
        }
        Expr::And {
            place,
            first,
            others,
        } => {
            emit_expression(first, code, site)?;
            emit_joined(others, code, site, *place, Op2::And, is_condition(first))
        }
        Expr::Compare {
            place,
            left,
            relation,
            right,
        } => {
            emit_expression(left, code, site)?;
            emit_expression(right, code, site)?;
            emit_one(code, *place, two(operation_of_relation(*relation)))
        }
        Expr::Cat {
            place,
            first,
            others,
        } => {
            emit_expression(first, code, site)?;
            emit_folded(others, code, site, *place, Op2::Cat)
        }
        Expr::Sum {
            place,
            opening,
            first,
            others,
        } => {
            emit_expression(first, code, site)?;
            emit_sign(code, *place, *opening)?;
            emit_terms(others, code, site)
        }
        Expr::Product {
            place,
            first,
            others,
        } => {
            emit_expression(first, code, site)?;
            emit_folded(others, code, site, *place, Op2::Product)
        }
        Expr::Power {
            place,
            base,
            exponent,
        } => {
            emit_expression(base, code, site)?;
            emit_two(code, *place, exponent_instr(exponent), two(Op2::Power))
        }
        Expr::Not { place, operand } => {
            emit_expression(operand, code, site)?;
            emit_one(code, *place, one(Op1::Not))
        }
        Expr::Literal { place, literal } => emit_literal(code, *place, literal.value()),
        Expr::Decimal { place, .. } => Err(Uncoded::At(*place)),
        Expr::Reference(reference) => emit_reference(reference, code, site),
        Expr::Call {
            place,
            name,
            arguments,
        } => match form_of(referent(site, name)) {
            Form::Multiplied => {
                emit_value(code, site, *place, &[], referent(site, name))?;
                emit_folded(arguments, code, site, *place, Op2::Product)
            }
            Form::One(op) => emit_of_one(arguments, code, site, *place, op),
            Form::Two(op) => emit_of_two(arguments, code, site, *place, op),
            Form::Size => emit_size(code, *place, arguments, site),
            Form::Called(unit) => emit_called(arguments, code, site, *place, unit),
            Form::Uncoded => Err(Uncoded::At(*place)),
        },
        Expr::Convert {
            place,
            conversion,
            operand,
        } => {
            emit_expression(operand, code, site)?;
            emit_one(code, *place, converts(*conversion))
        }
        Expr::Parenthesis { inner, .. } => emit_expression(inner, code, site),
    }
}

/// Adds the code of operands of AND or OR behind a value, which is a condition or not, each with the operation.
#[cycle(expressions)]
#[tactic(auto, unfolding(hal_tree::specs::Rows::expressions))]
fn emit_joined(
    trees: &Vec<Expr>,
    code: &mut Vec<Instr>,
    site: &Site<'_>,
    place: Place,
    op: Op2,
    condition: bool,
) -> Result<(), Uncoded>
    requires site { IsSite site.now }
    ensures { Emits (codes.joined_code (seen_numbering site.now) (seen_site site.now) code.old.items place op condition (expressions (map seen_expression trees.now.items))) result code.new.items }
{
    let mut joins_condition = condition;
    for tree in trees {
        emit_before_operand(code, place, joins_condition, tree)?;
        emit_expression(tree, code, site)?;
        emit_operand(code, place, joins_condition, tree)?;
        emit_one(code, place, two(op))?;
        joins_condition = joins_condition || is_condition(tree);
    }
    Ok(())
}

/// Adds the code of operands behind a value, each with the operation.
#[cycle(expressions)]
#[tactic(auto, unfolding(hal_tree::specs::Rows::expressions))]
fn emit_folded(
    trees: &Vec<Expr>,
    code: &mut Vec<Instr>,
    site: &Site<'_>,
    place: Place,
    op: Op2,
) -> Result<(), Uncoded>
    requires site { IsSite site.now }
    ensures { Emits (codes.folded_code (seen_numbering site.now) (seen_site site.now) code.old.items place op (expressions (map seen_expression trees.now.items))) result code.new.items }
{
    for tree in trees {
        emit_expression(tree, code, site)?;
        emit_one(code, place, two(op))?;
    }
    Ok(())
}

/// Adds the code of terms behind a value.
#[cycle(expressions)]
#[tactic(auto, unfolding(hal_tree::specs::Rows::terms))]
pub(crate) fn emit_terms(
    list: &Vec<SignedTerm>,
    code: &mut Vec<Instr>,
    site: &Site<'_>,
) -> Result<(), Uncoded>
    requires site { IsSite site.now }
    ensures { Emits (codes.terms_code (seen_numbering site.now) (seen_site site.now) code.old.items (terms (map seen_signed list.now.items))) result code.new.items }
{
    for term in list {
        emit_term(term, code, site)?;
    }
    Ok(())
}

/// Adds the code of a term behind a value.
#[cycle(expressions)]
#[tactic(auto, using(hal_tree::proofs::MadeExpressions::made_signed), unfolding(hal_constants::specs::Constants::operation_of_sign))]
fn emit_term(term: &SignedTerm, code: &mut Vec<Instr>, site: &Site<'_>) -> Result<(), Uncoded>
    requires site { IsSite site.now }
    ensures { Emits (called.term_code (seen_numbering site.now) (seen_site site.now) code.old.items (seen_signed term.now)) result code.new.items }
{
    emit_expression(&term.term, code, site)?;
    emit_one(code, term.place, two(operation_of_sign(term.sign)))
}

/// Adds the code of an operation of one argument.
#[cycle(expressions)]
#[tactic(auto, unfolding(hal_tree::specs::Rows::expressions))]
fn emit_of_one(
    arguments: &Vec<Expr>,
    code: &mut Vec<Instr>,
    site: &Site<'_>,
    place: Place,
    op: Op1,
) -> Result<(), Uncoded>
    requires site { IsSite site.now }
    ensures { Emits (codes.built_code (seen_numbering site.now) (seen_site site.now) code.old.items place (operation.One op) (expressions (map seen_expression arguments.now.items))) result code.new.items }
{
    let Some((operand, others)) = arguments.split_first() else {
        return Err(Uncoded::At(place));
    };
    if !ends(others) {
        return Err(Uncoded::At(place));
    }
    emit_expression(operand, code, site)?;
    emit_one(code, place, one(op))
}

/// Adds the code of an operation of two arguments.
#[cycle(expressions)]
#[tactic(auto, unfolding(hal_tree::specs::Rows::expressions))]
fn emit_of_two(
    arguments: &Vec<Expr>,
    code: &mut Vec<Instr>,
    site: &Site<'_>,
    place: Place,
    op: Op2,
) -> Result<(), Uncoded>
    requires site { IsSite site.now }
    ensures { Emits (codes.built_code (seen_numbering site.now) (seen_site site.now) code.old.items place (operation.Two op) (expressions (map seen_expression arguments.now.items))) result code.new.items }
{
    let Some((left, others)) = arguments.split_first() else {
        return Err(Uncoded::At(place));
    };
    let Some((right, more)) = others.split_first() else {
        return Err(Uncoded::At(place));
    };
    if !ends(more) {
        return Err(Uncoded::At(place));
    }
    emit_expression(left, code, site)?;
    emit_expression(right, code, site)?;
    emit_one(code, place, two(op))
}

/// Adds the code of the address of cells of these kinds that an argument is.
#[cycle(expressions)]
#[tactic(auto, using(hal_tree::proofs::MadeExpressions::made_or, hal_tree::proofs::MadeExpressions::made_and, hal_tree::proofs::MadeExpressions::made_compare, hal_tree::proofs::MadeExpressions::made_cat, hal_tree::proofs::MadeExpressions::made_sum, hal_tree::proofs::MadeExpressions::made_product, hal_tree::proofs::MadeExpressions::made_power, hal_tree::proofs::MadeExpressions::made_not, hal_tree::proofs::MadeExpressions::made_literal, hal_tree::proofs::MadeExpressions::made_decimal, hal_tree::proofs::MadeExpressions::made_referred, hal_tree::proofs::MadeExpressions::made_call, hal_tree::proofs::MadeExpressions::made_convert, hal_tree::proofs::MadeExpressions::made_parenthesis))]
fn emit_whole(
    tree: &Expr,
    code: &mut Vec<Instr>,
    site: &Site<'_>,
    place: Place,
    runs: &[Run<Kind>],
) -> Result<(), Uncoded>
    requires site { IsSite site.now }
    ensures { Emits (codes.whole_code (seen_numbering site.now) (seen_site site.now) code.old.items place runs.now (seen_expression tree.now)) result code.new.items }
{
    match tree {
        Expr::Reference(reference) => emit_area(reference, code, site, runs),
        Expr::Or { .. } => Err(Uncoded::At(place)),
        Expr::And { .. } => Err(Uncoded::At(place)),
        Expr::Compare { .. } => Err(Uncoded::At(place)),
        Expr::Cat { .. } => Err(Uncoded::At(place)),
        Expr::Sum { .. } => Err(Uncoded::At(place)),
        Expr::Product { .. } => Err(Uncoded::At(place)),
        Expr::Power { .. } => Err(Uncoded::At(place)),
        Expr::Not { .. } => Err(Uncoded::At(place)),
        Expr::Literal { .. } => Err(Uncoded::At(place)),
        Expr::Decimal { .. } => Err(Uncoded::At(place)),
        Expr::Call { .. } => Err(Uncoded::At(place)),
        Expr::Convert { .. } => Err(Uncoded::At(place)),
        Expr::Parenthesis { .. } => Err(Uncoded::At(place)),
    }
}

/// Adds the code of the address of the cells that an argument is, for the whole parameter of this name of the unit with this number.
#[cycle(expressions)]
fn emit_whole_argument(
    tree: &Expr,
    code: &mut Vec<Instr>,
    site: &Site<'_>,
    place: Place,
    unit: usize,
    name: &Identifier,
) -> Result<(), Uncoded>
    requires site { IsSite site.now }
    ensures { Emits (calling.whole_argument_code (seen_numbering site.now) (seen_site site.now) code.old.items place unit (seen_name name.now) (seen_expression tree.now)) result code.new.items }
{
    let runs = runs_in(site, unit, name)?;
    emit_whole(tree, code, site, place, &runs)
}

/// Adds the code of an argument for the parameter of this name of the unit with this number.
#[cycle(expressions)]
fn emit_argument(
    tree: &Expr,
    code: &mut Vec<Instr>,
    site: &Site<'_>,
    place: Place,
    unit: usize,
    name: &Identifier,
) -> Result<(), Uncoded>
    requires site { IsSite site.now }
    ensures { Emits (calling.argument_code (seen_numbering site.now) (seen_site site.now) code.old.items place unit (seen_name name.now) (seen_expression tree.now)) result code.new.items }
{
    if is_whole_parameter(site, unit, name)? {
        return emit_whole_argument(tree, code, site, place, unit, name);
    }
    emit_expression(tree, code, site)
}

/// Adds the code of arguments for the input parameters of the unit with this number, from left to right.
#[cycle(expressions)]
#[tactic(auto, unfolding(hal_tree::specs::Rows::expressions))]
pub(crate) fn emit_arguments(
    arguments: &Vec<Expr>,
    code: &mut Vec<Instr>,
    site: &Site<'_>,
    place: Place,
    unit: usize,
) -> Result<(), Uncoded>
    requires site { IsSite site.now }
    ensures { Emits (codes.arguments_code (seen_numbering site.now) (seen_site site.now) code.old.items place unit (meaning.inputs_at (seen_site site.now).set unit) (expressions (map seen_expression arguments.now.items))) result code.new.items }
{
    let mut left = inputs_at(site, unit);
    for tree in arguments {
        let Some((name, more)) = left.split_first() else {
            return Err(Uncoded::At(place));
        };
        emit_argument(tree, code, site, place, unit, name)?;
        left = more;
    }
    if lacks_names(left) {
        Ok(())
    } else {
        Err(Uncoded::At(place))
    }
}

/// Adds the code of a call of the FUNCTION with this number (language document, Units).
#[cycle(expressions)]
#[tactic(auto, using(crate::proofs::Calling::behind_given, crate::proofs::Calling::behind_stopped, crate::proofs::Calling::behind_none))]
fn emit_called(
    arguments: &Vec<Expr>,
    code: &mut Vec<Instr>,
    site: &Site<'_>,
    place: Place,
    unit: usize,
) -> Result<(), Uncoded>
    requires site { IsSite site.now }
    ensures { Emits (codes.behind_arguments place (codes.arguments_code (seen_numbering site.now) (seen_site site.now) code.old.items place unit (meaning.inputs_at (seen_site site.now).set unit) (expressions (map seen_expression arguments.now.items))) (leaves.call_of (seen_numbering site.now) (seen_site site.now) true unit)) result code.new.items }
{
    require_call(site, place, true, unit)?;
    emit_arguments(arguments, code, site, place, unit)?;
    emit_call(code, site, place, true, unit)
}
