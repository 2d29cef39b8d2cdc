//! The instructions of leaves.

ghost use Rattle.std.specs.Prelude.{◌≡◌, ◌++◌, ◌∷◌, [], IfOk, OnOk};
ghost use Rattle.std.specs.Option.{option_map};
ghost use Rattle.hal_tree.specs.SeenExpressions.{seen_expression};
ghost use Rattle.hal_tree.specs.SeenLeaves.{seen_literal, seen_relation, seen_sign};
ghost use Rattle.hal_code.specs.declared.instr.Instr.TheVariants as instr;
ghost use Rattle.hal_agreement.specs.PlacedExpressions as placed;
ghost use Rattle.hal_meaning.specs.Expressions as meaning;
ghost use Rattle.hal_gen_expr.specs.Emits.{Emits};
ghost use Rattle.hal_gen_expr.specs.Emitting as emitting;
ghost use Rattle.hal_gen_expr.specs.ExpressionCode as codes;
ghost use Rattle.hal_gen_expr.specs.Leaves as leaves;

use crate::uncoded::Uncoded;
use hal_base::{CHARACTER_LIMIT, Place};
use hal_code::{Choice, HeapText, Instr, Places};
use hal_operations::{Op1, Op2};
use hal_scope::Builtin;
use hal_tree::{Expr, LiteralValue, Relation, Sign};
use hal_values::{Text, Value};
use std::alloc::{AllocError, Global};

/// Adds an instruction.
pub fn push(code: &mut Vec<Instr>, instr: Instr) -> Result<(), AllocError>
    ensures { OnOk result (code.new.items ≡ code.old.items ++ (instr ∷ [])) }
{
    code.push(instr)?;
    Ok(())
}

/// Adds one instruction of the phrase that begins there.
pub fn emit_one(code: &mut Vec<Instr>, place: Place, instr: Instr) -> Result<(), Uncoded>
    ensures { Emits (codes.emit_one code.old.items place instr) result code.new.items }
{
    push(code, instr)?;
    Ok(())
}

/// Adds one instruction of the phrase that begins there, where it has one.
pub(crate) fn emit_any(
    code: &mut Vec<Instr>,
    place: Place,
    instr: Option<Instr>,
) -> Result<(), Uncoded>
    ensures { Emits (codes.emit_any code.old.items place instr) result code.new.items }
{
    match instr {
        None => Err(Uncoded::At(place)),
        Some(instr) => emit_one(code, place, instr),
    }
}

/// Adds an instruction and another one behind it, where the first one is there.
#[tactic(auto, using(crate::proofs::Growing::one_by_one))]
pub fn emit_two(
    code: &mut Vec<Instr>,
    place: Place,
    first: Option<Instr>,
    second: Instr,
) -> Result<(), Uncoded>
    ensures { Emits (emitting.emit code.old.items place (option_map (λ i. i ∷ second ∷ []) first)) result code.new.items }
{
    let Some(first) = first else {
        return Err(Uncoded::At(place));
    };
    push(code, first)?;
    push(code, second)?;
    Ok(())
}

/// The operation with one operand.
pub fn one(op: Op1) -> Instr
    ensures { result ≡ codes.one op }
{
    Instr::Op1(Choice::Known(op))
}

/// The operation with two operands.
pub fn two(op: Op2) -> Instr
    ensures { result ≡ placed.two op }
{
    Instr::Op2(Choice::Known(op))
}

/// PICK of such places.
pub fn picks(places: Places) -> Instr
    ensures { result ≡ placed.picks places }
{
    Instr::Pick(Choice::Known(places))
}

/// The instruction that puts a value on the stack.
pub fn pushes(alloc: Global, value: &Value) -> Result<Instr, AllocError>
    ensures { IfOk result (λ instr. instr ≡ placed.pushes value.now) }
{
    match value {
        Value::Int(number) => Ok(Instr::Int(*number)),
        Value::Bits { len, word } => Ok(Instr::Bits {
            len: *len,
            word: *word,
        }),
        Value::Text(text) => Ok(Instr::Text(HeapText::new(alloc, text.copy())?)),
    }
}

/// An integer, where it has 31 bits.
pub(crate) fn integer_instr(number: u32) -> Option<Instr>
    ensures { result ≡ codes.integer_instr number }
{
    match i32::try_from(number) {
        Ok(number) => Some(Instr::Int(number)),
        Err(_) => None,
    }
}

/// The instruction that puts a literal on the stack, where it has room in one.
pub(crate) fn literal_instr(
    alloc: Global,
    literal: LiteralValue,
) -> Result<Option<Instr>, AllocError>
    ensures { IfOk result (λ instr. instr ≡ codes.literal_instr (seen_literal literal)) }
{
    match literal {
        LiteralValue::Integer(number) => Ok(integer_instr(number)),
        LiteralValue::Text(text) => match Text::of(text.bytes()) {
            None => Ok(None),
            Some(text) => Ok(Some(Instr::Text(HeapText::new(alloc, text)?))),
        },
        LiteralValue::Bits { len, word } => Ok(Some(Instr::Bits { len, word })),
        LiteralValue::True => Ok(Some(Instr::Bits { len: 1, word: 1 })),
        LiteralValue::On => Ok(Some(Instr::Bits { len: 1, word: 1 })),
        LiteralValue::False => Ok(Some(Instr::Bits { len: 1, word: 0 })),
        LiteralValue::Off => Ok(Some(Instr::Bits { len: 1, word: 0 })),
    }
}

/// The exponent that a literal is, where it has room in an instruction.
fn raised_to(literal: LiteralValue) -> Option<Instr>
    ensures { result ≡ codes.raised_to (seen_literal literal) }
{
    match literal {
        LiteralValue::Integer(number) => integer_instr(number),
        LiteralValue::Text(text) => {
            if text.bytes().len() <= CHARACTER_LIMIT {
                Some(Instr::Int(0))
            } else {
                None
            }
        }
        LiteralValue::Bits { .. } => Some(Instr::Int(0)),
        LiteralValue::True => Some(Instr::Int(0)),
        LiteralValue::On => Some(Instr::Int(0)),
        LiteralValue::False => Some(Instr::Int(0)),
        LiteralValue::Off => Some(Instr::Int(0)),
    }
}

/// The instruction that puts an exponent on the stack, 0 where it is no literal.
#[tactic(auto, using(hal_tree::proofs::MadeExpressions::made_or, hal_tree::proofs::MadeExpressions::made_and, hal_tree::proofs::MadeExpressions::made_compare, hal_tree::proofs::MadeExpressions::made_cat, hal_tree::proofs::MadeExpressions::made_sum, hal_tree::proofs::MadeExpressions::made_product, hal_tree::proofs::MadeExpressions::made_power, hal_tree::proofs::MadeExpressions::made_not, hal_tree::proofs::MadeExpressions::made_literal, hal_tree::proofs::MadeExpressions::made_decimal, hal_tree::proofs::MadeExpressions::made_referred, hal_tree::proofs::MadeExpressions::made_call, hal_tree::proofs::MadeExpressions::made_convert, hal_tree::proofs::MadeExpressions::made_parenthesis))]
pub(crate) fn exponent_instr(tree: &Expr) -> Option<Instr>
    ensures { result ≡ codes.exponent_instr (seen_expression tree.now) }
{
    match tree {
        Expr::Literal { place: _, literal } => raised_to(literal.value()),
        Expr::Or { .. } => Some(Instr::Int(0)),
        Expr::And { .. } => Some(Instr::Int(0)),
        Expr::Compare { .. } => Some(Instr::Int(0)),
        Expr::Cat { .. } => Some(Instr::Int(0)),
        Expr::Sum { .. } => Some(Instr::Int(0)),
        Expr::Product { .. } => Some(Instr::Int(0)),
        Expr::Power { .. } => Some(Instr::Int(0)),
        Expr::Not { .. } => Some(Instr::Int(0)),
        Expr::Decimal { .. } => Some(Instr::Int(0)),
        Expr::Reference(_) => Some(Instr::Int(0)),
        Expr::Call { .. } => Some(Instr::Int(0)),
        Expr::Convert { .. } => Some(Instr::Int(0)),
        Expr::Parenthesis { .. } => Some(Instr::Int(0)),
    }
}

/// The operation that compares.
pub(crate) fn operation_of_relation(relation: Relation) -> Op2
    ensures { result ≡ meaning.operation_of_relation (seen_relation relation) }
{
    match relation {
        Relation::Equal => Op2::Equal,
        Relation::Less => Op2::Less,
        Relation::Greater => Op2::Greater,
        Relation::AtMost => Op2::LessOrEqual,
        Relation::AtLeast => Op2::GreaterOrEqual,
        Relation::NotEqual => Op2::NotEqual,
        Relation::NotLess => Op2::GreaterOrEqual,
        Relation::NotGreater => Op2::LessOrEqual,
    }
}

/// Adds the sign before a first term.
pub(crate) fn emit_sign(
    code: &mut Vec<Instr>,
    place: Place,
    opening: Option<Sign>,
) -> Result<(), Uncoded>
    ensures { Emits (codes.sign_code code.old.items place (option_map seen_sign opening)) result code.new.items }
{
    match opening {
        None => Ok(()),
        Some(Sign::Plus) => Ok(()),
        Some(Sign::Minus) => emit_one(code, place, one(Op1::Minus)),
    }
}

/// Adds the code of a built-in function without a list, where it has one.
pub(crate) fn emit_alone(
    code: &mut Vec<Instr>,
    place: Place,
    builtin: Builtin,
) -> Result<(), Uncoded>
    ensures { Emits (emitting.emit code.old.items place (option_map (λ i. i ∷ []) (leaves.alone_of builtin))) result code.new.items }
{
    match builtin {
        Builtin::Errgrp => emit_one(code, place, Instr::ErrGrp),
        Builtin::Errnum => emit_one(code, place, Instr::ErrNum),
        Builtin::Runtime => emit_one(code, place, Instr::Now),
        _ => Err(Uncoded::At(place)),
    }
}
