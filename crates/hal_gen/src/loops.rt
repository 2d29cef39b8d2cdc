//! DO FOR: what gives its variable one value after another.

ghost use Rattle.std.specs.Prelude.{◌≡◌, map};
ghost use Rattle.std.specs.Option.{option_map};
ghost use Rattle.hal_grammar.specs.Statements as grammar;
ghost use Rattle.hal_tree.specs.Rows.{expressions};
ghost use Rattle.hal_tree.specs.SeenExpressions.{seen_expression};
ghost use Rattle.hal_tree.specs.SeenStatements.{seen_guard, seen_span};
ghost use Rattle.hal_storage.specs.referents.SeenReferents.{seen_meant, seen_referent};
ghost use Rattle.hal_gen_expr.specs.Emits.{Emits};
ghost use Rattle.hal_gen_expr.specs.Emitting as emitting;
ghost use Rattle.hal_gen_expr.specs.Numbering as numbers;
ghost use Rattle.hal_gen_expr.specs.SeenSites.{seen_site, seen_numbering, IsSite};
ghost use Rattle.hal_gen.specs.SpanCode as codes;
ghost use Rattle.hal_gen.specs.StatementCode as statements;

use crate::groups::{emit_first_test, emit_test};
use crate::kept::{Cells, emit_case, push_bounding, push_bounds, push_counting, push_holding};
use crate::marks::next;
use crate::sizes::{next_values_size, sum, value_size};
use hal_base::Place;
use hal_code::Instr;
use hal_gen_expr::{
    Site, Uncoded, element_of, emit_expression, emit_one, emit_two, push, referent,
};
use hal_storage::referents::{Meant, Referent};
use hal_tree::{Expr, Guard, Span};
use hal_words::Name;

/// A DO FOR: where it stands, its own places, and where its code ends.
#[derive(Clone, Copy)]
pub struct Spanned {
    pub place: Place,
    pub cells: Cells,
    pub exit: usize,
}

/// CELL of what a phrase declares, where it is one element.
fn variable_declared(site: &Site<'_>, referent: &Referent) -> Option<Instr>
    requires site { IsSite site.now }
    ensures { result ≡ codes.variable_of (seen_numbering site.now) (seen_site site.now) (seen_referent referent.now) }
{
    match referent {
        Referent::Data {
            declared,
            stored,
            shape,
        } => element_of(site, &[], *declared, *stored, shape),
        Referent::Constant(_) => None,
        Referent::Event(_) => None,
        Referent::Block(_) => None,
        Referent::Nothing => None,
    }
}

/// The same of what a name means.
fn variable_meant(site: &Site<'_>, meant: Meant<'_>) -> Option<Instr>
    requires site { IsSite site.now }
    ensures { result ≡ codes.variable_of (seen_numbering site.now) (seen_site site.now) (seen_meant meant.entry) }
{
    match meant {
        Meant::Declared(referent) => variable_declared(site, referent),
        Meant::Builtin(_) => None,
        Meant::Nothing => None,
    }
}

/// Adds what stores the value on the stack in a DO FOR's variable.
fn emit_store(
    code: &mut Vec<Instr>,
    site: &Site<'_>,
    place: Place,
    name: &Name,
) -> Result<(), Uncoded>
    requires site { IsSite site.now }
    ensures { Emits (codes.store_code (seen_numbering site.now) (seen_site site.now) code.old.items place name.now) result code.new.items }
{
    let address = variable_meant(site, referent(site, name));
    emit_two(code, place, address, Instr::Keep)
}

/// Adds what puts its value on the stack.
fn emit_fetch(
    code: &mut Vec<Instr>,
    site: &Site<'_>,
    place: Place,
    name: &Name,
) -> Result<(), Uncoded>
    requires site { IsSite site.now }
    ensures { Emits (codes.fetch_code (seen_numbering site.now) (seen_site site.now) code.old.items place name.now) result code.new.items }
{
    let address = variable_meant(site, referent(site, name));
    emit_two(code, place, address, Instr::Fetch)
}

/// Adds the step of a DO FOR with TO, 1 where none stands there.
fn emit_step(
    step: &Option<Expr>,
    code: &mut Vec<Instr>,
    site: &Site<'_>,
    place: Place,
) -> Result<(), Uncoded>
    requires site { IsSite site.now }
    ensures { Emits (codes.step_code (seen_numbering site.now) (seen_site site.now) code.old.items place (option_map seen_expression step.now)) result code.new.items }
{
    match step {
        None => emit_one(code, place, Instr::Int(1)),
        Some(tree) => emit_expression(tree, code, site),
    }
}

/// Adds the beginning of a DO FOR with TO: its bounds are kept, its variable gets the first one, and control goes to the end where it is past the last one.
fn emit_begun(
    first: &Expr,
    last: &Expr,
    step: &Option<Expr>,
    code: &mut Vec<Instr>,
    site: &Site<'_>,
    name: &Name,
    spanned: Spanned,
) -> Result<(), Uncoded>
    requires site { IsSite site.now }
    ensures { Emits (codes.begun_code (seen_numbering site.now) (seen_site site.now) code.old.items spanned.place name.now spanned.cells spanned.exit (seen_expression first.now) (seen_expression last.now) (option_map seen_expression step.now)) result code.new.items }
{
    emit_expression(first, code, site)?;
    emit_expression(last, code, site)?;
    emit_step(step, code, site, spanned.place)?;
    push_bounds(code, spanned.cells)?;
    emit_store(code, site, spanned.place, name)?;
    push_bounding(code, spanned.cells, spanned.exit)?;
    Ok(())
}

/// Adds what gives the variable of a DO FOR with TO its next value; control goes to the end where that is past the last one.
fn emit_counted(
    code: &mut Vec<Instr>,
    site: &Site<'_>,
    name: &Name,
    spanned: Spanned,
) -> Result<(), Uncoded>
    requires site { IsSite site.now }
    ensures { Emits (codes.counted_code (seen_numbering site.now) (seen_site site.now) code.old.items spanned.place name.now spanned.cells spanned.exit) result code.new.items }
{
    emit_fetch(code, site, spanned.place, name)?;
    push_counting(code, spanned.cells, spanned.exit)?;
    push_holding(code, spanned.cells.value)?;
    emit_store(code, site, spanned.place, name)
}

/// Adds what keeps how many values of a list were stored, where the number has room in an instruction.
#[tactic(auto, using(crate::proofs::Tested::three_in_a_row))]
fn emit_count(code: &mut Vec<Instr>, place: Place, cell: u32, number: usize) -> Result<(), Uncoded>
    ensures { Emits (emitting.emit code.old.items place (option_map (codes.counted_in cell) (numbers.below 2147483648 number))) result code.new.items }
{
    let Ok(number) = i32::try_from(number) else {
        return Err(Uncoded::At(place));
    };
    push(code, Instr::Int(number))?;
    push(code, Instr::Cell(cell))?;
    push(code, Instr::Keep)?;
    Ok(())
}

/// Adds what gives the variable a value of the list, the one with this number.
fn emit_value(
    tree: &Expr,
    code: &mut Vec<Instr>,
    site: &Site<'_>,
    name: &Name,
    spanned: Spanned,
    number: usize,
) -> Result<(), Uncoded>
    requires site { IsSite site.now }
    ensures { Emits (codes.value_code (seen_numbering site.now) (seen_site site.now) code.old.items spanned.place name.now spanned.cells.last number (seen_expression tree.now)) result code.new.items }
{
    emit_expression(tree, code, site)?;
    emit_store(code, site, spanned.place, name)?;
    emit_count(code, spanned.place, spanned.cells.last, number)
}

/// Adds what gives it the value behind as many as were stored, from which control goes to the test for it; behind the last one it goes to the end.
#[tactic(auto, unfolding(hal_tree::specs::Rows::expressions))]
fn emit_next_values(
    values: &[Expr],
    code: &mut Vec<Instr>,
    site: &Site<'_>,
    name: &Name,
    spanned: Spanned,
    test: usize,
) -> Result<(), Uncoded>
    requires site { IsSite site.now }
    ensures { Emits (codes.next_values_code (seen_numbering site.now) (seen_site site.now) code.old.items spanned.place name.now spanned.cells.last 1 spanned.exit test (expressions (map seen_expression values.now))) result code.new.items }
{
    let mut number: usize = 1;
    for tree in values {
        let size = value_size(tree, site)?;
        emit_case(code, spanned.place, spanned.cells.last, number, size)?;
        number = next(number)?;
        emit_value(tree, code, site, name, spanned, number)?;
        push(code, Instr::Jump(test as u64))?;
    }
    emit_one(code, spanned.place, Instr::Jump(spanned.exit as u64))
}

/// Adds the first value of a list.
#[tactic(auto, unfolding(hal_tree::specs::Rows::expressions))]
fn emit_first_value(
    values: &[Expr],
    code: &mut Vec<Instr>,
    site: &Site<'_>,
    name: &Name,
    spanned: Spanned,
) -> Result<(), Uncoded>
    requires site { IsSite site.now }
    ensures { Emits (codes.begin_code (seen_numbering site.now) (seen_site site.now) code.old.items spanned.place name.now spanned.cells spanned.exit (grammar.Listed (expressions (map seen_expression values.now)))) result code.new.items }
{
    match values {
        [] => Err(Uncoded::At(spanned.place)),
        [first, ..] => emit_value(first, code, site, name, spanned, 1),
    }
}

/// Adds what stands behind a turn of a DO FOR with a list.
#[tactic(auto, unfolding(hal_tree::specs::Rows::expressions))]
fn emit_other_values(
    values: &[Expr],
    code: &mut Vec<Instr>,
    site: &Site<'_>,
    name: &Name,
    spanned: Spanned,
) -> Result<(), Uncoded>
    requires site { IsSite site.now }
    ensures { Emits (codes.again_code (seen_numbering site.now) (seen_site site.now) code.old.items spanned.place name.now spanned.cells spanned.exit (grammar.Listed (expressions (map seen_expression values.now)))) result code.new.items }
{
    match values {
        [] => Err(Uncoded::At(spanned.place)),
        [_, others @ ..] => {
            let test = sum(code.len(), next_values_size(others, site)?)?;
            emit_next_values(others, code, site, name, spanned, test)
        }
    }
}

/// Adds what stands before the first test of a DO FOR (language document, Statements).
#[tactic(auto, unfolding(hal_tree::specs::SeenStatements::seen_span))]
fn emit_span_begin(
    span: &Span,
    code: &mut Vec<Instr>,
    site: &Site<'_>,
    name: &Name,
    spanned: Spanned,
) -> Result<(), Uncoded>
    requires site { IsSite site.now }
    ensures { Emits (codes.begin_code (seen_numbering site.now) (seen_site site.now) code.old.items spanned.place name.now spanned.cells spanned.exit (seen_span span.now)) result code.new.items }
{
    match span {
        Span::Range { first, last, step } => {
            emit_begun(first, last, step, code, site, name, spanned)
        }
        Span::List { values } => emit_first_value(values, code, site, name, spanned),
    }
}

/// Adds what stands behind a turn, before the test.
#[tactic(auto, unfolding(hal_tree::specs::SeenStatements::seen_span))]
fn emit_span_again(
    span: &Span,
    code: &mut Vec<Instr>,
    site: &Site<'_>,
    name: &Name,
    spanned: Spanned,
) -> Result<(), Uncoded>
    requires site { IsSite site.now }
    ensures { Emits (codes.again_code (seen_numbering site.now) (seen_site site.now) code.old.items spanned.place name.now spanned.cells spanned.exit (seen_span span.now)) result code.new.items }
{
    match span {
        Span::Range { .. } => emit_counted(code, site, name, spanned),
        Span::List { values } => emit_other_values(values, code, site, name, spanned),
    }
}

/// Adds the test of a DO FOR before its first turn.
fn emit_first_span(
    guard: &Option<Guard>,
    code: &mut Vec<Instr>,
    site: &Site<'_>,
    exit: usize,
) -> Result<(), Uncoded>
    requires site { IsSite site.now }
    ensures { Emits (statements.first_span_code (seen_numbering site.now) (seen_site site.now) code.old.items (option_map seen_guard guard.now) exit) result code.new.items }
{
    match guard {
        None => Ok(()),
        Some(guard) => emit_first_test(guard, code, site, exit),
    }
}

/// Adds the test before a later one, from which control goes to its TURN or to its end.
fn emit_later_span(
    guard: &Option<Guard>,
    code: &mut Vec<Instr>,
    site: &Site<'_>,
    spanned: Spanned,
    turn: usize,
) -> Result<(), Uncoded>
    requires site { IsSite site.now }
    ensures { Emits (statements.later_span_code (seen_numbering site.now) (seen_site site.now) code.old.items spanned.place (option_map seen_guard guard.now) turn spanned.exit) result code.new.items }
{
    match guard {
        None => emit_one(code, spanned.place, Instr::Jump(turn as u64)),
        Some(guard) => emit_test(guard, code, site, turn, spanned.exit),
    }
}

/// Adds what stands before the first turn of a DO FOR (language document, Statements).
pub(crate) fn emit_span_start(
    span: &Span,
    guard: &Option<Guard>,
    code: &mut Vec<Instr>,
    site: &Site<'_>,
    name: &Name,
    spanned: Spanned,
) -> Result<(), Uncoded>
    requires site { IsSite site.now }
    ensures { Emits (statements.span_start_code (seen_numbering site.now) (seen_site site.now) code.old.items spanned.place name.now spanned.cells spanned.exit (seen_span span.now) (option_map seen_guard guard.now)) result code.new.items }
{
    emit_span_begin(span, code, site, name, spanned)?;
    emit_first_span(guard, code, site, spanned.exit)
}

/// Adds what stands behind each turn, from which control goes to its TURN or to its end.
pub(crate) fn emit_span_end(
    span: &Span,
    guard: &Option<Guard>,
    code: &mut Vec<Instr>,
    site: &Site<'_>,
    name: &Name,
    spanned: Spanned,
    turn: usize,
) -> Result<(), Uncoded>
    requires site { IsSite site.now }
    ensures { Emits (statements.span_end_code (seen_numbering site.now) (seen_site site.now) code.old.items spanned.place name.now spanned.cells spanned.exit (seen_span span.now) (option_map seen_guard guard.now) turn) result code.new.items }
{
    emit_span_again(span, code, site, name, spanned)?;
    emit_later_span(guard, code, site, spanned, turn)
}
