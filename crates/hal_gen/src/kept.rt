//! The own places of groups: what keeps something there, and compares it.

ghost use Rattle.std.specs.Prelude.{◌≡◌, ◌++◌, OnOk};
ghost use Rattle.std.specs.Option.{option_map};
ghost use Rattle.hal_gen_expr.specs.Emits.{Emits};
ghost use Rattle.hal_gen_expr.specs.Emitting as emitting;
ghost use Rattle.hal_gen_expr.specs.Numbering as numbers;
ghost use Rattle.hal_gen_expr.specs.SeenSites.{seen_site, seen_numbering, IsSite};
ghost use Rattle.hal_gen.specs.KeptCode as codes;

use crate::sizes::sum;
use hal_base::Place;
use hal_code::Instr;
use hal_gen_expr::{Site, Uncoded, one, place_view, push, two};
use hal_operations::{Op1, Op2};
use std::alloc::AllocError;

/// The views of the own places of a DO FOR, by their numbers: of its end, its step, the value that its variable gets, and whether a turn begins.
#[derive(Clone, Copy)]
pub struct Cells {
    pub last: u32,
    pub step: u32,
    pub value: u32,
    pub begins: u32,
}

/// The view of the own place of the group of this mark before which so many of its places lie, by its number (language document, Statements).
#[tactic(auto, unfolding(hal_gen_expr::specs::SeenSites::seen_site))]
pub(crate) fn cell_of(site: &Site<'_>, mark: usize, before: u32) -> Option<u32>
    requires site { IsSite site.now }
    ensures { result ≡ codes.cell_of (seen_numbering site.now) (seen_site site.now) mark before }
{
    match site.marks.get(mark) {
        None => None,
        Some(owner) => place_view(site, *owner, before),
    }
}

/// Adds what keeps the value on the stack there.
#[tactic(auto, using(hal_gen_expr::proofs::Growing::one_by_one))]
pub(crate) fn push_keeping(code: &mut Vec<Instr>, cell: u32) -> Result<(), AllocError>
    ensures { OnOk result (code.new.items ≡ codes.keeping code.old.items cell) }
{
    push(code, Instr::Cell(cell))?;
    push(code, Instr::Keep)
}

/// Adds the tests for a number, where it has room in an instruction.
#[tactic(auto, using(crate::proofs::Tested::five_in_a_row))]
fn emit_case_tests(
    code: &mut Vec<Instr>,
    place: Place,
    cell: u32,
    number: usize,
    target: usize,
) -> Result<(), Uncoded>
    ensures { Emits (emitting.emit code.old.items place (option_map (codes.case_tests cell target) (numbers.below 2147483648 number))) result code.new.items }
{
    let Ok(number) = i32::try_from(number) else {
        return Err(Uncoded::At(place));
    };
    push(code, Instr::Cell(cell))?;
    push(code, Instr::Fetch)?;
    push(code, Instr::Int(number))?;
    push(code, two(Op2::Equal))?;
    push(code, Instr::JumpNot(target as u64))?;
    Ok(())
}

/// Adds the test whether a place holds this number; else control goes behind the code for it, of so many instructions, and a jump.
pub(crate) fn emit_case(
    code: &mut Vec<Instr>,
    place: Place,
    cell: u32,
    number: usize,
    size: usize,
) -> Result<(), Uncoded>
    ensures { Emits (codes.case_code code.old.items place cell number size) result code.new.items }
{
    let target = sum(code.len(), sum(size, 6)?)?;
    emit_case_tests(code, place, cell, number, target)
}

/// The views of four own places of the group of this mark, before each of which so many of its places lie.
fn cells_at(
    site: &Site<'_>,
    mark: usize,
    last: u32,
    step: u32,
    value: u32,
    begins: u32,
) -> Option<Cells>
    requires site { IsSite site.now }
    ensures { result ≡ codes.cells_at (seen_numbering site.now) (seen_site site.now) mark last step value begins }
{
    let last = cell_of(site, mark, last)?;
    let step = cell_of(site, mark, step)?;
    let value = cell_of(site, mark, value)?;
    let begins = cell_of(site, mark, begins)?;
    Some(Cells {
        last,
        step,
        value,
        begins,
    })
}

/// Those of a DO FOR, whose TEMPORARY variable stands before them (language document, Storage).
pub(crate) fn cells_of(site: &Site<'_>, temporary: bool, mark: usize) -> Option<Cells>
    requires site { IsSite site.now }
    ensures { result ≡ codes.cells_of (seen_numbering site.now) (seen_site site.now) temporary mark }
{
    if temporary {
        cells_at(site, mark, 1, 2, 3, 4)
    } else {
        cells_at(site, mark, 0, 1, 2, 3)
    }
}

/// Adds what puts on the stack what a place holds.
#[tactic(auto, using(hal_gen_expr::proofs::Growing::one_by_one))]
pub(crate) fn push_holding(code: &mut Vec<Instr>, cell: u32) -> Result<(), AllocError>
    ensures { OnOk result (code.new.items ≡ codes.holding code.old.items cell) }
{
    push(code, Instr::Cell(cell))?;
    push(code, Instr::Fetch)
}

/// Adds the test whether a place holds 1, behind which control goes to a target where it doesn't.
#[tactic(auto, using(crate::proofs::Tested::five_in_a_row))]
fn push_testing(code: &mut Vec<Instr>, cell: u32, target: usize) -> Result<(), AllocError>
    ensures { OnOk result (code.new.items ≡ codes.testing code.old.items cell target 1) }
{
    push(code, Instr::Cell(cell))?;
    push(code, Instr::Fetch)?;
    push(code, Instr::Int(1))?;
    push(code, two(Op2::Equal))?;
    push(code, Instr::JumpNot(target as u64))
}

/// Adds the test whether a place holds less than 0.
#[tactic(auto, using(crate::proofs::Tested::five_in_a_row))]
fn push_negative(code: &mut Vec<Instr>, cell: u32, target: usize) -> Result<(), AllocError>
    ensures { OnOk result (code.new.items ≡ code.old.items ++ codes.negative_tests cell target) }
{
    push(code, Instr::Cell(cell))?;
    push(code, Instr::Fetch)?;
    push(code, Instr::Int(0))?;
    push(code, two(Op2::Less))?;
    push(code, Instr::JumpNot(target as u64))
}

/// Adds the test whether the first place holds less than the second one.
#[tactic(auto, using(crate::proofs::Tested::six_in_a_row))]
fn push_lesser(
    code: &mut Vec<Instr>,
    first: u32,
    second: u32,
    target: usize,
) -> Result<(), AllocError>
    ensures { OnOk result (code.new.items ≡ code.old.items ++ codes.lesser_tests first second target) }
{
    push(code, Instr::Cell(first))?;
    push(code, Instr::Fetch)?;
    push(code, Instr::Cell(second))?;
    push(code, Instr::Fetch)?;
    push(code, two(Op2::Less))?;
    push(code, Instr::JumpNot(target as u64))
}

/// Adds what keeps the start, the end and the step on the stack, and puts the start there again.
pub(crate) fn push_bounds(code: &mut Vec<Instr>, cells: Cells) -> Result<(), AllocError>
    ensures { OnOk result (code.new.items ≡ codes.bounds_keeping code.old.items cells) }
{
    push_keeping(code, cells.step)?;
    push_keeping(code, cells.last)?;
    push_keeping(code, cells.value)?;
    push_holding(code, cells.value)
}

/// Adds the test from which control goes to the end where the value is past the last one, by the sign of the step.
pub(crate) fn push_bounding(
    code: &mut Vec<Instr>,
    cells: Cells,
    exit: usize,
) -> Result<(), AllocError>
    ensures { OnOk result (code.new.items ≡ codes.bounding code.old.items cells exit) }
{
    let up = sum(code.len(), 12)?;
    let end = sum(code.len(), 19)?;
    push_negative(code, cells.step, up)?;
    push_lesser(code, cells.value, cells.last, end)?;
    push(code, Instr::Jump(exit as u64))?;
    push_lesser(code, cells.last, cells.value, end)?;
    push(code, Instr::Jump(exit as u64))
}

/// Adds NEXT, with an integer that says whether there is a next value.
#[tactic(auto, using(hal_gen_expr::proofs::Growing::one_by_one))]
fn push_nexting(code: &mut Vec<Instr>) -> Result<(), AllocError>
    ensures { OnOk result (code.new.items ≡ codes.nexting code.old.items) }
{
    push(code, Instr::Next)?;
    push(code, one(Op1::Integer))
}

/// Adds what keeps the value behind the one on the stack; control goes to the end where there is none.
pub(crate) fn push_counting(
    code: &mut Vec<Instr>,
    cells: Cells,
    exit: usize,
) -> Result<(), AllocError>
    ensures { OnOk result (code.new.items ≡ codes.counting code.old.items cells exit) }
{
    push_holding(code, cells.step)?;
    push_holding(code, cells.last)?;
    push_nexting(code)?;
    push_keeping(code, cells.begins)?;
    push_keeping(code, cells.value)?;
    push_testing(code, cells.begins, exit)
}
