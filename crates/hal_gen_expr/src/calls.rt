//! The code of calls.

ghost use Rattle.std.specs.Prelude.{◌≡◌, [], ◌+◌, ◌==◌, IfOk, map};
ghost use Rattle.std.specs.List.{position};
ghost use Rattle.hal_tree.specs.SeenLeaves.{seen_name};
ghost use Rattle.hal_tree.specs.SeenUnits.{seen_head};
ghost use Rattle.hal_storage.specs.sets.SeenBodies.{seen_body};
ghost use Rattle.hal_meaning.specs.Calls as units;
ghost use Rattle.hal_meaning.specs.Expressions.{inputs_at, outputs_at};
ghost use Rattle.hal_meaning.specs.Places.{InPlaces};
ghost use Rattle.hal_meaning.specs.Variables.{is_whole};
ghost use Rattle.hal_gen_expr.specs.Emits.{Emits};
ghost use Rattle.hal_gen_expr.specs.Emitting as emitting;
ghost use Rattle.hal_gen_expr.specs.Calling as calling;
ghost use Rattle.hal_gen_expr.specs.Leaves as leaves;
ghost use Rattle.hal_gen_expr.specs.Numbering as numbers;
ghost use Rattle.hal_gen_expr.specs.Parameters as parameters;
ghost use Rattle.hal_gen_expr.specs.Shapes.{runs_of};
ghost use Rattle.hal_gen_expr.specs.SeenSites.{seen_site, seen_numbering, IsSite};

use crate::bodies::body_at;
use crate::elements::Element;
use crate::leaves::{emit_one, emit_two, push};
use crate::parameters::{Parameter, parameter_named, parameter_runs};
use crate::site::Site;
use crate::uncoded::Uncoded;
use crate::views::{address_of, numbered, own_place};
use hal_base::Place;
use hal_code::{Instr, Run};
use hal_storage::cells::Storing;
use hal_storage::sets::Body;
use hal_tree::{Head, Identifier};
use hal_values::Kind;
use std::alloc::AllocError;

/// The place of a unit among those that are called.
fn place_among(units: &[usize], unit: usize) -> Option<usize>
    ensures { result ≡ position (λ one. one == unit) units.now }
{
    units.iter().position(|one| *one == unit)
}

/// The number of the block at this place behind the first one.
#[tactic(auto, using(crate::proofs::Capped::none_behind))]
fn block_behind(first: usize, place: usize) -> Option<u32>
    ensures { result ≡ numbers.below numbers.most (first + place) }
{
    match first.checked_add(place) {
        None => None,
        Some(number) => numbered(number),
    }
}

/// The number of the block of the unit with this number.
#[tactic(auto, unfolding(crate::specs::SeenSites::seen_numbering))]
fn block_number(site: &Site<'_>, unit: usize) -> Option<u32>
    ensures { result ≡ numbers.block_number (seen_numbering site.now) unit }
{
    let place = place_among(site.calls.units, unit)?;
    block_behind(site.calls.first, place)
}

/// Whether there are no names.
pub(crate) fn lacks_names(names: &[Identifier]) -> bool
    ensures { result ≡ leaves.is_nil (map seen_name names.now) }
{
    match names.split_first() {
        None => true,
        Some(_) => false,
    }
}

/// Whether a unit with this head is called so: a FUNCTION for its value, a PROCEDURE for none.
#[tactic(auto, using(hal_tree::proofs::MadeUnits::made_program, hal_tree::proofs::MadeUnits::made_compool, hal_tree::proofs::MadeUnits::made_task, hal_tree::proofs::MadeUnits::made_procedure, hal_tree::proofs::MadeUnits::made_function))]
fn is_called_so(head: &Head, function: bool) -> bool
    ensures { result ≡ calling.is_called_so function (seen_head head.now) }
{
    match head {
        Head::Program { .. } => !function,
        Head::Compool { .. } => !function,
        Head::Task { .. } => !function,
        Head::Procedure { .. } => !function,
        Head::Function { .. } => function,
    }
}

/// The parameter of this name of the unit with this number.
#[tactic(auto, unfolding(crate::specs::SeenSites::seen_site))]
fn parameter_in(site: &Site<'_>, unit: usize, name: &Identifier) -> Result<Parameter, AllocError>
    ensures { IfOk result (λ one. one ≡ parameters.as_parameter (units.parameter_named (seen_site site.now).set unit (seen_name name.now))) }
{
    parameter_named(site.alloc, site.set, unit, name)
}

/// CELL of a parameter of one element.
fn parameter_address(site: &Site<'_>, one: Parameter) -> Option<Instr>
    requires site { IsSite site.now }
    ensures { result ≡ leaves.address_of (seen_numbering site.now) (seen_site site.now) [] one.declared InPlaces 0 one.kind }
{
    let element = Element {
        before: 0,
        kind: one.kind,
    };
    address_of(site, &[], one.declared, Storing::InPlaces, element)
}

/// Adds BIND of an ASSIGN parameter.
fn emit_bound(
    code: &mut Vec<Instr>,
    site: &Site<'_>,
    place: Place,
    one: Parameter,
) -> Result<(), Uncoded>
    requires site { IsSite site.now }
    ensures { Emits (emitting.emit code.old.items place (calling.bound_by (seen_site site.now) one)) result code.new.items }
{
    match own_place(site, one.declared) {
        None => Err(Uncoded::At(place)),
        Some(number) => emit_one(code, place, Instr::Bind(number)),
    }
}

/// Adds BIND of the ASSIGN parameter of this name of the unit with this number.
fn emit_bind(
    code: &mut Vec<Instr>,
    site: &Site<'_>,
    place: Place,
    unit: usize,
    name: &Identifier,
) -> Result<(), Uncoded>
    requires site { IsSite site.now }
    ensures { Emits (calling.bind_code (seen_site site.now) place unit code.old.items (seen_name name.now)) result code.new.items }
{
    let one = parameter_in(site, unit, name)?;
    emit_bound(code, site, place, one)
}

/// Adds those of the ASSIGN parameters of these names, from the last to the first.
#[cycle(binds)]
#[tactic(auto, unfolding(crate::specs::Calling::binds_code))]
fn emit_binds(
    names: &[Identifier],
    code: &mut Vec<Instr>,
    site: &Site<'_>,
    place: Place,
    unit: usize,
) -> Result<(), Uncoded>
    requires site { IsSite site.now }
    ensures { Emits (calling.binds_code (seen_site site.now) place unit code.old.items (map seen_name names.now)) result code.new.items }
{
    let Some((name, others)) = names.split_first() else {
        return Ok(());
    };
    emit_binds(others, code, site, place, unit)?;
    emit_bind(code, site, place, unit, name)
}

/// Adds COPY of a whole argument in its parameter.
fn emit_copied(
    code: &mut Vec<Instr>,
    site: &Site<'_>,
    place: Place,
    one: Parameter,
) -> Result<(), Uncoded>
    requires site { IsSite site.now }
    ensures { Emits (emitting.emit code.old.items place (calling.copied_by (seen_site site.now) one)) result code.new.items }
{
    match own_place(site, one.declared) {
        None => Err(Uncoded::At(place)),
        Some(number) => emit_one(code, place, Instr::Copy(number)),
    }
}

/// Adds the store of an argument in its parameter.
fn emit_stored(
    code: &mut Vec<Instr>,
    site: &Site<'_>,
    place: Place,
    one: Parameter,
) -> Result<(), Uncoded>
    requires site { IsSite site.now }
    ensures { Emits (emitting.emit code.old.items place (calling.stored_by (seen_numbering site.now) (seen_site site.now) one)) result code.new.items }
{
    if one.whole {
        return emit_copied(code, site, place, one);
    }
    let address = parameter_address(site, one);
    emit_two(code, place, address, Instr::Keep)
}

/// Adds the store of an argument in the parameter of this name of the unit with this number.
fn emit_store(
    code: &mut Vec<Instr>,
    site: &Site<'_>,
    place: Place,
    unit: usize,
    name: &Identifier,
) -> Result<(), Uncoded>
    requires site { IsSite site.now }
    ensures { Emits (calling.store_code (seen_numbering site.now) (seen_site site.now) place unit code.old.items (seen_name name.now)) result code.new.items }
{
    let one = parameter_in(site, unit, name)?;
    emit_stored(code, site, place, one)
}

/// Adds those of the parameters of these names, from the last to the first.
#[cycle(stores)]
#[tactic(auto, unfolding(crate::specs::Calling::stores_code))]
fn emit_stores(
    names: &[Identifier],
    code: &mut Vec<Instr>,
    site: &Site<'_>,
    place: Place,
    unit: usize,
) -> Result<(), Uncoded>
    requires site { IsSite site.now }
    ensures { Emits (calling.stores_code (seen_numbering site.now) (seen_site site.now) place unit code.old.items (map seen_name names.now)) result code.new.items }
{
    let Some((name, others)) = names.split_first() else {
        return Ok(());
    };
    emit_stores(others, code, site, place, unit)?;
    emit_store(code, site, place, unit, name)
}

/// The names of the input parameters of a unit with this head.
#[tactic(auto, using(hal_tree::proofs::MadeUnits::made_program, hal_tree::proofs::MadeUnits::made_compool, hal_tree::proofs::MadeUnits::made_task, hal_tree::proofs::MadeUnits::made_procedure, hal_tree::proofs::MadeUnits::made_function))]
fn inputs_of(head: &Head) -> &[Identifier]
    ensures { map seen_name result.now ≡ units.inputs_of (seen_head head.now) }
{
    match head {
        Head::Program { .. } => &[],
        Head::Compool { .. } => &[],
        Head::Task { .. } => &[],
        Head::Procedure { inputs, .. } => inputs.as_slice(),
        Head::Function { inputs, .. } => inputs.as_slice(),
    }
}

/// The names of the ASSIGN parameters of a unit with this head.
#[tactic(auto, using(hal_tree::proofs::MadeUnits::made_program, hal_tree::proofs::MadeUnits::made_compool, hal_tree::proofs::MadeUnits::made_task, hal_tree::proofs::MadeUnits::made_procedure, hal_tree::proofs::MadeUnits::made_function))]
fn outputs_of(head: &Head) -> &[Identifier]
    ensures { map seen_name result.now ≡ units.outputs_of (seen_head head.now) }
{
    match head {
        Head::Program { .. } => &[],
        Head::Compool { .. } => &[],
        Head::Task { .. } => &[],
        Head::Procedure { outputs, .. } => outputs.as_slice(),
        Head::Function { .. } => &[],
    }
}

/// The names of the ASSIGN parameters of a unit (language document, Units).
#[tactic(auto, using(hal_tree::proofs::MadeUnits::parts_of_unit))]
pub fn outputs_in<'a>(body: &Body<'a>) -> &'a [Identifier]
    ensures { map seen_name result.now ≡ units.outputs_of (seen_body body.now).head }
{
    outputs_of(&body.unit.head)
}

/// The names of the input parameters of a unit (language document, Units).
#[tactic(auto, using(hal_tree::proofs::MadeUnits::parts_of_unit))]
pub fn inputs_in<'a>(body: &Body<'a>) -> &'a [Identifier]
    ensures { map seen_name result.now ≡ units.inputs_of (seen_body body.now).head }
{
    inputs_of(&body.unit.head)
}

/// Whether a unit is called so.
#[tactic(auto, using(hal_tree::proofs::MadeUnits::parts_of_unit))]
fn is_body_called_so(body: &Body<'_>, function: bool) -> bool
    ensures { result ≡ calling.is_called_so function (seen_body body.now).head }
{
    is_called_so(&body.unit.head, function)
}

/// Adds the code of a call of this unit, whose block has this number.
fn emit_numbered(
    code: &mut Vec<Instr>,
    site: &Site<'_>,
    place: Place,
    body: &Body<'_>,
    number: Option<u32>,
) -> Result<(), Uncoded>
    requires site { IsSite site.now }
    ensures { Emits (calling.numbered_call (seen_numbering site.now) (seen_site site.now) place code.old.items (seen_body body.now) number) result code.new.items }
{
    let Some(number) = number else {
        return Err(Uncoded::At(place));
    };
    emit_binds(outputs_in(body), code, site, place, body.number)?;
    emit_stores(inputs_in(body), code, site, place, body.number)?;
    push(code, Instr::Call(number))?;
    Ok(())
}

/// Adds the code of a call of the unit with this number behind its arguments: of a FUNCTION for its value, or of a PROCEDURE.
#[tactic(auto, using(crate::proofs::Calling::call_given))]
pub fn emit_call(
    code: &mut Vec<Instr>,
    site: &Site<'_>,
    place: Place,
    function: bool,
    unit: usize,
) -> Result<(), Uncoded>
    requires site { IsSite site.now }
    ensures { Emits (emitting.emit code.old.items place (leaves.call_of (seen_numbering site.now) (seen_site site.now) function unit)) result code.new.items }
{
    let Some(body) = body_at(site, unit) else {
        return Err(Uncoded::At(place));
    };
    if !is_body_called_so(body, function) {
        return Err(Uncoded::At(place));
    }
    emit_numbered(code, site, place, body, block_number(site, unit))
}

/// The names of the input parameters of the unit with this number.
pub fn inputs_at<'a>(site: &Site<'a>, unit: usize) -> &'a [Identifier]
    ensures { map seen_name result.now ≡ inputs_at (seen_site site.now).set unit }
{
    match body_at(site, unit) {
        None => &[],
        Some(body) => inputs_in(body),
    }
}

/// The names of the ASSIGN parameters of the unit with this number.
pub fn outputs_at<'a>(site: &Site<'a>, unit: usize) -> &'a [Identifier]
    ensures { map seen_name result.now ≡ outputs_at (seen_site site.now).set unit }
{
    match body_at(site, unit) {
        None => &[],
        Some(body) => outputs_in(body),
    }
}

/// The kinds of the cells of the parameter of this name of the unit with this number.
#[tactic(auto, unfolding(crate::specs::SeenSites::seen_site))]
pub(crate) fn runs_in(
    site: &Site<'_>,
    unit: usize,
    name: &Identifier,
) -> Result<Vec<Run<Kind>>, AllocError>
    ensures { IfOk result (λ runs. runs.items ≡ runs_of (units.parameter_named (seen_site site.now).set unit (seen_name name.now)).shape) }
{
    parameter_runs(site.alloc, site.set, unit, name)
}

/// Whether the parameter of this name of the unit with this number is an array or a structure.
pub(crate) fn is_whole_parameter(
    site: &Site<'_>,
    unit: usize,
    name: &Identifier,
) -> Result<bool, AllocError>
    ensures { IfOk result (λ whole. whole ≡ is_whole (units.parameter_named (seen_site site.now).set unit (seen_name name.now)).shape) }
{
    let one = parameter_in(site, unit, name)?;
    Ok(one.whole)
}

/// Tells the place of a call that has no code.
#[tactic(auto, using(crate::proofs::Calling::coded, crate::proofs::Calling::uncoded_there))]
pub(crate) fn require_call(
    site: &Site<'_>,
    place: Place,
    function: bool,
    unit: usize,
) -> Result<(), Uncoded>
    requires site { IsSite site.now }
    ensures { calling.IsCoded (leaves.call_of (seen_numbering site.now) (seen_site site.now) function unit) place result }
{
    let mut code = Vec::new(site.alloc);
    emit_call(&mut code, site, place, function, unit)
}
