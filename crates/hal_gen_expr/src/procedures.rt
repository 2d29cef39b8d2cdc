//! The code of CALL.

ghost use Rattle.std.specs.Prelude.{◌≡◌, map};
ghost use Rattle.hal_tree.specs.Rows.{expressions};
ghost use Rattle.hal_tree.specs.SeenExpressions.{seen_expression, seen_reference};
ghost use Rattle.hal_tree.specs.SeenLeaves.{seen_name};
ghost use Rattle.hal_gen_expr.specs.Calling as calling;
ghost use Rattle.hal_gen_expr.specs.Emits.{Emits};
ghost use Rattle.hal_gen_expr.specs.SeenSites.{seen_site, seen_numbering, IsSite};

use crate::calls::{emit_call, outputs_at, require_call, runs_in};
use crate::expressions::emit_arguments;
use crate::references::emit_area;
use crate::site::Site;
use crate::uncoded::Uncoded;
use hal_base::Place;
use hal_code::Instr;
use hal_tree::{Expr, Identifier, Reference};

/// Adds WHOLE of an ASSIGN argument for the parameter of this name of the unit with this number.
fn emit_spot(
    receiver: &Reference,
    code: &mut Vec<Instr>,
    site: &Site<'_>,
    unit: usize,
    name: &Identifier,
) -> Result<(), Uncoded>
    requires site { IsSite site.now }
    ensures { Emits (calling.spot_code (seen_numbering site.now) (seen_site site.now) code.old.items unit (seen_name name.now) (seen_reference receiver.now)) result code.new.items }
{
    let runs = runs_in(site, unit, name)?;
    emit_area(receiver, code, site, &runs)
}

/// Adds those of ASSIGN arguments for the parameters of these names, from left to right.
#[cycle(spots)]
fn emit_spots(
    names: &[Identifier],
    receivers: &[Reference],
    code: &mut Vec<Instr>,
    site: &Site<'_>,
    place: Place,
    unit: usize,
) -> Result<(), Uncoded>
    requires site { IsSite site.now }
    ensures { Emits (calling.spots_code (seen_numbering site.now) (seen_site site.now) code.old.items place unit (map seen_name names.now) (map seen_reference receivers.now)) result code.new.items }
{
    match (names.split_first(), receivers.split_first()) {
        (None, None) => Ok(()),
        (Some((name, others)), Some((receiver, more))) => {
            emit_spot(receiver, code, site, unit, name)?;
            emit_spots(others, more, code, site, place, unit)
        }
        _ => Err(Uncoded::At(place)),
    }
}

/// Adds the arguments of CALL of the PROCEDURE with this number: those of its input parameters, and then those of its ASSIGN parameters.
fn emit_passed(
    arguments: &Vec<Expr>,
    receivers: &[Reference],
    code: &mut Vec<Instr>,
    site: &Site<'_>,
    place: Place,
    unit: usize,
) -> Result<(), Uncoded>
    requires site { IsSite site.now }
    ensures { Emits (calling.passed_to_code (seen_numbering site.now) (seen_site site.now) code.old.items place (expressions (map seen_expression arguments.now.items)) (map seen_reference receivers.now) unit) result code.new.items }
{
    emit_arguments(arguments, code, site, place, unit)?;
    emit_spots(outputs_at(site, unit), receivers, code, site, place, unit)
}

/// Adds the code of CALL of the PROCEDURE with this number (language document, Units).
#[tactic(auto, using(crate::proofs::Calling::behind_given, crate::proofs::Calling::behind_stopped, crate::proofs::Calling::behind_none))]
pub fn emit_procedure(
    arguments: &Vec<Expr>,
    receivers: &[Reference],
    code: &mut Vec<Instr>,
    site: &Site<'_>,
    place: Place,
    unit: usize,
) -> Result<(), Uncoded>
    requires site { IsSite site.now }
    ensures { Emits (calling.called_code (seen_numbering site.now) (seen_site site.now) code.old.items place (expressions (map seen_expression arguments.now.items)) (map seen_reference receivers.now) unit) result code.new.items }
{
    require_call(site, place, false, unit)?;
    emit_passed(arguments, receivers, code, site, place, unit)?;
    emit_call(code, site, place, false, unit)
}
