//! RETURN.

ghost use Rattle.std.specs.Prelude.{◌≡◌, ◌++◌, ◌∷◌, [], Some, map};
ghost use Rattle.std.specs.Option.{option_map};
ghost use Rattle.hal_tree.specs.SeenDeclarations.{seen_type};
ghost use Rattle.hal_tree.specs.SeenExpressions.{seen_expression};
ghost use Rattle.hal_tree.specs.SeenUnits.{seen_head, seen_returns};
ghost use Rattle.hal_storage.specs.sets.SeenBodies.{seen_body};
ghost use Rattle.hal_meaning.specs.Sets.{body_at};
ghost use Rattle.hal_code.specs.declared.instr.Instr.TheVariants as instr;
ghost use Rattle.hal_gen_expr.specs.Emits.{Emits};
ghost use Rattle.hal_gen_expr.specs.Emitting as emitting;
ghost use Rattle.hal_gen_expr.specs.SeenSites.{seen_site, seen_numbering, IsSite};
ghost use Rattle.hal_gen.specs.Leaves as leaves;
ghost use Rattle.hal_gen.specs.Returning as returning;
ghost use Rattle.hal_gen.specs.SeenExits.{seen_exits};
ghost use Rattle.hal_gen.specs.StatementCode as codes;

use crate::exits::{Exits, Leaving};
use hal_base::Place;
use hal_code::Instr;
use hal_gen_expr::{Site, Uncoded, emit_expression, emit_one, one, push};
use hal_operations::Op1;
use hal_storage::sets::Body;
use hal_tree::{Expr, Head, Returns, Type};

/// Whether a type is CHARACTER.
#[tactic(auto, using(hal_tree::proofs::MadeDeclarations::made_integer_type, hal_tree::proofs::MadeDeclarations::made_boolean_type, hal_tree::proofs::MadeDeclarations::made_event_type, hal_tree::proofs::MadeDeclarations::made_bit_type, hal_tree::proofs::MadeDeclarations::made_character_type, hal_tree::proofs::MadeDeclarations::made_structure_type))]
fn is_text(kind: &Type) -> bool
    ensures { result ≡ leaves.is_text (seen_type kind.now) }
{
    match kind {
        Type::Character { .. } => true,
        Type::Integer { .. } => false,
        Type::Boolean { .. } => false,
        Type::Event { .. } => false,
        Type::Bit { .. } => false,
        Type::Structure { .. } => false,
    }
}

/// Whether a FUNCTION's result is a text.
#[tactic(auto, using(hal_tree::proofs::MadeUnits::made_untyped, hal_tree::proofs::MadeUnits::made_typed_returns))]
fn returns_text(returns: &Returns) -> bool
    ensures { result ≡ leaves.returns_text (seen_returns returns.now) }
{
    match returns {
        Returns::Untyped => false,
        Returns::Typed { kind, precision: _ } => is_text(kind),
    }
}

/// Whether a unit with this head gives back a text.
#[tactic(auto, using(hal_tree::proofs::MadeUnits::made_program, hal_tree::proofs::MadeUnits::made_compool, hal_tree::proofs::MadeUnits::made_task, hal_tree::proofs::MadeUnits::made_procedure, hal_tree::proofs::MadeUnits::made_function))]
fn head_gives_text(head: &Head) -> bool
    ensures { result ≡ leaves.gives_text (seen_head head.now) }
{
    match head {
        Head::Program { .. } => false,
        Head::Compool { .. } => false,
        Head::Task { .. } => false,
        Head::Procedure { .. } => false,
        Head::Function { returns, .. } => returns_text(returns),
    }
}

/// Whether a body's unit gives back a text.
#[tactic(auto, using(hal_tree::proofs::MadeUnits::parts_of_unit))]
fn body_gives_text(body: &Body<'_>) -> bool
    ensures { result ≡ leaves.gives_text (seen_body body.now).head }
{
    head_gives_text(&body.unit.head)
}

/// Whether the unit with this number, one of these bodies, gives back a text.
#[tactic(auto, unfolding(crate::specs::Returning::given_by))]
fn unit_gives_text(bodies: &[Body<'_>], unit: usize) -> bool
    ensures { result ≡ returning.given_by unit (map seen_body bodies.now) }
{
    for body in bodies {
        if body.number == unit {
            return body_gives_text(body);
        }
    }
    false
}

/// Whether RETURN makes a text of its value: in a FUNCTION whose result is one.
#[tactic(auto, using(crate::proofs::Given::unit_given), unfolding(hal_gen_expr::specs::SeenSites::seen_site))]
pub(crate) fn gives_text(site: &Site<'_>) -> bool
    ensures { leaves.text_result result ≡ leaves.as_result (body_at (seen_site site.now).set (seen_site site.now).unit) }
{
    unit_gives_text(&site.set.bodies, site.unit)
}

/// Adds RETURN behind a value, which becomes a text where it is one.
#[tactic(auto, using(hal_gen_expr::proofs::Growing::one_by_one))]
fn emit_given(code: &mut Vec<Instr>, place: Place, is_text: bool) -> Result<(), Uncoded>
    ensures { Emits (emitting.emit code.old.items place (Some (leaves.text_result is_text ++ (instr.Return ∷ [])))) result code.new.items }
{
    if is_text {
        push(code, one(Op1::Character))?;
    }
    emit_one(code, place, Instr::Return)
}

/// Adds RETURN behind a value, where it gives one back.
fn emit_result(
    code: &mut Vec<Instr>,
    site: &Site<'_>,
    exits: &Exits<'_>,
    place: Place,
) -> Result<(), Uncoded>
    ensures { Emits (emitting.emit code.old.items place (leaves.result_of (seen_exits exits.now).leaving (body_at (seen_site site.now).set (seen_site site.now).unit))) result code.new.items }
{
    match exits.leaving {
        Leaving::ByResult => emit_given(code, place, gives_text(site)),
        Leaving::ToFinish(_) => Err(Uncoded::At(place)),
        Leaving::ByReturn => Err(Uncoded::At(place)),
        Leaving::NoReturn => Err(Uncoded::At(place)),
    }
}

/// Adds RETURN without a value.
fn emit_bare(code: &mut Vec<Instr>, exits: &Exits<'_>, place: Place) -> Result<(), Uncoded>
    ensures { Emits (emitting.emit code.old.items place (leaves.return_of (seen_exits exits.now).leaving)) result code.new.items }
{
    match exits.leaving {
        Leaving::ToFinish(finish) => emit_one(code, place, Instr::Jump(finish as u64)),
        Leaving::ByReturn => emit_one(code, place, Instr::Return),
        Leaving::ByResult => Err(Uncoded::At(place)),
        Leaving::NoReturn => Err(Uncoded::At(place)),
    }
}

/// Adds RETURN (language document, Units).
pub(crate) fn emit_return(
    value: &Option<Expr>,
    code: &mut Vec<Instr>,
    site: &Site<'_>,
    exits: &Exits<'_>,
    place: Place,
) -> Result<(), Uncoded>
    requires site { IsSite site.now }
    ensures { Emits (codes.returning_code (seen_numbering site.now) (seen_site site.now) code.old.items (seen_exits exits.now) place (option_map seen_expression value.now)) result code.new.items }
{
    match value {
        None => emit_bare(code, exits, place),
        Some(value) => {
            emit_expression(value, code, site)?;
            emit_result(code, site, exits, place)
        }
    }
}
