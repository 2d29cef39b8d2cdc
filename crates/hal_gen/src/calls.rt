//! CALL.

ghost use Rattle.std.specs.Prelude.{◌≡◌, IfOk, map};
ghost use Rattle.hal_tree.specs.Rows.{expressions};
ghost use Rattle.hal_tree.specs.SeenExpressions.{seen_expression, seen_reference};
ghost use Rattle.hal_tree.specs.SeenLeaves.{seen_name};
ghost use Rattle.hal_storage.specs.referents.SeenReferents.{seen_meant, seen_referent};
ghost use Rattle.hal_gen_expr.specs.Emits.{Emits};
ghost use Rattle.hal_gen_expr.specs.Referents.{referent};
ghost use Rattle.hal_gen_expr.specs.SeenSites.{seen_site, seen_numbering, IsSite};
ghost use Rattle.hal_gen.specs.Procedures as procedures;
ghost use Rattle.hal_gen.specs.Sizes as sizes;
ghost use Rattle.hal_gen.specs.StatementCode as codes;

use hal_base::Place;
use hal_code::Instr;
use hal_gen_expr::{Site, Uncoded, emit_procedure, referent};
use hal_storage::referents::{Meant, Referent};
use hal_tree::{Expr, Identifier, Reference};
use std::alloc::AllocError;

/// The block that a phrase declares, where it declares one.
fn declared_block(referent: &Referent) -> Option<usize>
    ensures { result ≡ procedures.block_of (seen_referent referent.now) }
{
    match referent {
        Referent::Block(unit) => Some(*unit),
        Referent::Data { .. } => None,
        Referent::Constant(_) => None,
        Referent::Event(_) => None,
        Referent::Nothing => None,
    }
}

/// The block that a name refers to, where it refers to one.
fn block_of(meant: Meant<'_>) -> Option<usize>
    ensures { result ≡ procedures.block_of (seen_meant meant.entry) }
{
    match meant {
        Meant::Declared(referent) => declared_block(referent),
        Meant::Builtin(_) => None,
        Meant::Nothing => None,
    }
}

/// Adds the code of CALL of what this name refers to (language document, Units).
#[tactic(auto, using(crate::proofs::Called::procedure_given))]
pub(crate) fn emit_call(
    name: &Identifier,
    arguments: &Vec<Expr>,
    receivers: &[Reference],
    code: &mut Vec<Instr>,
    site: &Site<'_>,
    place: Place,
) -> Result<(), Uncoded>
    requires site { IsSite site.now }
    ensures { Emits (codes.procedure_code (seen_numbering site.now) (seen_site site.now) code.old.items place (expressions (map seen_expression arguments.now.items)) (map seen_reference receivers.now) (referent (seen_site site.now) (seen_name name.now).name)) result code.new.items }
{
    match block_of(referent(site, &name.name)) {
        None => Err(Uncoded::At(place)),
        Some(unit) => emit_procedure(arguments, receivers, code, site, place, unit),
    }
}

/// The size of CALL of what this name refers to, 0 where it has no code.
#[tactic(auto, using(crate::proofs::Called::procedure_sized))]
pub(crate) fn call_size(
    name: &Identifier,
    arguments: &Vec<Expr>,
    receivers: &[Reference],
    site: &Site<'_>,
    place: Place,
) -> Result<usize, AllocError>
    requires site { IsSite site.now }
    ensures { IfOk result (λ size. size ≡ sizes.call_size (seen_numbering site.now) (seen_site site.now) (expressions (map seen_expression arguments.now.items)) (map seen_reference receivers.now) place (referent (seen_site site.now) (seen_name name.now).name)) }
{
    let mut code = Vec::new(site.alloc);
    match emit_call(name, arguments, receivers, &mut code, site, place) {
        Ok(()) => Ok(code.len()),
        Err(Uncoded::At(_)) => Ok(0),
        Err(Uncoded::Memory(error)) => Err(error),
    }
}
