//! The code of names.

ghost use Rattle.std.specs.Prelude.{◌≡◌, map};
ghost use Rattle.hal_tree.specs.SeenLeaves.{seen_name};
ghost use Rattle.hal_storage.specs.referents.SeenReferents.{seen_meant, seen_referent};
ghost use Rattle.hal_gen_expr.specs.Emits.{Emits};
ghost use Rattle.hal_gen_expr.specs.Emitting as emitting;
ghost use Rattle.hal_gen_expr.specs.ExpressionCode as codes;
ghost use Rattle.hal_gen_expr.specs.Leaves as leaves;
ghost use Rattle.hal_gen_expr.specs.Referents as referents;
ghost use Rattle.hal_gen_expr.specs.SeenSites.{seen_site, seen_numbering, IsSite};

use crate::calls::{emit_call, inputs_at, lacks_names};
use crate::leaves::{emit_alone, emit_one, emit_two, pushes};
use crate::site::Site;
use crate::uncoded::Uncoded;
use crate::views::element_of;
use hal_base::Place;
use hal_code::Instr;
use hal_storage::referents::{Meant, Referent, referent_in};
use hal_tree::Identifier;
use hal_words::Name;

/// What a name refers to there (language document, Names).
#[tactic(auto, using(crate::proofs::Sited::listed_of), unfolding(crate::specs::SeenSites::seen_site))]
pub fn referent<'a>(site: &Site<'a>, name: &Name) -> Meant<'a>
    requires site { IsSite site.now }
    ensures { seen_meant result ≡ referents.referent (seen_site site.now) name.now }
{
    referent_in(
        site.referents,
        site.set.names,
        site.set.known,
        site.block,
        name,
    )
}

/// Adds the code of the value of what a phrase declares, to whose one element these names lead.
fn emit_declared(
    code: &mut Vec<Instr>,
    site: &Site<'_>,
    place: Place,
    path: &[Identifier],
    referent: &Referent,
) -> Result<(), Uncoded>
    requires site { IsSite site.now }
    ensures { Emits (emitting.emit code.old.items place (leaves.value_of (seen_numbering site.now) (seen_site site.now) (map seen_name path.now) (seen_referent referent.now))) result code.new.items }
{
    match referent {
        Referent::Data {
            declared,
            stored,
            shape,
        } => {
            let address = element_of(site, path, *declared, *stored, shape);
            emit_two(code, place, address, Instr::Fetch)
        }
        Referent::Constant(value) => {
            let instr = pushes(*code.allocator(), value)?;
            emit_one(code, place, instr)
        }
        Referent::Event(event) => emit_one(code, place, Instr::Event(*event)),
        Referent::Block(unit) => {
            if lacks_names(inputs_at(site, *unit)) {
                emit_call(code, site, place, true, *unit)
            } else {
                Err(Uncoded::At(place))
            }
        }
        Referent::Nothing => Err(Uncoded::At(place)),
    }
}

/// Adds the code of the value of what a name means, to whose one element further names lead.
pub(crate) fn emit_value(
    code: &mut Vec<Instr>,
    site: &Site<'_>,
    place: Place,
    path: &[Identifier],
    meant: Meant<'_>,
) -> Result<(), Uncoded>
    requires site { IsSite site.now }
    ensures { Emits (emitting.emit code.old.items place (leaves.value_of (seen_numbering site.now) (seen_site site.now) (map seen_name path.now) (seen_meant meant.entry))) result code.new.items }
{
    match meant {
        Meant::Declared(referent) => emit_declared(code, site, place, path, referent),
        Meant::Builtin(builtin) => emit_alone(code, place, builtin),
        Meant::Nothing => Err(Uncoded::At(place)),
    }
}

/// Adds the code of the value of a name in a subscript.
pub fn emit_name(code: &mut Vec<Instr>, site: &Site<'_>, name: &Identifier) -> Result<(), Uncoded>
    requires site { IsSite site.now }
    ensures { Emits (codes.name_code (seen_numbering site.now) (seen_site site.now) code.old.items (seen_name name.now)) result code.new.items }
{
    emit_value(code, site, name.place, &[], referent(site, &name.name))
}
