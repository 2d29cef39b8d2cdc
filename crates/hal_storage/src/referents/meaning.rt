//! What names refer to where they stand.

ghost use Rattle.std.specs.Prelude.{◌≡◌, map};
ghost use Rattle.hal_names.specs.SeenNames.{seen_names};
ghost use Rattle.hal_constants.specs.SeenKnown.{seen_known};
ghost use Rattle.hal_storage.specs.referents.Referents as referents;
ghost use Rattle.hal_storage.specs.referents.SeenReferents.{seen_meant, seen_referent};

use crate::referents::referent::{Meant, Referent};
use hal_constants::Known;
use hal_names::Names;
use hal_reach::meant;
use hal_scope::builtin_named;
use hal_words::Name;

/// What a built-in function's name refers to.
fn builtin_referent<'a>(name: &Name) -> Meant<'a>
    ensures { seen_meant result ≡ referents.builtin_referent name.now }
{
    match builtin_named(name) {
        None => Meant::Nothing,
        Some(builtin) => Meant::Builtin(builtin),
    }
}

/// What the phrase with this number declares.
#[tactic(auto, using(crate::proofs::referents::Listed::referent_there, crate::proofs::referents::Listed::none_there))]
fn declaration_referent<'a>(
    list: &'a [Referent],
    names: &Names<'_>,
    known: &Known,
    number: usize,
) -> Meant<'a>
    requires listed { map seen_referent list.now ≡ referents.referents (seen_names names.now) (seen_known known.now) }
    ensures { seen_meant result ≡ referents.declaration_referent (seen_names names.now) (seen_known known.now) number }
{
    match list.get(number) {
        None => Meant::Nothing,
        Some(referent) => Meant::Declared(referent),
    }
}

/// What a name refers to in the block with this number, by what each phrase declares (language document, Names).
pub fn referent_in<'a>(
    list: &'a [Referent],
    names: &Names<'_>,
    known: &Known,
    block: usize,
    name: &Name,
) -> Meant<'a>
    requires listed { map seen_referent list.now ≡ referents.referents (seen_names names.now) (seen_known known.now) }
    ensures { seen_meant result ≡ referents.referent_in (seen_names names.now) (seen_known known.now) block name.now }
{
    match meant(names, block, name) {
        None => builtin_referent(name),
        Some(number) => declaration_referent(list, names, known, number),
    }
}
