//! What the attributes of a name mean, read from its own and those before the comma.

ghost use Rattle.std.specs.Prelude.{◌≡◌, map};
ghost use Rattle.std.specs.Option.{option_map};
ghost use Rattle.hal_tree.specs.Rows.{expressions, initials};
ghost use Rattle.hal_tree.specs.SeenDeclarations.{seen_attribute, seen_initial, seen_mark, seen_type};
ghost use Rattle.hal_tree.specs.SeenExpressions.{seen_expression};
ghost use Rattle.hal_phrases.specs.SeenPhrases.{seen_phrase};
ghost use Rattle.hal_names.specs.SeenNames.{seen_names};
ghost use Rattle.hal_constants.specs.SeenKnown.{seen_known};
ghost use Rattle.hal_templates.specs.Traits as facts;

use crate::locks::{group_given, group_of, star_given};
use crate::traits::Traits;
use hal_constants::{Known, kind_of_type};
use hal_kinds::{constant_among, has_mark, is_event_type, sizes_among};
use hal_names::Names;
use hal_phrases::Phrase;
use hal_scope::type_among;
use hal_tree::{Attribute, Expr, Initial, Mark, Type};
use hal_values::Kind;

/// The type.
pub(crate) fn type_given<'a>(common: &'a [Attribute], own: &'a [Attribute]) -> Option<&'a Type>
    ensures { option_map (λ kind. seen_type kind.now) result ≡ facts.type_given (map seen_attribute common.now) (map seen_attribute own.now) }
{
    let kind = type_among(own);
    if kind.is_some() {
        return kind;
    }
    type_among(common)
}

/// The sizes of the dimensions.
pub(crate) fn sizes_given<'a>(common: &'a [Attribute], own: &'a [Attribute]) -> Option<&'a [Expr]>
    ensures { option_map (λ sizes. expressions (map seen_expression sizes.now)) result ≡ facts.sizes_given (map seen_attribute common.now) (map seen_attribute own.now) }
{
    let sizes = sizes_among(own);
    if sizes.is_some() {
        return sizes;
    }
    sizes_among(common)
}

/// The values behind CONSTANT.
pub(crate) fn constants_given<'a>(
    common: &'a [Attribute],
    own: &'a [Attribute],
) -> Option<&'a [Initial]>
    ensures { option_map (λ values. initials (map seen_initial values.now)) result ≡ facts.constants_given (map seen_attribute common.now) (map seen_attribute own.now) }
{
    let values = constant_among(own);
    if values.is_some() {
        return values;
    }
    constant_among(common)
}

/// Whether this word is there.
fn is_given(mark: Mark, common: &[Attribute], own: &[Attribute]) -> bool
    ensures { result ≡ facts.is_given (seen_mark mark) (map seen_attribute common.now) (map seen_attribute own.now) }
{
    has_mark(mark, own) || has_mark(mark, common)
}

/// The kind of the cells.
pub(crate) fn kind_given(
    names: &Names<'_>,
    known: &Known,
    phrase: &Phrase<'_>,
    common: &[Attribute],
    own: &[Attribute],
) -> Option<Kind>
    ensures { result ≡ facts.kind_given (seen_names names.now) (seen_known known.now) (seen_phrase phrase.now) (map seen_attribute common.now) (map seen_attribute own.now) }
{
    let double = is_given(Mark::Double, common, own);
    kind_of_type(names, known, phrase, double, type_given(common, own))
}

/// What the attributes of a name that a phrase declares mean (language document, Templates).
#[tactic(auto, using(hal_kinds::proofs::Options::some_mapped))]
pub(crate) fn traits(
    names: &Names<'_>,
    known: &Known,
    phrase: &Phrase<'_>,
    common: &[Attribute],
    own: &[Attribute],
) -> Traits
    ensures { result ≡ facts.traits (seen_names names.now) (seen_known known.now) (seen_phrase phrase.now) (map seen_attribute common.now) (map seen_attribute own.now) }
{
    let group = group_given(common, own);
    Traits {
        typed: type_given(common, own).is_some(),
        event: is_event_type(type_given(common, own)),
        kind: kind_given(names, known, phrase, common, own),
        locked: group.is_some(),
        group: group_of(names, known, phrase, group),
        starred: star_given(common, own),
        latched: is_given(Mark::Latched, common, own),
        automatic: is_given(Mark::Automatic, common, own),
        constant: constants_given(common, own).is_some(),
    }
}
