//! Whether attributes mean the same.

ghost use Rattle.std.specs.Prelude.{◌≡◌, map};
ghost use Rattle.hal_tree.specs.SeenDeclarations.{seen_attribute};
ghost use Rattle.hal_phrases.specs.SeenPhrases.{seen_phrase};
ghost use Rattle.hal_names.specs.SeenNames.{seen_names};
ghost use Rattle.hal_constants.specs.SeenKnown.{seen_known};
ghost use Rattle.hal_templates.specs.Meanings as plain;

use crate::alike::{same_template, same_traits};
use crate::own::template_of;
use crate::reading::{traits, type_given};
use crate::sizes::same_shape;
use hal_constants::Known;
use hal_names::Names;
use hal_phrases::Phrase;
use hal_tree::Attribute;

/// Whether the attributes of what two phrases declare mean the same, the values behind CONSTANT aside (language document, Templates).
pub(crate) fn same_meaning(
    names: &Names<'_>,
    known: &Known,
    one: &Phrase<'_>,
    common: &[Attribute],
    own: &[Attribute],
    two: &Phrase<'_>,
    other_common: &[Attribute],
    other_own: &[Attribute],
) -> bool
    ensures { result ≡ plain.same_meaning (seen_names names.now) (seen_known known.now) (seen_phrase one.now) (map seen_attribute common.now) (map seen_attribute own.now) (seen_phrase two.now) (map seen_attribute other_common.now) (map seen_attribute other_own.now) }
{
    same_template(
        template_of(type_given(common, own)),
        template_of(type_given(other_common, other_own)),
    ) && (same_traits(
        &traits(names, known, one, common, own),
        &traits(names, known, two, other_common, other_own),
    ) && same_shape(names, known, one, common, own, two, other_common, other_own))
}
