//! The parts of structures.

ghost use Rattle.std.specs.Prelude.{◌≡◌, ◌<◌, [], ◌∷◌, IfNone, IfSome, length, map};
ghost use Rattle.std.specs.Option.{option_map};
ghost use Rattle.hal_tree.specs.SeenDeclarations.{seen_part};
ghost use Rattle.hal_phrases.specs.GatheredDeclarations.{is_bottom};
ghost use Rattle.hal_phrases.specs.SeenPhrases.{seen_node, seen_phrase};
ghost use Rattle.hal_names.specs.SeenNames.{seen_names};
ghost use Rattle.hal_constants.specs.SeenKnown.{seen_known};
ghost use Rattle.hal_sizes.specs.Parts as parts;

use crate::extent::Extent;
use crate::sizes::extent_of;
use hal_constants::{Known, kind_of_type};
use hal_kinds::{has_mark, sizes_among};
use hal_names::Names;
use hal_phrases::{Node, Phrase};
use hal_scope::type_among;
use hal_tree::{Mark, Part};
use hal_values::Kind;
use hal_words::Name;

/// The phrase of the structure template that a name means in a block (language document, Structures).
pub fn structure_named<'a>(names: &Names<'a>, block: usize, template: &Name) -> Option<Phrase<'a>>
    ensures { option_map seen_phrase result ≡ parts.structure_named (seen_names names.now) block template.now }
{
    names.phrase(names.means(block, template)?)
}

/// The parts that a structure template has.
#[tactic(auto, unfolding(crate::specs::Parts::parts_of))]
pub fn parts_of<'a>(node: Node<'a>) -> Option<&'a [Part]>
    ensures { option_map (λ list. map seen_part list.now) result ≡ parts.parts_of (seen_node node.entry) }
{
    match node {
        Node::Structure { name: _, parts } => Some(parts),
        _ => None,
    }
}

/// Whether a part of this level has no parts of its own, where these stand behind it.
#[tactic(auto, using(hal_tree::proofs::MadeDeclarations::made_part), unfolding(hal_phrases::specs::GatheredDeclarations::is_bottom))]
fn is_bottom(level: u32, rest: &[Part]) -> bool
    ensures { result ≡ is_bottom level (map seen_part rest.now) }
{
    match rest.split_first() {
        None => true,
        Some((next, _)) => next.level <= level,
    }
}

/// The first of these parts that has no parts of its own and belongs to a part of this level, and what stands behind it; the parts of a whole structure belong to
/// level 0 (language document, Structures).
#[tactic(auto, using(hal_tree::proofs::MadeDeclarations::made_part), unfolding(crate::specs::Parts::bottoms))]
pub fn bottom<'a>(level: u32, list: &'a [Part]) -> Option<(&'a Part, &'a [Part])>
    ensures found { IfSome result (λ f. parts.bottoms level (map seen_part list.now) ≡ seen_part f.0.now ∷ parts.bottoms level (map seen_part f.1.now)) }
    ensures shorter { IfSome result (λ f. length f.1.now < length list.now) }
    ensures none { IfNone result (parts.bottoms level (map seen_part list.now) ≡ []) }
{
    let mut rest = list;
    while let Some((part, later)) = rest.split_first() {
        if part.level <= level {
            return None;
        }
        if is_bottom(part.level, later) {
            return Some((part, later));
        }
        rest = later;
    }
    None
}

/// The kind of the cells of a bottom part, in the structure template of this phrase (language document, Structures).
#[tactic(auto, using(hal_tree::proofs::MadeDeclarations::made_part))]
pub fn kind_of_part(
    names: &Names<'_>,
    known: &Known,
    structure: &Phrase<'_>,
    part: &Part,
) -> Option<Kind>
    ensures { result ≡ parts.kind_of_part (seen_names names.now) (seen_known known.now) (seen_phrase structure.now) (seen_part part.now) }
{
    let double = has_mark(Mark::Double, &part.attributes);
    kind_of_type(
        names,
        known,
        structure,
        double,
        type_among(&part.attributes),
    )
}

/// The dimensions of a bottom part (language document, Structures).
#[tactic(auto, using(hal_tree::proofs::MadeDeclarations::made_part))]
pub fn extent_of_part(
    names: &Names<'_>,
    known: &Known,
    structure: &Phrase<'_>,
    part: &Part,
) -> Option<Extent>
    ensures { result ≡ parts.extent_of_part (seen_names names.now) (seen_known known.now) (seen_phrase structure.now) (seen_part part.now) }
{
    extent_of(names, known, structure, sizes_among(&part.attributes))
}
