//! Whether structure templates are the same.

ghost use Rattle.std.specs.Prelude.{◌≡◌, map};
ghost use Rattle.std.specs.Option.{option_map};
ghost use Rattle.hal_tree.specs.SeenDeclarations.{seen_part};
ghost use Rattle.hal_phrases.specs.SeenPhrases.{seen_node, seen_phrase};
ghost use Rattle.hal_names.specs.SeenNames.{seen_names};
ghost use Rattle.hal_constants.specs.SeenKnown.{seen_known};
ghost use Rattle.hal_templates.specs.Structures as structures;

use crate::meanings::same_meaning;
use hal_constants::Known;
use hal_names::Names;
use hal_phrases::{Node, Phrase};
use hal_tree::Part;
use hal_words::Name;

/// The phrase of the structure template that a name means in a block.
pub(crate) fn structure_named<'a>(
    names: &Names<'a>,
    block: usize,
    template: &Name,
) -> Option<Phrase<'a>>
    ensures { option_map seen_phrase result ≡ structures.structure_named (seen_names names.now) block template.now }
{
    names.phrase(names.means(block, template)?)
}

/// The parts that a structure template has.
#[tactic(auto, unfolding(crate::specs::Structures::parts_of))]
pub(crate) fn parts_of<'a>(node: Node<'a>) -> Option<&'a [Part]>
    ensures { option_map (λ list. map seen_part list.now) result ≡ structures.parts_of (seen_node node.entry) }
{
    match node {
        Node::Structure { name: _, parts } => Some(parts),
        _ => None,
    }
}

/// Two parts of the structure templates that these phrases declare.
#[tactic(auto, using(hal_tree::proofs::MadeDeclarations::made_part))]
fn same_part(
    names: &Names<'_>,
    known: &Known,
    one: &Phrase<'_>,
    part: &Part,
    two: &Phrase<'_>,
    other: &Part,
) -> bool
    ensures { result ≡ structures.same_part (seen_names names.now) (seen_known known.now) (seen_phrase one.now) (seen_part part.now) (seen_phrase two.now) (seen_part other.now) }
{
    part.level == other.level
        && (part.name.name.bytes() == other.name.name.bytes()
            && same_meaning(
                names,
                known,
                one,
                &[],
                &part.attributes,
                two,
                &[],
                &other.attributes,
            ))
}

/// Their parts, in order.
#[tactic(auto, unfolding(crate::specs::Structures::same_parts))]
pub(crate) fn same_parts(
    names: &Names<'_>,
    known: &Known,
    one: &Phrase<'_>,
    parts: &[Part],
    two: &Phrase<'_>,
    others: &[Part],
) -> bool
    ensures { result ≡ structures.same_parts (seen_names names.now) (seen_known known.now) (seen_phrase one.now) (map seen_part parts.now) (seen_phrase two.now) (map seen_part others.now) }
{
    let mut left = parts;
    let mut right = others;
    while let Some((part, behind)) = left.split_first() {
        let Some((other, later)) = right.split_first() else {
            return false;
        };
        if !same_part(names, known, one, part, two, other) {
            return false;
        }
        left = behind;
        right = later;
    }
    right.is_empty()
}

/// The same where both phrases declare structure templates.
#[tactic(auto, unfolding(crate::specs::Structures::same_lists))]
fn same_lists(names: &Names<'_>, known: &Known, one: &Phrase<'_>, two: &Phrase<'_>) -> bool
    ensures { result ≡ structures.declare_same (seen_names names.now) (seen_known known.now) (seen_phrase one.now) (seen_phrase two.now) }
{
    match (parts_of(one.node), parts_of(two.node)) {
        (Some(parts), Some(others)) => same_parts(names, known, one, parts, two, others),
        _ => true,
    }
}

/// Two structure templates, which may be one.
fn same_structure(names: &Names<'_>, known: &Known, one: &Phrase<'_>, two: &Phrase<'_>) -> bool
    ensures { result ≡ structures.same_structure (seen_names names.now) (seen_known known.now) (seen_phrase one.now) (seen_phrase two.now) }
{
    one.number == two.number || same_lists(names, known, one, two)
}

/// The structure templates that a name means, unless the unit itself declares the one that it means there.
#[tactic(auto, unfolding(crate::specs::Structures::means_same))]
fn means_same(
    names: &Names<'_>,
    known: &Known,
    unit: &Phrase<'_>,
    one: Option<Phrase<'_>>,
    two: Option<Phrase<'_>>,
) -> bool
    ensures { result ≡ structures.means_same (seen_names names.now) (seen_known known.now) (seen_phrase unit.now) (option_map seen_phrase one.entry) (option_map seen_phrase two.entry) }
{
    let Some(one) = one else {
        return true;
    };
    match two {
        None => true,
        Some(two) => {
            two.around.home == unit.around.home || same_structure(names, known, &one, &two)
        }
    }
}

/// The same of the name in a type, where there is one.
#[tactic(auto, unfolding(crate::specs::Structures::names_same))]
pub(crate) fn names_same(
    names: &Names<'_>,
    known: &Known,
    one: &Phrase<'_>,
    two: &Phrase<'_>,
    template: Option<Name>,
) -> bool
    ensures { result ≡ structures.names_same (seen_names names.now) (seen_known known.now) (seen_phrase one.now) (seen_phrase two.now) template }
{
    match template {
        None => true,
        Some(name) => means_same(
            names,
            known,
            two,
            structure_named(names, one.around.block, &name),
            structure_named(names, two.around.block, &name),
        ),
    }
}
