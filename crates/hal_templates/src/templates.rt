//! Templates and the units of a set.

ghost use Rattle.std.specs.Prelude.{◌≡◌, IfOk, map};
ghost use Rattle.std.specs.Option.{option_map};
ghost use Rattle.hal_tree.specs.SeenDeclarations.{seen_declaration};
ghost use Rattle.hal_tree.specs.SeenLeaves.{seen_name};
ghost use Rattle.hal_tree.specs.SeenUnits.{seen_head};
ghost use Rattle.hal_phrases.specs.SeenPhrases.{seen_node, seen_phrase};
ghost use Rattle.hal_names.specs.SeenNames.{seen_names};
ghost use Rattle.hal_constants.specs.SeenKnown.{seen_known};
ghost use Rattle.hal_templates.specs.Templates as templates;

use crate::entries::entries;
use crate::heads::{is_compool, same_head};
use crate::items::same_entries;
use crate::own::own_entries;
use hal_base::Place;
use hal_constants::Known;
use hal_names::{Key, Names, Space};
use hal_phrases::{Node, Phrase};
use hal_scope::unless;
use hal_tree::{Declaration, Head, Identifier};
use hal_words::Name;
use std::alloc::{AllocError, Global};

/// The block to which the names belong that a template with this head declares.
fn home_of(phrase: &Phrase<'_>, head: &Head) -> usize
    ensures { result ≡ templates.home_of (seen_phrase phrase.now) (seen_head head.now) }
{
    if is_compool(head) {
        phrase.around.home
    } else {
        phrase.number
    }
}

/// Whether the template that a phrase is declares what its unit shows.
fn declares_same(
    alloc: Global,
    names: &Names<'_>,
    known: &Known,
    phrase: &Phrase<'_>,
    head: &Head,
    declarations: &[Declaration],
    unit: &Phrase<'_>,
    unit_head: &Head,
    unit_declarations: &[Declaration],
) -> Result<bool, AllocError>
    ensures { IfOk result (λ same. same ≡ templates.declares_same (seen_names names.now) (seen_known known.now) (seen_phrase phrase.now) (seen_head head.now) (map seen_declaration declarations.now) (seen_phrase unit.now) (seen_head unit_head.now) (map seen_declaration unit_declarations.now)) }
{
    let ours = entries(alloc, declarations)?;
    let theirs = own_entries(alloc, names, unit.number, unit_head, unit_declarations)?;
    let home = home_of(phrase, head);
    same_entries(alloc, names, known, home, &ours, unit.number, &theirs)
}

/// Whether it equals the own template of the unit.
fn equals(
    alloc: Global,
    names: &Names<'_>,
    known: &Known,
    phrase: &Phrase<'_>,
    head: &Head,
    declarations: &[Declaration],
    unit: &Phrase<'_>,
    unit_head: &Head,
    unit_declarations: &[Declaration],
) -> Result<bool, AllocError>
    ensures { IfOk result (λ same. same ≡ templates.equals (seen_names names.now) (seen_known known.now) (seen_phrase phrase.now) (seen_head head.now) (map seen_declaration declarations.now) (seen_phrase unit.now) (seen_head unit_head.now) (map seen_declaration unit_declarations.now)) }
{
    if !same_head(names, known, phrase, head, unit, unit_head) {
        return Ok(false);
    }
    declares_same(
        alloc,
        names,
        known,
        phrase,
        head,
        declarations,
        unit,
        unit_head,
        unit_declarations,
    )
}

/// The same of the unit that another phrase is.
#[tactic(auto, unfolding(crate::specs::Templates::equals_unit))]
fn equals_unit(
    alloc: Global,
    names: &Names<'_>,
    known: &Known,
    phrase: &Phrase<'_>,
    head: &Head,
    declarations: &[Declaration],
    unit: &Phrase<'_>,
) -> Result<bool, AllocError>
    ensures { IfOk result (λ same. same ≡ templates.equals_unit (seen_names names.now) (seen_known known.now) (seen_phrase phrase.now) (seen_head head.now) (map seen_declaration declarations.now) (seen_phrase unit.now) (seen_phrase unit.now).node) }
{
    match unit.node {
        Node::Unit {
            name: _,
            head: unit_head,
            declarations: unit_declarations,
        } => equals(
            alloc,
            names,
            known,
            phrase,
            head,
            declarations,
            unit,
            unit_head,
            unit_declarations,
        ),
        _ => Ok(true),
    }
}

/// The unit of this name in the set.
fn unit_of<'a>(names: &Names<'a>, name: &Name) -> Option<Phrase<'a>>
    ensures { option_map seen_phrase result ≡ templates.unit_of (seen_names names.now) name.now }
{
    names.phrase(names.unit_named(name)?)
}

/// Where a template with this name differs from its unit.
fn differing_from(
    alloc: Global,
    names: &Names<'_>,
    known: &Known,
    phrase: &Phrase<'_>,
    name: &Identifier,
    head: &Head,
    declarations: &[Declaration],
) -> Result<Option<Place>, AllocError>
    ensures { IfOk result (λ place. place ≡ templates.differing_from (seen_names names.now) (seen_known known.now) (seen_phrase phrase.now) (seen_name name.now) (seen_head head.now) (map seen_declaration declarations.now)) }
{
    let Some(unit) = unit_of(names, &name.name) else {
        return Ok(None);
    };
    let same = equals_unit(alloc, names, known, phrase, head, declarations, &unit)?;
    Ok(unless(same, name.place))
}

/// Where a phrase breaks rule 501 (language document, Templates).
#[tactic(auto, unfolding(crate::specs::Templates::differing))]
pub(crate) fn differing(
    alloc: Global,
    names: &Names<'_>,
    known: &Known,
    phrase: &Phrase<'_>,
) -> Result<Option<Place>, AllocError>
    ensures { IfOk result (λ place. place ≡ templates.differing (seen_names names.now) (seen_known known.now) (seen_phrase phrase.now) (seen_phrase phrase.now).node) }
{
    match phrase.node {
        Node::Template {
            name,
            head,
            declarations,
        } => differing_from(alloc, names, known, phrase, name, head, declarations),
        _ => Ok(None),
    }
}

/// The name of the unit whose template a phrase gives.
#[tactic(auto, unfolding(crate::specs::Templates::template_name))]
fn template_name<'a>(node: Node<'a>) -> Option<&'a Identifier>
    ensures { option_map (λ name. seen_name name.now) result ≡ templates.template_name (seen_node node.entry) }
{
    match node {
        Node::Include { name } => Some(name),
        Node::Template { name, .. } => Some(name),
        _ => None,
    }
}

/// Where a phrase breaks rule 502 (language document, Templates).
pub(crate) fn lacking(names: &Names<'_>, phrase: &Phrase<'_>) -> Option<Place>
    ensures { result ≡ templates.lacking (seen_names names.now) (seen_phrase phrase.now) }
{
    let name = template_name(phrase.node)?;
    unless(names.unit_named(&name.name).is_some(), name.place)
}

/// The name of a file's unit.
#[tactic(auto, unfolding(crate::specs::Templates::unit_name))]
fn unit_name<'a>(node: Node<'a>) -> Option<&'a Identifier>
    ensures { option_map (λ name. seen_name name.now) result ≡ templates.unit_name (seen_node node.entry) }
{
    match node {
        Node::File { prefaces: _, name } => Some(name),
        _ => None,
    }
}

/// Whether this is the number of the phrase, or there is none.
fn is_number(number: usize, found: Option<usize>) -> bool
    ensures { result ≡ templates.is_number number found }
{
    match found {
        None => true,
        Some(found) => found == number,
    }
}

/// Where a phrase breaks rule 503 (language document, Templates).
pub(crate) fn doubled(names: &Names<'_>, phrase: &Phrase<'_>) -> Option<Place>
    ensures { result ≡ templates.doubled (seen_names names.now) (seen_phrase phrase.now) }
{
    let name = unit_name(phrase.node)?;
    let first = names.own(&Key {
        space: Space::Unit,
        owner: 0,
        name: name.name,
    });
    unless(is_number(phrase.number, first), name.place)
}
