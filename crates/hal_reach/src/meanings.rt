//! The declarations that names mean, in the units themselves.

ghost use Rattle.std.specs.Prelude.{◌≡◌, map};
ghost use Rattle.std.specs.List.{list_any};
ghost use Rattle.std.specs.Option.{option_map};
ghost use Rattle.hal_tree.specs.SeenDeclarations.{seen_declaration, seen_declared};
ghost use Rattle.hal_tree.specs.SeenUnits.{seen_preface};
ghost use Rattle.hal_phrases.specs.SeenPhrases.{seen_node, seen_phrase};
ghost use Rattle.hal_names.specs.SeenNames.{seen_names};
ghost use Rattle.hal_meaning.specs.Bodies as bodies;
ghost use Rattle.hal_reach.specs.Calls as calls;

use crate::sorts::is_compool_head;
use hal_names::{Key, Names, Space};
use hal_phrases::{Node, Phrase};
use hal_tree::{Declaration, Declared, Preface};
use hal_words::Name;

/// Whether an item has this name.
#[tactic(auto, using(hal_tree::proofs::MadeDeclarations::made_declared))]
fn is_named(name: &Name, item: &Declared) -> bool
    ensures { result ≡ calls.is_named name.now (seen_declared item.now) }
{
    item.name.name.bytes() == name.bytes()
}

/// Whether one of these items has this name.
fn is_any_named(name: &Name, items: &[Declared]) -> bool
    ensures { result ≡ list_any (calls.is_named name.now) (map seen_declared items.now) }
{
    for item in items {
        if is_named(name, item) {
            return true;
        }
    }
    false
}

/// Whether a declaration declares data of this name.
#[tactic(auto, using(hal_tree::proofs::MadeDeclarations::made_declare, hal_tree::proofs::MadeDeclarations::made_structure))]
fn declares(name: &Name, tree: &Declaration) -> bool
    ensures { result ≡ bodies.declares name.now (seen_declaration tree.now) }
{
    match tree {
        Declaration::Declare { items, .. } => is_any_named(name, items),
        Declaration::Structure { .. } => false,
    }
}

/// Whether one of these declarations does.
fn is_declared(name: &Name, trees: &[Declaration]) -> bool
    ensures { result ≡ list_any (bodies.declares name.now) (map seen_declaration trees.now) }
{
    for tree in trees {
        if declares(name, tree) {
            return true;
        }
    }
    false
}

/// The COMPOOL, where this is its template and declares this name.
#[tactic(auto, using(hal_tree::proofs::MadeUnits::made_include, hal_tree::proofs::MadeUnits::made_template_preface, hal_tree::proofs::MadeUnits::made_template))]
fn pool_in<'a>(preface: &'a Preface, name: &Name) -> Option<&'a Name>
    ensures { option_map (λ pool. pool.now) result ≡ calls.pool_in name.now (seen_preface preface.now) }
{
    match preface {
        Preface::Include { .. } => None,
        Preface::Template(template) => {
            if is_compool_head(&template.head) && is_declared(name, &template.declarations) {
                Some(&template.name.name)
            } else {
                None
            }
        }
    }
}

/// The COMPOOL whose written template among prefaces declares this name.
fn pool_of<'a>(prefaces: &'a [Preface], name: &Name) -> Option<&'a Name>
    ensures { option_map (λ pool. pool.now) result ≡ bodies.pool_of (map seen_preface prefaces.now) name.now }
{
    for preface in prefaces {
        let pool = pool_in(preface, name);
        if pool.is_some() {
            return pool;
        }
    }
    None
}

/// The data of this name that a COMPOOL declares.
fn pooled(names: &Names<'_>, unit: &Name, name: &Name) -> Option<usize>
    ensures { result ≡ bodies.pooled (seen_names names.now) unit.now name.now }
{
    let owner = names.unit_named(unit)?;
    names.own(&Key {
        space: Space::Declared,
        owner,
        name: *name,
    })
}

/// The data that an item of a template stands for, which belongs to the file.
fn pooled_at(names: &Names<'_>, name: &Name, node: Node<'_>) -> Option<usize>
    ensures { result ≡ bodies.pooled_at (seen_names names.now) name.now (seen_node node.entry) }
{
    match node {
        Node::File { prefaces, name: _ } => pooled(names, pool_of(prefaces, name)?, name),
        _ => None,
    }
}

/// The data that an item of this name stands for, in what this phrase stands in.
fn pooled_in(names: &Names<'_>, phrase: &Phrase<'_>, name: &Name) -> Option<usize>
    ensures { result ≡ calls.pooled_in (seen_names names.now) (seen_phrase phrase.now) name.now }
{
    let home = names.phrase(phrase.around.home)?;
    pooled_at(names, name, home.node)
}

/// The declaration that a declaration stands for: a template's stands for that of the unit.
#[tactic(auto, using(hal_tree::proofs::MadeDeclarations::made_declared))]
fn meant_at(names: &Names<'_>, phrase: &Phrase<'_>) -> Option<usize>
    ensures { result ≡ bodies.meant_at (seen_names names.now) (seen_phrase phrase.now) (seen_phrase phrase.now).node }
{
    match phrase.node {
        Node::Template { name, .. } => names.unit_named(&name.name),
        Node::Item { common: _, item } => pooled_in(names, phrase, &item.name.name),
        _ => None,
    }
}

/// The same of the phrase with this number; any other declaration stands for itself.
fn standing_for(names: &Names<'_>, number: usize) -> usize
    ensures { result ≡ bodies.standing_for (seen_names names.now) number }
{
    let Some(phrase) = names.phrase(number) else {
        return number;
    };
    match meant_at(names, &phrase) {
        None => number,
        Some(other) => other,
    }
}

/// The number of the declaration that a name means in the block with this number, in the unit itself (language document, Units).
pub fn meant(names: &Names<'_>, block: usize, name: &Name) -> Option<usize>
    ensures { result ≡ bodies.meant (seen_names names.now) block name.now }
{
    match names.means(block, name) {
        None => None,
        Some(number) => Some(standing_for(names, number)),
    }
}
