//! What declarations declare, one after another.

ghost use Rattle.std.specs.Prelude.{◌≡◌, IfOk, OnOk, map};
ghost use Rattle.hal_tree.specs.SeenDeclarations.{seen_attribute, seen_declaration, seen_declared};
ghost use Rattle.hal_phrases.specs.SeenPhrases.{seen_node};
ghost use Rattle.hal_templates.specs.Entries as plain;

use hal_phrases::Node;
use hal_tree::{Attribute, Declaration, Declared};
use std::alloc::{AllocError, Global};

/// Adds data behind the attributes before the comma.
#[tactic(auto, unfolding(crate::specs::Entries::with_items))]
fn add_items<'a>(
    into: &mut Vec<Node<'a>>,
    common: &'a [Attribute],
    items: &'a [Declared],
) -> Result<(), AllocError>
    ensures { OnOk result (map seen_node into.new.items ≡ plain.with_items (map seen_attribute common.now) (map seen_node into.old.items) (map seen_declared items.now)) }
{
    for item in items {
        into.push(Node::Item { common, item })?;
    }
    Ok(())
}

/// Adds what one declaration declares.
#[tactic(auto, using(crate::proofs::Repeated::one_mapped, hal_tree::proofs::MadeDeclarations::made_declare, hal_tree::proofs::MadeDeclarations::made_structure), unfolding(crate::specs::Entries::with_declaration))]
fn add_declaration<'a>(
    into: &mut Vec<Node<'a>>,
    declaration: &'a Declaration,
) -> Result<(), AllocError>
    ensures { OnOk result (map seen_node into.new.items ≡ plain.with_declaration (map seen_node into.old.items) (seen_declaration declaration.now)) }
{
    match declaration {
        Declaration::Declare {
            place: _,
            common,
            items,
        } => add_items(into, common, items),
        Declaration::Structure {
            place: _,
            name,
            parts,
        } => {
            into.push(Node::Structure { name, parts })?;
            Ok(())
        }
    }
}

/// What declarations declare, data and structure templates (language document, Templates).
#[tactic(auto, unfolding(crate::specs::Entries::with_declarations))]
pub(crate) fn entries<'a>(
    alloc: Global,
    declarations: &'a [Declaration],
) -> Result<Vec<Node<'a>>, AllocError>
    ensures { IfOk result (λ list. map seen_node list.items ≡ plain.entries (map seen_declaration declarations.now)) }
{
    let mut list = Vec::new(alloc);
    for declaration in declarations {
        add_declaration(&mut list, declaration)?;
    }
    Ok(list)
}
