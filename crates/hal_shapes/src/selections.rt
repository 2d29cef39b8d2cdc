//! What a reference to data means, part by part: its copies, its kind, its dimensions, its parts.

ghost use Rattle.std.specs.Prelude.{◌≡◌, map};
ghost use Rattle.std.specs.Option.{option_map};
ghost use Rattle.hal_tree.specs.Rows.{subscripts};
ghost use Rattle.hal_tree.specs.SeenDeclarations.{seen_part, seen_type};
ghost use Rattle.hal_tree.specs.SeenExpressions.{seen_expression, seen_reference, seen_sub, seen_subscript};
ghost use Rattle.hal_tree.specs.SeenLeaves.{seen_name};
ghost use Rattle.hal_phrases.specs.SeenPhrases.{seen_phrase};
ghost use Rattle.hal_names.specs.SeenNames.{seen_names};
ghost use Rattle.hal_constants.specs.SeenKnown.{seen_known};
ghost use Rattle.hal_shapes.specs.Selections as selections;

use crate::paths::reached;
use crate::reach::Reach;
use crate::reaches::reach_of;
use hal_constants::{Known, kind_of_item};
use hal_kinds::sizes_of;
use hal_names::Names;
use hal_phrases::{Node, Phrase};
use hal_scope::type_of;
use hal_sizes::{
    Extent, copies_of, extent_of, extent_of_part, kind_of_part, parts_of, structure_named,
};
use hal_tree::{Expr, Identifier, Part, Reference, Sub, Subscript, Type};
use hal_values::Kind;
use hal_words::Name;

/// The phrase that declares what a name means in a phrase.
#[tactic(auto, unfolding(crate::specs::Selections::declared_for))]
pub(crate) fn declared_for<'a>(
    names: &Names<'a>,
    phrase: &Phrase<'_>,
    name: &Name,
) -> Option<Phrase<'a>>
    ensures { option_map seen_phrase result ≡ selections.declared_for (seen_names names.now) (seen_phrase phrase.now) name.now }
{
    names.phrase(names.means(phrase.around.block, name)?)
}

/// The structure template of a type, as it is declared in this block.
#[tactic(auto, using(hal_tree::proofs::MadeDeclarations::made_integer_type, hal_tree::proofs::MadeDeclarations::made_boolean_type, hal_tree::proofs::MadeDeclarations::made_event_type, hal_tree::proofs::MadeDeclarations::made_bit_type, hal_tree::proofs::MadeDeclarations::made_character_type, hal_tree::proofs::MadeDeclarations::made_structure_type), unfolding(crate::specs::Selections::structure_in))]
fn structure_in<'a>(names: &Names<'a>, block: usize, kind: &Type) -> Option<Phrase<'a>>
    ensures { option_map seen_phrase result ≡ selections.structure_in (seen_names names.now) block (seen_type kind.now) }
{
    match kind {
        Type::Structure {
            place: _,
            template,
            copies: _,
        } => structure_named(names, block, template),
        Type::Integer { place: _ } => None,
        Type::Boolean { place: _ } => None,
        Type::Event { place: _ } => None,
        Type::Bit { .. } => None,
        Type::Character { .. } => None,
    }
}

/// The same of a type that may be there.
pub(crate) fn structure_of<'a>(
    names: &Names<'a>,
    block: usize,
    kind: Option<&Type>,
) -> Option<Phrase<'a>>
    ensures { option_map seen_phrase result ≡ selections.structure_of (seen_names names.now) block (option_map (λ kind. seen_type kind.now) kind.entry) }
{
    structure_in(names, block, kind?)
}

/// The part to which a path leads in a structure template, and the parts behind it.
pub(crate) fn part_reached<'a>(
    structure: &Phrase<'a>,
    path: &[Identifier],
) -> Option<(&'a Part, &'a [Part])>
    ensures { option_map (λ f. (seen_part f.0.now, map seen_part f.1.now)) result ≡ selections.part_reached (seen_phrase structure.now) (map seen_name path.now) }
{
    reached(parts_of(structure.node)?, path)
}

/// The kind of the cells at the end of a path.
fn kind_reached(
    names: &Names<'_>,
    known: &Known,
    structure: &Phrase<'_>,
    path: &[Identifier],
) -> Option<Kind>
    ensures { result ≡ selections.kind_reached (seen_names names.now) (seen_known known.now) (seen_phrase structure.now) (map seen_name path.now) }
{
    let (part, _) = part_reached(structure, path)?;
    kind_of_part(names, known, structure, part)
}

/// Its dimensions.
fn extent_reached(
    names: &Names<'_>,
    known: &Known,
    structure: &Phrase<'_>,
    path: &[Identifier],
) -> Option<Extent>
    ensures { result ≡ selections.extent_reached (seen_names names.now) (seen_known known.now) (seen_phrase structure.now) (map seen_name path.now) }
{
    let (part, _) = part_reached(structure, path)?;
    extent_of_part(names, known, structure, part)
}

/// The kind of what is declared by a phrase, or of the end of a path in it.
#[tactic(auto, using(hal_scope::proofs::Lists::nil_seen), unfolding(crate::specs::Selections::kind_at))]
pub(crate) fn kind_at(
    names: &Names<'_>,
    known: &Known,
    declared: &Phrase<'_>,
    path: &[Identifier],
) -> Option<Kind>
    ensures { result ≡ selections.kind_at (seen_names names.now) (seen_known known.now) (seen_phrase declared.now) (map seen_name path.now) (seen_phrase declared.now).node }
{
    match declared.node {
        Node::Item { common, item } => {
            if path.is_empty() {
                return kind_of_item(names, known, declared, common, item);
            }
            let structure = structure_of(names, declared.around.block, type_of(common, item))?;
            kind_reached(names, known, &structure, path)
        }
        Node::TemporaryGroup { .. } => Some(Kind::Double),
        _ => None,
    }
}

/// Its dimensions.
#[tactic(auto, using(hal_scope::proofs::Lists::nil_seen), unfolding(crate::specs::Selections::extent_at))]
pub(crate) fn extent_at(
    names: &Names<'_>,
    known: &Known,
    declared: &Phrase<'_>,
    path: &[Identifier],
) -> Option<Extent>
    ensures { result ≡ selections.extent_at (seen_names names.now) (seen_known known.now) (seen_phrase declared.now) (map seen_name path.now) (seen_phrase declared.now).node }
{
    match declared.node {
        Node::Item { common, item } => {
            if path.is_empty() {
                return extent_of(names, known, declared, sizes_of(common, item));
            }
            let structure = structure_of(names, declared.around.block, type_of(common, item))?;
            extent_reached(names, known, &structure, path)
        }
        Node::TemporaryGroup { .. } => Some(Extent {
            first: 0,
            second: 0,
            third: 0,
        }),
        _ => None,
    }
}

/// The copies of what is declared by a phrase, 0 where there are none.
#[tactic(auto, unfolding(crate::specs::Selections::copies_at))]
pub(crate) fn copies_at(names: &Names<'_>, known: &Known, declared: &Phrase<'_>) -> Option<u16>
    ensures { result ≡ selections.copies_at (seen_names names.now) (seen_known known.now) (seen_phrase declared.now) (seen_phrase declared.now).node }
{
    match declared.node {
        Node::Item { common, item } => copies_of(names, known, declared, type_of(common, item)),
        Node::TemporaryGroup { .. } => Some(0),
        _ => None,
    }
}

/// The subscripts of copies.
#[tactic(auto, using(hal_tree::proofs::MadeExpressions::made_unsubscripted, hal_tree::proofs::MadeExpressions::made_by_name, hal_tree::proofs::MadeExpressions::made_by_integer, hal_tree::proofs::MadeExpressions::made_by_parts), unfolding(crate::specs::Selections::copy_subs, hal_tree::specs::Rows::subscripts))]
pub(crate) fn copy_subs<'a>(subscript: &'a Subscript) -> &'a [Sub]
    ensures { subscripts (map seen_sub result.now) ≡ selections.copy_subs (seen_subscript subscript.now) }
{
    match subscript {
        Subscript::None => &[],
        Subscript::Name { .. } => &[],
        Subscript::Integer { .. } => &[],
        Subscript::Parts {
            place: _,
            copies,
            arrays: _,
            components: _,
        } => copies,
    }
}

/// How many copies are left of so many where one is chosen or several are.
#[tactic(auto, unfolding(crate::specs::Selections::copies_by))]
fn copies_by(reach: Reach) -> Option<u16>
    ensures { result ≡ selections.copies_by reach }
{
    match reach {
        Reach::One => Some(0),
        Reach::Many(count) => Some(count),
        _ => None,
    }
}

/// The same of the first of these subscripts.
#[tactic(auto, unfolding(crate::specs::Selections::copies_left, hal_tree::specs::Rows::subscripts))]
fn copies_left(
    names: &Names<'_>,
    known: &Known,
    phrase: &Phrase<'_>,
    size: u16,
    subs: &[Sub],
) -> Option<u16>
    ensures { result ≡ selections.copies_left (seen_names names.now) (seen_known known.now) (seen_phrase phrase.now) size (subscripts (map seen_sub subs.now)) }
{
    match subs.split_first() {
        None => Some(size),
        Some((sub, _)) => copies_by(reach_of(names, known, phrase, size, sub)),
    }
}

/// The copies that a reference to what a phrase declares leaves.
pub(crate) fn copies_chosen(
    names: &Names<'_>,
    known: &Known,
    phrase: &Phrase<'_>,
    subscript: &Subscript,
    declared: &Phrase<'_>,
) -> Option<u16>
    ensures { result ≡ selections.copies_chosen (seen_names names.now) (seen_known known.now) (seen_phrase phrase.now) (seen_subscript subscript.now) (seen_phrase declared.now) }
{
    let size = copies_at(names, known, declared)?;
    copies_left(names, known, phrase, size, copy_subs(subscript))
}

/// The reference that an expression is.
#[tactic(auto, using(hal_tree::proofs::MadeExpressions::made_or, hal_tree::proofs::MadeExpressions::made_and, hal_tree::proofs::MadeExpressions::made_compare, hal_tree::proofs::MadeExpressions::made_cat, hal_tree::proofs::MadeExpressions::made_sum, hal_tree::proofs::MadeExpressions::made_product, hal_tree::proofs::MadeExpressions::made_power, hal_tree::proofs::MadeExpressions::made_not, hal_tree::proofs::MadeExpressions::made_literal, hal_tree::proofs::MadeExpressions::made_decimal, hal_tree::proofs::MadeExpressions::made_referred, hal_tree::proofs::MadeExpressions::made_call, hal_tree::proofs::MadeExpressions::made_convert, hal_tree::proofs::MadeExpressions::made_parenthesis), unfolding(crate::specs::Selections::reference_in))]
pub(crate) fn reference_in<'a>(tree: &'a Expr) -> Option<&'a Reference>
    ensures { option_map (λ reference. seen_reference reference.now) result ≡ selections.reference_in (seen_expression tree.now) }
{
    match tree {
        Expr::Reference(reference) => Some(reference),
        Expr::Or { .. } => None,
        Expr::And { .. } => None,
        Expr::Compare { .. } => None,
        Expr::Cat { .. } => None,
        Expr::Sum { .. } => None,
        Expr::Product { .. } => None,
        Expr::Power { .. } => None,
        Expr::Not { .. } => None,
        Expr::Literal { .. } => None,
        Expr::Decimal { .. } => None,
        Expr::Call { .. } => None,
        Expr::Convert { .. } => None,
        Expr::Parenthesis { .. } => None,
    }
}
