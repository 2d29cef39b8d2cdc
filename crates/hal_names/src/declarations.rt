//! The phrases that declare something.

ghost use Rattle.std.specs.Prelude.{◌≡◌, [], filter, map, IfOk, OnOk};
ghost use Rattle.hal_phrases.specs.SeenPhrases.{seen_node, seen_phrase};
ghost use Rattle.hal_names.specs.Declarations.{is_declaration, is_declaring, with_all_chosen, with_chosen, with_place, with_places};
ghost use Rattle.hal_names.specs.SeenNames.{seen_names};

use crate::names::Names;
use hal_phrases::{Node, Phrase};
use std::alloc::{AllocError, Global};

/// Whether a phrase opens a file, or declares a block, data, a structure or the variable of a group.
#[tactic(auto, unfolding(crate::specs::Declarations::is_declaring))]
fn is_declaring(node: Node<'_>) -> bool
    ensures { result ≡ is_declaring (seen_node node.entry) }
{
    match node {
        Node::File { .. } => true,
        Node::Include { .. } => true,
        Node::Template { .. } => true,
        Node::Unit { .. } => true,
        Node::Parameter { .. } => true,
        Node::Item { .. } => true,
        Node::Structure { .. } => true,
        Node::TemporaryGroup { .. } => true,
        _ => false,
    }
}

/// Notes the place of a phrase, where it is a declaration.
fn note(places: &mut Vec<usize>, place: usize, phrase: &Phrase<'_>) -> Result<(), AllocError>
    ensures { OnOk result (places.new.items ≡ with_place places.old.items place (seen_phrase phrase.now)) }
{
    if is_declaring(phrase.node) {
        places.push(place)?;
    }
    Ok(())
}

/// The places of the declarations among phrases.
#[tactic(auto, unfolding(crate::specs::Declarations::with_places))]
pub(crate) fn declared_places(
    alloc: Global,
    phrases: &[Phrase<'_>],
) -> Result<Vec<usize>, AllocError>
    ensures { IfOk result (λ places. places.items ≡ with_places [] 0 (map seen_phrase phrases.now)) }
{
    let mut places = Vec::new(alloc);
    let mut place = 0;
    for phrase in phrases {
        note(&mut places, place, phrase)?;
        place += 1;
    }
    Ok(places)
}

/// Adds the phrase at a place to those that were chosen.
fn choose<'a>(
    chosen: &mut Vec<Phrase<'a>>,
    names: &Names<'a>,
    place: usize,
) -> Result<(), AllocError>
    ensures { OnOk result (map seen_phrase chosen.new.items ≡ with_chosen (seen_names names.now) (map seen_phrase chosen.old.items) place) }
{
    if let Some(phrase) = names.phrase(place) {
        chosen.push(phrase)?;
    }
    Ok(())
}

/// The phrases at these places.
#[tactic(auto, unfolding(crate::specs::Declarations::with_all_chosen))]
fn chosen_at<'a>(
    alloc: Global,
    names: &Names<'a>,
    places: &[usize],
) -> Result<Vec<Phrase<'a>>, AllocError>
    ensures { IfOk result (λ chosen. map seen_phrase chosen.items ≡ with_all_chosen (seen_names names.now) [] places.now) }
{
    let mut chosen = Vec::new(alloc);
    for place in places {
        choose(&mut chosen, names, *place)?;
    }
    Ok(chosen)
}

impl<'a> Names<'a> {
    /// The phrases that open a file, include a template, or declare a block, a parameter, data, a structure or the variable of a group, themselves or
    /// by a template, in order (language document, Names). They are few: a pass that looks for declarations goes through these alone. The vector is
    /// made anew.
    ///
    /// # Errors
    ///
    /// Memory is wanting.
    #[tactic(auto, using(crate::proofs::Declared::chosen_alone))]
    pub fn declarations(&self, alloc: Global) -> Result<Vec<Phrase<'a>>, AllocError>
        ensures { IfOk result (λ declared. map seen_phrase declared.items ≡ filter is_declaration (seen_names self.now)) }
    {
        chosen_at(alloc, self, self.declared.as_slice())
    }
}
