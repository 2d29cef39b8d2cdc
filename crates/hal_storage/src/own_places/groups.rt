//! The groups that are DO FOR or DO CASE.

ghost use Rattle.std.specs.Prelude.{◌≡◌, true, slice_set, map, IfOk, OnOk};
ghost use Rattle.hal_phrases.specs.SeenPhrases.{seen_node, seen_phrase};
ghost use Rattle.hal_names.specs.SeenNames.{seen_names};
ghost use Rattle.hal_meaning.specs.Places as places;
ghost use Rattle.hal_storage.specs.own_places.PlacedGroups as placed;

use hal_names::Names;
use hal_phrases::{Node, Phrase, Role};
use std::alloc::{AllocError, Global};

/// The groups that are DO FOR or DO CASE, found once for a set of files: those without a TEMPORARY variable that have own places.
#[derive(Drop)]
pub struct PlacedGroups {
    /// Of each phrase whether it is such a group; those behind the end are none.
    marks: Vec<bool>,
}

/// Whether a phrase says of the group that it belongs to that it is DO FOR or DO CASE.
fn says_for_or_case(node: Node<'_>) -> bool
    ensures { result ≡ places.says_for_or_case (seen_node node.entry) }
{
    match node {
        Node::Variable { name: _ } => true,
        Node::Expression {
            role: Role::Case,
            tree: _,
        } => true,
        _ => false,
    }
}

/// Makes marks reach a number, where they end before it.
#[tactic(auto, using(crate::proofs::own_places::Marked::long_enough))]
fn hold(marks: &mut Vec<bool>, number: usize) -> Result<(), AllocError>
    ensures { OnOk result (marks.new.items ≡ placed.held marks.old.items number) }
{
    let Some(least) = number.checked_add(1) else {
        return Err(AllocError);
    };
    if marks.len() < least {
        marks.resize(least, false)?;
    }
    Ok(())
}

/// Marks a number, where the marks reach it.
fn mark(marks: &mut Vec<bool>, number: usize)
    ensures { marks.new.items ≡ slice_set marks.old.items number true }
{
    if let Some(place) = marks.get_mut(number) {
        *place = true;
    }
}

/// Marks the group that a phrase belongs to, where it says of it that it is DO FOR or DO CASE.
fn mark_parent(marks: &mut Vec<bool>, phrase: &Phrase<'_>) -> Result<(), AllocError>
    ensures { OnOk result (marks.new.items ≡ placed.with_parent marks.old.items (seen_phrase phrase.now)) }
{
    if says_for_or_case(phrase.node) {
        hold(marks, phrase.around.parent)?;
        mark(marks, phrase.around.parent);
    }
    Ok(())
}

/// Marks those of phrases.
#[tactic(auto, unfolding(crate::specs::own_places::PlacedGroups::with_parents))]
fn mark_parents(marks: &mut Vec<bool>, phrases: &[Phrase<'_>]) -> Result<(), AllocError>
    ensures { OnOk result (marks.new.items ≡ placed.with_parents marks.old.items (map seen_phrase phrases.now)) }
{
    for phrase in phrases {
        mark_parent(marks, phrase)?;
    }
    Ok(())
}

impl PlacedGroups {
    /// Those of a set of files (language document, Places).
    #[tactic(auto, using(crate::proofs::own_places::Marked::all_marked))]
    pub fn of(alloc: Global, names: &Names<'_>) -> Result<PlacedGroups, AllocError>
        ensures { IfOk result (λ groups. placed.ArePlaced (seen_names names.now) groups) }
    {
        let mut marks = Vec::new(alloc);
        mark_parents(&mut marks, names.phrases())?;
        Ok(PlacedGroups { marks })
    }

    /// Whether the phrase with this number is one of them.
    pub fn has(&self, number: usize) -> bool
        ensures { result ≡ placed.has_in self.now number }
    {
        match self.marks.get(number) {
            None => false,
            Some(mark) => *mark,
        }
    }
}
