//! The rules of names over phrases.

ghost use Rattle.std.specs.Prelude.{◌≡◌, map};
ghost use Rattle.hal_phrases.specs.SeenPhrases.{seen_phrase};
ghost use Rattle.hal_names.specs.SeenNames.{seen_names};
ghost use Rattle.hal_scope.specs.Rules.{fault, first_fault, rows, ruled};

use crate::components::lacks;
use crate::included::repeated;
use crate::labels::{astray, misclosed, misled};
use crate::repeated::undeclared;
use crate::uses::{misused, unknown};
use hal_base::Place;
use hal_base::rules::{
    NO_GROUP_AROUND, NO_GROUP_OF_NAME_AROUND, REPEATED_NAME, UNDECLARED_PARAMETER,
    UNKNOWN_COMPONENT, UNKNOWN_NAME, WRONG_CLOSING_NAME, WRONG_KIND_OF_NAME,
};
use hal_names::Names;
use hal_phrases::{Node, Phrase};

/// The rule and the place, where there is one.
pub fn ruled(rule: u16, place: Option<Place>) -> Option<(u16, Place)>
    ensures { result ≡ ruled rule place }
{
    match place {
        Some(place) => Some((rule, place)),
        None => None,
    }
}

/// The first rule that a phrase breaks that is no expression, and where.
#[tactic(auto, using(crate::proofs::Lists::or_none), unfolding(crate::specs::Rules::fault))]
fn fault_of_other(names: &Names<'_>, phrase: &Phrase<'_>) -> Option<(u16, Place)>
    ensures { result ≡ fault rows (seen_names names.now) (seen_phrase phrase.now) }
{
    let later = ruled(UNKNOWN_COMPONENT, lacks(names, phrase));
    let later = ruled(NO_GROUP_AROUND, astray(names, phrase)).or(later);
    let later = ruled(UNDECLARED_PARAMETER, undeclared(names, phrase)).or(later);
    let later = ruled(NO_GROUP_OF_NAME_AROUND, misled(names, phrase)).or(later);
    let later = ruled(WRONG_CLOSING_NAME, misclosed(names, phrase)).or(later);
    let later = ruled(WRONG_KIND_OF_NAME, misused(names, phrase)).or(later);
    let later = ruled(REPEATED_NAME, repeated(names, phrase)).or(later);
    ruled(UNKNOWN_NAME, unknown(names, phrase)).or(later)
}

/// The first rule that a phrase breaks, and where. No rule is about an expression: its names are phrases of their own.
#[tactic(auto, using(crate::proofs::Silent::expression_is_right))]
pub(crate) fn fault(names: &Names<'_>, phrase: &Phrase<'_>) -> Option<(u16, Place)>
    ensures { result ≡ fault rows (seen_names names.now) (seen_phrase phrase.now) }
{
    match phrase.node {
        Node::Expression { role: _, tree: _ } => None,
        _ => fault_of_other(names, phrase),
    }
}

/// The first rule that one of the phrases breaks, and where.
#[tactic(auto, unfolding(crate::specs::Rules::first_fault))]
pub(crate) fn first_fault(names: &Names<'_>) -> Option<(u16, Place)>
    ensures { result ≡ first_fault rows (seen_names names.now) (seen_names names.now) }
{
    let phrases = names.phrases();
    for phrase in phrases {
        let found = fault(names, phrase);
        if found.is_some() {
            return found;
        }
    }
    None
}
