//! What the first word of a unit's head says of the unit.

ghost use Rattle.std.specs.Prelude.{◌≡◌};
ghost use Rattle.hal_parse.specs.Headings.{heads};

use hal_words::{Reserved, Word};

/// A word with which the head of a unit begins.
#[derive(Clone, Copy)]
pub(crate) enum Heading {
    Program,
    Compool,
    Task,
    Procedure,
    Function,
}

/// What a word says of a unit.
#[tactic(auto, unfolding(crate::specs::Headings::heads))]
pub(crate) fn headed_by(word: &Word) -> Option<Heading>
    ensures { result ≡ heads word.now }
{
    match word {
        Word::Reserved(Reserved::Program) => Some(Heading::Program),
        Word::Reserved(Reserved::Compool) => Some(Heading::Compool),
        Word::Reserved(Reserved::Task) => Some(Heading::Task),
        Word::Reserved(Reserved::Procedure) => Some(Heading::Procedure),
        Word::Reserved(Reserved::Function) => Some(Heading::Function),
        _ => None,
    }
}
