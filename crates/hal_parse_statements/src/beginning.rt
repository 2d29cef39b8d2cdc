//! What the first word of a statement begins, and what the word behind DO does.

ghost use Rattle.std.specs.Prelude.{◌≡◌};
ghost use Rattle.hal_parse_statements.specs.Beginnings.{begins, groups};

use hal_tree::EventAction;
use hal_words::{Reserved, Symbol, Word};

/// A word with which a statement begins.
#[derive(Clone, Copy)]
pub(crate) enum Beginning {
    /// A semicolon.
    Null,
    /// The first name of an assignment.
    Name,
    If,
    Do,
    Exit,
    Repeat,
    Return,
    Call,
    Read,
    Write,
    Update,
    Schedule,
    Cancel,
    Terminate,
    Wait,
    /// SIGNAL, SET or RESET.
    Event(EventAction),
    On,
    Off,
    Send,
}

/// A word behind DO.
#[derive(Clone, Copy)]
pub(crate) enum Grouping {
    /// A semicolon.
    Plain,
    Case,
    While,
    Until,
    For,
}

/// What a word begins.
#[tactic(auto, unfolding(crate::specs::Beginnings::begins))]
pub(crate) fn begun_by(word: &Word) -> Option<Beginning>
    ensures { result ≡ begins word.now }
{
    match word {
        Word::Symbol(Symbol::Semicolon) => Some(Beginning::Null),
        Word::Name(_) => Some(Beginning::Name),
        Word::Reserved(Reserved::If) => Some(Beginning::If),
        Word::Reserved(Reserved::Do) => Some(Beginning::Do),
        Word::Reserved(Reserved::Exit) => Some(Beginning::Exit),
        Word::Reserved(Reserved::Repeat) => Some(Beginning::Repeat),
        Word::Reserved(Reserved::Return) => Some(Beginning::Return),
        Word::Reserved(Reserved::Call) => Some(Beginning::Call),
        Word::Reserved(Reserved::Read) => Some(Beginning::Read),
        Word::Reserved(Reserved::Write) => Some(Beginning::Write),
        Word::Reserved(Reserved::Update) => Some(Beginning::Update),
        Word::Reserved(Reserved::Schedule) => Some(Beginning::Schedule),
        Word::Reserved(Reserved::Cancel) => Some(Beginning::Cancel),
        Word::Reserved(Reserved::Terminate) => Some(Beginning::Terminate),
        Word::Reserved(Reserved::Wait) => Some(Beginning::Wait),
        Word::Reserved(Reserved::Signal) => Some(Beginning::Event(EventAction::Signal)),
        Word::Reserved(Reserved::Set) => Some(Beginning::Event(EventAction::Set)),
        Word::Reserved(Reserved::Reset) => Some(Beginning::Event(EventAction::Reset)),
        Word::Reserved(Reserved::On) => Some(Beginning::On),
        Word::Reserved(Reserved::Off) => Some(Beginning::Off),
        Word::Reserved(Reserved::Send) => Some(Beginning::Send),
        _ => None,
    }
}

/// What a word behind DO makes of the group.
#[tactic(auto, unfolding(crate::specs::Beginnings::groups))]
pub(crate) fn grouped_by(word: &Word) -> Option<Grouping>
    ensures { result ≡ groups word.now }
{
    match word {
        Word::Symbol(Symbol::Semicolon) => Some(Grouping::Plain),
        Word::Reserved(Reserved::Case) => Some(Grouping::Case),
        Word::Reserved(Reserved::While) => Some(Grouping::While),
        Word::Reserved(Reserved::Until) => Some(Grouping::Until),
        Word::Reserved(Reserved::For) => Some(Grouping::For),
        _ => None,
    }
}
