//! Statements with their labels. The readers that a first word chooses are never inlined: each has a stack frame of its own, so a statement in another one
//! takes no room for the phrases of all kinds.

ghost use Rattle.std.specs.Prelude.{◌≡◌, IfOk};
ghost use Rattle.hal_tree.specs.SeenStatements.{seen_basic, seen_statement};
ghost use Rattle.hal_parse_expr.specs.Seen.{seen_as};
ghost use Rattle.hal_parse_statements.specs.Beginnings.{begun_at};
ghost use Rattle.hal_parse_statements.specs.ReadingStatements.{basic_of, statement_at, statement_below};

use crate::beginning::{Beginning, begun_by};
use crate::branches::conditional;
use crate::groups::group_behind;
use crate::handlers::on_error;
use crate::simple::{
    assignment, call, cancel, change, exit, off_error, read, repeat, return_value, scheduled,
    send_error, terminate, write,
};
use crate::updates::update;
use crate::waits::wait;
use hal_base::Place;
use hal_parse_declarations::labels;
use hal_parse_expr::found;
use hal_tree::{Basic, Statement};
use hal_words::Token;
use std::alloc::{AllocError, Global};

/// The statement with which the words begin, nested at most so deep, and the words behind it.
#[cycle(statements)]
#[tactic(auto, using(hal_tree::proofs::MadeStatements::made_statement, crate::proofs::ReadersShorten::statement_level), unfolding(crate::specs::ReadingStatements::statement_of, hal_parse_declarations::specs::ReadingNames::labels_at, hal_parse_expr::specs::Reading::made_of, hal_parse_expr::specs::Seen::seen_as, hal_parse_expr::specs::Seen::seen_list))]
pub fn read_statement(
    alloc: Global,
    words: &[Token],
    depth: u32,
) -> Result<Option<(Statement, &[Token])>, AllocError>
    ensures { IfOk result (λ found. seen_as seen_statement found ≡ statement_at depth words.now) }
{
    let (labels, behind) = labels(alloc, words)?;
    let (basic, rest) = found!(basic(alloc, behind, depth));
    Ok(Some((Statement { labels, basic }, rest)))
}

/// A statement without labels.
#[cycle(statements)]
#[tactic(auto, using(crate::proofs::CodeWords::basic_none, crate::proofs::CodeWords::nothing_begun, crate::proofs::CodeWords::basic_begun), unfolding(hal_parse_expr::specs::Seen::seen_as))]
fn basic(
    alloc: Global,
    words: &[Token],
    depth: u32,
) -> Result<Option<(Basic, &[Token])>, AllocError>
    ensures { IfOk result (λ found. seen_as seen_basic found ≡ basic_of depth (statement_below depth) words.now) }
{
    let Some((first, rest)) = words.split_first() else {
        return Ok(None);
    };
    let Some(beginning) = begun_by(&first.word) else {
        return Ok(None);
    };
    begun(alloc, first.place, beginning, words, rest, depth)
}

/// The statement that a word begins; `words` are all words from it on, `rest` those behind it.
#[cycle(statements)]
#[tactic(auto, using(hal_tree::proofs::MadeStatements::made_null), unfolding(crate::specs::Beginnings::begun_at, hal_parse_expr::specs::Seen::seen_as))]
fn begun<'a>(
    alloc: Global,
    place: Place,
    beginning: Beginning,
    words: &'a [Token],
    rest: &'a [Token],
    depth: u32,
) -> Result<Option<(Basic, &'a [Token])>, AllocError>
    ensures { IfOk result (λ found. seen_as seen_basic found ≡ begun_at depth (statement_below depth) words.now place beginning rest.now) }
{
    match beginning {
        Beginning::Null => Ok(Some((Basic::Null { place }, rest))),
        Beginning::Name => assignment(alloc, place, words, depth),
        Beginning::If => conditional(alloc, place, rest, depth),
        Beginning::Do => group_behind(alloc, place, rest, depth),
        Beginning::Exit => Ok(exit(place, rest)),
        Beginning::Repeat => Ok(repeat(place, rest)),
        Beginning::Return => return_value(alloc, place, rest, depth),
        Beginning::Call => call(alloc, place, rest, depth),
        Beginning::Read => read(alloc, place, rest, depth),
        Beginning::Write => write(alloc, place, rest, depth),
        Beginning::Update => update(alloc, place, rest, depth),
        Beginning::Schedule => scheduled(alloc, place, rest, depth),
        Beginning::Cancel => cancel(alloc, place, rest),
        Beginning::Terminate => terminate(alloc, place, rest),
        Beginning::Wait => wait(alloc, place, rest, depth),
        Beginning::Event(action) => Ok(change(place, action, rest)),
        Beginning::On => on_error(alloc, place, rest, depth),
        Beginning::Off => Ok(off_error(place, rest)),
        Beginning::Send => Ok(send_error(place, rest)),
    }
}
