//! What an error meets.

ghost use Rattle.std.specs.Prelude.{◌≡◌, length, reverse};
ghost use Rattle.std.specs.Option.{option_map};
ghost use Rattle.hal_values.specs.Searching as searching;
ghost use Rattle.hal_errors.specs.Found.{found_seen};
ghost use Rattle.hal_errors.specs.Blocks.{blocks_seen, AreRuns};

use crate::block::Block;
use crate::entries::entry_for;
use hal_values::{Act, Entry, ErrNo, Selector, Side};

/// What an error meets.
#[derive(Clone, Copy, PartialEq, Eq)]
pub enum Found {
    /// The process ends.
    BySystem(Side),
    Ignored(Side),
    /// So many later blocks are left for the statement there.
    ByStatement { level: usize, target: u64 },
}

/// What an action does, unless it is a statement and these are passed over.
fn acted(passing: bool, level: usize, act: Act) -> Option<Found>
    ensures { option_map found_seen result ≡ searching.acted passing level act }
{
    match act {
        Act::System(side) => Some(Found::BySystem(side)),
        Act::Ignore(side) => Some(Found::Ignored(side)),
        Act::Statement(_) if passing => None,
        Act::Statement(target) => Some(Found::ByStatement { level, target }),
    }
}

/// The same of the entry with this selector.
fn met(passing: bool, level: usize, entries: &[Entry], selector: Selector) -> Option<Found>
    ensures { option_map found_seen result ≡ searching.met passing level (searching.entry_for selector entries.now) }
{
    match entry_for(selector, entries) {
        None => None,
        Some(entry) => acted(passing, level, entry.act),
    }
}

/// What an error meets in one block: the entry for group and number goes before that for the group, and this before that for all.
fn met_in(passing: bool, level: usize, entries: &[Entry], error: ErrNo) -> Option<Found>
    ensures { option_map found_seen result ≡ searching.met_in passing level entries.now error }
{
    if let Some(found) = met(passing, level, entries, Selector::One(error)) {
        return Some(found);
    }
    if let Some(found) = met(passing, level, entries, Selector::Group(error.group)) {
        return Some(found);
    }
    met(passing, level, entries, Selector::All)
}

/// What an error meets in blocks, the latest at the end; statements are passed over where the turns of the UPDATE block are used up.
pub(crate) fn found_in(spent: bool, blocks: &[Block], entries: &[Entry], error: ErrNo) -> Found
    requires { AreRuns (reverse blocks.now) (length entries.now) }
    ensures { found_seen result ≡ searching.search spent (blocks_seen (reverse blocks.now) entries.now) error }
{
    let mut passing = spent;
    let mut level = 0;
    let mut lower = blocks;
    let mut rest = entries;
    'block: while let [below @ .., block] = lower {
        let (others, own) = rest.split_at(block.first);
        if let Some(found) = met_in(passing, level, own, error) {
            return found;
        }
        passing = passing && !block.update;
        level += 1;
        lower = below;
        rest = others;
    }
    Found::BySystem(Side::Nothing)
}
