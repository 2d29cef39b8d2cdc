//! Entries by their selectors.

ghost use Rattle.std.specs.Prelude.{◌≡◌, ◌<◌, ◌≤◌, ◌++◌, take, drop, vec_len, vec_capacity};
ghost use Rattle.hal_values.specs.Searching as searching;

use hal_values::{Entry, Selector};

/// Whether two selectors are the same.
pub(crate) fn are_same(one: Selector, other: Selector) -> bool
    ensures { result ≡ searching.same_selector one other }
{
    match (one, other) {
        (Selector::All, Selector::All) => true,
        (Selector::Group(group), Selector::Group(another)) => group == another,
        (Selector::One(error), Selector::One(another)) => {
            error.group == another.group && error.number == another.number
        }
        _ => false,
    }
}

/// The entry with this selector.
pub(crate) fn entry_for(selector: Selector, entries: &[Entry]) -> Option<Entry>
    ensures { result ≡ searching.entry_for selector entries.now }
{
    for entry in entries {
        if are_same(selector, entry.selector) {
            return Some(*entry);
        }
    }
    None
}

/// From this place on, the entries with this selector go.
#[tactic(auto, using(crate::proofs::Removing::one_kept, crate::proofs::Removing::one_removed, crate::proofs::Removing::all_looked))]
pub(crate) fn remove(entries: &mut Vec<Entry>, first: usize, selector: Selector)
    requires { first ≤ vec_len entries.old }
    ensures items { entries.new.items ≡ take first entries.old.items ++ searching.without selector (drop first entries.old.items) }
    ensures fewer { vec_len entries.new ≤ vec_len entries.old }
    ensures capacity { vec_capacity entries.new ≡ vec_capacity entries.old }
{
    let mut at = first;
    while at < entries.len() {
        if are_same(selector, entries[at].selector) {
            entries.remove(at);
        } else {
            at += 1;
        }
    }
}

/// From this place on, the entry is the first one, in the place of one with the same selector.
#[tactic(auto, using(crate::proofs::Removing::one_put))]
pub(crate) fn put(entries: &mut Vec<Entry>, first: usize, entry: Entry)
    requires place { first ≤ vec_len entries.old }
    requires room { vec_len entries.old < vec_capacity entries.old }
    ensures items { entries.new.items ≡ take first entries.old.items ++ searching.with_entry entry (drop first entries.old.items) }
    ensures capacity { vec_capacity entries.new ≡ vec_capacity entries.old }
{
    remove(entries, first, entry.selector);
    entries.insert(first, entry).unwrap();
}
