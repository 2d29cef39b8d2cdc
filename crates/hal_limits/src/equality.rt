//! Whether views are the same.

ghost use Rattle.std.specs.Prelude.{◌≡◌, map};
ghost use Rattle.std.specs.List.{list_any};
ghost use Rattle.std.specs.Option.{option_map};
ghost use Rattle.hal_views.specs.Views as views;
ghost use Rattle.hal_limits.specs.SeenViews.{seen_choice, seen_view};

use crate::view::{Choice, View};
use hal_words::Name;

/// Whether the same is chosen of a dimension.
fn same_choice(one: Choice, other: Choice) -> bool
    ensures { result ≡ views.same_choice (seen_choice one) (seen_choice other) }
{
    match (one, other) {
        (Choice::OnePlace, Choice::OnePlace) => true,
        (Choice::AllPlaces, Choice::AllPlaces) => true,
        (
            Choice::Places { first, last },
            Choice::Places {
                first: begin,
                last: end,
            },
        ) => first == begin && last == end,
        _ => false,
    }
}

/// Whether the same is chosen of as many dimensions, one after another.
fn same_choices(one: &[Choice], other: &[Choice]) -> bool
    ensures { result ≡ views.same_choices (map seen_choice one.now) (map seen_choice other.now) }
{
    let mut rest = one;
    let mut left = other;
    while let Some((first, others)) = rest.split_first() {
        let Some((second, more)) = left.split_first() else {
            return false;
        };
        if !same_choice(*first, *second) {
            return false;
        }
        rest = others;
        left = more;
    }
    left.is_empty()
}

/// Whether the same is chosen of copies, or both have none.
fn same_copies(one: Option<Choice>, other: Option<Choice>) -> bool
    ensures { result ≡ views.same_copies (option_map seen_choice one) (option_map seen_choice other) }
{
    match (one, other) {
        (None, None) => true,
        (Some(one), Some(other)) => same_choice(one, other),
        _ => false,
    }
}

/// Whether the names are the same, one after another.
fn same_path(one: &[Name], other: &[Name]) -> bool
    ensures { result ≡ views.same_path one.now other.now }
{
    let mut rest = one;
    let mut left = other;
    while let Some((first, others)) = rest.split_first() {
        let Some((second, more)) = left.split_first() else {
            return false;
        };
        if first.bytes() != second.bytes() {
            return false;
        }
        rest = others;
        left = more;
    }
    left.is_empty()
}

/// Whether two views choose the same in the same words (language document, Views).
fn same_view(one: &View, other: &View) -> bool
    ensures { result ≡ views.same_view (seen_view one.now) (seen_view other.now) }
{
    (one.declared == other.declared && same_path(&one.path, &other.path))
        && (same_copies(one.copies, other.copies) && same_choices(&one.places, &other.places))
}

/// Whether a view is the same as one of these.
pub(crate) fn is_among(view: &View, list: &[View]) -> bool
    ensures { result ≡ list_any (views.same_view (seen_view view.now)) (map seen_view list.now) }
{
    for other in list {
        if same_view(view, other) {
            return true;
        }
    }
    false
}
