//! The parts of statements as rows write them: `while A`, `(to 1 9)` and `(to 1 9 2)` for a range, `(list 1 3)`, `$1` and `$1:2` for errors,
//! `every` where all are meant, `set E`; and of SCHEDULE `P at 1 priority 5 dependent repeat every 2 until E`.

use crate::trees::pen::Pen;
use crate::trees::show_expressions::{expression, expressions};
use hal_base::Place;
use hal_tree::{
    Cycle, EventAction, EventChange, Expr, Guard, Response, Schedule, Selector, Span, Start,
};

/// A word, its place and an expression.
fn with_word(word: &str, place: Place, tree: &Expr, pen: &mut Pen) {
    pen.word(word);
    pen.place(place);
    expression(tree, pen);
}

/// How long a loop goes on.
pub(crate) fn guard(tree: &Guard, pen: &mut Pen) {
    match tree {
        Guard::While { place, condition } => with_word("while", *place, condition, pen),
        Guard::Until { place, condition } => with_word("until", *place, condition, pen),
    }
}

/// The same, or nothing.
pub(crate) fn optional_guard(tree: &Option<Guard>, pen: &mut Pen) {
    match tree {
        None => {}
        Some(tree) => guard(tree, pen),
    }
}

/// The values of a loop's variable.
pub(crate) fn span(tree: &Span, pen: &mut Pen) {
    match tree {
        Span::Range { first, last, step } => {
            pen.word("(to");
            expression(first, pen);
            expression(last, pen);
            if let Some(step) = step {
                expression(step, pen);
            }
        }
        Span::List { values } => {
            pen.word("(list");
            expressions(values, pen);
        }
    }
    pen.close();
}

/// What a selector begins with.
fn group(place: Place, at: Place, number: u32, pen: &mut Pen) {
    pen.word("$");
    pen.place(place);
    pen.join();
    numbered(at, number, pen);
}

/// A number of an error, and its place.
pub(crate) fn numbered(at: Place, number: u32, pen: &mut Pen) {
    pen.number(u64::from(number));
    pen.place(at);
}

/// The errors that are meant.
pub(crate) fn selector(tree: &Selector, pen: &mut Pen) {
    match tree {
        Selector::Every => pen.word("every"),
        Selector::Group {
            place,
            group_at,
            group: number,
        } => group(*place, *group_at, *number, pen),
        Selector::One {
            place,
            group_at,
            group: first,
            number_at,
            number,
        } => {
            group(*place, *group_at, *first, pen);
            pen.tail(":");
            pen.join();
            numbered(*number_at, *number, pen);
        }
    }
}

/// What happens to an event, and the event.
pub(crate) fn event(tree: &EventChange, pen: &mut Pen) {
    match tree.action {
        EventAction::Signal => pen.word("signal"),
        EventAction::Set => pen.word("set"),
        EventAction::Reset => pen.word("reset"),
    }
    pen.place(tree.place);
    pen.name(&tree.name);
}

/// What answers an error.
pub(crate) fn response(tree: Response, pen: &mut Pen) {
    match tree {
        Response::System => pen.word("system"),
        Response::Ignore => pen.word("ignore"),
    }
}

/// When a process starts.
fn start(tree: &Start, pen: &mut Pen) {
    match tree {
        Start::At { place, time } => with_word("at", *place, time, pen),
        Start::In { place, time } => with_word("in", *place, time, pen),
        Start::On { place, event } => with_word("on", *place, event, pen),
    }
}

/// The word REPEAT.
fn repeat(place: Place, pen: &mut Pen) {
    pen.word("repeat");
    pen.place(place);
}

/// When a process runs again.
fn cycle(tree: &Cycle, pen: &mut Pen) {
    match tree {
        Cycle::Repeat { place } => repeat(*place, pen),
        Cycle::Every { place, time } => {
            repeat(*place, pen);
            pen.word("every");
            expression(time, pen);
        }
        Cycle::After { place, time } => {
            repeat(*place, pen);
            pen.word("after");
            expression(time, pen);
        }
    }
}

/// What SCHEDULE says.
pub(crate) fn schedule(tree: &Schedule, pen: &mut Pen) {
    pen.name(&tree.name);
    if let Some(when) = &tree.start {
        start(when, pen);
    }
    if let Some(priority) = &tree.priority {
        pen.word("priority");
        expression(priority, pen);
    }
    if tree.dependent {
        pen.word("dependent");
    }
    if let Some(again) = &tree.cycle {
        cycle(again, pen);
    }
    optional_guard(&tree.guard, pen);
}
