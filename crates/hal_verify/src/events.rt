//! Which events, event expressions, processes and times instructions may name.

ghost use Rattle.std.specs.Prelude.{◌≡◌, nat_lt, slice_get};
ghost use Rattle.std.specs.Option.{option_map};
ghost use Rattle.hal_code.specs.Images.{start_of};
ghost use Rattle.hal_code.specs.Operands.{events_of, on_is_right, declared_event, is_declared, is_latched_event, is_change, is_response, is_selector, is_process, is_named, is_time, is_expression, is_start, is_round, is_limit, is_delay, is_known};

use hal_code::{Choice, Delay, EventChange, ImageParts, Limit, Response, Round, Start, Time};
use hal_values::EventStart;

/// Whether a byte chooses something.
pub(crate) fn is_known<T: Copy>(choice: Choice<T>) -> bool
    ensures { result ≡ is_known choice }
{
    match choice {
        Choice::Known(_) => true,
        Choice::Other(_) => false,
    }
}

/// Whether there is an event with this number.
pub(crate) fn is_event(image: &ImageParts, event: u16) -> bool
    ensures { result ≡ nat_lt event (events_of image.now) }
{
    let processes = image.processes.as_slice().len();
    usize::from(event) < processes.saturating_add(image.events.as_slice().len())
}

/// How a declared event begins.
fn start_of(start: Choice<EventStart>) -> EventStart
    ensures { result ≡ start_of start }
{
    match start {
        Choice::Known(start) => start,
        Choice::Other(_) => EventStart::Unlatched,
    }
}

/// How the one with this number begins.
fn start_at(events: &[Choice<EventStart>], number: usize) -> Option<EventStart>
    ensures { result ≡ option_map start_of (slice_get events.now number) }
{
    match events.get(number) {
        None => None,
        Some(start) => Some(start_of(*start)),
    }
}

/// How the event with this number begins, where it is a declared one.
#[tactic(auto, using(crate::proofs::Declaring::declared_there, crate::proofs::Declaring::declared_below))]
fn declared_event(image: &ImageParts, event: u16) -> Option<EventStart>
    ensures { result ≡ declared_event image.now event }
{
    let processes = image.processes.as_slice().len();
    match usize::from(event).checked_sub(processes) {
        None => None,
        Some(number) => start_at(image.events.as_slice(), number),
    }
}

/// Whether SIGNAL may take an event.
pub(crate) fn is_declared(image: &ImageParts, event: u16) -> bool
    ensures { result ≡ is_declared image.now event }
{
    match declared_event(image, event) {
        None => false,
        Some(_) => true,
    }
}

/// Whether SET and RESET may take an event.
pub(crate) fn is_latched(image: &ImageParts, event: u16) -> bool
    ensures { result ≡ is_latched_event image.now event }
{
    match declared_event(image, event) {
        None => false,
        Some(EventStart::Unlatched) => false,
        Some(EventStart::Latched(_)) => true,
    }
}

/// Whether an event can be changed as ON ERROR says.
fn is_change(image: &ImageParts, change: EventChange, event: u16) -> bool
    ensures { result ≡ is_change image.now change event }
{
    match change {
        EventChange::Nothing => true,
        EventChange::Signal => is_declared(image, event),
        EventChange::Set => is_latched(image, event),
        EventChange::Reset => is_latched(image, event),
    }
}

/// Whether a response may come with a change of an event: a statement comes without one.
fn is_response(response: Response, change: EventChange) -> bool
    ensures { result ≡ is_response response change }
{
    match (response, change) {
        (Response::System, _) => true,
        (Response::Ignore, _) => true,
        (Response::Statement, EventChange::Nothing) => true,
        (Response::Statement, _) => false,
    }
}

/// Whether a number of an error stands behind a group alone.
pub(crate) fn is_selector(group: u8, number: u8) -> bool
    ensures { result ≡ is_selector group number }
{
    group != 0 || number == 0
}

/// What is done about errors that ON names.
#[derive(Clone, Copy)]
pub(crate) struct Handler {
    pub response: Choice<Response>,
    pub change: Choice<EventChange>,
    pub event: u16,
}

/// Whether the operands of ON are right.
pub(crate) fn is_handler(image: &ImageParts, group: u8, number: u8, handler: Handler) -> bool
    ensures { result ≡ on_is_right image.now group number handler.response handler.change handler.event }
{
    match (handler.response, handler.change) {
        (Choice::Known(response), Choice::Known(change)) => is_selector(group, number)
            && is_response(response, change)
            && is_change(image, change, handler.event),
        _ => false,
    }
}

/// Whether a process is there.
pub(crate) fn is_process(image: &ImageParts, process: u8) -> bool
    ensures { result ≡ is_process image.now process }
{
    usize::from(process) < image.processes.as_slice().len()
}

/// Whether a process is there, or is oneself.
pub(crate) fn is_named(image: &ImageParts, process: u8) -> bool
    ensures { result ≡ is_named image.now process }
{
    is_process(image, process) || process == 255
}

/// Whether a time is there, with milliseconds within the limit.
fn is_time(time: Time) -> bool
    ensures { result ≡ is_time time }
{
    match time {
        Time::Absent => false,
        Time::Seconds => true,
        Time::Milliseconds(count) => count < 2_147_483_648_000,
    }
}

/// Whether there is an event expression with this number.
fn is_expression(image: &ImageParts, expression: u32) -> bool
    ensures { result ≡ is_expression image.now expression }
{
    (expression as usize) < image.expressions.as_slice().len()
}

/// Whether it is right when a process starts.
pub(crate) fn is_start(image: &ImageParts, start: Start) -> bool
    ensures { result ≡ is_start image.now start }
{
    match start {
        Start::Now => true,
        Start::At(time) => is_time(time),
        Start::In(time) => is_time(time),
        Start::On(expression) => is_expression(image, expression),
    }
}

/// Whether it is right how a process goes on after a cycle.
pub(crate) fn is_round(round: Round) -> bool
    ensures { result ≡ is_round round }
{
    match round {
        Round::Once => true,
        Round::Repeat => true,
        Round::Every(time) => is_time(time),
        Round::After(time) => is_time(time),
    }
}

/// Whether it is right what cancels a process.
pub(crate) fn is_limit(image: &ImageParts, limit: Limit) -> bool
    ensures { result ≡ is_limit image.now limit }
{
    match limit {
        Limit::Free => true,
        Limit::While(expression) => is_expression(image, expression),
        Limit::Until(expression) => is_expression(image, expression),
        Limit::UntilTime(time) => is_time(time),
    }
}

/// Whether it is right what a process waits for.
pub(crate) fn is_delay(image: &ImageParts, delay: Delay) -> bool
    ensures { result ≡ is_delay image.now delay }
{
    match delay {
        Delay::For(time) => is_time(time),
        Delay::Until(time) => is_time(time),
        Delay::Event(expression) => is_expression(image, expression),
        Delay::Dependents => true,
    }
}
