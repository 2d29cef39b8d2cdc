//! What a process asks and waits for, once more.

ghost use Rattle.std.specs.Prelude.{◌≡◌};

use hal_machine::{Rest, Wait};
use hal_values::{Line, Request};

/// A line.
fn line_of(line: &Line) -> Line
    ensures { result ≡ line.now }
{
    let mut copy = Line::new();
    let _all_fit = copy.append(line.bytes());
    copy
}

/// A request.
pub fn request_of(request: &Request) -> Request
    ensures { result ≡ request.now }
{
    match request {
        Request::Begin => Request::Begin,
        Request::Read(spot) => Request::Read(*spot),
        Request::Write(cell, value) => Request::Write(*cell, value.copy()),
        Request::Pass => Request::Pass,
        Request::Update(groups) => Request::Update(*groups),
        Request::Schedule(plan) => Request::Schedule(*plan),
        Request::Cancel(process) => Request::Cancel(*process),
        Request::Terminate(process) => Request::Terminate(*process),
        Request::Wait(pause) => Request::Wait(*pause),
        Request::Signal(event) => Request::Signal(*event),
        Request::Set(event) => Request::Set(*event),
        Request::Reset(event) => Request::Reset(*event),
        Request::Priority(process, priority) => Request::Priority(*process, *priority),
        Request::Print(channel, line) => Request::Print(*channel, line_of(line)),
        Request::Input(channel, kind) => Request::Input(*channel, *kind),
        Request::Now => Request::Now,
        Request::Stop(error) => Request::Stop(*error),
        Request::Finish => Request::Finish,
        Request::Look(cell) => Request::Look(*cell),
        Request::Close(turns) => Request::Close(*turns),
    }
}

/// What is still to be done of an instruction.
fn rest_of(rest: &Rest) -> Rest
    ensures { result ≡ rest.now }
{
    match rest {
        Rest::Nothing => Rest::Nothing,
        Rest::Puts(place, value) => Rest::Puts(*place, value.copy()),
        Rest::Asks(request) => Rest::Asks(request_of(request)),
        Rest::Tries(request) => Rest::Tries(request_of(request)),
        Rest::Plans(plan, again) => Rest::Plans(*plan, *again),
    }
}

/// What is done with an answer.
pub(crate) fn wait_of(wait: &Wait) -> Wait
    ensures { result ≡ wait.now }
{
    match wait {
        Wait::Then(rest) => Wait::Then(rest_of(rest)),
        Wait::Pushes(kind) => Wait::Pushes(*kind),
        Wait::Tried => Wait::Tried,
        Wait::Takes(target) => Wait::Takes(*target),
        Wait::Copies {
            kind,
            shape,
            done,
            from,
            place,
        } => Wait::Copies {
            kind: *kind,
            shape: *shape,
            done: *done,
            from: *from,
            place: *place,
        },
        Wait::Opens(groups) => Wait::Opens(*groups),
        Wait::Renews => Wait::Renews,
        Wait::Halts(error) => Wait::Halts(*error),
    }
}
