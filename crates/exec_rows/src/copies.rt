//! Copies of what a script holds.

ghost use Rattle.std.specs.Prelude.{◌≡◌, IfOk, take};

use hal_values::{Line, Request, Value};
use std::alloc::{AllocError, Global};

/// The same line once more.
fn copy_line(line: &Line) -> Line
    ensures { result ≡ line.now }
{
    let mut copy = Line::new();
    let _all_fit = copy.append(line.bytes());
    copy
}

/// The same request once more.
pub(crate) fn copy_request(request: &Request) -> Request
    ensures { result ≡ request.now }
{
    match request {
        Request::Begin => Request::Begin,
        Request::Read(spot) => Request::Read(*spot),
        Request::Write(cell, value) => Request::Write(*cell, value.copy()),
        Request::Pass => Request::Pass,
        Request::Update(groups) => Request::Update(*groups),
        Request::Schedule(plan) => Request::Schedule(*plan),
        Request::Cancel(process) => Request::Cancel(*process),
        Request::Terminate(process) => Request::Terminate(*process),
        Request::Wait(pause) => Request::Wait(*pause),
        Request::Signal(event) => Request::Signal(*event),
        Request::Set(event) => Request::Set(*event),
        Request::Reset(event) => Request::Reset(*event),
        Request::Priority(process, priority) => Request::Priority(*process, *priority),
        Request::Print(channel, line) => Request::Print(*channel, copy_line(line)),
        Request::Input(channel, kind) => Request::Input(*channel, *kind),
        Request::Now => Request::Now,
        Request::Stop(error) => Request::Stop(*error),
        Request::Finish => Request::Finish,
        Request::Look(cell) => Request::Look(*cell),
        Request::Close(turns) => Request::Close(*turns),
    }
}

/// The same values once more.
pub(crate) fn copy_values(alloc: Global, values: &[Value]) -> Result<Vec<Value>, AllocError>
    ensures { IfOk result (λ copy. copy.items ≡ values.now) }
{
    let mut copy = Vec::new(alloc);
    for value in values {
        copy.push(value.copy())?;
    }
    Ok(copy)
}

/// The same writes once more.
pub(crate) fn copy_writes(
    alloc: Global,
    writes: &[(u16, Value)],
) -> Result<Vec<(u16, Value)>, AllocError>
    ensures { IfOk result (λ copy. copy.items ≡ writes.now) }
{
    let mut copy = Vec::new(alloc);
    for (cell, value) in writes {
        copy.push((*cell, value.copy()))?;
    }
    Ok(copy)
}
