//! What the executive's answers tell a process.

ghost use Rattle.std.specs.Prelude.{◌≡◌, Some, IsSome};
ghost use Rattle.exec_model.specs.Processes.{told_answer, closed_answer};
ghost use Rattle.image_procs.specs.Tellings.{answer_told, look_seen};

use crate::look::Look;
use hal_runner::Reply;
use hal_values::Answer;

/// The answer to the UPDATE block at which this look was made.
fn closed(look: Option<Look>) -> (Reply, u16)
    requires { IsSome (closed_answer (look_seen look)) }
    ensures { closed_answer (look_seen look) ≡ Some (answer_told result) }
{
    match look {
        Some(look) => (Reply::Block(look.store), look.turns),
        None => unreachable!(),
    }
}

/// The reply to a process that an answer is after this look, with the turns that it tells.
pub(crate) fn told(look: Option<Look>, answer: Answer) -> (Reply, u16)
    requires { IsSome (told_answer (look_seen look) answer) }
    ensures { told_answer (look_seen look) answer ≡ Some (answer_told result) }
{
    match answer {
        Answer::Begun => (Reply::Begun, 0),
        Answer::Value(value) => (Reply::Value(value), 0),
        Answer::Done => (Reply::Done, 0),
        Answer::Wrong(error) => (Reply::Wrong(error), 0),
        Answer::Opened => unreachable!(),
        Answer::Closed => closed(look),
        Answer::Killed => (Reply::Killed, 0),
    }
}
