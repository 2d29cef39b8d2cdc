//! What a process is answered.

ghost use Rattle.std.specs.Prelude.{◌≡◌};
ghost use Rattle.hal_states.specs.OfKinds.{told};
ghost use Rattle.hal_runner.specs.Replies.{reply_seen, is_killed};

use hal_machine::{nothing, of_kind};
use hal_values::{ErrNo, Kind, Value};

/// What a process is answered.
#[derive(Drop)]
pub enum Reply {
    /// To Begin.
    Begun,
    /// What was asked for.
    Value(Value),
    /// It is done.
    Done,
    /// It isn't done, for this error.
    Wrong(ErrNo),
    /// An UPDATE block begins, while the shared cells hold this.
    Block(Vec<Value>),
    /// To any request: the process was ended.
    Killed,
}

impl Reply {
    /// Whether the process was ended.
    pub(crate) fn is_killed(&self) -> bool
        ensures { result ≡ is_killed (reply_seen self.now) }
    {
        match self {
            Reply::Begun => false,
            Reply::Value(_) => false,
            Reply::Done => false,
            Reply::Wrong(_) => false,
            Reply::Block(_) => false,
            Reply::Killed => true,
        }
    }

    /// The value of a kind that it tells.
    pub(crate) fn told(self, kind: Kind) -> Value
        ensures { result ≡ told kind (reply_seen self) }
    {
        match self {
            Reply::Value(one) => of_kind(kind, one),
            Reply::Begun => nothing(kind),
            Reply::Done => nothing(kind),
            Reply::Wrong(_error) => nothing(kind),
            Reply::Block(_store) => nothing(kind),
            Reply::Killed => nothing(kind),
        }
    }
}
