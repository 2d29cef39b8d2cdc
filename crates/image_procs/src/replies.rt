//! Answers that wait, once more.

ghost use Rattle.std.specs.Prelude.{◌≡◌, IfOk, map};
ghost use Rattle.hal_runner.specs.Replies.{reply_seen};

use hal_runner::{Reply, values_of};
use std::alloc::{AllocError, Global};
use std::collections::VecDeque;

/// A reply.
fn reply_of(alloc: Global, reply: &Reply) -> Result<Reply, AllocError>
    ensures { IfOk result (λ copy. reply_seen copy ≡ reply_seen reply.now) }
{
    match reply {
        Reply::Begun => Ok(Reply::Begun),
        Reply::Value(value) => Ok(Reply::Value(value.copy())),
        Reply::Done => Ok(Reply::Done),
        Reply::Wrong(error) => Ok(Reply::Wrong(*error)),
        Reply::Block(store) => Ok(Reply::Block(values_of(alloc, store.as_slice())?)),
        Reply::Killed => Ok(Reply::Killed),
    }
}

/// Replies that wait.
pub(crate) fn waiting_of(
    alloc: Global,
    waiting: &VecDeque<Reply>,
) -> Result<VecDeque<Reply>, AllocError>
    ensures { IfOk result (λ copy. map reply_seen copy.items ≡ map reply_seen waiting.now.items) }
{
    let mut copy = VecDeque::new(alloc);
    'places: for place in 0..waiting.len() {
        copy.push_back(reply_of(alloc, &waiting[place])?)?;
    }
    Ok(copy)
}
