// The calls of a run in code, and its history.
ghost use Rattle.std.specs.Prelude.{◌≡◌, IfOk, MatchOption, None, Some};
ghost use Rattle.cas_history.specs.Replays.{calls_in};

use cas_model::{Call, Object, Reply, Who};
use std::alloc::{AllocError, Global};
use std::marker::Model;

/// A call of a session.
#[derive(Drop)]
pub struct Asked {
    pub who: Who,
    pub call: Call,
}

/// A call that was answered.
#[derive(Drop)]
pub struct Entry {
    pub who: Who,
    pub call: Call,
    pub reply: Reply,
}

impl Model for Entry {
    ghost use Rattle.cas_model.specs.Step.{Entry as Answered};

    ghost Value = { Answered };

    ghost view = { λ e. record { who = e.who; call = e.call; reply = e.reply } };
}

/// The call that has this number in this session, the first of them in the list.
pub fn call_of(calls: &[Asked], who: Who) -> Option<&Call>
    ensures { MatchOption result (calls_in calls.now who ≡ None) (λ call. calls_in calls.now who ≡ Some call.now) }
{
    for asked in calls {
        if asked.who.session == who.session && asked.who.index == who.index {
            return Some(&asked.call);
        }
    }
    None
}

/// An equal call.
pub fn copy_call(alloc: Global, call: &Call) -> Result<Call, AllocError>
    ensures { IfOk result (λ copy. copy ≡ call.now) }
{
    Ok(match call {
        Call::Store(object) => Call::Store(object.copy(alloc)?),
        Call::Load(digest) => Call::Load(*digest),
        Call::Put(key, value) => Call::Put(*key, *value),
        Call::Get(key) => Call::Get(*key),
    })
}
