// The script of one call.
ghost use Rattle.std.specs.Prelude.{◌≡◌, IfOk};
ghost use Rattle.cas_script.specs.Limits.{FitsScript};
ghost use Rattle.cas_script.specs.Single.{FitsCall, call_line, single_script};

use crate::{Line, Lines, Script, Session, Sessions};
use cas_model::Call;
use std::alloc::{AllocError, Global};

impl Script {
    /// The script of one session with one line, which makes this call. An error is want of memory.
    pub fn single(alloc: Global, call: Call) -> Result<Script, AllocError>
        requires { FitsCall call }
        ensures is { IfOk result (λ script. script ≡ single_script call) }
        ensures fits { IfOk result FitsScript }
    {
        let mut lines = Vec::new(alloc);
        lines.push(line_of(call))?;
        let mut sessions = Vec::new(alloc);
        sessions.push(Session {
            lines: Lines::from_vec(lines),
        })?;
        Ok(Script {
            sessions: Sessions::from_vec(sessions),
        })
    }
}

// The line that makes this call.
fn line_of(call: Call) -> Line
    ensures { result ≡ call_line call }
{
    match call {
        Call::Store(object) => Line::Store {
            refs: object.refs,
            data: object.data,
        },
        Call::Load(digest) => Line::Load(digest),
        Call::Put(key, value) => Line::Put(key, value),
        Call::Get(key) => Line::Get(key),
    }
}
