// Running one session.
ghost use Rattle.std.specs.Prelude.{◌≡◌, option_copied, IfOk, OnErr};
ghost use Rattle.unified_cas.specs.Upstream.{upstream_state};
ghost use Rattle.graph_db.specs.Storing.{IsLawfulOrSame};
ghost use Rattle.cas_script.specs.Limits.{FitsSession};
ghost use Rattle.sessions.specs.Standing.{HasRunSession, HasStoppedSession};
ghost use Rattle.sessions.specs.Turns.{IsUnseen, history_lines};

use crate::turn::Turn;
use crate::{ReplyList, SessionReplies};
use cas_outside::Gate;
use cas_port::CellPort;
use cas_script::Session;
use std::alloc::AllocError;

// Runs a session to its end.
pub(crate) fn run_session<P: CellPort, G: Gate>(
    turn: &Turn<'_, G>,
    port: &mut P,
    session: &Session,
) -> Result<SessionReplies, AllocError>
    requires upstream { (P.view port.old).upstream ≡ upstream_state (option_copied turn.now.unified.up) }
    requires fits { FitsSession session.now }
    requires unseen { IsUnseen (P.view port.old) turn.now.session }
    ensures ok { IfOk result (λ own. HasRunSession turn.now.session (history_lines session.now.lines) own.replies (P.view port.old) (P.view port.new)) }
    ensures err { OnErr result (HasStoppedSession turn.now.session (history_lines session.now.lines) (P.view port.old) (P.view port.new)) }
    ensures lawful { IsLawfulOrSame (P.view port.old) (P.view port.new) }
{
    let mut replies = Vec::new(turn.alloc);
    for line in session.lines.list() {
        turn.run_line(port, line, &mut replies)?;
    }
    Ok(SessionReplies {
        replies: ReplyList::from_vec(replies),
    })
}
