// The replies of a script's sessions.
ghost use Rattle.std.specs.Prelude.{◌≡◌};

use cas_model::Reply;
use std::marker::Model;

/// The replies to a session's calls, in order.
#[derive(Drop)]
pub struct ReplyList(Vec<Reply>);

impl Model for ReplyList {
    ghost use Rattle.std.specs.Prelude.{List};
    ghost use Rattle.cas_model.specs.declared.call.Reply.{Reply};

    ghost Value = { List Reply };

    ghost view = { λ l. l.0.items };
}

impl ReplyList {
    /// These replies, without a copy.
    pub fn from_vec(list: Vec<Reply>) -> ReplyList
        ensures { result ≡ list.items }
    {
        ReplyList(list)
    }

    pub fn list(&self) -> &[Reply]
        ensures { result.now ≡ self.now }
    {
        self.0.as_slice()
    }
}

/// What a session was answered: one reply for each of its calls, in order.
#[derive(Drop)]
pub struct SessionReplies {
    pub replies: ReplyList,
}

/// The replies of sessions, in order.
#[derive(Drop)]
pub struct SessionReplyList(Vec<SessionReplies>);

impl Model for SessionReplyList {
    ghost use Rattle.std.specs.Prelude.{List};
    ghost use Rattle.sessions.specs.declared.replies.SessionReplies.{SessionReplies};

    ghost Value = { List SessionReplies };

    ghost view = { λ l. l.0.items };
}

impl SessionReplyList {
    /// These replies, without a copy.
    pub fn from_vec(list: Vec<SessionReplies>) -> SessionReplyList
        ensures { result ≡ list.items }
    {
        SessionReplyList(list)
    }

    pub fn list(&self) -> &[SessionReplies]
        ensures { result.now ≡ self.now }
    {
        self.0.as_slice()
    }
}

/// What a script was answered: the replies of each of its sessions, in their order.
#[derive(Drop)]
pub struct Replies {
    pub sessions: SessionReplyList,
}
