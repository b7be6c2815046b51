// The calls of one session, one after another.
ghost use Rattle.std.specs.Prelude.{◌≡◌, ◌+◌, ◌<◌, ◌≤◌, ◌^◌, ◌∷◌, ◌++◌, [], length, IfOk, OnOk, OnErr};
ghost use Rattle.cas_history.specs.Script.{Action};
ghost use Rattle.cas_model.specs.declared.call.Call.TheVariants.{Store, Load, Put, Get};
ghost use Rattle.cas_port.specs.Calls.{IsLawful};
ghost use Rattle.graph_db.specs.Stores.{object_with};
ghost use Rattle.cas_script.specs.Limits.{FitsLine};
ghost use Rattle.cas_script.specs.Lines.{history_line};
ghost use Rattle.sessions.specs.Standing.{HasMade, IsCutOff, IsReady, HasRunFrom, HasStoppedFrom, before_line, after_miss};
ghost use Rattle.sessions.specs.Turns.{call_number};

use crate::said::{Said, keep};
use cas_model::{Digest, Reply, Who};
use cas_outside::Gate;
use cas_port::CellPort;
use cas_script::Line;
use std::alloc::{AllocError, Global};
use unified_cas::Unified;

/// A session at work: the store that it asks, the gate round its calls, and its number. Its calls are numbered from 0.
#[derive(Drop)]
pub struct Turn<'a, G> {
    pub alloc: Global,
    pub unified: Unified<'a>,
    pub gate: &'a G,
    pub session: u32,
}

impl<G: Gate> Turn<'_, G> {
    /// Makes the calls of a line, and adds their replies. An action gets its key, after a miss stores its object, and puts
    /// the key with the digest of the object that it stored. An error is want of memory.
    pub fn run_line<P: CellPort>(
        &self,
        port: &mut P,
        line: &Line,
        replies: &mut Vec<Reply>,
    ) -> Result<(), AllocError>
        requires ready { IsReady self.now.unified (P.view port.old) self.now.session }
        requires few { length replies.old.items < 2 ^ 31 }
        requires fits { FitsLine line.now }
        ensures ok { OnOk result (HasRunFrom self.now.session (before_line (history_line line.now)) 3 replies.old.items (P.view port.old) replies.new.items (P.view port.new)) }
        ensures err { OnErr result (HasStoppedFrom self.now.session (before_line (history_line line.now)) replies.old.items (P.view port.old) (P.view port.new)) }
        ensures lawful { IsLawful (P.view port.old) (P.view port.new) }
    {
        match line {
            Line::Store { refs, data } => {
                self.store(port, refs.list(), data.list(), replies)?;
                Ok(())
            }
            Line::Load(digest) => {
                self.load(port, digest, replies)?;
                Ok(())
            }
            Line::Put(key, value) => {
                self.put(port, key, value, replies)?;
                Ok(())
            }
            Line::Get(key) => {
                self.get(port, key, replies)?;
                Ok(())
            }
            Line::Act { key, refs, data } => {
                self.act(port, key, refs.list(), data.list(), replies)
            }
        }
    }

    // Makes the calls of an action.
    fn act<P: CellPort>(
        &self,
        port: &mut P,
        key: &Digest,
        refs: &[Digest],
        data: &[u8],
        replies: &mut Vec<Reply>,
    ) -> Result<(), AllocError>
        requires ready { IsReady self.now.unified (P.view port.old) self.now.session }
        requires few { length replies.old.items < 2 ^ 31 }
        requires few_refs { length refs.now ≤ 65535 }
        requires short { length «data».now ≤ 16777215 }
        ensures ok { OnOk result (HasRunFrom self.now.session (before_line (Action key.now (object_with refs.now «data».now))) 3 replies.old.items (P.view port.old) replies.new.items (P.view port.new)) }
        ensures err { OnErr result (HasStoppedFrom self.now.session (before_line (Action key.now (object_with refs.now «data».now))) replies.old.items (P.view port.old) (P.view port.new)) }
        ensures lawful { IsLawful (P.view port.old) (P.view port.new) }
    {
        match self.get(port, key, replies)? {
            Said::Missed => self.make(port, key, refs, data, replies),
            Said::Stored(_) => Ok(()),
            Said::Else => Ok(()),
        }
    }

    // Makes what the key of an action was asked for in vain: stores the object, and puts the key.
    fn make<P: CellPort>(
        &self,
        port: &mut P,
        key: &Digest,
        refs: &[Digest],
        data: &[u8],
        replies: &mut Vec<Reply>,
    ) -> Result<(), AllocError>
        requires ready { IsReady self.now.unified (P.view port.old) self.now.session }
        requires few { length replies.old.items < 2 ^ 31 + 1 }
        requires few_refs { length refs.now ≤ 65535 }
        requires short { length «data».now ≤ 16777215 }
        ensures ok { OnOk result (HasRunFrom self.now.session (after_miss key.now (object_with refs.now «data».now)) 2 replies.old.items (P.view port.old) replies.new.items (P.view port.new)) }
        ensures err { OnErr result (HasStoppedFrom self.now.session (after_miss key.now (object_with refs.now «data».now)) replies.old.items (P.view port.old) (P.view port.new)) }
        ensures lawful { IsLawful (P.view port.old) (P.view port.new) }
    {
        match self.store(port, refs, data, replies)? {
            Said::Stored(digest) => {
                self.put(port, key, &digest, replies)?;
                Ok(())
            }
            Said::Missed => Ok(()),
            Said::Else => Ok(()),
        }
    }

    // ---- the four calls

    fn store<P: CellPort>(
        &self,
        port: &mut P,
        refs: &[Digest],
        data: &[u8],
        replies: &mut Vec<Reply>,
    ) -> Result<Said, AllocError>
        requires ready { IsReady self.now.unified (P.view port.old) self.now.session }
        requires few { length replies.old.items < 2 ^ 32 }
        requires few_refs { length refs.now ≤ 65535 }
        requires short { length «data».now ≤ 16777215 }
        ensures ok { IfOk result (λ said. HasMade self.now.session (Store (object_with refs.now «data».now)) replies.old.items (P.view port.old) said replies.new.items (P.view port.new)) }
        ensures err { OnErr result (IsCutOff self.now.session (Store (object_with refs.now «data».now)) replies.old.items (P.view port.old) (P.view port.new)) }
        ensures lawful { IsLawful (P.view port.old) (P.view port.new) }
    {
        let who = self.next(replies.as_slice());
        self.gate.before(who);
        let reply = self.unified.store(self.alloc, port, who, refs, data);
        self.gate.after(who);
        keep(replies, reply?)
    }

    fn load<P: CellPort>(
        &self,
        port: &mut P,
        digest: &Digest,
        replies: &mut Vec<Reply>,
    ) -> Result<Said, AllocError>
        requires ready { IsReady self.now.unified (P.view port.old) self.now.session }
        requires few { length replies.old.items < 2 ^ 32 }
        ensures ok { IfOk result (λ said. HasMade self.now.session (Load digest.now) replies.old.items (P.view port.old) said replies.new.items (P.view port.new)) }
        ensures err { OnErr result (IsCutOff self.now.session (Load digest.now) replies.old.items (P.view port.old) (P.view port.new)) }
        ensures lawful { IsLawful (P.view port.old) (P.view port.new) }
    {
        let who = self.next(replies.as_slice());
        self.gate.before(who);
        let reply = self.unified.load(self.alloc, port, who, digest);
        self.gate.after(who);
        keep(replies, reply?)
    }

    fn put<P: CellPort>(
        &self,
        port: &mut P,
        key: &Digest,
        value: &Digest,
        replies: &mut Vec<Reply>,
    ) -> Result<Said, AllocError>
        requires ready { IsReady self.now.unified (P.view port.old) self.now.session }
        requires few { length replies.old.items < 2 ^ 32 }
        ensures ok { IfOk result (λ said. HasMade self.now.session (Put key.now value.now) replies.old.items (P.view port.old) said replies.new.items (P.view port.new)) }
        ensures err { OnErr result (IsCutOff self.now.session (Put key.now value.now) replies.old.items (P.view port.old) (P.view port.new)) }
        ensures lawful { IsLawful (P.view port.old) (P.view port.new) }
    {
        let who = self.next(replies.as_slice());
        self.gate.before(who);
        let reply = self.unified.put(self.alloc, port, who, key, value);
        self.gate.after(who);
        keep(replies, reply?)
    }

    fn get<P: CellPort>(
        &self,
        port: &mut P,
        key: &Digest,
        replies: &mut Vec<Reply>,
    ) -> Result<Said, AllocError>
        requires ready { IsReady self.now.unified (P.view port.old) self.now.session }
        requires few { length replies.old.items < 2 ^ 32 }
        ensures ok { IfOk result (λ said. HasMade self.now.session (Get key.now) replies.old.items (P.view port.old) said replies.new.items (P.view port.new)) }
        ensures err { OnErr result (IsCutOff self.now.session (Get key.now) replies.old.items (P.view port.old) (P.view port.new)) }
        ensures lawful { IsLawful (P.view port.old) (P.view port.new) }
    {
        let who = self.next(replies.as_slice());
        self.gate.before(who);
        let reply = self.unified.get(self.alloc, port, who, key);
        self.gate.after(who);
        keep(replies, reply?)
    }

    // The call after these replies.
    fn next(&self, replies: &[Reply]) -> Who
        requires { length replies.now < 2 ^ 32 }
        ensures { result ≡ call_number self.now.session (length replies.now) }
    {
        Who {
            session: self.session,
            index: replies.len() as u32,
        }
    }
}
