// A run that is replayed event by event: its tables and its history.
ghost use Rattle.std.specs.Prelude.{◌≡◌, ◌++◌, List, [], IfOk, IfErr, OnOk, option_to_list, reverse};
ghost use Rattle.cas_model.specs.Start.{IsLawfulStart};
ghost use Rattle.cas_model.specs.Step.{Entry as Answered};
ghost use Rattle.cas_history.specs.History.{dangling, is_absent, loaded, got, kept, decided, decided_at, with_event, history};
ghost use Rattle.cas_history.specs.Lawful.{MayHappen, IsLawfulRun};
ghost use Rattle.cas_history.specs.Replays.{calls_in, state_of, IsNoRecord, IsStopped};
ghost use Rattle.cas_history.specs.Run.{after, tables};

use cas_history::{
    Act, Asked, Entry, Event, ReplayError, Rows, call_of, copy_call, object_under, put_front,
    value_under,
};
use cas_model::{Call, Contents, Digest, Reply, Stage};
use std::alloc::{AllocError, Global};
use std::marker::Model;

/// A run that is replayed event by event, for tests: plain and slow. It says what the tables are after the events,
/// and which calls they have decided, by the definitions of runs alone.
#[derive(Drop)]
pub struct Replay {
    alloc: Global,
    upstream: Contents,
    calls: Vec<Asked>,
    rows: Rows,
    entries: Vec<Entry>,
}

impl Model for Replay {
    ghost use Rattle.cas_history.specs.Lawful.{MayHappen, IsLawfulRun};
    ghost use Rattle.cas_history.specs.Replays.{Replayed};

    ghost Value = { Replayed };

    ghost view = { λ r. record { tables = r.rows; entries = r.entries.items; upstream = r.upstream; calls = r.calls.items } };
}

impl Replay {
    /// A replay that begins with these tables, over an upstream with these contents. A call of the list belongs to
    /// the session and has the number that stand beside it.
    pub fn new(alloc: Global, start: Rows, upstream: Contents, calls: Vec<Asked>) -> Replay
        ensures { result ≡ record { tables = start; entries = []; upstream = upstream; calls = calls.items } }
    {
        Replay {
            alloc,
            upstream,
            calls,
            rows: start,
            entries: Vec::new(alloc),
        }
    }

    /// The replay of these events, the oldest first. It fails where `push` of one of them does.
    pub fn of(
        alloc: Global,
        start: Rows,
        upstream: Contents,
        calls: Vec<Asked>,
        events: Vec<Event>,
    ) -> Result<Replay, ReplayError>
        ensures tables { IfOk result (λ r. r.tables ≡ tables start (reverse events.items)) }
        ensures entries { IfOk result (λ r. r.entries ≡ history (state_of upstream) start (calls_in calls.items) (reverse events.items)) }
        ensures upstream { IfOk result (λ r. r.upstream ≡ upstream) }
        ensures calls { IfOk result (λ r. r.calls ≡ calls.items) }
        ensures lawful { IsLawfulStart start → OnOk result (IsLawfulRun (state_of upstream) start (reverse events.items)) }
    {
        let mut replay = Replay::new(alloc, start, upstream, calls);
        for event in events {
            replay = replay.push(event)?;
        }
        Ok(replay)
    }

    /// The tables after the events so far.
    pub fn rows(&self) -> &Rows
        ensures { result.now ≡ self.now.tables }
    {
        &self.rows
    }

    /// Gives up the replay, and keeps its tables.
    pub fn into_rows(self) -> Rows
        ensures { result ≡ self.tables }
    {
        let Replay { rows, .. } = self;
        rows
    }

    /// The calls that the events so far have decided, the newest first.
    pub fn history(&self) -> &[Entry]
        ensures { result.now ≡ self.now.entries }
    {
        self.entries.as_slice()
    }

    /// The replay with one more event.
    pub fn push(self, event: Event) -> Result<Replay, ReplayError>
        ensures tables { IfOk result (λ new. new.tables ≡ after self.tables event) }
        ensures entries { IfOk result (λ new. new.entries ≡ with_event (state_of self.upstream) self.tables (calls_in self.calls event.note.who) event self.entries) }
        ensures upstream { IfOk result (λ new. new.upstream ≡ self.upstream) }
        ensures calls { IfOk result (λ new. new.calls ≡ self.calls) }
        ensures may { OnOk result (MayHappen (state_of self.upstream) self.tables event.note.who event.act) }
        ensures refused { IfErr result (λ error. IsStopped (state_of self.upstream) self.tables event error) }
    {
        if !self
            .rows
            .may_happen(self.alloc, &self.upstream, event.note.who, &event.act)?
        {
            return Err(ReplayError::Unlawful);
        }
        let decided = self.entry_of(&event)?;
        let Replay {
            alloc,
            upstream,
            calls,
            rows,
            entries,
        } = self;
        Ok(Replay {
            alloc,
            upstream,
            calls,
            rows: rows.after(event)?,
            entries: with_entry(entries, decided)?,
        })
    }

    // The call that an event decides, with its reply.
    fn entry_of(&self, event: &Event) -> Result<Option<Entry>, ReplayError>
        ensures ok { IfOk result (λ entry. (earlier : List Answered) → with_event (state_of self.now.upstream) self.now.tables (calls_in self.now.calls event.now.note.who) event.now earlier ≡ option_to_list entry ++ earlier) }
        ensures err { IfErr result (λ error. IsNoRecord self.now.tables error) }
    {
        let who = event.note.who;
        let Some(call) = call_of(self.calls.as_slice(), who) else {
            return Ok(None);
        };
        match self.decided(call, event.note.stage, &event.act)? {
            Some(reply) => {
                let call = copy_call(self.alloc, call)?;
                Ok(Some(Entry { who, call, reply }))
            }
            None => Ok(None),
        }
    }

    // What an act decides.
    fn decided(&self, call: &Call, stage: Stage, act: &Act) -> Result<Option<Reply>, ReplayError>
        ensures ok { IfOk result (λ reply. reply ≡ decided (state_of self.now.upstream) self.now.tables call.now stage act.now) }
        ensures err { IfErr result (λ error. IsNoRecord self.now.tables error) }
    {
        match act {
            Act::Room(asked, _) => Ok(Some(Reply::Full {
                at: self.rows.counter(),
                asked: *asked,
                size: self.rows.size(),
            })),
            Act::Bind(..) | Act::Claim(_) => Ok(None),
            Act::Look(..) | Act::Read(_) | Act::Fill(..) => self.decided_at(call, stage, act),
        }
    }

    fn decided_at(&self, call: &Call, stage: Stage, act: &Act) -> Result<Option<Reply>, ReplayError>
        ensures ok { IfOk result (λ reply. reply ≡ decided_at (state_of self.now.upstream) self.now.tables call.now stage act.now) }
        ensures err { IfErr result (λ error. IsNoRecord self.now.tables error) }
    {
        let answer = self.rows.answer(act);
        match (call, stage) {
            (Call::Store(object), Stage::Ref(index)) => {
                let digest = object.refs.list().get(index as usize).copied();
                Ok(self.dangling(index, digest, act))
            }
            (Call::Store(object), Stage::Own) => match answer.value_left() {
                0 => Ok(None),
                _ => Ok(Some(Reply::Stored(Digest::of(object.refs.list(), object.data.list())))),
            },
            (Call::Load(digest), Stage::Own) => self.loaded(digest, act, answer.value_read()),
            (Call::Put(_, value), Stage::Ref(index)) => {
                let digest = [*value].get(index as usize).copied();
                Ok(self.dangling(index, digest, act))
            }
            (Call::Put(..), Stage::Key) => self.kept(answer.value_left()),
            (Call::Get(key), Stage::Key) => self.got(key, act, answer.value_left()),
            _ => Ok(None),
        }
    }

    // Whether an act missed a digest that the upstream lacks.
    fn is_absent(&self, act: &Act, digest: &Digest) -> bool
        ensures { result ≡ is_absent (state_of self.now.upstream) self.now.tables act.now digest.now }
    {
        self.rows.answer(act).is_miss()
            && object_under(self.upstream.objects.as_slice(), digest).is_none()
    }

    fn dangling(&self, index: u32, digest: Option<Digest>, act: &Act) -> Option<Reply>
        ensures { result ≡ dangling (state_of self.now.upstream) self.now.tables index digest act.now }
    {
        let digest = digest?;
        if self.is_absent(act, &digest) {
            return Some(Reply::Dangling { index, digest });
        }
        None
    }

    fn loaded(&self, digest: &Digest, act: &Act, cell: u64) -> Result<Option<Reply>, ReplayError>
        ensures ok { IfOk result (λ reply. reply ≡ loaded (state_of self.now.upstream) self.now.tables digest.now act.now cell) }
        ensures err { IfErr result (λ error. IsNoRecord self.now.tables error) }
    {
        if cell == 0 {
            return Ok(if self.is_absent(act, digest) {
                Some(Reply::Missing)
            } else {
                None
            });
        }
        match self.rows.object_in(self.alloc, cell)? {
            Some(object) => Ok(Some(Reply::Found(object))),
            None => Ok(None),
        }
    }

    fn kept(&self, cell: u64) -> Result<Option<Reply>, ReplayError>
        ensures ok { IfOk result (λ reply. reply ≡ kept self.now.tables cell) }
        ensures err { IfErr result (λ error. IsNoRecord self.now.tables error) }
    {
        if cell == 0 {
            return Ok(None);
        }
        let digest = self.rows.digest_at(cell)?;
        Ok(Some(Reply::Kept(digest)))
    }

    fn got(&self, key: &Digest, act: &Act, cell: u64) -> Result<Option<Reply>, ReplayError>
        ensures ok { IfOk result (λ reply. reply ≡ got (state_of self.now.upstream) self.now.tables key.now act.now cell) }
        ensures err { IfErr result (λ error. IsNoRecord self.now.tables error) }
    {
        if cell == 0 {
            let is_miss = self.rows.answer(act).is_miss();
            if is_miss && value_under(self.upstream.actions.as_slice(), key).is_none() {
                return Ok(Some(Reply::Miss));
            }
            return Ok(None);
        }
        let digest = self.rows.digest_at(cell)?;
        Ok(Some(Reply::Hit(digest)))
    }
}

// The entries with one more before them, where there is one.
fn with_entry(mut entries: Vec<Entry>, more: Option<Entry>) -> Result<Vec<Entry>, AllocError>
    ensures { IfOk result (λ list. list.items ≡ option_to_list more ++ entries.items) }
{
    if let Some(entry) = more {
        put_front(&mut entries, entry)?;
    }
    Ok(entries)
}
