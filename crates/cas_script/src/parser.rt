// The sessions of a text, line by line.
ghost use Rattle.std.specs.Prelude.{◌≡◌, ◌<◌, [], ◌∷◌, ◌++◌, length, map, IfOk, IfErr, OnOk, option_copied};
ghost use Rattle.cas_script.specs.Text.{more_pieces};
ghost use Rattle.cas_script.specs.Arguments.{OnKind};
ghost use Rattle.cas_script.specs.Lines.{stored_by};
ghost use Rattle.cas_script.specs.FirstRefused.{Then, session_check, bare_check, place_check, IsRefusedVerb, IsRefusedLine};
ghost use Rattle.cas_script.specs.Parsing.{Adds, Begins, Says, IsWhole, sessions_of};

use crate::cut::{count_pieces, cut, speaks};
use crate::line::{line_of, stored_by};
use crate::refusal::Refusal;
use crate::verb::Verb;
use crate::{Line, LineKind, Lines, Script, Session, Sessions};
use cas_model::Digest;
use std::alloc::{AllocError, Global};
use std::mem;

/// The word that begins a session.
const SESSION: &[u8] = b"session";

/// How many sessions a script has at most.
const MOST_SESSIONS: usize = 64;

/// How many lines a session has at most.
const MOST_LINES: usize = 65_536;

/// The sessions of the lines so far.
#[derive(Drop)]
pub struct Parser {
    // The sessions that are ended.
    sessions: Vec<Session>,
    // Whether a session is read.
    has_session: bool,
    // The lines of that session.
    lines: Vec<Line>,
    // The digest of the object that each of these lines has stored.
    stored: Vec<Option<Digest>>,
}

impl Parser {
    /// Before the first line.
    pub fn new(alloc: Global) -> Parser
        ensures whole { IsWhole result }
        ensures none { sessions_of result ≡ [] }
    {
        Parser {
            sessions: Vec::new(alloc),
            has_session: false,
            lines: Vec::new(alloc),
            stored: Vec::new(alloc),
        }
    }

    /// Reads the next line.
    pub fn add(&mut self, alloc: Global, line: &[u8]) -> Result<(), Refusal>
        requires { IsWhole self.old }
        ensures whole { OnOk result (IsWhole self.new) }
        ensures ok { OnOk result (Adds (sessions_of self.old) line.now (sessions_of self.new)) }
        ensures err { IfErr result (OnKind (IsRefusedLine (sessions_of self.old) line.now)) }
    {
        if !speaks(line) {
            return Ok(());
        }
        let (first, rest) = cut(line, b' ');
        if first == SESSION {
            return self.begin(alloc, rest);
        }
        match Verb::of(first) {
            Some(verb) => self.say(alloc, verb, rest),
            None => Err(Refusal::Kind(LineKind::BadVerb)),
        }
    }

    // Begins a session, where nothing stands behind the word.
    fn begin(&mut self, alloc: Global, rest: Option<&[u8]>) -> Result<(), Refusal>
        requires { IsWhole self.old }
        ensures whole { OnOk result (IsWhole self.new) }
        ensures bare { OnOk result (more_pieces 32 (option_copied rest.entry) ≡ []) }
        ensures ok { OnOk result (Begins (sessions_of self.old) (sessions_of self.new)) }
        ensures err { IfErr result (OnKind (Then (session_check (sessions_of self.old)) (Then (bare_check (more_pieces 32 (option_copied rest.entry))) (λ _. ⊥)))) }
    {
        if self.count() >= MOST_SESSIONS {
            return Err(Refusal::Kind(LineKind::TooManySessions));
        }
        if rest.is_some() {
            return Err(Refusal::Kind(LineKind::BadArguments));
        }
        self.end(alloc)?;
        self.has_session = true;
        Ok(())
    }

    // Reads a line with this verb, and the arguments in `rest`.
    fn say(&mut self, alloc: Global, verb: Verb, rest: Option<&[u8]>) -> Result<(), Refusal>
        requires { IsWhole self.old }
        ensures whole { OnOk result (IsWhole self.new) }
        ensures ok { OnOk result (Says (sessions_of self.old) verb (more_pieces 32 (option_copied rest.entry)) (sessions_of self.new)) }
        ensures err { IfErr result (OnKind (IsRefusedVerb (sessions_of self.old) verb (more_pieces 32 (option_copied rest.entry)))) }
    {
        self.check_place()?;
        let Some(rest) = rest else {
            return Err(Refusal::Kind(LineKind::BadArguments));
        };
        verb.check_count(count_pieces(rest, b' '))?;
        let line = line_of(alloc, self.stored.as_slice(), verb, rest)?;
        self.push(line)?;
        Ok(())
    }

    // Adds a line to the session.
    fn push(&mut self, line: Line) -> Result<(), AllocError>
        requires { IsWhole self.old }
        ensures stored { OnOk result (self.new.stored.items ≡ self.old.stored.items ++ stored_by line ∷ []) }
        ensures lines { OnOk result (self.new.lines.items ≡ self.old.lines.items ++ line ∷ []) }
        ensures rest { OnOk result ((self.new.sessions.items ≡ self.old.sessions.items) × (self.new.has_session ≡ self.old.has_session)) }
    {
        self.stored.push(stored_by(&line))?;
        self.lines.push(line)?;
        Ok(())
    }

    // Refuses a line where no session is read, or the session has all its lines.
    fn check_place(&self) -> Result<(), LineKind>
        requires { IsWhole self.now }
        ensures { result ≡ place_check (sessions_of self.now) }
    {
        if !self.has_session {
            Err(LineKind::NoSession)
        } else if self.lines.len() >= MOST_LINES {
            Err(LineKind::TooManyLines)
        } else {
            Ok(())
        }
    }

    // How many sessions there are.
    fn count(&self) -> usize
        ensures { result ≡ length (sessions_of self.now) }
    {
        if self.has_session {
            self.sessions.len() + 1
        } else {
            self.sessions.len()
        }
    }

    // Ends the session that is read, if there is one.
    fn end(&mut self, alloc: Global) -> Result<(), AllocError>
        requires { IsWhole self.old }
        ensures sessions { OnOk result (self.new.sessions.items ≡ sessions_of self.old) }
        ensures lines { OnOk result (self.new.lines.items ≡ []) }
        ensures stored { OnOk result (self.new.stored.items ≡ []) }
    {
        if self.has_session {
            let lines = mem::replace(&mut self.lines, Vec::new(alloc));
            self.stored.clear();
            self.sessions.push(Session {
                lines: Lines::from_vec(lines),
            })?;
        }
        Ok(())
    }

    /// The script of the lines so far.
    pub fn finish(mut self, alloc: Global) -> Result<Script, AllocError>
        requires { IsWhole self }
        ensures { IfOk result (λ script. script.sessions ≡ sessions_of self) }
    {
        self.end(alloc)?;
        Ok(Script {
            sessions: Sessions::from_vec(self.sessions),
        })
    }
}
