// The words that a line begins with.
ghost use Rattle.std.specs.Prelude.{◌≡◌, ◌≢◌, MatchOption};
ghost use Rattle.cas_script.specs.declared.verb.Verb.{Verb};
ghost use Rattle.cas_script.specs.Verbs.{session_word, verb_word, leading, takes_refs, count_check};

use crate::LineKind;

/// The word of a line that asks something of the store.
#[derive(Clone, Copy, Debug, PartialEq, Eq)]
pub enum Verb {
    Store,
    Load,
    Put,
    Get,
    Act,
}

impl Verb {
    /// The verb that a token is the word of.
    pub fn of(token: &[u8]) -> Option<Verb>
        ensures { MatchOption result ((verb : Verb) → token.now ≢ verb_word verb) (λ verb. token.now ≡ verb_word verb) }
    {
        if token == b"store".as_slice() {
            Some(Verb::Store)
        } else if token == b"load".as_slice() {
            Some(Verb::Load)
        } else if token == b"put".as_slice() {
            Some(Verb::Put)
        } else if token == b"get".as_slice() {
            Some(Verb::Get)
        } else if token == b"act".as_slice() {
            Some(Verb::Act)
        } else {
            None
        }
    }

    // How many arguments stand before the references.
    fn leading(self) -> usize
        ensures { result ≡ leading self }
    {
        match self {
            Verb::Store | Verb::Load | Verb::Get => 1,
            Verb::Put | Verb::Act => 2,
        }
    }

    // Whether references may follow.
    fn takes_refs(self) -> bool
        ensures { result ≡ takes_refs self }
    {
        matches!(self, Verb::Store | Verb::Act)
    }

    /// Refuses a number of arguments that a line with this word does not have.
    pub fn check_count(self, count: usize) -> Result<(), LineKind>
        ensures { result ≡ count_check self count }
    {
        let leading = self.leading();
        let fits = if self.takes_refs() {
            leading <= count
        } else {
            count == leading
        };
        if !fits {
            Err(LineKind::BadArguments)
        } else if count - leading > 65_535 {
            Err(LineKind::TooManyRefs)
        } else {
            Ok(())
        }
    }
}
