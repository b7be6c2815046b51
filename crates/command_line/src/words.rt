// The words of a command, read by hand.
ghost use Rattle.std.specs.Prelude.{◌≡◌, ◌+◌, ◌<◌, ◌≤◌, ℕ, List, String, length, IfOk, IfErr, MatchOption, MatchResult, IfSome, IfNone, Some, None, [], ◌∷◌, true};
ghost use Rattle.std.specs.String.{string_bytes};
ghost use Rattle.std.specs.declared.alloc.Global.{Global};
ghost use Rattle.command_line.specs.declared.command.Options.{Options};
ghost use Rattle.command_line.specs.declared.command.Verb.{Verb};
ghost use Rattle.cas_model.specs.Decimal.{IsNumberWithin};
ghost use Rattle.command_line.specs.Words.{verb_of, begins_dash, setting_of, operands_of, takes, is_key, BeginWith, IsCommand, IsWorkload, HaveOptions, NameNone, IsOperand, IsBadOperand, AreOperands, task_of, Reads};
ghost use Rattle.command_line.specs.Splitting.{IsNamed, IsWith, given_for, given_options, IsValueOf, no_settings};
ghost use Rattle.command_line.specs.Refusals.{AreRefused, OperandsRefused};

use crate::command::{Command, Options, Request, Setting, Task, Verb};
use crate::refusal::{UsageKind, WordsError};
use cas_model::{Digest, Id, IdError, Refs, number_within};
use std::alloc::{AllocError, Global};

/// The most references that an object has.
const MOST_REFS: usize = 65_535;

/// The most bytes that can be a limit.
const MOST_LIMIT: u64 = 1_099_511_627_776;

/// What the words, those after the program's name, ask for.
pub fn read_words(alloc: Global, words: &[String]) -> Result<Request, WordsError>
    ensures { MatchResult result (λ request. Reads words.now request) (λ error. AreRefused words.now error) }
{
    let Some(parts) = named(words) else {
        return Err(WordsError::Usage(UsageKind::Words));
    };
    if !parts.verb.takes(parts.count) {
        return Err(WordsError::Usage(UsageKind::Operands(parts.count as u64)));
    }
    let digests = read_operands(alloc, parts.verb, parts.rest)?;
    if digests.len() > MOST_REFS {
        return Err(WordsError::TooManyReferences(digests.len() as u64));
    }
    Ok(Request {
        task: parts.verb.task(digests),
        options: parts.options,
    })
}

// ---- the command, its options and how many operands it has

/// What words name: a command, the words after it, how many of these are operands, and the options.
#[derive(Drop)]
struct Parts<'a> {
    verb: Verb,
    rest: &'a [String],
    count: usize,
    options: Options,
}

// What the words name: they are `--cas`, any word, the command's, and then operands and options.
fn named(words: &[String]) -> Option<Parts<'_>>
    ensures { MatchOption result (NameNone words.now) (λ parts. IsNamed words.now parts.verb parts.rest.now parts.count parts.options) }
{
    let (verb, rest) = begin(words)?;
    let (count, options) = split(rest)?;
    Some(Parts {
        verb,
        rest,
        count,
        options,
    })
}

// The command that the words begin with, and the words after it.
fn begin(words: &[String]) -> Option<(Verb, &[String])>
    ensures { MatchOption result ((verb : Verb) (rest : List (String Global)) → ¬ BeginWith words.now verb rest) (λ pair. BeginWith words.now pair.0 pair.1.now) }
{
    match words {
        [cas, _, rest @ ..] if cas.as_bytes() == b"--cas".as_slice() => command(rest),
        _ => None,
    }
}

// The command that these words begin with, and the words after it.
fn command(words: &[String]) -> Option<(Verb, &[String])>
    ensures { MatchOption result ((verb : Verb) (rest : List (String Global)) → ¬ IsCommand words.now verb rest) (λ pair. IsCommand words.now pair.0 pair.1.now) }
{
    let [word, rest @ ..] = words else {
        return None;
    };
    if word.as_bytes() == b"--workload".as_slice() {
        return workload(rest);
    }
    Some((Verb::of_word(word)?, rest))
}

// The workload whose rounds the first of these words says, and the words after it.
fn workload(words: &[String]) -> Option<(Verb, &[String])>
    ensures { MatchOption result ((verb : Verb) (rest : List (String Global)) → ¬ IsWorkload words.now verb rest) (λ pair. IsWorkload words.now pair.0 pair.1.now) }
{
    let [value, rest @ ..] = words else {
        return None;
    };
    let rounds = number_within(value.as_bytes(), 1, 10_000)?;
    Some((Verb::Workload(rounds as u32), rest))
}

impl Setting {
    // What the option that a word names sets.
    fn of_word(word: &String) -> Option<Setting>
        ensures { result ≡ setting_of word.now }
    {
        let text = word.as_bytes();
        if text == b"--workers".as_slice() {
            Some(Setting::Workers)
        } else if text == b"--size".as_slice() {
            Some(Setting::Size)
        } else if text == b"--limit".as_slice() {
            Some(Setting::Limit)
        } else {
            None
        }
    }
}

// The numbers that the options so far set.
#[derive(Clone, Copy)]
struct Given {
    workers: Option<u64>,
    size: Option<u64>,
    limit: Option<u64>,
}

impl Given {
    // No option so far.
    fn none() -> Given
        ensures { result ≡ no_settings }
    {
        Given {
            workers: None,
            size: None,
            limit: None,
        }
    }

    // The same with one more option and its value, where it did not stand before.
    fn with(self, setting: Setting, value: &String) -> Option<Given>
        ensures { MatchOption result (given_for setting self ≡ None → (number : ℕ) → ¬ IsValueOf setting (string_bytes value.now) number) (IsWith setting (string_bytes value.now) self) }
    {
        let mut given = self;
        match setting {
            Setting::Workers => given.workers = Some(once(self.workers, value, 1, 64)?),
            Setting::Size => given.size = Some(once(self.size, value, 4_096, 67_108_864)?),
            Setting::Limit => given.limit = Some(once(self.limit, value, 0, MOST_LIMIT)?),
        }
        Some(given)
    }

    // The options that set these numbers. There is one worker where no option says how many.
    fn options(self) -> Options
        requires { IfSome self.workers (λ workers. workers ≤ 64) }
        ensures { result ≡ given_options self }
    {
        Options {
            workers: self.workers.unwrap_or(1) as u32,
            size: self.size,
            limit: self.limit,
        }
    }
}

// How many operands there are among the words after the command, and its options.
fn split(words: &[String]) -> Option<(usize, Options)>
    ensures none { IfNone result ((options : Options) → ¬ HaveOptions words.now options) }
    ensures some { IfSome result (λ pair. HaveOptions words.now pair.1) }
    ensures count { IfSome result (λ pair. pair.0 ≡ length (operands_of words.now)) }
{
    let mut count = 0;
    let mut given = Given::none();
    let mut rest = words;
    while let [word, more @ ..] = rest {
        match Setting::of_word(word) {
            Some(setting) => {
                let [value, after @ ..] = more else {
                    return None;
                };
                given = given.with(setting, value)?;
                rest = after;
            }
            None => {
                if begins_dash(word) {
                    return None;
                }
                count += 1;
                rest = more;
            }
        }
    }
    Some((count, given.options()))
}

// The number that the value of an option is, where the option was not given before.
fn once(before: Option<u64>, value: &String, least: u64, most: u64) -> Option<u64>
    ensures { MatchOption result (before ≡ None → (number : ℕ) → ¬ IsNumberWithin least most (string_bytes value.now) number)
        (λ number. (before ≡ None) × IsNumberWithin least most (string_bytes value.now) number) }
{
    match before {
        Some(_) => None,
        None => number_within(value.as_bytes(), least, most),
    }
}

// Whether the word begins with `-`.
fn begins_dash(word: &String) -> bool
    ensures { result ≡ begins_dash (string_bytes word.now) }
{
    matches!(word.as_bytes(), [b'-', ..])
}

impl Verb {
    // The command that a word names.
    fn of_word(word: &String) -> Option<Verb>
        ensures { result ≡ verb_of word.now }
    {
        let text = word.as_bytes();
        if text == b"--make-blob".as_slice() {
            Some(Verb::MakeBlob)
        } else if text == b"--make-node".as_slice() {
            Some(Verb::MakeNode)
        } else if text == b"--cat-node-data".as_slice() {
            Some(Verb::CatNodeData)
        } else if text == b"--ls-node-refs".as_slice() {
            Some(Verb::LsNodeRefs)
        } else if text == b"--put-cache-key".as_slice() {
            Some(Verb::PutCacheKey)
        } else if text == b"--get-cache-result".as_slice() {
            Some(Verb::GetCacheResult)
        } else if text == b"--batch".as_slice() {
            Some(Verb::Batch)
        } else if text == b"--validate".as_slice() {
            Some(Verb::Validate)
        } else if text == b"--prune".as_slice() {
            Some(Verb::Prune)
        } else {
            None
        }
    }

    // Whether the command takes so many operands.
    fn takes(self, count: usize) -> bool
        ensures { result ≡ takes self count }
    {
        match self {
            Verb::MakeBlob | Verb::Batch | Verb::Workload(_) => count == 0,
            Verb::Validate | Verb::Prune => count == 0,
            Verb::MakeNode => true,
            Verb::CatNodeData | Verb::LsNodeRefs | Verb::GetCacheResult => count == 1,
            Verb::PutCacheKey => count == 2,
        }
    }

    // Whether the operand at this index is a key. Each other is an id.
    fn is_key(self, index: usize) -> bool
        ensures { result ≡ is_key self index }
    {
        match self {
            Verb::PutCacheKey | Verb::GetCacheResult => index == 0,
            _ => false,
        }
    }

    // What is to be done with these operands.
    fn task(self, digests: Vec<Digest>) -> Task
        requires { takes self (length digests.items) ≡ true }
        ensures { task_of self digests.items ≡ Some result }
    {
        let command = match (self, digests.as_slice()) {
            (Verb::CatNodeData, [digest]) => Command::CatNodeData(*digest),
            (Verb::LsNodeRefs, [digest]) => Command::LsNodeRefs(*digest),
            (Verb::PutCacheKey, [key, value]) => Command::PutCacheKey {
                key: *key,
                value: *value,
            },
            (Verb::GetCacheResult, [key]) => Command::GetCacheResult(*key),
            (Verb::MakeBlob | Verb::MakeNode, _) => Command::Make(Refs::from_vec(digests)),
            (Verb::Batch, _) => return Task::Batch,
            (Verb::Workload(rounds), _) => return Task::Workload(rounds),
            (Verb::Validate, _) => return Task::Validate,
            (Verb::Prune, _) => return Task::Prune,
            _ => unreachable!(),
        };
        Task::Once(command)
    }
}

// ---- the operands

// The digests of a command's operands, which stand among these words.
fn read_operands(alloc: Global, verb: Verb, words: &[String]) -> Result<Vec<Digest>, WordsError>
    ensures ok { IfOk result (λ digests. AreOperands verb 0 digests.items (operands_of words.now)) }
    ensures err { IfErr result (λ error. OperandsRefused verb (operands_of words.now) error) }
{
    let mut digests = Vec::new(alloc);
    let mut rest = words;
    while let Some((operand, more)) = first_operand(rest) {
        match read_operand(verb.is_key(digests.len()), operand.as_bytes()) {
            Ok(digest) => {
                if digests.push(digest).is_err() {
                    return Err(WordsError::Memory);
                }
            }
            Err(error) => {
                let index = digests.len() as u64;
                return Err(WordsError::Usage(UsageKind::BadOperand(index, error)));
            }
        }
        rest = more;
    }
    Ok(digests)
}

// The first operand among these words, and the words after it.
fn first_operand(words: &[String]) -> Option<(&String, &[String])>
    ensures none { IfNone result (operands_of words.now ≡ []) }
    ensures some { IfSome result (λ pair. operands_of words.now ≡ pair.0.now ∷ operands_of pair.1.now) }
    ensures fewer { IfSome result (λ pair. length pair.1.now < length words.now) }
{
    let mut rest = words;
    while let [word, more @ ..] = rest {
        if Setting::of_word(word).is_none() {
            return Some((word, more));
        }
        match more {
            [_, after @ ..] => rest = after,
            [] => return None,
        }
    }
    None
}

// The digest of a key or of an id.
fn read_operand(key: bool, text: &[u8]) -> Result<Digest, IdError>
    ensures { MatchResult result (λ digest. IsOperand key digest text.now) (λ error. IsBadOperand key error text.now) }
{
    if key {
        Id::parse_key(text)
    } else {
        Id::parse(text)
    }
}
