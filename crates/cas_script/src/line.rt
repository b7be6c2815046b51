// A line of a session.
ghost use Rattle.std.specs.Prelude.{◌≡◌, ◌≤◌, ◌∷◌, length, IfOk, IfErr, option_copied};
ghost use Rattle.cas_script.specs.declared.verb.Verb.TheVariants as verbs;
ghost use Rattle.cas_script.specs.Text.{tokens_of, more_pieces};
ghost use Rattle.cas_script.specs.Verbs.{count_check};
ghost use Rattle.cas_script.specs.Arguments.{AreNames, AreNoNames, OnKind};
ghost use Rattle.cas_script.specs.Lines.{verb_of, stored_by, IsLineOf, AreNoArguments};

use crate::Line;
use crate::argument::{data_of, key_of, name_of};
use crate::cut::cut;
use crate::refusal::Refusal;
use crate::verb::Verb;
use cas_model::{Digest, Refs};
use std::alloc::Global;

/// The digest of the object that a line stores, if it stores one.
pub fn stored_by(line: &Line) -> Option<Digest>
    ensures { result ≡ stored_by line.now }
{
    match line {
        Line::Store { refs, data } | Line::Act { key: _, refs, data } => {
            Some(Digest::of(refs.list(), data.list()))
        }
        Line::Load(_) | Line::Put(_, _) | Line::Get(_) => None,
    }
}

/// The line with this verb and the arguments in `rest`, which are as many as the verb has, after lines of its session
/// that have stored objects with these digests.
pub fn line_of(
    alloc: Global,
    stored: &[Option<Digest>],
    verb: Verb,
    rest: &[u8],
) -> Result<Line, Refusal>
    requires { count_check verb (length (tokens_of rest.now)) ≡ Ok tt }
    ensures ok { IfOk result (IsLineOf stored.now verb (tokens_of rest.now)) }
    ensures err { IfErr result (OnKind (AreNoArguments stored.now verb (tokens_of rest.now))) }
{
    match verb {
        Verb::Store => store_line(alloc, stored, rest),
        Verb::Load => load_line(stored, rest),
        Verb::Put => put_line(stored, rest),
        Verb::Get => get_line(stored, rest),
        Verb::Act => act_line(alloc, stored, rest),
    }
}

fn store_line(alloc: Global, stored: &[Option<Digest>], rest: &[u8]) -> Result<Line, Refusal>
    requires { count_check verbs.Store (length (tokens_of rest.now)) ≡ Ok tt }
    ensures ok { IfOk result (IsLineOf stored.now verbs.Store (tokens_of rest.now)) }
    ensures err { IfErr result (OnKind (AreNoArguments stored.now verbs.Store (tokens_of rest.now))) }
{
    let (first, more) = cut(rest, b' ');
    let data = data_of(alloc, first)?;
    let refs = refs_of(alloc, stored, more)?;
    Ok(Line::Store { refs, data })
}

fn load_line(stored: &[Option<Digest>], rest: &[u8]) -> Result<Line, Refusal>
    requires { count_check verbs.Load (length (tokens_of rest.now)) ≡ Ok tt }
    ensures ok { IfOk result (IsLineOf stored.now verbs.Load (tokens_of rest.now)) }
    ensures err { IfErr result (OnKind (AreNoArguments stored.now verbs.Load (tokens_of rest.now))) }
{
    Ok(Line::Load(name_of(stored, rest)?))
}

fn put_line(stored: &[Option<Digest>], rest: &[u8]) -> Result<Line, Refusal>
    requires { count_check verbs.Put (length (tokens_of rest.now)) ≡ Ok tt }
    ensures ok { IfOk result (IsLineOf stored.now verbs.Put (tokens_of rest.now)) }
    ensures err { IfErr result (OnKind (AreNoArguments stored.now verbs.Put (tokens_of rest.now))) }
{
    let (first, second) = cut_two(rest);
    let key = key_of(stored, first)?;
    let value = name_of(stored, second)?;
    Ok(Line::Put(key, value))
}

fn get_line(stored: &[Option<Digest>], rest: &[u8]) -> Result<Line, Refusal>
    requires { count_check verbs.Get (length (tokens_of rest.now)) ≡ Ok tt }
    ensures ok { IfOk result (IsLineOf stored.now verbs.Get (tokens_of rest.now)) }
    ensures err { IfErr result (OnKind (AreNoArguments stored.now verbs.Get (tokens_of rest.now))) }
{
    Ok(Line::Get(key_of(stored, rest)?))
}

fn act_line(alloc: Global, stored: &[Option<Digest>], rest: &[u8]) -> Result<Line, Refusal>
    requires { count_check verbs.Act (length (tokens_of rest.now)) ≡ Ok tt }
    ensures ok { IfOk result (IsLineOf stored.now verbs.Act (tokens_of rest.now)) }
    ensures err { IfErr result (OnKind (AreNoArguments stored.now verbs.Act (tokens_of rest.now))) }
{
    let (first, rest) = cut_two(rest);
    let (second, more) = cut(rest, b' ');
    let key = key_of(stored, first)?;
    let data = data_of(alloc, second)?;
    let refs = refs_of(alloc, stored, more)?;
    Ok(Line::Act { key, refs, data })
}

// The first of two tokens or more, and what stands after it.
fn cut_two(text: &[u8]) -> (&[u8], &[u8])
    requires { 2 ≤ length (tokens_of text.now) }
    ensures { tokens_of text.now ≡ result.0.now ∷ tokens_of result.1.now }
{
    let (first, rest) = cut(text, b' ');
    (first, rest.unwrap())
}

// The digests that the tokens name.
fn refs_of(alloc: Global, stored: &[Option<Digest>], tokens: Option<&[u8]>) -> Result<Refs, Refusal>
    ensures ok { IfOk result (AreNames stored.now (more_pieces 32 (option_copied tokens.entry))) }
    ensures err { IfErr result (OnKind (AreNoNames stored.now (more_pieces 32 (option_copied tokens.entry)))) }
{
    let mut refs = Vec::new(alloc);
    let mut rest = tokens;
    while let Some(text) = rest {
        let (token, more) = cut(text, b' ');
        refs.push(name_of(stored, token)?)?;
        rest = more;
    }
    Ok(Refs::from_vec(refs))
}
