// Searches in lists of rows, and in the open blocks of a port.
ghost use Rattle.std.specs.Prelude.{◌≡◌, ◌<◌, ◌↔◌, length, IfOk, IfSome, IsSome, option_copied};
ghost use Rattle.cas_model.specs.Tables.{words_at, same_space};
ghost use Rattle.cas_port.specs.View.{open_words, write_word, close_block};
ghost use Rattle.cell_port.specs.Tables.{first_at};

use cas_model::{Content, Space};
use cas_port::OpenBlock;
use std::collections::VecDeque;

pub fn is_same_space(a: Space, b: Space) -> bool
    ensures { result ≡ same_space a b }
{
    match (a, b) {
        (Space::Objects, Space::Objects) => true,
        (Space::Actions, Space::Actions) => true,
        (Space::Objects, Space::Actions) => false,
        (Space::Actions, Space::Objects) => false,
    }
}

/// The words of the first content at a place.
pub fn find_words(contents: &VecDeque<Content>, place: u64) -> Option<&[u64]>
    ensures { option_copied result ≡ words_at contents.now.items place }
{
    for i in 0..contents.len() {
        let c = &contents[i];
        if c.place == place {
            return Some(c.words.list());
        }
    }
    None
}

fn find_open(opened: &VecDeque<OpenBlock>, place: u64) -> usize
    ensures { result ≡ first_at opened.now.items place }
{
    for i in 0..opened.len() {
        if opened[i].place == place {
            return i;
        }
    }
    opened.len()
}

/// Writes one word of an open block.
pub fn write_open(opened: &mut VecDeque<OpenBlock>, place: u64, index: u64, word: u64)
    requires { index < length (open_words opened.old.items place) }
    ensures { opened.new.items ≡ write_word opened.old.items place index word }
{
    let i = find_open(opened, place);
    if i < opened.len() {
        opened[i].words.set(index, word);
    }
}

/// Takes the block at a place out of the open ones.
pub fn take_open(opened: &mut VecDeque<OpenBlock>, place: u64) -> Option<OpenBlock>
    ensures closed { opened.new.items ≡ close_block opened.old.items place }
    ensures words { IfSome result (λ o. o.words ≡ open_words opened.old.items place) }
    ensures found { IsSome result ↔ (first_at opened.old.items place < length opened.old.items) }
{
    let i = find_open(opened, place);
    if i < opened.len() {
        opened.remove(i)
    } else {
        None
    }
}
