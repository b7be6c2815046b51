// What a check of the folder's images tells.
ghost use Rattle.std.specs.Prelude.{◌≡◌, ◌++◌, IfOk, OnOk};
ghost use Rattle.cas_command.specs.Validation.{valid_line, valid_lines};

use frozen_store::Counts;
use generations::Opened;
use std::alloc::{AllocError, Global};

/// A line for each generation that was read, the primary first: its name, and how many objects and actions it has.
pub fn valid_text(alloc: Global, opened: &Opened) -> Result<Vec<u8>, AllocError>
    ensures { IfOk result (λ text. text.items ≡ valid_lines opened.now) }
{
    let mut text = Vec::new(alloc);
    if opened.has_file {
        push_line(alloc, &mut text, opened.number, opened.primary.counts())?;
    }
    if let Some(up) = &opened.up {
        push_line(alloc, &mut text, opened.up_number, up.counts())?;
    }
    Ok(text)
}

// Appends the line of a generation.
fn push_line(
    alloc: Global,
    text: &mut Vec<u8>,
    number: u32,
    counts: Counts,
) -> Result<(), AllocError>
    ensures { OnOk result (text.new.items ≡ text.old.items ++ valid_line number counts.objects counts.actions) }
{
    let objects = counts.objects;
    let actions = counts.actions;
    let line = format!(in alloc; "valid v1.{number} {objects} {actions}\n")?;
    text.extend_from_slice(line.as_bytes())
}
