// The images that a run leaves.
ghost use Rattle.std.specs.Prelude.{◌≡◌, ◌≢◌, false, true, length, IfOk};
ghost use Rattle.cas_model.specs.Claims.{Fit, contents_claims};
ghost use Rattle.cas_model.specs.Contents.{AreLawfulContents, contents_state};
ghost use Rattle.cas_model.specs.Primary.{primary};
ghost use Rattle.cas_command.specs.Closing.{AreDue, Grows, IsClosedAt, IsImageDue, words_used};
ghost use Rattle.cas_command.specs.Rotation.{IsSizeWithin};

use crate::rotation::{Rotation, next_due};
use cas_model::Contents;
use frozen_store::{Counts, Frozen};
use image_file::image_of;
use region_core::BuildError;
use std::alloc::{AllocError, Global};

/// The images that a run leaves to be written.
#[derive(Drop)]
pub struct Images {
    /// That of the primary, where its state changed.
    pub image: Option<Vec<u8>>,
    /// That of a new, empty generation above the primary, where one is due.
    pub next: Option<Vec<u8>>,
}

/// How many objects and actions contents hold.
pub fn counts_of(contents: &Contents) -> Counts
    ensures objects { result.objects ≡ length contents.now.objects.items }
    ensures actions { result.actions ≡ length contents.now.actions.items }
{
    Counts {
        objects: contents.objects.as_slice().len() as u64,
        actions: contents.actions.as_slice().len() as u64,
    }
}

/// The images that are due at these contents: that of a region as large as the opened one, where they are more than the
/// opened one holds; and that of a new generation, as the rotation says, where some claim was refused that an empty
/// region would have granted, or the image of these contents has passed the limit.
pub fn images_due(
    alloc: Global,
    opened: &Frozen,
    contents: &Contents,
    rotation: &Rotation,
    full: bool,
) -> Result<Images, AllocError>
    requires lawful { AreLawfulContents contents.now.objects.items contents.now.actions.items }
    requires grows { Grows (primary opened.now.tables) (contents_state contents.now.objects.items contents.now.actions.items) }
    requires fits { Fit opened.now.tables.size 520 (contents_claims contents.now.objects.items contents.now.actions.items) }
    requires size { IsSizeWithin rotation.now }
    ensures { IfOk result (λ images. AreDue opened.now.tables.size (primary opened.now.tables) (contents_state contents.now.objects.items contents.now.actions.items) rotation.now (words_used contents.now.objects.items contents.now.actions.items) full images) }
{
    let is_same = holds_same(opened, contents);
    if is_same && rotation.is_off(full) {
        return Ok(Images {
            image: None,
            next: None,
        });
    }
    let closed = closed_at(alloc, opened, contents)?;
    Ok(Images {
        image: image_due(alloc, opened, &closed, is_same)?,
        next: next_due(alloc, &closed, rotation, full)?,
    })
}

// Whether contents that are those of the opened region or more are just those.
fn holds_same(opened: &Frozen, contents: &Contents) -> bool
    requires lawful { AreLawfulContents contents.now.objects.items contents.now.actions.items }
    requires grows { Grows (primary opened.now.tables) (contents_state contents.now.objects.items contents.now.actions.items) }
    ensures same { result ≡ true → contents_state contents.now.objects.items contents.now.actions.items ≡ primary opened.now.tables }
    ensures other { result ≡ false → contents_state contents.now.objects.items contents.now.actions.items ≢ primary opened.now.tables }
{
    counts_of(contents) == opened.counts()
}

// The image of the closed region, where it holds something else than the opened one.
fn image_due(
    alloc: Global,
    opened: &Frozen,
    closed: &Frozen,
    is_same: bool,
) -> Result<Option<Vec<u8>>, AllocError>
    requires same { is_same ≡ true → primary closed.now.tables ≡ primary opened.now.tables }
    requires other { is_same ≡ false → primary closed.now.tables ≢ primary opened.now.tables }
    ensures { IfOk result (λ image. IsImageDue closed.now.tables.size (primary opened.now.tables) (primary closed.now.tables) (length closed.now.words) image) }
{
    if is_same {
        return Ok(None);
    }
    closed.seen();
    Ok(Some(image_of(alloc, closed)?))
}

// The closed region of these contents, as large as the opened one.
fn closed_at(alloc: Global, opened: &Frozen, contents: &Contents) -> Result<Frozen, AllocError>
    requires lawful { AreLawfulContents contents.now.objects.items contents.now.actions.items }
    requires fits { Fit opened.now.tables.size 520 (contents_claims contents.now.objects.items contents.now.actions.items) }
    ensures { IfOk result (λ closed. IsClosedAt opened.now.tables.size contents.now.objects.items contents.now.actions.items closed) }
{
    opened.seen();
    match Frozen::of_contents(alloc, contents, opened.size()) {
        Ok(closed) => {
            closed.seen();
            Ok(closed)
        }
        Err(BuildError::Full(_)) => unreachable!(),
        Err(BuildError::Memory) => Err(AllocError),
    }
}
