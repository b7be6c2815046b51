// When a new generation is put above the primary.
ghost use Rattle.std.specs.Prelude.{◌≡◌, ◌≢◌, ◌≤◌, ℕ, false, true, length, IfOk};
ghost use Rattle.cas_model.specs.Primary.{primary};
ghost use Rattle.cas_model.specs.State.{empty_state};
ghost use Rattle.generations.specs.Rotation.{NeedsRotation};
ghost use Rattle.cas_command.specs.Rotation.{IsEmptyImage, IsNextDue, IsRotationDue, IsSizeWithin, any_outgrows, full_seen, outgrows};

use cas_model::Reply;
use frozen_store::Frozen;
use generations::needs_rotation;
use image_file::image_of;
use sessions::Replies;
use std::alloc::{AllocError, Global};

/// How many words the header and the roots of a region have.
const ROOTS: u64 = 520;

/// What decides whether a new generation is put above the primary, and how large it is.
#[derive(Clone, Copy, Debug, PartialEq, Eq)]
pub struct Rotation {
    /// The primary's number.
    pub number: u32,
    /// The limit of the store in bytes, if there is one: a primary may have half of it.
    pub limit: Option<u64>,
    /// The size in words of a region that is made, where it is asked for. It is the primary's where it is not.
    pub size: Option<u64>,
}

impl Rotation {
    /// Whether no rotation is due, however many words the primary has.
    pub fn is_off(&self, full: bool) -> bool
        ensures { result ≡ true → (used : ℕ) → NeedsRotation used self.now.limit full → ⊥ }
    {
        self.limit.is_none() && !full
    }
}

/// Whether some reply says that a claim was refused which an empty region of the same size would have granted.
pub fn full_seen(replies: &Replies) -> bool
    ensures { result ≡ full_seen replies.now.sessions }
{
    for session in replies.sessions.list() {
        if any_outgrows(session.replies.list()) {
            return true;
        }
    }
    false
}

// Whether one of a session's replies says so.
fn any_outgrows(replies: &[Reply]) -> bool
    ensures { result ≡ any_outgrows replies.now }
{
    for reply in replies {
        if outgrows(reply) {
            return true;
        }
    }
    false
}

// Whether a reply says so.
fn outgrows(reply: &Reply) -> bool
    ensures { result ≡ outgrows reply.now }
{
    match reply {
        Reply::Full { asked, size, .. } => ROOTS <= *size && *asked <= *size - ROOTS,
        _ => false,
    }
}

/// The image of a new generation, where one is due over this closed one.
pub fn next_due(
    alloc: Global,
    closed: &Frozen,
    rotation: &Rotation,
    full: bool,
) -> Result<Option<Vec<u8>>, AllocError>
    requires size { IsSizeWithin rotation.now }
    ensures { IfOk result (λ image. IsNextDue rotation.now closed.now.tables.size (primary closed.now.tables) (length closed.now.words) full image) }
{
    if !is_due(closed, rotation, full) {
        return Ok(None);
    }
    closed.seen();
    let size = rotation.size.unwrap_or(closed.size());
    Ok(Some(empty_image(alloc, size)?))
}

// Whether a new generation is due over this closed one.
fn is_due(closed: &Frozen, rotation: &Rotation, full: bool) -> bool
    ensures due { result ≡ true → IsRotationDue rotation.now (primary closed.now.tables) (length closed.now.words) full }
    ensures not_due { result ≡ false → IsRotationDue rotation.now (primary closed.now.tables) (length closed.now.words) full → ⊥ }
{
    if is_empty(closed) || rotation.number == u32::MAX {
        return false;
    }
    closed.seen();
    needs_rotation(closed.used(), rotation.limit, full)
}

// Whether a closed region holds nothing.
fn is_empty(closed: &Frozen) -> bool
    ensures empty { result ≡ true → primary closed.now.tables ≡ empty_state }
    ensures some { result ≡ false → primary closed.now.tables ≢ empty_state }
{
    let counts = closed.counts();
    counts.objects == 0 && counts.actions == 0
}

// The image of a region of this size in which nothing is stored.
fn empty_image(alloc: Global, size: u64) -> Result<Vec<u8>, AllocError>
    requires least { 4096 ≤ size }
    requires most { size ≤ 67108864 }
    ensures { IfOk result (λ image. IsEmptyImage size image.items) }
{
    let empty = Frozen::empty(alloc, size)?;
    empty.seen();
    image_of(alloc, &empty)
}
