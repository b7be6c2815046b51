// The words of a content block.
ghost use Rattle.std.specs.Prelude.{◌≡◌, ◌+◌, ◌*◌, ◌/◌, ◌%◌, ◌^◌, ◌<◌, ◌≤◌, length, slice_index};
ghost use Rattle.cas_model.specs.Content.{content_size, content_head, data_word_at};

/// How many words the content of an object has: its head, one word a reference, and the data in words of eight
/// bytes. The length of the data is in bytes.
pub fn content_length(refs: u64, length: u64) -> u64
    requires few_refs { refs ≤ 65535 }
    requires short { length ≤ 16777215 }
    ensures { result ≡ content_size refs length }
{
    1 + refs + length.div_ceil(8)
}

/// The first word of a content: the number of references in its upper half, the number of bytes in its lower one.
pub fn head_word(refs: u64, length: u64) -> u64
    requires few_refs { refs ≤ 65535 }
    requires short { length ≤ 16777215 }
    ensures { result ≡ content_head refs length }
{
    (refs << 32) + length
}

/// The number of references and the number of bytes that a content's first word tells.
pub fn split_head(word: u64) -> (u64, u64)
    ensures refs { result.0 ≡ word / 2 ^ 32 }
    ensures length { result.1 ≡ word % 2 ^ 32 }
{
    (word >> 32, word & 0xffff_ffff)
}

/// The word of the data at an index: eight bytes, the low one first, with zeros past the end.
pub fn data_word(data: &[u8], index: u64) -> u64
    requires { 8 * index < length «data».now }
    ensures { result ≡ data_word_at «data».now index }
{
    let rest = &data[8 * index as usize..];
    match rest {
        [a, b, c, d, e, f, g, h, ..] => u64::from_le_bytes([*a, *b, *c, *d, *e, *f, *g, *h]),
        _ => last_word(rest),
    }
}

// The word of fewer than eight bytes.
fn last_word(bytes: &[u8]) -> u64
    ensures { result ≡ data_word_at bytes.now 0 }
{
    u64::from_le_bytes([
        byte_at(bytes, 0),
        byte_at(bytes, 1),
        byte_at(bytes, 2),
        byte_at(bytes, 3),
        byte_at(bytes, 4),
        byte_at(bytes, 5),
        byte_at(bytes, 6),
        byte_at(bytes, 7),
    ])
}

// The byte at this index, or 0 past the end.
fn byte_at(bytes: &[u8], index: usize) -> u8
    ensures { result ≡ slice_index bytes.now index }
{
    if index < bytes.len() { bytes[index] } else { 0 }
}
