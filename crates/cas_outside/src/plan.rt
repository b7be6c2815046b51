// Which calls of an object in memory fail, and copies between buffers.
ghost use Rattle.std.specs.Prelude.{◌≡◌, ◌+◌, ◌≤◌, ◌++◌, length, vec_len, vec_capacity};
ghost use Rattle.cas_outside.specs.Plan.{is_planned, CopiesFront};

// Whether the list has this call.
pub(crate) fn is_planned(plan: &Vec<u64>, call: u64) -> bool
    ensures { result ≡ is_planned plan.now.items call }
{
    plan.contains(&call)
}

// Copies the bytes from a place on to the front of a buffer, as many as there is room for.
pub(crate) fn copy_front(bytes: &[u8], at: usize, into: &mut [u8]) -> usize
    requires { at ≤ length bytes.now }
    ensures { CopiesFront bytes.now at into.old into.new result }
{
    let rest = &bytes[at..];
    let count = rest.len().min(into.len());
    into[..count].copy_from_slice(&rest[..count]);
    count
}

// Adds bytes for which there is room.
pub(crate) fn append(bytes: &mut Vec<u8>, more: &[u8])
    requires { vec_len bytes.old + length more.now ≤ vec_capacity bytes.old }
    ensures items { bytes.new.items ≡ bytes.old.items ++ more.now }
    ensures capacity { vec_capacity bytes.new ≡ vec_capacity bytes.old }
{
    for byte in more {
        bytes.push_reserved(*byte);
    }
}
