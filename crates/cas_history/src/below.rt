// What an upstream has, in code.
ghost use Rattle.std.specs.Prelude.{◌≡◌, MatchOption, None, Some};
ghost use Rattle.std.specs.FinMap as fin;
ghost use Rattle.cas_model.specs.Contents.{objects_map, actions_map};

use cas_model::{Digest, Object, Pair};

/// The first object of the list that has this digest.
pub fn object_under<'a>(objects: &'a [Object], digest: &Digest) -> Option<&'a Object>
    ensures { MatchOption result (fin.get (objects_map objects.now) digest.now ≡ None) (λ o. fin.get (objects_map objects.now) digest.now ≡ Some o.now) }
{
    for object in objects {
        if Digest::of(object.refs.list(), object.data.list()).bytes == digest.bytes {
            return Some(object);
        }
    }
    None
}

/// The first value of the list that stands under this key.
pub fn value_under(actions: &[Pair], key: &Digest) -> Option<Digest>
    ensures { result ≡ fin.get (actions_map actions.now) key.now }
{
    for pair in actions {
        if pair.key.bytes == key.bytes {
            return Some(pair.value);
        }
    }
    None
}
