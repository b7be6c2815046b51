// What stands round each call of the store.
use cas_model::Who;

/// A gate before and after each call of a session, for tests that must meet two sessions inside their calls. It
/// changes nothing that a contract sees, and refuses nothing.
pub trait Gate {
    /// The call is about to begin.
    fn before(&self, who: Who);

    /// The call has ended.
    fn after(&self, who: Who);
}

/// A gate that does nothing.
#[derive(Clone, Copy, Debug)]
pub struct NoGate;

impl Gate for NoGate {
    fn before(&self, _who: Who) {}

    fn after(&self, _who: Who) {}
}
