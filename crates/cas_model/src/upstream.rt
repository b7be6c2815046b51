// A closed store that is only read, as contracts see it.
ghost use Rattle.cas_model.specs.State.{State, empty_state};

/// The store below a primary. It is only read: contracts see its state, and it has no call.
pub trait Upstream {
    ghost state: { Self → State };
}

/// No upstream: its state is empty.
#[derive(Clone, Copy, Debug, PartialEq, Eq)]
pub struct NoUpstream;

impl Upstream for NoUpstream {
    ghost state = { λ _. empty_state };
}
