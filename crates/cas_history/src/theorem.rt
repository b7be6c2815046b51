// The theorem over lawful runs. Each function says a part of it by its contract, and does nothing.
ghost use Rattle.cas_history.specs.Theorem.{HistoryIsLegal, CarriedIsPrimary, PrimaryIsClosed, PrimaryIsStorable, VisibleIsClosed, FoundIsNamed, PromisesAreWhole, IndexesCountUp, IndexesGoOn, OrderCounts};
ghost use Rattle.cas_history.specs.Loads.{LegalLoadsAreExact};

/// The history of every lawful run whose sessions have conduct is a legal history of a one-thread object store and
/// action cache, from what was visible at the start to what is visible at the end. It holds for every map of calls,
/// every upstream, every number of sessions and every interleaving.
pub fn history_is_legal()
    ensures { HistoryIsLegal }
{}

/// The primary state of every lawful run is closed and can be stored, and only a fill that wins adds to it. Over a
/// closed upstream, what is visible is closed.
pub fn primary_is_closed()
    ensures closed { PrimaryIsClosed }
    ensures storable { PrimaryIsStorable }
    ensures carried { CarriedIsPrimary }
    ensures visible { VisibleIsClosed }
{}

/// What a load finds has the digest that it was asked for. What a reply says is there, is there with all that
/// references reach from it, after the event that decides the reply and after all later ones.
pub fn promises_are_whole()
    ensures found { FoundIsNamed }
    ensures whole { PromisesAreWhole }
{}

/// The entries of each session have the indexes 0, 1, 2 and so on, and so have its events.
pub fn calls_go_in_order()
    ensures count { IndexesCountUp }
    ensures events { IndexesGoOn }
    ensures same { OrderCounts }
{}

/// A load of a legal history finds an object of the digest that it was asked for; and where no two of the objects that
/// were opened or are stored share a digest, the only one that has it: exactly the bytes and references that were stored.
pub fn loads_are_exact()
    ensures { LegalLoadsAreExact }
{}
