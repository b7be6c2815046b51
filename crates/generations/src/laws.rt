// What the calls on a folder do to the states of its primary and its upstream. Each function says a law by its contract,
// and does nothing.
ghost use Rattle.generations.specs.Laws.{OpeningReadsChain, PruningKeepsChain, RotatingLowersPrimary, SavingKeepsUpstream, StoppedPruningKeepsChain};

/// What `open_folder` read has the states of the folder's primary and upstream, where the files are told.
pub fn opening_reads_the_chain()
    ensures { OpeningReadsChain }
{}

/// A save gives the primary the state of its image, and leaves the upstream its own.
pub fn saving_keeps_the_upstream()
    ensures { SavingKeepsUpstream }
{}

/// After a rotation the primary is empty, and the upstream has the state that the primary had.
pub fn rotating_lowers_the_primary()
    ensures { RotatingLowersPrimary }
{}

/// A prune, whole or stopped, leaves the states of the primary and of the upstream.
pub fn pruning_keeps_the_chain()
    ensures whole { PruningKeepsChain }
    ensures stopped { StoppedPruningKeepsChain }
{}
