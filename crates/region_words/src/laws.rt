// What holds of running regions, whoever makes the steps. Each function says it by its contract, and does nothing.
ghost use Rattle.region_words.specs.Laws.{StepsKeepViews, QuietStepsKeepViews, SplitsKeepViews, JoinsKeepViews, CounterHasLimit};

/// What seats know stays in step with the run: at a step of any kind, where a seat is split, and where two are joined.
pub fn views_stay()
    ensures steps { StepsKeepViews }
    ensures quiet { QuietStepsKeepViews }
    ensures splits { SplitsKeepViews }
    ensures joins { JoinsKeepViews }
{}

/// However many sessions claim at once, the counter passes the size by at most 65 times the largest claim, so it never
/// wraps.
pub fn counter_has_limit()
    ensures { CounterHasLimit }
{}
