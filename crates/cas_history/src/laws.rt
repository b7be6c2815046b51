// What holds of each run as it goes on. Each function says it by its contract, and does nothing.
ghost use Rattle.cas_history.specs.Laws.{EventChanges, NeverChanges, SizeStays, PlacesStay, CellsStay, BeforeIsLawful, ObjectStaysLawful, ActionStaysLawful, FreeBlockLasts, CounterGrows, CounterFits, GivenOrFull, GivenFits, NamedFits, RecordFits, ClaimFits, NamedApart, FreeApart, ClaimsApart, RoomIsAsked, FullNeverComes, OthersLeaveConduct, OthersLeaveEntries, OthersLeaveOpen, EventsKeepConduct, EndIsStart, EndNamesTheSame, EmptyIsStart, EmptyNamesNothing};

/// One more event changes in the tables what its kind changes, and nothing else.
pub fn events_change_their_kind()
    ensures { EventChanges }
{}

/// A bound place, a filled cell and a content never change, and a lawful fill stays lawful. A block that a call
/// claimed, and that nothing names, stays so while other calls go on.
pub fn runs_grow()
    ensures never_changes { NeverChanges }
    ensures size { SizeStays }
    ensures places { PlacesStay }
    ensures cells { CellsStay }
    ensures before { BeforeIsLawful }
    ensures object { ObjectStaysLawful }
    ensures action { ActionStaysLawful }
    ensures free { FreeBlockLasts }
{}

/// The counter only grows, and stays within the size while no refused claim has moved it. Bound records, contents
/// and claimed blocks lie in the words that the start or a claim gave, no two of them with a common word. A refused
/// claim says that all claims together pass the end.
pub fn blocks_fit()
    ensures grows { CounterGrows }
    ensures fits { CounterFits }
    ensures full { GivenOrFull }
    ensures given { GivenFits }
    ensures named { NamedFits }
    ensures records { RecordFits }
    ensures claims { ClaimFits }
    ensures named_apart { NamedApart }
    ensures free_apart { FreeApart }
    ensures claims_apart { ClaimsApart }
    ensures room { RoomIsAsked }
{}

/// Where the start has room for the costs of all calls, and the claims of each call ask for at most its cost, no
/// claim is refused.
pub fn costs_leave_room()
    ensures { FullNeverComes }
{}

/// Events of other sessions leave a session's conduct, its events, its entries and its undecided call as they
/// were. An event that an open call may make keeps the conduct, and leaves the call open where it decides nothing.
pub fn sessions_stay_apart()
    ensures conduct { OthersLeaveConduct }
    ensures entries { OthersLeaveEntries }
    ensures others { OthersLeaveOpen }
    ensures events { EventsKeepConduct }
{}

/// The tables at the end of a lawful run are a lawful start with the same primary state, and an empty region is a
/// lawful start with an empty one.
pub fn ends_are_starts()
    ensures ends { EndIsStart }
    ensures same { EndNamesTheSame }
    ensures empty { EmptyIsStart }
    ensures nothing { EmptyNamesNothing }
{}
