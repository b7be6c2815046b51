// What a run leaves for contracts to see.
use cas_script::Script;
use cell_port::Events;
use frozen_store::Frozen;

/// What contracts see of a run: the opened state, the calls that the run made, the one actual list of its events, and
/// the closed state. It has no public field, and a program can ask nothing of it.
#[derive(Drop)]
pub struct Front {
    run: Option<Run>,
}

/// A run that was reached.
#[derive(Drop)]
pub struct Run {
    /// The primary that was opened.
    opened: Frozen,
    /// The generation before it, if there is one.
    up: Option<Frozen>,
    /// The script whose calls were made.
    script: Script,
    /// What the port saw.
    events: Events,
}

impl Front {
    ghost use Rattle.std.specs.Prelude.{◌≡◌, Some, None};
    ghost use Rattle.cas_command.specs.SeenRun.{front_run, run_of};

    /// A run that was not reached.
    pub(crate) fn none() -> Front
        ensures { front_run result ≡ None }
    {
        Front { run: None }
    }

    /// A run of this script from this primary over this upstream, with what its port saw.
    pub(crate) fn of(opened: Frozen, up: Option<Frozen>, script: Script, events: Events) -> Front
        ensures { front_run result ≡ Some (run_of opened up script events) }
    {
        Front {
            run: Some(Run {
                opened,
                up,
                script,
                events,
            }),
        }
    }
}
