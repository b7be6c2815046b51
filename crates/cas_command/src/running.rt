// Running a script from an opened generation, over the one before it.
ghost use Rattle.std.specs.Prelude.{◌≡◌, ◌≤◌, ◌⊎◌, option_copied, IfOk, OnErr};
ghost use Rattle.cas_script.specs.Limits.{FitsScript};
ghost use Rattle.cas_model.specs.Primary.{primary};
ghost use Rattle.cas_model.specs.State.{empty_state};
ghost use Rattle.cas_history.specs.Loads.{HasOwnDigests};
ghost use Rattle.unified_cas.specs.Upstream.{upstream_state};
ghost use Rattle.cas_command.specs.SeenRun.{NotReached, Ran};
ghost use Rattle.cas_command.specs.History.{RunsScript};
ghost use Rattle.cas_command.specs.Opened.{IsOpenedAt};
ghost use Rattle.cas_command.specs.Made.{HasMade, HasRunTo, IsOneCall};
ghost use Rattle.cas_command.specs.Rotation.{IsSizeWithin};

use crate::closing::{Images, counts_of, images_due};
use crate::seen_run::Front;
use crate::output::{Output, output_of};
use crate::rotation::{Rotation, full_seen};
use crate::work::Work;
use cas_model::{NoUpstream, Upstream};
use cas_outside::Gate;
use cas_port::PortError;
use cell_port::{Events, PlainPort};
use frozen_store::Frozen;
use sessions::run_in_turn;
use std::alloc::{AllocError, Global};

/// What a run made: what it gives, and the images that are due.
#[derive(Drop)]
pub struct Made {
    pub output: Output,
    pub images: Images,
}

/// A script to run over generations that are opened.
#[derive(Drop)]
pub struct Running<'a, G: Gate> {
    pub alloc: Global,
    /// The primary that was opened.
    pub opened: &'a Frozen,
    /// The generation before it, if there is one.
    pub up: Option<&'a Frozen>,
    pub work: &'a Work,
    pub rotation: Rotation,
    pub gate: &'a G,
}

/// Runs the sessions of a script in turn, from what the primary holds over what its upstream holds, and answers what
/// contracts see of the run with what it made. An error is want of memory.
pub fn run_work<G: Gate>(
    alloc: Global,
    opened: Frozen,
    up: Option<Frozen>,
    work: Work,
    rotation: Rotation,
    gate: &G,
) -> (Front, Result<Made, AllocError>)
    requires fits { FitsScript work.script }
    requires one { IsOneCall work }
    requires size { IsSizeWithin rotation }
    ensures made { IfOk result.1 (λ made. HasMade opened up work rotation result.0 made) }
    ensures stopped { OnErr result.1 (NotReached result.0 ⊎ Ran opened up work.script result.0) }
{
    let Ok(port) = reopened(alloc, &opened) else {
        return (Front::none(), Err(AllocError));
    };
    let running = Running {
        alloc,
        opened: &opened,
        up: up.as_ref(),
        work: &work,
        rotation,
        gate,
    };
    let (events, made) = running.run_over(port);
    (Front::of(opened, up, work.script, events), made)
}

impl<G: Gate> Running<'_, G> {
    // Runs the sessions over this port, which has no upstream yet, and over the upstream, if there is one. Gives up the port.
    fn run_over(&self, port: PlainPort<'_, NoUpstream>) -> (Events, Result<Made, AllocError>)
        requires at { IsOpenedAt (λ _. empty_state) empty_state self.now.opened.now.tables port }
        requires fits { FitsScript self.now.work.now.script }
        requires one { IsOneCall self.now.work.now }
        requires size { IsSizeWithin self.now.rotation }
        ensures size { result.0.start.size ≡ self.now.opened.now.tables.size }
        ensures counter { result.0.start.counter ≤ self.now.opened.now.tables.counter }
        ensures ok { IfOk result.1 (λ made. HasRunTo self.now.opened.now (upstream_state (option_copied self.now.up)) self.now.work.now self.now.rotation result.0.start result.0.seen made) }
        ensures err { OnErr result.1 (RunsScript self.now.work.now.script.sessions (upstream_state (option_copied self.now.up)) (primary self.now.opened.now.tables) result.0.start result.0.seen) }
    {
        match self.up {
            None => self.run(port),
            Some(up) => {
                up.seen();
                self.run(port.under(up))
            }
        }
    }

    // Runs the sessions over this port, whose upstream is the one that there is, if any.
    fn run<U: Upstream>(&self, mut port: PlainPort<'_, U>) -> (Events, Result<Made, AllocError>)
        requires at { IsOpenedAt U.state (upstream_state (option_copied self.now.up)) self.now.opened.now.tables port }
        requires digests { HasOwnDigests (upstream_state (option_copied self.now.up)) }
        requires fits { FitsScript self.now.work.now.script }
        requires one { IsOneCall self.now.work.now }
        requires size { IsSizeWithin self.now.rotation }
        ensures size { result.0.start.size ≡ self.now.opened.now.tables.size }
        ensures counter { result.0.start.counter ≤ self.now.opened.now.tables.counter }
        ensures ok { IfOk result.1 (λ made. HasRunTo self.now.opened.now (upstream_state (option_copied self.now.up)) self.now.work.now self.now.rotation result.0.start result.0.seen made) }
        ensures err { OnErr result.1 (RunsScript self.now.work.now.script.sessions (upstream_state (option_copied self.now.up)) (primary self.now.opened.now.tables) result.0.start result.0.seen) }
    {
        let made = self.run_sessions(&mut port);
        (port.into_events(), made)
    }

    // Runs the sessions over this port, and makes the output and the images of what it holds then.
    fn run_sessions<U: Upstream>(&self, port: &mut PlainPort<'_, U>) -> Result<Made, AllocError>
        requires at { IsOpenedAt U.state (upstream_state (option_copied self.now.up)) self.now.opened.now.tables port.old }
        requires digests { HasOwnDigests (upstream_state (option_copied self.now.up)) }
        requires fits { FitsScript self.now.work.now.script }
        requires one { IsOneCall self.now.work.now }
        requires size { IsSizeWithin self.now.rotation }
        ensures size { port.new.start.size ≡ self.now.opened.now.tables.size }
        ensures counter { port.new.start.counter ≤ self.now.opened.now.tables.counter }
        ensures ok { IfOk result (λ made. HasRunTo self.now.opened.now (upstream_state (option_copied self.now.up)) self.now.work.now self.now.rotation port.new.start port.new.seen made) }
        ensures err { OnErr result (RunsScript self.now.work.now.script.sessions (upstream_state (option_copied self.now.up)) (primary self.now.opened.now.tables) port.new.start port.new.seen) }
    {
        let replies = run_in_turn(self.alloc, port, self.up, &self.work.script, self.gate)?;
        let contents = port.contents()?;
        let full = full_seen(&replies);
        Ok(Made {
            output: output_of(self.alloc, self.work, &replies, &counts_of(&contents))?,
            images: images_due(self.alloc, self.opened, &contents, &self.rotation, full)?,
        })
    }
}

// A port at what a generation holds. What a region held fits into it again.
fn reopened(alloc: Global, opened: &Frozen) -> Result<PlainPort<'static, NoUpstream>, AllocError>
    ensures { IfOk result (λ port. IsOpenedAt (λ _. empty_state) empty_state opened.now.tables port) }
{
    opened.seen();
    let contents = opened.contents(alloc)?;
    match PlainPort::from_parts(alloc, &contents, opened.size()) {
        Ok(port) => Ok(port),
        Err(PortError::Full(_)) => unreachable!(),
        Err(PortError::Memory) => Err(AllocError),
    }
}
