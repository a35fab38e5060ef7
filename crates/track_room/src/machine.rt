//! One machine's lock, and the passes of it.
ghost use Rattle.std.specs.Prelude.{◌≡◌, ◌≢◌, ◌≤◌, ◌-◌, ◌^◌, ◌↔◌, IfOk, IfErr, OnOk, OnErr, IsErr, IsOkAnd, bytes_eq};
ghost use Rattle.history_lock.specs.Marks.{HaveMarksUpTo};
ghost use Rattle.track_state.specs.Work.{Work};
ghost use Rattle.track_room.specs.{Sights.{IsFirstOf, IsWholeSight, Ends, EndsWhole, Joins, Visits, splitting, split_off}, Visits.IsFound};

use crate::NoMemory;
use crate::act::Act;
use crate::guarded::Guarded;
use history_lock::{HistoryLock, InUse, Pass};
use line_text::{Duplicate, Name};
use std::alloc::Global;
use std::marker::Model;
use std::sync::Wait;
use track_state::TrackState;

/// A machine's state under its lock, with the machine's name. Contracts see the lock and the name.
#[derive(Drop)]
pub struct MachineLock {
    pub(crate) lock: HistoryLock<Guarded>,
    pub(crate) machine: Name,
}

impl Model for MachineLock {
    ghost use Rattle.track_room.specs.Sights.{Home};

    ghost Value = { Home };

    ghost use Rattle.history_lock.specs.Passes.{identity};

    ghost view = { λ m. record { lock = identity m.lock; machine = m.machine } };
}

/// A pass of a machine's lock. Contracts see what it knows.
#[derive(Drop)]
pub struct MachinePass {
    pub(crate) pass: Pass<Guarded>,
}

impl Model for MachinePass {
    ghost use Rattle.track_room.specs.Sights.{Sight};

    ghost Value = { Sight };

    ghost use Rattle.track_room.specs.Inside.{IsAtRest, sight_of};

    ghost view = { λ m. sight_of m.pass };

    ghost invariant = { λ m. IsAtRest m.pass };
}

impl MachineLock {
    // The machine under a lock of its own, and the lock's first pass.
    pub(crate) fn new(
        alloc: Global,
        work: TrackState,
    ) -> Result<(MachineLock, MachinePass), NoMemory>
        ensures { IfOk result (λ made. (made.1.home ≡ made.0) × IsFirstOf work.track made.1) }
    {
        let machine = work.machine().copy(alloc)?;
        let (lock, pass) = HistoryLock::new(alloc, Guarded { work })?;
        Ok((MachineLock { lock, machine }, MachinePass { pass }))
    }

    // Whether the machine has this name.
    pub(crate) fn is_of(&self, machine: &Name) -> bool
        ensures { result ≡ bytes_eq self.now.machine machine.now }
    {
        self.machine == *machine
    }

    // Splits a pass off the first one.
    pub(crate) fn split(
        &self,
        alloc: Global,
        pass: &mut MachinePass,
    ) -> Result<MachinePass, NoMemory>
        requires lock { pass.old.home ≡ self.now }
        requires first { pass.old.mark ≡ 0 }
        ensures ok { IfOk result (λ other. (other ≡ split_off pass.old)
            × HaveMarksUpTo pass.old.given pass.old.seen) }
        ensures pass { OnOk result (pass.new ≡ splitting pass.old) }
        ensures full { IsErr result ↔ (2 ^ 64 - 2 ≤ pass.old.given) }
        ensures err { OnErr result (pass.new ≡ pass.old) }
    {
        let other = self.lock.split(alloc, &mut pass.pass)?;
        Ok(MachinePass { pass: other })
    }

    // Joins a pass into the first one.
    pub(crate) fn join(&self, pass: &mut MachinePass, other: MachinePass)
        requires lock { (pass.old.home ≡ self.now) × (other.home ≡ self.now) }
        requires first { pass.old.mark ≡ 0 }
        ensures { Joins pass.old other pass.new }
    {
        let MachinePass { pass: other } = other;
        self.lock.join(&mut pass.pass, other);
    }

    // Enters the lock, does this to the state that is found there, and leaves the lock again.
    pub(crate) fn visit<R: Wait, A: Act>(&self, rt: &R, pass: &mut MachinePass, act: A) -> A::Told
        requires lock { pass.old.home ≡ self.now }
        requires needs { (w : Work) → IsFound pass.old w → A.needs act w }
        ensures { Visits (A.does act result) pass.old pass.new }
    {
        let seat = &mut pass.pass;
        let mut state = self.lock.enter(rt, seat);
        let told = act.act(&mut state.work);
        self.lock.leave(seat, state);
        told
    }

    // Ends the lock, and gives the machine.
    pub(crate) fn close(self, pass: MachinePass) -> Result<TrackState, InUse>
        requires lock { pass.home ≡ self }
        ensures ok { IfOk result (λ work. Ends pass work.track) }
        ensures err { IfErr result (λ why. why.ticket ≢ why.serving) }
        ensures whole { IsWholeSight pass → IsOkAnd result (λ work. EndsWhole pass work.track) }
    {
        let MachinePass { pass } = pass;
        let MachineLock { lock, machine } = self;
        drop(machine);
        match lock.close(pass) {
            Ok(Guarded { work }) => Ok(work),
            Err(why) => Err(why),
        }
    }
}
