//! What workers take of a room, and what they hand in.
ghost use Rattle.std.specs.{Prelude.{◌≡◌, ◌<◌, ◌≤◌, IfOk, IfSome, OnErr, Some, length, slice_get}, List.AllZip};
ghost use Rattle.metric_table.specs.{Limits.most, declared.limits.Limit.TheVariants.Machines};
ghost use Rattle.publication_index.specs.Standing.{table_for};
ghost use Rattle.track_state.specs.{Made.IsMadeFrom, Work.Work};
ghost use Rattle.track_room.specs.{Asked.ChangesAt, Claims.{all_placed, taken_with, EndsClaim, IsOf}, Rooms.{AreSame, IsPassOf}, Sights.{SeesMore, Sight, Visits}, Visits.IsFound, Taking.{HasJob, IsQuestion, IsTaken, OfSeen, Publishes, Releases, Settles, TakesFirst, TakesJob, TakesSeries}};

use crate::NoMemory;
use crate::act::Act;
use crate::claim::SeriesClaim;
use crate::machine::{MachineLock, MachinePass};
use crate::room::{Room, RoomPass};
use crate::take::Take;
use crate::taking::{OpenQuestion, Publishing, Releasing, Settling, StaleSeries};
use history_model::{Author, publication_law};
use std::alloc::Global;
use std::sync::Wait;
use touch_index::SeriesKey;
use track_state::{Published, Question, Redone, Settled, Snapshot, TakenSeries};

// Takes some work of the first machine that has some.
fn take_first<R: Wait, T: Take>(
    rt: &R,
    machines: &[MachineLock],
    passes: &mut [MachinePass],
) -> Result<Option<(u8, T::Taken)>, NoMemory>
    requires locks { IsPassOf machines.now passes.old }
    requires few { length machines.now ≤ most Machines }
    ensures locks { IsPassOf machines.now passes.new }
    ensures same { AreSame passes.old passes.new }
    ensures sees { AllZip SeesMore passes.old passes.new }
    ensures taken { IfOk result (λ found. TakesFirst T.takes found passes.old passes.new) }
    ensures known { IfOk result (λ found. IfSome found (λ t. OfSeen t.0 passes.new (T.knows t.1))) }
{
    for i in 0..machines.len() {
        if let Some(taken) = machines[i].take::<R, T>(rt, &mut passes[i])? {
            return Ok(Some((i as u8, taken)));
        }
    }
    Ok(None)
}

impl Room {
    // Enters the machine at a place, does this to the state that is found there, and leaves the machine again.
    fn visit<R: Wait, A: Act>(&self, rt: &R, pass: &mut RoomPass, machine: u8, act: A) -> A::Told
        requires room { IsPassOf self.now pass.old }
        requires there { machine < length pass.old }
        requires needs { (s : Sight) → slice_get pass.old machine ≡ Some s
            → (w : Work) → IsFound s w → A.needs act w }
        ensures room { IsPassOf self.now pass.new }
        ensures same { AreSame pass.old pass.new }
        ensures visits { ChangesAt machine (Visits (A.does act result)) pass.old pass.new }
    {
        let i = machine as usize;
        self.machines[i].visit(rt, &mut pass.machines[i], act)
    }

    /// Takes the first stale series that nobody claims, of the first machine that has one, and claims it. Enters each machine
    /// up to that one, and may wait for other passes.
    pub fn take_series<R: Wait>(
        &self,
        rt: &R,
        alloc: Global,
        pass: &mut RoomPass,
    ) -> Result<Option<(SeriesClaim, Snapshot)>, NoMemory>
        requires room { IsPassOf self.now pass.old }
        ensures room { IsPassOf self.now pass.new }
        ensures same { AreSame pass.old pass.new }
        ensures sees { AllZip SeesMore pass.old pass.new }
        ensures taken { IfOk result (λ found.
            TakesFirst TakesSeries (all_placed found) pass.old pass.new) }
        ensures known { IfOk result (λ found. IfSome found (λ t.
            OfSeen t.0.machine pass.new (λ h. IsTaken h (taken_with t)))) }
    {
        let _ = alloc;
        let machines = &mut pass.machines;
        let Some((machine, taken)) = take_first::<R, StaleSeries>(rt, &self.machines, machines)?
        else {
            return Ok(None);
        };
        let TakenSeries { key, snapshot } = taken;
        Ok(Some((SeriesClaim { machine, key }, snapshot)))
    }

    /// Publishes a segmentation of a series that was taken, made from what the pass has seen of its machine. The claim ends, also
    /// where there is no memory, unless a limit refused the segmentation and no entry touched the series since its version.
    /// May wait for other passes.
    pub fn publish<R: Wait>(
        &self,
        rt: &R,
        pass: &mut RoomPass,
        author: Author,
        claim: SeriesClaim,
        redone: Redone,
    ) -> Result<Published, NoMemory>
        requires room { IsPassOf self.now pass.old }
        requires claimed { IsOf claim.key redone.done }
        requires made { OfSeen claim.machine pass.old (λ h. IsMadeFrom h redone.done) }
        requires tabled { redone.table ≡ table_for redone.done }
        ensures room { IsPassOf self.now pass.new }
        ensures same { AreSame pass.old pass.new }
        ensures ok { IfOk result (λ told. ChangesAt claim.machine
            (Visits (Publishes author redone.done told)) pass.old pass.new) }
        ensures err { OnErr result (EndsClaim claim pass.old pass.new) }
    {
        let SeriesClaim { machine, key } = claim;
        match self.hand_in(rt, pass, author, machine, redone) {
            Ok(told) => Ok(told),
            Err(why) => {
                self.end_claim(rt, pass, machine, &key);
                Err(why)
            }
        }
    }

    /// Gives a series back that was taken: the claim on it ends. May wait for other passes; takes no memory.
    pub fn release<R: Wait>(&self, rt: &R, pass: &mut RoomPass, claim: SeriesClaim)
        requires room { IsPassOf self.now pass.old }
        requires there { claim.machine < length pass.old }
        ensures room { IsPassOf self.now pass.new }
        ensures same { AreSame pass.old pass.new }
        ensures sees { ChangesAt claim.machine SeesMore pass.old pass.new }
        ensures released { ChangesAt claim.machine (Visits (Releases claim.key)) pass.old pass.new }
    {
        let SeriesClaim { machine, key } = claim;
        self.end_claim(rt, pass, machine, &key);
    }

    // Publishes a segmentation that was made from what the pass has seen of a machine.
    fn hand_in<R: Wait>(
        &self,
        rt: &R,
        pass: &mut RoomPass,
        author: Author,
        machine: u8,
        redone: Redone,
    ) -> Result<Published, NoMemory>
        requires room { IsPassOf self.now pass.old }
        requires made { OfSeen machine pass.old (λ h. IsMadeFrom h redone.done) }
        requires tabled { redone.table ≡ table_for redone.done }
        ensures room { IsPassOf self.now pass.new }
        ensures same { AreSame pass.old pass.new }
        ensures ok { IfOk result (λ told. ChangesAt machine
            (Visits (Publishes author redone.done told)) pass.old pass.new) }
        ensures err { OnErr result (AllZip SeesMore pass.old pass.new) }
    {
        publication_law();
        let publishing = Publishing { author, redone };
        self.visit(rt, pass, machine, publishing)
    }

    // Ends the claim on a series of a machine, if there is one.
    fn end_claim<R: Wait>(&self, rt: &R, pass: &mut RoomPass, machine: u8, key: &SeriesKey)
        requires room { IsPassOf self.now pass.old }
        requires there { machine < length pass.old }
        ensures room { IsPassOf self.now pass.new }
        ensures same { AreSame pass.old pass.new }
        ensures sees { ChangesAt machine SeesMore pass.old pass.new }
        ensures released { ChangesAt machine (Visits (Releases key.now)) pass.old pass.new }
    {
        self.visit(rt, pass, machine, Releasing { key });
    }

    /// Takes the question of the open job of the smallest number that nobody claims, of the first machine that has one, with
    /// the machine's place from 0. Enters each machine up to that one, and may wait for other passes.
    pub fn take_question<R: Wait>(
        &self,
        rt: &R,
        alloc: Global,
        pass: &mut RoomPass,
    ) -> Result<Option<(u8, Question)>, NoMemory>
        requires room { IsPassOf self.now pass.old }
        ensures room { IsPassOf self.now pass.new }
        ensures same { AreSame pass.old pass.new }
        ensures sees { AllZip SeesMore pass.old pass.new }
        ensures taken { IfOk result (λ found. TakesFirst TakesJob found pass.old pass.new) }
        ensures known { IfOk result (λ found. IfSome found (λ t.
            OfSeen t.0 pass.new (λ h. IsQuestion h t.1))) }
    {
        let _ = alloc;
        take_first::<R, OpenQuestion>(rt, &self.machines, &mut pass.machines)
    }

    /// Settles what was said of a place of a job that the pass has seen; none as status gives it up. May wait for other
    /// passes.
    pub fn settle<R: Wait>(
        &self,
        rt: &R,
        pass: &mut RoomPass,
        author: Author,
        machine: u8,
        question: &Question,
        status: Option<u8>,
    ) -> Result<Settled, NoMemory>
        requires room { IsPassOf self.now pass.old }
        requires job { OfSeen machine pass.old (HasJob question.now.job) }
        ensures room { IsPassOf self.now pass.new }
        ensures same { AreSame pass.old pass.new }
        ensures ok { IfOk result (λ told. ChangesAt machine
            (Visits (Settles author question.now status told)) pass.old pass.new) }
        ensures err { OnErr result (AllZip SeesMore pass.old pass.new) }
    {
        let settling = Settling {
            author,
            question,
            status,
        };
        self.visit(rt, pass, machine, settling)
    }
}
