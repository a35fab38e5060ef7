//! The calls of machines, their stores, and machines that threads share, named once with their types: see the crate
//! `stated_calls`. Where a call has type parameters it is called under its own conditions.
ghost use Rattle.std.specs.Prelude.{◌≡◌, ◌<◌, ◌⊎◌, Some, length};
ghost use Rattle.history_lock.specs.Passes.{label, IsFirst, IsPassOf, IsOutside, IsInside, MayLeave};
ghost use Rattle.machine_state.specs.Made.{IsMadeFrom};
ghost use Rattle.publication_index.specs.Standing.{table_for};
ghost use Rattle.track_room.specs.Claims.{IsOf};
ghost use Rattle.track_room.specs.Rooms as rooms;
ghost use Rattle.track_room.specs.Taking.{HasJob, OfSeen};

use bisect_core::Outcome;
use bisect_workers::{bisect, bisect_last};
use history_lock::{Historied, HistoryLock, InUse, Pass};
use keep_rows::{AppendFault, LoadFault, Loaded, append_all, load};
use line_text::{Name, NoMemory};
use machine_state::MachineState;
use metric_table::Limit;
use pelt_core::{Steps, Table};
use point_list::FrozenPoints;
use recompute_workers::{recompute, recompute_last};
use segment_cost::{Done, Square};
use std::alloc::Global;
use std::sync::Wait;
use std::sync::ledger::Ledger;
use track_outside::{Gate, Keeper, Runner};
use track_room::{CloseFault, Ended, Room, RoomPass, SeriesClaim, leave_each, unclaimed};
use track_series::compute;
use track_state::{
    Answer, Author, Entry, NamedChange, Placed, Published, Question, RangePlace, Redone, Refusal,
    Reply, Request, RunLine, Settled, Snapshot, TakenSeries, TrackState,
};

fn answers(
    answer: Answer,
    change: NamedChange,
    place: RangePlace,
    refusal: Refusal,
    line: RunLine,
) {
    let _ = (answer, change, place, refusal, line);
}

fn states() {
    let _: fn(Global, Name, bool) -> TrackState = TrackState::new;
    let _: fn(&mut TrackState, Entry) -> Result<bool, NoMemory> = TrackState::replay;
    let _: fn(&mut TrackState, Author, &Request) -> Result<Reply, NoMemory> = TrackState::step;
    let _: fn(&mut TrackState, &Name, &Name) -> Result<Option<Snapshot>, NoMemory> =
        TrackState::snapshot;
    let _: fn(&mut TrackState, Author, Done, Table<Square>) -> Result<Published, NoMemory> =
        TrackState::publish;
    let _: fn(&mut TrackState) -> Result<Option<TakenSeries>, NoMemory> =
        TrackState::next_stale_series;
    let _: fn(&mut TrackState) = TrackState::end_claims;
    let _: fn(&mut TrackState) -> Result<Option<Question>, NoMemory> = TrackState::next_question;
    let _: fn(&mut TrackState, Author, &Question, Option<u8>) -> Result<Settled, NoMemory> =
        TrackState::settle;
    let _: fn(&TrackState) -> u64 = TrackState::len;
    let _: fn(&TrackState) -> bool = TrackState::was_kept;
}

fn told() {
    let _: [Published; 3] = [
        Published::Ok(1),
        Published::Stale(1),
        Published::Full(Limit::Cuts),
    ];
    let _: [Settled; 4] = [
        Settled::Recorded(1),
        Settled::NotAsked(1),
        Settled::Closed(Outcome::Asks(1)),
        Settled::Full,
    ];
    let _: [LoadFault; 3] = [
        LoadFault::KeepFault,
        LoadFault::BadRow(1),
        LoadFault::NoMemory,
    ];
    let _: [AppendFault; 2] = [AppendFault::KeepFault, AppendFault::NoMemory];
    let _: [CloseFault; 2] = [
        CloseFault::InUse {
            machine: 0,
            ticket: 1,
            serving: 0,
        },
        CloseFault::NoMemory,
    ];
    let _: InUse = InUse {
        ticket: 1,
        serving: 0,
    };
}

fn snapshot(
    snapshot: Snapshot,
) -> (
    Name,
    Name,
    u64,
    i128,
    u8,
    u64,
    FrozenPoints,
    FrozenPoints,
    Option<Table<Square>>,
) {
    (
        snapshot.test,
        snapshot.metric,
        snapshot.version,
        snapshot.penalty,
        snapshot.length,
        snapshot.base,
        snapshot.points,
        snapshot.old,
        snapshot.table,
    )
}

fn made(redone: Redone) -> (Done, Table<Square>) {
    (redone.done, redone.table)
}

fn asks(question: Question) -> (u64, u64, Name) {
    (question.job, question.place, question.commit)
}

fn taken(taken: TakenSeries) -> (Name, Name, Snapshot) {
    (taken.key.test, taken.key.metric, taken.snapshot)
}

fn kept(loaded: Loaded) -> (Vec<MachineState>, u8) {
    (loaded.states, loaded.version)
}

fn machine(state: &TrackState) -> &Name {
    state.machine()
}

fn entry(state: &TrackState) -> Option<&Placed> {
    state.entry(1)
}

fn release(state: &mut TrackState, taken: &TakenSeries) {
    state.release(&taken.key);
}

fn loaded<K: Keeper>(alloc: Global, keeper: &mut K, name: &str) -> Result<Loaded, LoadFault> {
    load(alloc, keeper, name)
}

fn appended<K: Keeper>(
    alloc: Global,
    keeper: &mut K,
    states: &[MachineState],
    version: u8,
) -> Result<(), AppendFault> {
    append_all(alloc, keeper, states, version)
}

fn lock<S: Historied>(alloc: Global, state: S) -> Result<(HistoryLock<S>, Pass<S>), NoMemory> {
    HistoryLock::new(alloc, state)
}

fn entered<S: Historied, R: Wait>(lock: &HistoryLock<S>, rt: &R, pass: &mut Pass<S>) -> S
    requires lock { IsPassOf lock.now pass.old }
    requires outside { IsOutside pass.old }
{
    lock.enter(rt, pass)
}

fn left<S: Historied>(lock: &HistoryLock<S>, pass: &mut Pass<S>, state: S)
    requires lock { IsPassOf lock.now pass.old }
    requires inside { IsInside pass.old }
    requires label { label pass.old ≡ Some (S.label state) }
    requires history { MayLeave (S.history state) pass.old }
{
    lock.leave(pass, state);
}

fn split<S: Historied>(
    lock: &HistoryLock<S>,
    alloc: Global,
    pass: &mut Pass<S>,
) -> Result<Pass<S>, NoMemory>
    requires lock { IsPassOf lock.now pass.old }
    requires first { IsFirst pass.old × IsOutside pass.old }
{
    lock.split(alloc, pass)
}

fn joined<S: Historied>(lock: &HistoryLock<S>, pass: &mut Pass<S>, other: Pass<S>)
    requires lock { IsPassOf lock.now pass.old × IsPassOf lock.now other }
    requires first { IsFirst pass.old × IsOutside pass.old }
    requires other { IsOutside other }
{
    lock.join(pass, other);
}

fn closed<S: Historied>(lock: HistoryLock<S>, pass: Pass<S>) -> Result<S, InUse>
    requires lock { IsPassOf lock pass }
    requires pass { IsOutside pass ⊎ IsInside pass }
{
    lock.close(pass)
}

fn rooms() {
    let _: fn(Global, Vec<TrackState>) -> Result<(Room, RoomPass), NoMemory> = Room::new;
    let _: fn(&Room, Global, &mut RoomPass) -> Result<RoomPass, NoMemory> = Room::split;
    let _: fn(&Room, &mut RoomPass, RoomPass) = Room::join;
    let _: fn(Room, Global, RoomPass) -> Result<Vec<TrackState>, CloseFault> = Room::close;
    let _: fn(Global, Vec<MachineState>) -> Result<Vec<TrackState>, NoMemory> = unclaimed;
    let _: fn(Vec<TrackState>, &mut Vec<MachineState>) = leave_each;
}

fn asked<R: Wait>(
    room: &Room,
    rt: &R,
    alloc: Global,
    pass: &mut RoomPass,
    author: Author,
    request: &Request,
) -> Result<Reply, NoMemory>
    requires room { rooms.IsPassOf room.now pass.old }
{
    room.ask(rt, alloc, pass, author, request)
}

fn series<R: Wait>(
    room: &Room,
    rt: &R,
    alloc: Global,
    pass: &mut RoomPass,
) -> Result<Option<(SeriesClaim, Snapshot)>, NoMemory>
    requires room { rooms.IsPassOf room.now pass.old }
{
    room.take_series(rt, alloc, pass)
}

fn published<R: Wait>(
    room: &Room,
    rt: &R,
    pass: &mut RoomPass,
    author: Author,
    claim: SeriesClaim,
    redone: Redone,
) -> Result<Published, NoMemory>
    requires room { rooms.IsPassOf room.now pass.old }
    requires claimed { IsOf claim.key redone.done }
    requires made { OfSeen claim.machine pass.old (λ h. IsMadeFrom h redone.done) }
    requires tabled { redone.table ≡ table_for redone.done }
{
    room.publish(rt, pass, author, claim, redone)
}

fn released<R: Wait>(room: &Room, rt: &R, pass: &mut RoomPass, claim: SeriesClaim)
    requires room { rooms.IsPassOf room.now pass.old }
    requires there { claim.machine < length pass.old }
{
    room.release(rt, pass, claim);
}

fn question<R: Wait>(
    room: &Room,
    rt: &R,
    alloc: Global,
    pass: &mut RoomPass,
) -> Result<Option<(u8, Question)>, NoMemory>
    requires room { rooms.IsPassOf room.now pass.old }
{
    room.take_question(rt, alloc, pass)
}

fn settled<R: Wait>(
    room: &Room,
    rt: &R,
    pass: &mut RoomPass,
    author: Author,
    machine: u8,
    question: &Question,
    status: Option<u8>,
) -> Result<Settled, NoMemory>
    requires room { rooms.IsPassOf room.now pass.old }
    requires job { OfSeen machine pass.old (HasJob question.now.job) }
{
    room.settle(rt, pass, author, machine, question, status)
}

fn computed<L: Ledger>(
    alloc: Global,
    snapshot: Snapshot,
    steps: &mut Steps<L>,
) -> Result<Redone, NoMemory> {
    compute(alloc, snapshot, steps)
}

fn recomputes<R: Wait, G: Gate>(
    rt: &R,
    alloc: Global,
    room: &Room,
    pass: &mut RoomPass,
    number: u8,
    ended: &Ended,
    gate: &G,
) -> Result<(), NoMemory>
    requires { rooms.IsPassOf room.now pass.old }
{
    recompute(rt, alloc, room, pass, number, ended, gate)
}

fn bisects<R: Wait, N: Runner, G: Gate>(
    rt: &R,
    alloc: Global,
    room: &Room,
    pass: &mut RoomPass,
    number: u8,
    test: &str,
    runner: &mut N,
    ended: &Ended,
    gate: &G,
) -> Result<(), NoMemory>
    requires { rooms.IsPassOf room.now pass.old }
{
    bisect(rt, alloc, room, pass, number, test, runner, ended, gate)
}

fn bisects_last<N: Runner>(
    alloc: Global,
    state: &mut TrackState,
    test: &str,
    runner: &mut N,
) -> Result<(), NoMemory> {
    bisect_last(alloc, state, test, runner)
}

fn lasts() {
    let _: fn(Global, &mut TrackState) -> Result<(), NoMemory> = recompute_last;
    let _: fn() -> Ended = Ended::new;
    let _: fn(&Ended) = Ended::set;
    let _: fn(&Ended) -> bool = Ended::is_set;
}
