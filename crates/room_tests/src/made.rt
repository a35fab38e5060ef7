//! Machines and rooms that the tests begin with, what is asked of a room, and what both come to.
ghost use Rattle.std.specs.Prelude.{◌≤◌, IfSome, length};
ghost use Rattle.metric_table.specs.{Limits.most, declared.limits.Limit.TheVariants.Machines};
ghost use Rattle.track_room.specs.Rooms.{IsFirst, IsPassOf};

use history_model::Author;
use journal_text::write_journals;
use keep_rows::{Loaded, load};
use line_text::Names;
use machine_state::MachineState;
use request_model::{Answer, Refusal, Reply, Request};
use request_words::{Head, item_of, read_head};
use std::alloc::Global;
use std::sync::Wait;
use track_outside::{Keeper, MemKeeper, MemSink};
use track_room::{Room, RoomPass, leave_each, unclaimed};
use track_state::TrackState;

/// The rows of a machine of one commit.
pub const DECLARED: &[&str] = &["machine m", "entry m commit 1 a"];

/// The rows of a machine of four commits, with runs at three of them: 8 entries, and a series that is stale.
pub const MEASURED: &[&str] = &[
    "machine m",
    "entry m commit 10 a",
    "entry m commit 20 b",
    "entry m commit 30 c",
    "entry m commit 40 d",
    "entry m tune B/op 50",
    "entry m accept r1 10 1 X B/op 0",
    "entry m accept r2 20 1 X B/op 0",
    "entry m accept r4 40 1 X B/op 10",
];

/// The rows of a machine of three commits, of which the last is bisected from the first: 4 entries, and a job that asks `c1`.
pub const BISECTED: &[&str] = &[
    "machine m",
    "entry m commit 0 c0",
    "entry m commit 1 c1",
    "entry m commit 2 c2",
    "entry m begin 0 2",
];

/// The machines of these rows.
pub fn machines(alloc: Global, rows: &[&str]) -> Option<Vec<MachineState>>
    ensures { IfSome result (λ states. length states.items ≤ most Machines) }
{
    match MemKeeper::new(alloc, &[]) {
        Ok(mut keeper) => loaded(alloc, &mut keeper, rows),
        Err(_) => None,
    }
}

fn loaded<K: Keeper>(alloc: Global, keeper: &mut K, rows: &[&str]) -> Option<Vec<MachineState>>
    ensures { IfSome result (λ states. length states.items ≤ most Machines) }
{
    for row in rows {
        if !put_row(alloc, keeper, row) {
            return None;
        }
    }
    match load(alloc, keeper, "rows") {
        Ok(Loaded { states, .. }) => Some(states),
        Err(_) => None,
    }
}

fn put_row<K: Keeper>(alloc: Global, keeper: &mut K, row: &str) -> bool {
    match Vec::from_slice(alloc, row.as_bytes()) {
        Ok(bytes) => keeper.append(alloc, &[bytes]).is_ok(),
        Err(_) => false,
    }
}

/// The machine of these rows.
pub fn machine_of(alloc: Global, rows: &[&str]) -> Option<MachineState> {
    match machines(alloc, rows) {
        Some(mut states) => states.pop(),
        None => None,
    }
}

/// The machine of these rows, of which nothing is claimed.
pub fn state_of(alloc: Global, rows: &[&str]) -> Option<TrackState> {
    match machine_of(alloc, rows) {
        Some(track) => Some(TrackState::of(track)),
        None => None,
    }
}

/// A room of the machine of these rows, and its first pass.
pub fn room_of(alloc: Global, rows: &[&str]) -> Option<(Room, RoomPass)>
    ensures { IfSome result (λ made. IsPassOf made.0 made.1 × IsFirst made.1) }
{
    match machines(alloc, rows) {
        Some(states) => room_of_machines(alloc, states),
        None => None,
    }
}

fn room_of_machines(alloc: Global, machines: Vec<MachineState>) -> Option<(Room, RoomPass)>
    requires { length machines.items ≤ most Machines }
    ensures { IfSome result (λ made. IsPassOf made.0 made.1 × IsFirst made.1) }
{
    match unclaimed(alloc, machines) {
        Ok(states) => room_with(alloc, states),
        Err(_) => None,
    }
}

fn room_with(alloc: Global, states: Vec<TrackState>) -> Option<(Room, RoomPass)>
    requires { length states.items ≤ most Machines }
    ensures { IfSome result (λ made. IsPassOf made.0 made.1 × IsFirst made.1) }
{
    match Room::new(alloc, states) {
        Ok(made) => Some(made),
        Err(_) => None,
    }
}

/// The machines of some states.
pub fn left_by(alloc: Global, states: Vec<TrackState>) -> Option<Vec<MachineState>> {
    match Vec::with_capacity(alloc, states.len()) {
        Ok(mut left) => {
            leave_each(states, &mut left);
            Some(left)
        }
        Err(_) => None,
    }
}

/// Whether the journals of these end so.
pub fn states_end(alloc: Global, states: Vec<TrackState>, end: &str) -> bool {
    match left_by(alloc, states) {
        Some(left) => journals_end(alloc, &left, end),
        None => false,
    }
}

/// Whether the journals of machines end so.
pub fn journals_end(alloc: Global, states: &[MachineState], end: &str) -> bool {
    match MemSink::new(alloc, 100_000, &[]) {
        Ok(mut out) => {
            write_journals(alloc, states, &mut out).is_ok() && out.bytes().ends_with(end.as_bytes())
        }
        Err(_) => false,
    }
}

/// Whether the journals of a room's machines end so, by what a pass has seen.
pub fn leaves(alloc: Global, room: Room, pass: RoomPass, end: &str) -> bool
    requires { IsPassOf room pass }
{
    match room.close(alloc, pass) {
        Ok(states) => states_end(alloc, states, end),
        Err(_) => false,
    }
}

/// What an answer says.
#[derive(Clone, Copy, PartialEq, Eq)]
pub enum Kind {
    /// The commit is new.
    New,
    /// The commit or the run was there.
    There,
    /// The run was accepted.
    Accepted,
    /// The series was segmented at this version, and from this base.
    Segmented(u64, u64),
    /// This later version was published meanwhile.
    Stale(u64),
    /// The machine isn't in the room.
    Unknown,
    /// Machines aren't declared in a room.
    OnlyAlone,
    /// Something else.
    Other,
}

/// What a script is told: the step of the reply, and what it says.
#[derive(Clone, Copy, PartialEq, Eq)]
pub struct Told {
    pub step: u64,
    pub kind: Kind,
}

fn kind_of(answer: &Answer) -> Kind {
    match answer {
        Answer::Commit { .. } => Kind::New,
        Answer::Duplicate { .. } => Kind::There,
        Answer::Accepted { .. } => Kind::Accepted,
        Answer::Segmented { version, base, .. } => Kind::Segmented(*version, *base),
        Answer::Refused(Refusal::Stale(version)) => Kind::Stale(*version),
        Answer::Refused(Refusal::UnknownMachine) => Kind::Unknown,
        Answer::Refused(Refusal::OnlyAlone) => Kind::OnlyAlone,
        _ => Kind::Other,
    }
}

fn told_by(reply: &Reply) -> Told {
    Told {
        step: reply.step,
        kind: kind_of(&reply.answer),
    }
}

/// What was told in this step.
pub fn is_told(step: u64, kind: Kind) -> Option<Told> {
    Some(Told { step, kind })
}

/// Asks the request of a line and its body as a script, and tells what it is told; none where it is no request.
pub fn asked<R: Wait>(
    rt: &R,
    alloc: Global,
    room: &Room,
    pass: &mut RoomPass,
    script: u8,
    line: &str,
    body: &str,
) -> Option<Told>
    requires { IsPassOf room.now pass.old }
    ensures room { IsPassOf room.now pass.new }
    ensures first { IsFirst pass.old → IsFirst pass.new }
{
    match request_of(alloc, line, body) {
        Some(request) => answered(rt, alloc, room, pass, script, &request),
        None => None,
    }
}

fn answered<R: Wait>(
    rt: &R,
    alloc: Global,
    room: &Room,
    pass: &mut RoomPass,
    script: u8,
    request: &Request,
) -> Option<Told>
    requires { IsPassOf room.now pass.old }
    ensures room { IsPassOf room.now pass.new }
    ensures first { IsFirst pass.old → IsFirst pass.new }
{
    match room.ask(rt, alloc, pass, Author::Script(script), request) {
        Ok(reply) => Some(told_by(&reply)),
        Err(_) => None,
    }
}

fn request_of(alloc: Global, line: &str, body: &str) -> Option<Request> {
    let mut names = Names::new(alloc, 16);
    match read_head(alloc, &mut names, line.as_bytes()) {
        Ok(head) => asked_with(alloc, &mut names, head, body),
        Err(_) => None,
    }
}

fn asked_with(alloc: Global, names: &mut Names, head: Head, body: &str) -> Option<Request> {
    match item_of(alloc, names, head, body.as_bytes()) {
        Ok(Ok(request)) => Some(request),
        _ => None,
    }
}
