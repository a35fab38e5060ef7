//! Scripts that share a machine, one after another and at once.
ghost use Rattle.std.specs.Prelude.{◌≡◌};
ghost use Rattle.track_room.specs.Rooms.{IsFirst, IsPassOf};

use crate::made::{DECLARED, Kind, Told, asked, is_told, leaves, room_of};
use history_model::Author;
use side_by_side::{Job, run_at_once};
use std::alloc::Global;
use std::sync::Wait;
use std::thread::Threads;
use track_room::{Room, RoomPass};
use track_state::TrackState;

// Two scripts that declare one commit, one after the other: the second is told that it is there. A machine that isn't in
// the room is unknown, and none is declared.
fn one_after_another<R: Wait>(
    rt: &R,
    alloc: Global,
    room: &Room,
    one: &mut RoomPass,
    two: &mut RoomPass,
) -> bool
    requires one { IsPassOf room.now one.old × IsFirst one.old }
    requires two { IsPassOf room.now two.old }
    ensures one { IsPassOf room.now one.new × IsFirst one.new }
    ensures two { IsPassOf room.now two.new }
{
    let new = asked(rt, alloc, room, one, 1, "commit m 2 b", "");
    let there = asked(rt, alloc, room, two, 2, "commit m 2 b", "");
    let unknown = asked(rt, alloc, room, two, 2, "commit q 2 b", "");
    let alone = asked(rt, alloc, room, two, 2, "machine m", "");
    new == is_told(2, Kind::New)
        && there == is_told(2, Kind::There)
        && unknown == is_told(0, Kind::Unknown)
        && alone == is_told(0, Kind::OnlyAlone)
}

fn declares_beside<R: Wait>(rt: &R, alloc: Global, room: &Room, first: &mut RoomPass) -> bool
    requires { IsPassOf room.now first.old × IsFirst first.old }
    ensures { IsPassOf room.now first.new × IsFirst first.new }
{
    match room.split(alloc, first) {
        Ok(mut second) => {
            let told = one_after_another(rt, alloc, room, first, &mut second);
            room.join(first, second);
            told
        }
        Err(_) => false,
    }
}

fn declares_once<R: Wait>(rt: &R, alloc: Global) -> bool {
    match room_of(alloc, DECLARED) {
        Some((room, mut first)) => {
            let told = declares_beside(rt, alloc, &room, &mut first);
            let left = leaves(
                alloc,
                room,
                first,
                "machine m steps 2\n1 k commit 1 a\n2 s1 commit 2 b\n",
            );
            told && left
        }
        None => false,
    }
}

#[test]
fn a_commit_is_declared_once(rt: HostRuntime) {
    assert!(rt; declares_once(&rt, rt.alloc()));
}

// What a script was told: how many runs were accepted, how many segmentations were published or came too late, and
// whether each request was answered, and each reply named no fewer entries than the one before it.
#[derive(Clone, Copy)]
struct Tally {
    accepted: u64,
    published: u64,
    stale: u64,
    rising: bool,
    step: u64,
}

// Counts what was told.
fn count_told(tally: &mut Tally, told: Option<Told>) {
    let Some(told) = told else {
        tally.rising = false;
        return;
    };
    tally.rising = tally.rising && tally.step <= told.step;
    tally.step = told.step;
    match told.kind {
        Kind::Accepted => tally.accepted = tally.accepted.wrapping_add(1),
        Kind::Segmented(_, _) => tally.published = tally.published.wrapping_add(1),
        Kind::Stale(_) => tally.stale = tally.stale.wrapping_add(1),
        _ => {}
    }
}

const EVEN: &str = "BenchmarkX 1 2 B/op\n";

const ODD: &str = "BenchmarkX 1 3 B/op\n";

// `submit` of a script's k-th run.
fn submitted<R: Wait>(
    rt: &R,
    alloc: Global,
    room: &Room,
    pass: &mut RoomPass,
    script: u8,
    k: u8,
) -> Option<Told>
    requires { IsPassOf room.now pass.old }
    ensures room { IsPassOf room.now pass.new }
    ensures first { IsFirst pass.old → IsFirst pass.new }
{
    let body = if k % 2 == 0 { EVEN } else { ODD };
    match format!(in alloc; "submit go m a r{script}_{k} 20") {
        Ok(line) => asked(rt, alloc, room, pass, script, line.as_str(), body),
        Err(_) => None,
    }
}

// A script of 200 submissions, with a segmentation after each ten, at a room.
#[derive(Drop)]
struct Script<'a> {
    alloc: Global,
    room: &'a Room,
    pass: RoomPass,
    number: u8,
    tally: Tally,
}

impl<'a, R: Wait> Job<R> for Script<'a> {
    ghost use Rattle.std.specs.Prelude.{⊤};
    ghost use Rattle.track_room.specs.Rooms.{IsPassOf};

    ghost can_run = { λ s. IsPassOf s.room.now s.pass };

    ghost comes_to = { λ _ _. ⊤ };

    fn run(&mut self, rt: &R) {
        ask_all(
            rt,
            self.alloc,
            self.room,
            &mut self.pass,
            self.number,
            &mut self.tally,
        );
    }
}

fn ask_all<R: Wait>(
    rt: &R,
    alloc: Global,
    room: &Room,
    pass: &mut RoomPass,
    number: u8,
    tally: &mut Tally,
)
    requires { IsPassOf room.now pass.old }
    ensures { IsPassOf room.now pass.new }
{
    for k in 0..200 {
        let told = submitted(rt, alloc, room, pass, number, k);
        count_told(tally, told);
        if k % 10 == 9 {
            let told = asked(rt, alloc, room, pass, number, "segment m X B/op", "");
            count_told(tally, told);
        }
    }
}

fn seated(alloc: Global, room: &Room, pass: RoomPass, number: u8) -> Script<'_>
    ensures { (result.room.now ≡ room.now) × (result.pass ≡ pass) }
{
    Script {
        alloc,
        room,
        pass,
        number,
        tally: NOTHING,
    }
}

const NOTHING: Tally = Tally {
    accepted: 0,
    published: 0,
    stale: 0,
    rising: true,
    step: 0,
};

// Runs two scripts at once.
fn at_once<R: Threads + Wait + Sync>(
    rt: &R,
    alloc: Global,
    room: &Room,
    one: RoomPass,
    two: RoomPass,
) -> (Tally, Tally)
    requires one { IsPassOf room.now one }
    requires two { IsPassOf room.now two }
{
    let mut scripts = [seated(alloc, room, one, 1), seated(alloc, room, two, 2)];
    run_at_once(rt, &mut scripts);
    (scripts[0].tally, scripts[1].tally)
}

fn beside_another<R: Threads + Wait + Sync>(
    rt: &R,
    alloc: Global,
    room: &Room,
    first: &mut RoomPass,
    one: RoomPass,
) -> Option<(Tally, Tally)>
    requires first { IsPassOf room.now first.old × IsFirst first.old }
    requires one { IsPassOf room.now one }
    ensures { IsPassOf room.now first.new }
{
    match room.split(alloc, first) {
        Ok(two) => Some(at_once(rt, alloc, room, one, two)),
        Err(_) => None,
    }
}

fn both<R: Threads + Wait + Sync>(
    rt: &R,
    alloc: Global,
    room: &Room,
    first: &mut RoomPass,
) -> Option<(Tally, Tally)>
    requires { IsPassOf room.now first.old × IsFirst first.old }
    ensures { IsPassOf room.now first.new }
{
    match room.split(alloc, first) {
        Ok(one) => beside_another(rt, alloc, room, first, one),
        Err(_) => None,
    }
}

fn side_by_side<R: Threads + Wait + Sync>(rt: &R, alloc: Global) -> bool {
    match room_of(alloc, DECLARED) {
        Some((room, mut first)) => {
            let told = both(rt, alloc, &room, &mut first);
            agree(alloc, room, first, told)
        }
        None => false,
    }
}

fn agree(alloc: Global, room: Room, first: RoomPass, told: Option<(Tally, Tally)>) -> bool
    requires { IsPassOf room first }
{
    match (room.close(alloc, first), told) {
        (Ok(states), Some((a, b))) => has_both(&states, &a, &b),
        _ => false,
    }
}

// Whether the machine has what both scripts were told, behind the commit.
fn has_both(states: &[TrackState], a: &Tally, b: &Tally) -> bool {
    match states {
        [state] => {
            has_all(state, Author::Script(1), a)
                && has_all(state, Author::Script(2), b)
                && state.len() == made(a).wrapping_add(made(b)).wrapping_add(1)
        }
        _ => false,
    }
}

// How many entries a script made, by what it was told.
fn made(tally: &Tally) -> u64 {
    tally.accepted.wrapping_add(tally.published)
}

// Whether a script was answered all it asked, and so many entries are its own.
fn has_all(state: &TrackState, author: Author, tally: &Tally) -> bool {
    tally.accepted == 200
        && tally.published.wrapping_add(tally.stale) == 20
        && tally.rising
        && count_by(state, author) == made(tally)
}

// Counts the entries of an author.
fn count_by(state: &TrackState, author: Author) -> u64 {
    let mut count = 0u64;
    for k in 0..state.len() {
        if let Some(placed) = state.entry(k.wrapping_add(1)) {
            if placed.author == author {
                count = count.wrapping_add(1);
            }
        }
    }
    count
}

#[test]
fn two_scripts_share_a_machine(rt: HostRuntime) {
    assert!(rt; side_by_side(&rt, rt.alloc()));
}
