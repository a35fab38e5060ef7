//! Regressions, bisections, commits, entries.

use bisect_core::{Answered, BadRange, Job, Outcome};
use line_text::{Duplicate, Name, NoMemory, Numbers};
use order_index::{Declared, OrderIndex};
use regression_state::{IllegalMove, State, may_move, read_state};
use std::alloc::Global;
use test_supplies::STATES;
use track_entry::{Author, Entry, EntryFault, Placed, put_entry, read_entry, read_entry_v1};
use wide_bisect::{Wide, WideAnswered, WideFault, WideOutcome};

fn commits() {
    let _: fn(Global) -> OrderIndex = OrderIndex::new;
    let _: fn(&mut OrderIndex, u64, u64, Name) -> Result<Declared, NoMemory> = OrderIndex::declare;
    let _: fn(&OrderIndex, &Name) -> Option<u64> = OrderIndex::number_of;
    let _: fn(&OrderIndex, Global, u64, u64) -> Result<Numbers, NoMemory> = OrderIndex::between;
    let _: [Declared; 4] = [
        Declared::New,
        Declared::Same(1),
        Declared::Taken(1),
        Declared::Full,
    ];
}

fn name(commits: &OrderIndex) -> Option<&Name> {
    commits.name_of(0)
}

fn regressions() {
    let _: fn(State, State) -> bool = may_move;
    let _: fn(&mut State, State) -> Result<(), IllegalMove> = State::move_to;
    let _: fn(&[u8]) -> Option<State> = read_state;
    let _: IllegalMove = IllegalMove {
        from: State::Fixed,
        to: State::Staged,
    };
}

fn word(state: &State) -> &'static str {
    state.word()
}

#[test]
fn words_of_states_are_read_back(rt: HostRuntime) {
    for state in &STATES {
        assert!(rt; read_state(word(state).as_bytes()) == Some(*state));
    }
}

fn jobs() {
    let _: fn(Numbers) -> Result<Job, BadRange> = Job::begin;
    let _: fn(&Job) -> Option<u64> = Job::question;
    let _: fn(&Job) -> Outcome = Job::outcome;
    let _: fn(&Job) -> u64 = Job::range;
    let _: fn(&Job) -> u64 = Job::questions;
    let _: fn(&Job) -> u64 = Job::low;
    let _: fn(&Job) -> u64 = Job::high;
    let _: fn(&Job, u64) -> u64 = Job::commit;
    let _: fn(&mut Job, u64, u8) -> Answered = Job::answer;
    let _: fn(&mut Job, u64) -> Answered = Job::give_up;
    let _: [Outcome; 4] = [
        Outcome::Asks(1),
        Outcome::Found { lo: 0, hi: 1 },
        Outcome::Undecided {
            place: 1,
            status: 125,
        },
        Outcome::Faulted { place: 1 },
    ];
    let _: [Answered; 3] = [
        Answered::Ok,
        Answered::NotAsked(1),
        Answered::Closed(Outcome::Asks(1)),
    ];
}

fn rounds() {
    let _: fn(Global, u64, u8) -> Result<Wide, WideFault> = Wide::begin;
    let _: fn(&Wide, Global) -> Result<Numbers, NoMemory> = Wide::round;
    let _: fn(&mut Wide, &[Option<u8>]) -> WideAnswered = Wide::answer;
    let _: fn(&Wide) -> WideOutcome = Wide::outcome;
    let _: fn(&Wide) -> u64 = Wide::rounds;
    let _: [WideFault; 2] = [WideFault::BadRange, WideFault::NoMemory];
    let _: [WideOutcome; 4] = [
        WideOutcome::Asks,
        WideOutcome::Found {
            lo: 0,
            hi: 1,
            skipped: 0,
        },
        WideOutcome::Undecided {
            place: 1,
            status: 128,
        },
        WideOutcome::Faulted { place: 1 },
    ];
    let _: [WideAnswered; 3] = [
        WideAnswered::Ok,
        WideAnswered::WrongCount(1),
        WideAnswered::Closed(WideOutcome::Asks),
    ];
}

fn entries() {
    let _: fn(Global, &[u8]) -> Result<Entry, EntryFault> = read_entry;
    let _: fn(Global, &[u8]) -> Result<Entry, EntryFault> = read_entry_v1;
    let _: fn(Global, &mut Vec<u8>, &Entry) -> Result<(), NoMemory> = put_entry;
    let _: fn(&Entry, Global) -> Result<Entry, NoMemory> = Entry::copy;
    let _: [EntryFault; 2] = [EntryFault::NotEntry, EntryFault::NoMemory];
    let _: [Author; 4] = [
        Author::Kept,
        Author::Script(1),
        Author::Recompute(1),
        Author::Bisect(1),
    ];
}

fn placed(placed: Placed) -> (Author, Entry) {
    (placed.author, placed.entry)
}
