//! A search by rounds under way: the rounds that it asks, and the answers that it takes.
ghost use Rattle.std.specs.Prelude.{◌≡◌, ◌≢◌, ◌<◌, ◌≤◌, ◌⊎◌, ◌↔◌, ◌-◌, ◌+◌, length, IfOk, IfErr, filter, fold, min, nat_lt, map, find};
ghost use Rattle.wide_bisect.specs.{Answers.{bad_places, good_places, skipped_places, ending, greatest, least, is_among}, Searches.{Search, begun, asks, asked, place_in_round, said_of, moved, ended, settled, after, answer_to, stays}, Sound.{IsSound, GoesOn}};
ghost use Rattle.wide_bisect.specs.declared.outcome.WideAnswered.TheVariants as answered;
ghost use Rattle.wide_bisect.specs.declared.outcome.WideFault.TheVariants as fault;
ghost use Rattle.wide_bisect.specs.declared.outcome.WideOutcome.TheVariants as standing;
ghost use Rattle.std.specs.List.{range_with_len};

use crate::outcome::{WideAnswered, WideFault, WideOutcome};
use crate::said::Said;
use arrayvec::ArrayVec;
use line_text::{NoMemory, Numbers};
use std::alloc::Global;
use std::marker::Model;

/// A search of the places from 0 to n for two with none between them that can be tested, the lower one good and the
/// higher one bad.
///
/// Contracts see where it stands.
#[derive(Drop)]
pub struct Wide {
    width: u8,
    low: u64,
    high: u64,
    left: Vec<u64>,
    rounds: u64,
    outcome: WideOutcome,
}

impl Model for Wide {
    ghost use Rattle.wide_bisect.specs.{Searches.{Search, search_of}, Sound.IsSound};

    ghost Value = { Search };

    ghost view = { λ w. search_of w.width w.low w.high w.left.items w.rounds w.outcome };

    ghost invariant = { λ w.
        IsSound (search_of w.width w.low w.high w.left.items w.rounds w.outcome) };
}

impl Wide {
    /// A search of the places from 0 to n, which asks k at once at most, before any round: the first is stated good and
    /// the last one bad. Linear in n.
    pub fn begin(alloc: Global, n: u64, k: u8) -> Result<Wide, WideFault>
        ensures begun { IfOk result (λ search. search ≡ begun n k) }
        ensures range { IfOk result (λ _. (1 ≤ n) × (n ≤ 65_535) × (1 ≤ k) × (k ≤ 8)) }
        ensures bad { IfErr result (λ e. e ≡ fault.BadRange
            ↔ ((n ≡ 0) ⊎ (65_535 < n) ⊎ (k ≡ 0) ⊎ (8 < k))) }
    {
        if n == 0 || n > 65_535 || k == 0 || k > 8 {
            return Err(WideFault::BadRange);
        }
        let Ok(left) = places_between(alloc, n) else {
            return Err(WideFault::NoMemory);
        };
        let outcome = outcome_between(0, n, &left);
        Ok(Wide {
            width: k,
            low: 0,
            high: n,
            left,
            rounds: 0,
            outcome,
        })
    }

    /// The places of the next round, rising; none where the search is closed. O(k) time.
    pub fn round(&self, alloc: Global) -> Result<Numbers, NoMemory>
        ensures { IfOk result (λ places. places ≡ asked self.now) }
    {
        let mut places = Vec::new(alloc);
        for i in 0..self.asks() {
            places.push(self.place(i + 1))?;
        }
        Ok(Numbers::of(places))
    }

    /// Takes the answers to the round, in the order of its places, all together: 0 is good, 125 passes the place over,
    /// none and all from 128 on end the search, every other status is bad. Linear in the open places; takes no memory.
    pub fn answer(&mut self, statuses: &[Option<u8>]) -> WideAnswered
        ensures told { result ≡ answer_to self.old (length statuses.now) }
        ensures done { result ≡ answered.Ok → self.new ≡ after self.old statuses.now }
        ensures kept { result ≢ answered.Ok → self.new ≡ self.old }
    {
        let WideOutcome::Asks = self.outcome else {
            return WideAnswered::Closed(self.outcome);
        };
        let asks = self.asks();
        if statuses.len() as u64 != asks {
            return WideAnswered::WrongCount(asks);
        }
        let said = self.said(statuses);
        match ending_of(&said) {
            Some(end) => self.end_at(end),
            None => self.move_on(&said),
        }
        WideAnswered::Ok
    }

    /// Where it stands. Constant time; takes no memory.
    pub fn outcome(&self) -> WideOutcome
        ensures { result ≡ self.now.outcome }
    {
        self.outcome
    }

    /// How many rounds were answered. Constant time; takes no memory.
    pub fn rounds(&self) -> u64
        ensures { result ≡ self.now.rounds }
    {
        self.rounds
    }

    // How many places the next round asks.
    fn asks(&self) -> u64
        ensures told { result ≡ asks self.now }
        ensures few { result ≤ 8 }
    {
        if self.outcome == WideOutcome::Asks {
            u64::from(self.width).min(self.left.len() as u64)
        } else {
            0
        }
    }

    // The i-th place of the next round, counted from 1.
    fn place(&self, i: u64) -> u64
        requires first { 1 ≤ i }
        requires last { i ≤ asks self.now }
        ensures { result ≡ place_in_round self.now i }
    {
        let parts = i * (self.left.len() as u64 + 1) / (self.asks() + 1);
        self.left[parts as usize - 1]
    }

    // What the statuses say of the places of the round.
    fn said(&self, statuses: &[Option<u8>]) -> ArrayVec<Said, 8>
        requires { length statuses.now ≡ asks self.now }
        ensures { result.items ≡ said_of self.now statuses.now }
    {
        let mut said = ArrayVec::new();
        for i in 0..self.asks() {
            said.push(Said {
                place: self.place(i + 1),
                status: statuses[i as usize],
            });
        }
        said
    }

    // Ends the search with an answer.
    fn end_at(&mut self, end: Said)
        requires { self.old.outcome ≡ standing.Asks }
        ensures { self.new ≡ ended self.old end }
    {
        self.rounds += 1;
        self.outcome = match end.status {
            None => WideOutcome::Faulted { place: end.place },
            Some(status) => WideOutcome::Undecided {
                place: end.place,
                status,
            },
        };
    }

    // Goes on from answers of which none ends the search.
    fn move_on(&mut self, said: &[Said])
        requires { GoesOn self.old said.now }
        ensures { self.new ≡ moved self.old said.now }
    {
        let high = least_bad(self.high, said);
        let low = greatest_good(self.low, high, said);
        self.left
            .retain(|place| stays_open(low, high, said, *place));
        self.low = low;
        self.high = high;
        self.rounds += 1;
        self.outcome = outcome_between(low, high, &self.left);
    }
}

// The places strictly between 0 and n.
fn places_between(alloc: Global, n: u64) -> Result<Vec<u64>, NoMemory>
    requires { 1 ≤ n }
    ensures { IfOk result (λ made. made.items ≡ range_with_len 1 (n - 1)) }
{
    let mut made = Vec::with_capacity(alloc, n as usize)?;
    for place in 1..n {
        made.push(place)?;
    }
    Ok(made)
}

// What stands between two ends with these open places.
fn outcome_between(low: u64, high: u64, places: &[u64]) -> WideOutcome
    requires { low < high }
    ensures { result ≡ settled low high places.now }
{
    if places.is_empty() {
        WideOutcome::Found {
            lo: low,
            hi: high,
            skipped: high - low - 1,
        }
    } else {
        WideOutcome::Asks
    }
}

// The first answer that ends the search.
fn ending_of(said: &[Said]) -> Option<Said>
    ensures { result ≡ ending said.now }
{
    said.iter().copied().find(|x| x.is_end())
}

// The least of a place and those answered bad.
fn least_bad(high: u64, said: &[Said]) -> u64
    ensures { result ≡ least high (bad_places said.now) }
{
    said.iter()
        .filter(|x| x.is_bad())
        .map(|x| x.place)
        .fold(high, |a, b| a.min(b))
}

// The greatest of a place and those below another that were answered good.
fn greatest_good(low: u64, high: u64, said: &[Said]) -> u64
    ensures { result ≡ greatest low (filter (λ place. nat_lt place high) (good_places said.now)) }
{
    said.iter()
        .filter(|x| x.is_good())
        .map(|x| x.place)
        .filter(|place| *place < high)
        .fold(low, |a, b| a.max(b))
}

// Whether a place stays open.
fn stays_open(low: u64, high: u64, said: &[Said], place: u64) -> bool
    ensures { result ≡ stays low high said.now place }
{
    low < place && place < high && !is_passed_over(said, place)
}

// Whether a place was answered 125.
fn is_passed_over(said: &[Said], place: u64) -> bool
    ensures { result ≡ is_among place (skipped_places said.now) }
{
    said.iter()
        .filter(|x| x.is_skipped())
        .map(|x| x.place)
        .any(|x| x == place)
}
