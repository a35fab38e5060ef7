//! The bisections of a machine.
ghost use Rattle.std.specs.{Prelude.{◌≡◌, ◌<◌, ◌^◌, ◌≤◌, ◌++◌, ◌==◌, [], ◌∷◌, Some, length, filter, not, OnOk, OnErr, option_copied, if◌then◌else◌}, List.Sorted.IsStrictlyIncreasing};
ghost use Rattle.bisect_core.specs.{Bisections.bisection, Turns.{tested, given_up}};
ghost use Rattle.history_model.specs.Jobs.{job_in, is_under_way, open_count, place_asked};
ghost use Rattle.follow_index.specs.Numbered.{GoesOn, open_numbers};

use crate::NoMemory;
use bisect_core::Job;
use line_text::Numbers;
use std::alloc::Global;
use std::marker::Model;

/// The bisections that were begun, numbered from 1, with the numbers of those that are open.
#[derive(Drop)]
pub struct JobIndex {
    items: Vec<Job>,
    under_way: Vec<u64>,
}

impl Model for JobIndex {
    ghost use Rattle.std.specs.Prelude.{◌≡◌, List};
    ghost use Rattle.bisect_core.specs.Bisections.{Bisection};
    ghost use Rattle.follow_index.specs.Numbered.{open_numbers};

    ghost Value = { List Bisection };

    ghost view = { λ j. j.items.items };

    ghost invariant = { λ j. j.under_way.items ≡ open_numbers j.items.items };
}

impl JobIndex {
    /// No bisections. The value keeps its allocator.
    pub fn new(alloc: Global) -> JobIndex
        ensures { result ≡ [] }
    {
        JobIndex {
            items: Vec::new(alloc),
            under_way: Vec::new(alloc),
        }
    }

    /// How many there are. Takes no memory.
    pub fn len(&self) -> u64
        ensures told { result ≡ length self.now }
        ensures few { result < 2 ^ 63 }
    {
        self.items.len() as u64
    }

    /// How many of them are open. Constant time; takes no memory.
    pub fn open(&self) -> u64
        ensures { result ≡ open_count self.now }
    {
        self.under_way.len() as u64
    }

    /// Their numbers, rising. Constant time; takes no memory.
    pub fn open_numbers(&self) -> &[u64]
        ensures { result.now ≡ open_numbers self.now }
    {
        self.under_way.as_slice()
    }

    /// The bisection of a number, from 1; none exactly outside 1 to the length. Constant time; takes no memory.
    pub fn get(&self, number: u64) -> Option<&Job>
        ensures { option_copied result ≡ job_in number self.now }
    {
        self.items.get(number.checked_sub(1)? as usize)
    }

    /// Begins a bisection of two commits at least; changes nothing where there is no memory. Constant time, but for growing.
    pub fn begin(&mut self, commits: Numbers) -> Result<(), NoMemory>
        requires rising { IsStrictlyIncreasing commits }
        requires many { 2 ≤ length commits }
        ensures ok { OnOk result (self.new ≡ self.old ++ bisection commits [] ∷ []) }
        ensures err { OnErr result (self.new ≡ self.old) }
    {
        self.items.reserve(1)?;
        let Ok(job) = Job::begin(commits) else {
            unreachable!();
        };
        let number = self.items.len() as u64 + 1;
        put_open(&mut self.under_way, &job, number)?;
        self.items.push_reserved(job);
        Ok(())
    }

    /// Records the status of the test of the place that the bisection of a number asks. Linear in the open ones where it
    /// ends, else constant time; takes no memory.
    pub fn answer(&mut self, number: u64, place: u64, status: u8)
        requires { place_asked (job_in number self.old) ≡ Some place }
        ensures { GoesOn number (tested place status) self.old self.new }
    {
        let job = &mut self.items[(number - 1) as usize];
        let _ = job.answer(place, status);
        keep_open(&mut self.under_way, job, number);
    }

    /// Records that no test could be had of the place that the bisection of a number asks. Linear in
    /// the open ones; takes no memory.
    pub fn give_up(&mut self, number: u64, place: u64)
        requires { place_asked (job_in number self.old) ≡ Some place }
        ensures { GoesOn number (given_up place) self.old self.new }
    {
        let job = &mut self.items[(number - 1) as usize];
        let _ = job.give_up(place);
        keep_open(&mut self.under_way, job, number);
    }
}

// Puts the number of a bisection behind others, where it is open; changes nothing where there is no memory.
fn put_open(numbers: &mut Vec<u64>, job: &Job, number: u64) -> Result<(), NoMemory>
    ensures ok { OnOk result (numbers.new.items
        ≡ numbers.old.items ++ (if is_under_way job.now then number ∷ [] else [])) }
    ensures err { OnErr result (numbers.new.items ≡ numbers.old.items) }
{
    if job.question().is_some() {
        numbers.push(number)?;
    }
    Ok(())
}

// Takes the number of a bisection out of some, unless it is open.
fn keep_open(numbers: &mut Vec<u64>, job: &Job, number: u64)
    ensures { numbers.new.items ≡ (if is_under_way job.now then numbers.old.items
        else filter (λ n. not (n == number)) numbers.old.items) }
{
    if job.question().is_none() {
        take_out(numbers, number);
    }
}

// Takes a number out of some.
fn take_out(numbers: &mut Vec<u64>, number: u64)
    ensures { numbers.new.items ≡ filter (λ n. not (n == number)) numbers.old.items }
{
    numbers.retain(|n| *n != number);
}
