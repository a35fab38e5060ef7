//! Runners of tests in memory.
ghost use Rattle.std.specs.Prelude.{◌≡◌, ◌<◌, ◌≤◌, [], ◌∷◌, ◌++◌, length, slice_get, vec_len, vec_capacity, string_bytes, codes, decimal, Some, IfOk, IfSome, IfNone};
ghost use Rattle.track_outside.specs.{Asked.{Asks, verdict_on, verdicts_of}, Bench.{verdict_in, verdicts_in, asks_in}};

use crate::NoMemory;
use crate::fault_count::{PlannedFaults, count_fault};
use crate::out_error::OutError;
use crate::room::push_within;
use crate::runner::Runner;
use std::alloc::Global;
use std::marker::Model;

/// A commit by name, and the status of its test.
#[derive(Drop)]
pub(crate) struct KeptVerdict {
    pub commit: String,
    pub status: u8,
}

/// An ask that was made.
#[derive(Drop)]
pub(crate) struct NotedAsk {
    pub test: String,
    pub commit: String,
    pub status: Option<u8>,
}

/// A runner in memory, which has its statuses from a list, and of which some calls fail. It tells what it was asked.
#[derive(Drop)]
pub struct MemRunner {
    verdicts: Vec<KeptVerdict>,
    asks: Vec<NotedAsk>,
    plan: PlannedFaults,
}

impl Model for MemRunner {
    ghost use Rattle.track_outside.specs.{Asked.Bench, Bench.{verdicts_in, asks_in}};

    ghost Value = { Bench };

    ghost view = { λ s. record {
      verdicts = verdicts_in s.verdicts.items;
      asks = asks_in s.asks.items;
      fails = s.plan.fails.items;
      calls = s.plan.calls;
      faults = s.plan.faults;
    } };
}

impl MemRunner {
    ghost use Rattle.track_outside.specs.Asked.{new_bench};

    /// A runner before its first call. Each pair is a number and the status of the commit whose name is `c` and that
    /// number, of which the first such pair counts; other commits fail, and so do the calls with the numbers of `fails`,
    /// counted from 1. Linear in both lengths.
    pub fn new(alloc: Global, answers: &[(u64, u8)], fails: &[u64]) -> Result<MemRunner, NoMemory>
        ensures made { IfOk result (λ runner. runner ≡ new_bench answers.now fails.now) }
    {
        Ok(MemRunner {
            verdicts: kept_verdicts(alloc, answers)?,
            asks: Vec::new(alloc),
            plan: PlannedFaults::new(alloc, fails)?,
        })
    }

    /// Ask `i`, from 0: its test, its commit and its status, which is none where it failed.
    pub fn asked(&self, i: usize) -> Option<(&str, &str, Option<u8>)>
        ensures some { IfSome result (λ ask. slice_get self.now.asks i
            ≡ Some (record { test = ask.0.now; commit = ask.1.now; status = ask.2 })) }
        ensures none { IfNone result (length self.now.asks ≤ i) }
    {
        let ask = self.asks.get(i)?;
        Some((ask.test.as_str(), ask.commit.as_str(), ask.status))
    }
}

impl Runner for MemRunner {
    ghost asked = { λ s. Some s.asks };

    ghost faults = { λ s. s.faults };

    /// Linear in the number of verdicts, and in the plan.
    fn ask(&mut self, alloc: Global, test: &str, commit: &str) -> Result<u8, OutError>
        ensures asks { Asks test.now commit.now self.old self.new result }
        ensures counts { self.old.faults ≤ self.new.faults }
    {
        let test = String::from_str(alloc, test)?;
        let name = String::from_str(alloc, commit)?;
        self.asks.reserve(1)?;
        let verdict = found_verdict(&self.verdicts, commit);
        if self.plan.next_fails() {
            note(&mut self.asks, test, name, None);
            count_fault(&mut self.plan.faults);
            return Err(OutError::Failed);
        }
        note(&mut self.asks, test, name, verdict);
        match verdict {
            Some(status) => Ok(status),
            None => {
                count_fault(&mut self.plan.faults);
                Err(OutError::Failed)
            }
        }
    }
}

// The verdicts on commits whose names are `c` and a number.
fn kept_verdicts(alloc: Global, answers: &[(u64, u8)]) -> Result<Vec<KeptVerdict>, NoMemory>
    ensures { IfOk result (λ kept. verdicts_in kept.items ≡ verdicts_of answers.now) }
{
    let mut kept = Vec::with_capacity(alloc, answers.len())?;
    for answer in answers {
        kept.push(kept_verdict(alloc, answer.0, answer.1)?)?;
    }
    Ok(kept)
}

fn kept_verdict(alloc: Global, number: u64, status: u8) -> Result<KeptVerdict, NoMemory>
    ensures { IfOk result (λ kept. verdict_in kept
        ≡ record { commit = codes "c" ++ decimal number; status = status }) }
{
    Ok(KeptVerdict {
        commit: format!(in alloc; "c{number}")?,
        status,
    })
}

// The status of the first verdict on the commit.
fn found_verdict(kept: &[KeptVerdict], commit: &str) -> Option<u8>
    ensures { result ≡ verdict_on commit.now (verdicts_in kept.now) }
{
    for verdict in kept {
        if verdict.commit.as_str() == commit {
            return Some(verdict.status);
        }
    }
    None
}

// Notes an ask, where there is room for one more.
fn note(asks: &mut Vec<NotedAsk>, test: String, commit: String, status: Option<u8>)
    requires { vec_len asks.old < vec_capacity asks.old }
    ensures { asks_in asks.new.items ≡ asks_in asks.old.items
        ++ record { test = string_bytes test; commit = string_bytes commit; status = status } ∷ [] }
{
    push_within(
        asks,
        NotedAsk {
            test,
            commit,
            status,
        },
    );
}
