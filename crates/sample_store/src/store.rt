//! The store of runs: look-ups, acceptances and retractions.
ghost use Rattle.std.specs.{Prelude.{◌≡◌, ◌≢◌, ◌++◌, ◌∷◌, [], OnOk, OnErr, IfOk, length, find, map, option_copied, position}, Cmp.Lexicographic.pointwise};
ghost use Rattle.history_model.specs.Runs.{same_run, same_sample};
ghost use Rattle.sample_store.specs.{Runs.{names, marked, samples_in, AreNamedOnce}, Judged.{judged, retraction}};

use crate::NoMemory;
use crate::answers::{Accepted, Retracted};
use history_model::Run;
use line_text::{Duplicate, Name};
use metric_table::Limit;
use name_index::NameIndex;
use sample_model::Sample;
use std::alloc::Global;
use std::marker::Model;

/// A run, with the steps at which it was accepted and taken back.
#[derive(Clone, Debug, Drop)]
pub struct Stored {
    /// The step at which it was accepted.
    pub step: u64,
    /// The run.
    pub run: Run,
    /// The step at which it was taken back.
    pub retracted: Option<u64>,
}

/// An equal run of its own, with its steps. Takes the time of [`Run::copy`].
impl Duplicate for Stored {
    fn copy(&self, _alloc: Global) -> Result<Stored, NoMemory> {
        self.clone()
    }
}

/// The runs that were accepted, in order.
#[derive(Drop)]
pub struct SampleStore {
    alloc: Global,
    runs: Vec<Stored>,
    // Their names, each at the place of its run.
    names: NameIndex,
    samples: u64,
}

impl Model for SampleStore {
    ghost use Rattle.std.specs.Prelude.{List};
    ghost use Rattle.sample_store.specs.declared.store.Stored.{Stored};

    ghost Value = { List Stored };

    ghost use Rattle.std.specs.Prelude.{◌≡◌, ◌≤◌, map, length};
    ghost use Rattle.metric_table.specs.{Limits.most, declared.limits.Limit.TheVariants.{Runs, Samples}};
    ghost use Rattle.sample_store.specs.Runs.{samples_in, AreNamedOnce};

    ghost view = { λ s. s.runs.items };

    ghost invariant = { λ s.
        (s.names ≡ map (λ r. r.run.run) s.runs.items)
        × (s.samples ≡ samples_in s.runs.items)
        × AreNamedOnce s.runs.items
        × (samples_in s.runs.items ≤ most Samples) };
}

impl SampleStore {
    /// No runs. The value keeps its allocator.
    pub fn new(alloc: Global) -> SampleStore
        ensures { result ≡ [] }
    {
        SampleStore {
            alloc,
            runs: Vec::new(alloc),
            names: NameIndex::new(alloc),
            samples: 0,
        }
    }

    /// Says what the type keeps: no name stands in two of the runs. Does nothing: its contract is what it is for.
    pub fn names_law(&self)
        ensures { AreNamedOnce self.now }
    {
        let _ = &self.runs;
    }

    /// How many runs were accepted.
    pub fn len(&self) -> usize
        ensures { result ≡ length self.now }
    {
        self.runs.len()
    }

    /// How many samples they have, those of retracted runs too. Constant time.
    pub fn sample_count(&self) -> u64
        ensures { result ≡ samples_in self.now }
    {
        self.samples
    }

    /// The runs, in order of acceptance.
    pub fn as_slice(&self) -> &[Stored]
        ensures { result.now ≡ self.now }
    {
        &self.runs
    }

    // The place of the run of that name, the first and only one.
    fn place_of(&self, run: &Name) -> Option<usize>
        ensures { result ≡ position (names run.now) self.now }
    {
        self.names.place_of(run)
    }

    /// The run of that name. Linear in the name's length, and at worst logarithmic in the count of runs; takes no memory.
    pub fn of_name(&self, run: &Name) -> Option<&Stored>
        ensures { option_copied result ≡ find (names run.now) self.now }
    {
        match self.place_of(run) {
            Some(place) => Some(&self.runs[place]),
            None => None,
        }
    }

    /// What the acceptance of the run would come to. Takes the time of [`SampleStore::of_name`], and is linear in the run's
    /// samples where its name is known; takes no memory.
    pub fn judge(&self, run: &Run) -> Accepted
        ensures { result ≡ judged self.now run.now }
    {
        if let Some(stored) = self.of_name(&run.run) {
            if is_same_run(run, &stored.run) {
                return Accepted::Duplicate(stored.step);
            }
            return Accepted::Clash(stored.step);
        }
        if self.runs.len() as u64 >= Limit::Runs.most() {
            return Accepted::Full(Limit::Runs);
        }
        run.samples.limits();
        if self.samples + run.samples.len() as u64 > Limit::Samples.most() {
            return Accepted::Full(Limit::Samples);
        }
        Accepted::New
    }

    /// Accepts the run at a step, where it is new; else, and where there is no memory, changes nothing.
    ///
    /// Takes the time of [`SampleStore::judge`] and [`SampleStore::add`].
    pub fn accept(&mut self, step: u64, run: Run) -> Result<Accepted, NoMemory>
        ensures judged { IfOk result (λ accepted. accepted ≡ judged self.old run) }
        ensures new { result ≡ Ok Accepted.New
            → self.new ≡ self.old ++ record { step = step; run = run; retracted = None } ∷ [] }
        ensures same { result ≢ Ok Accepted.New → self.new ≡ self.old }
    {
        let accepted = self.judge(&run);
        if accepted != Accepted::New {
            return Ok(accepted);
        }
        self.add(step, run)?;
        Ok(Accepted::New)
    }

    /// Adds a run that is new, as [`SampleStore::accept`] does, without judging it again. Takes the time of
    /// [`SampleStore::of_name`], amortized.
    pub fn add(&mut self, step: u64, run: Run) -> Result<(), NoMemory>
        requires { judged self.old run ≡ Accepted.New }
        ensures ok { OnOk result
            (self.new ≡ self.old ++ record { step = step; run = run; retracted = None } ∷ []) }
        ensures err { OnErr result (self.new ≡ self.old) }
    {
        let name = run.run.copy(self.alloc)?;
        let count = run.samples.len() as u64;
        self.runs.reserve(1)?;
        self.names.insert(name)?;
        self.runs.push_reserved(Stored {
            step,
            run,
            retracted: None,
        });
        self.samples += count;
        Ok(())
    }

    /// Takes the run of that name back at a step, where it is live; else changes nothing. Takes the time of
    /// [`SampleStore::of_name`] and no memory.
    pub fn retract(&mut self, step: u64, run: &Name) -> Retracted
        ensures judged { result ≡ retraction self.old run.now }
        ensures done { result ≡ Retracted.Done → self.new ≡ map (marked step run.now) self.old }
        ensures same { result ≢ Retracted.Done → self.new ≡ self.old }
    {
        let Some(place) = self.place_of(run) else {
            return Retracted::UnknownRun;
        };
        let stored = &mut self.runs[place];
        if let Some(at) = stored.retracted {
            return Retracted::AlreadyRetracted(at);
        }
        stored.retracted = Some(step);
        Retracted::Done
    }
}

// Whether the two have one commit and equal samples.
fn is_same_run(one: &Run, other: &Run) -> bool
    ensures { result ≡ same_run one.now other.now }
{
    one.commit == other.commit && are_same(one.samples.as_slice(), other.samples.as_slice())
}

// Whether the samples are equal, one by one.
fn are_same(one: &[Sample], other: &[Sample]) -> bool
    ensures { result ≡ pointwise same_sample one.now other.now }
{
    if one.len() != other.len() {
        return false;
    }
    for (i, x) in one.iter().enumerate() {
        if !is_same(x, &other[i]) {
            return false;
        }
    }
    true
}

fn is_same(x: &Sample, y: &Sample) -> bool
    ensures { result ≡ same_sample x.now y.now }
{
    x.test == y.test && x.metric == y.metric && x.value == y.value
}
