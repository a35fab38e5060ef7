//! Lists of samples, of bounded length.
ghost use Rattle.std.specs.Prelude.{◌≡◌, ◌<◌, ◌↔◌, IsTrue, [], ◌∷◌, ◌++◌, length, OnOk, OnErr, IfOk, slice_get, option_copied};
ghost use Rattle.metric_table.specs.{Limits.most, declared.limits.Limit.TheVariants.RunSamples};
ghost use Rattle.sample_model.specs.{Listed.listed, Samples.AreSamples};

use crate::NoMemory;
use crate::sample::Sample;
use line_text::Duplicate;
use std::alloc::Global;
use std::marker::Model;
use std::sync::Arc;

// Where samples stand.
#[derive(Debug, Drop)]
pub(crate) enum Items {
    // In a list that one value owns.
    Own(Vec<Sample>),
    // In a list that several may own.
    Shared(Arc<Vec<Sample>>),
}

/// The samples of a run, in order: at most 65,536, which the type keeps. Contracts see a list. It keeps its allocator.
///
/// Once a list is made it may be shared ([`Samples::share`]): then a copy counts one owner more.
#[derive(Debug, Drop)]
pub struct Samples {
    items: Items,
}

impl Model for Samples {
    ghost use Rattle.std.specs.Prelude.{List};
    ghost use Rattle.sample_model.specs.{Samples.{Measurement, AreSamples}, Listed.listed};

    ghost Value = { List Measurement };

    ghost view = { λ s. listed s.items };

    ghost invariant = { λ s. AreSamples (listed s.items) };
}

impl Samples {
    /// No samples.
    pub fn new(alloc: Global) -> Samples
        ensures { result ≡ [] }
    {
        Samples {
            items: Items::Own(Vec::new(alloc)),
        }
    }

    /// No samples, with memory for so many, if there is as much. Constant time.
    pub fn with_room(alloc: Global, count: usize) -> Samples
        ensures { result ≡ [] }
    {
        let mut own = Vec::new(alloc);
        let _ = own.reserve_exact(count);
        Samples {
            items: Items::Own(own),
        }
    }

    /// Says what the type keeps. Does nothing: its contract is what it is for.
    pub fn limits(&self)
        ensures { AreSamples self.now }
    {
        let _ = &self.items;
    }

    /// Adds a sample at the end; changes nothing where there is no memory. Constant time, but for growing, and for a shared
    /// list, of which it makes one of its own first.
    pub fn push(&mut self, item: Sample) -> Result<(), NoMemory>
        requires { length self.old < most RunSamples }
        ensures ok { OnOk result (self.new ≡ self.old ++ item ∷ []) }
        ensures err { OnErr result (self.new ≡ self.old) }
    {
        item.limits();
        match &mut self.items {
            Items::Own(own) => own.push(item)?,
            Items::Shared(shared) => {
                let mut own = Sample::duplicates(*shared.allocator(), shared)?;
                own.push(item)?;
                self.items = Items::Own(own);
            }
        }
        Ok(())
    }

    /// The same list, such that a copy of it takes constant time and no memory. Constant time.
    pub fn share(self, alloc: Global) -> Result<Samples, NoMemory>
        ensures { IfOk result (λ made. made ≡ self) }
    {
        match self.items {
            Items::Own(own) => Ok(Samples {
                items: Items::Shared(Arc::new(alloc, own)?),
            }),
            Items::Shared(shared) => Ok(Samples {
                items: Items::Shared(shared),
            }),
        }
    }

    /// The samples, in order.
    pub fn as_slice(&self) -> &[Sample]
        ensures { result.now ≡ self.now }
    {
        match &self.items {
            Items::Own(own) => own,
            Items::Shared(shared) => shared,
        }
    }

    /// How many there are.
    pub fn len(&self) -> usize
        ensures { result ≡ length self.now }
    {
        self.as_slice().len()
    }

    /// Whether there is none.
    pub fn is_empty(&self) -> bool
        ensures { IsTrue result ↔ (self.now ≡ []) }
    {
        self.as_slice().is_empty()
    }

    /// The sample at a place, from 0; none from the length on.
    pub fn get(&self, i: usize) -> Option<&Sample>
        ensures { option_copied result ≡ slice_get self.now i }
    {
        self.as_slice().get(i)
    }
}

/// An equal list of its own. Constant time for a list that is shared, else linear in the length.
impl Clone for Samples {
    ghost is_clone = { λ samples clone. clone ≡ samples };

    fn clone(&self) -> Result<Samples, NoMemory> {
        let items = match &self.items {
            Items::Own(own) => Items::Own(Sample::duplicates(*own.allocator(), own)?),
            Items::Shared(shared) => Items::Shared(shared.clone()?),
        };
        Ok(Samples { items })
    }
}

impl Duplicate for Samples {
    fn copy(&self, _alloc: Global) -> Result<Samples, NoMemory> {
        self.clone()
    }
}
