//! The regressions of a machine, with their states.
ghost use Rattle.std.specs.Prelude.{◌≡◌, ◌<◌, ◌^◌, ◌++◌, [], ◌∷◌, length, OnOk, OnErr, option_copied, true};
ghost use Rattle.regression_state.specs.declared.states.State.TheVariants.{Detected};
ghost use Rattle.history_model.specs.Regressions.{is_number};
ghost use Rattle.follow_index.specs.Numbered.{followed_in, IsMovedTo};

use crate::NoMemory;
use history_model::Raised;
use regression_state::State;
use std::alloc::Global;
use std::marker::Model;

/// A regression: the change that was raised, and what became of it.
#[derive(Debug, Drop)]
pub struct Followed {
    /// The change.
    pub raised: Raised,
    /// Its state.
    pub state: State,
}

/// The regressions that were raised, numbered from 1.
#[derive(Drop)]
pub struct RegressionIndex {
    items: Vec<Followed>,
}

impl Model for RegressionIndex {
    ghost use Rattle.std.specs.Prelude.{List};
    ghost use Rattle.follow_index.specs.declared.regressions.Followed.{Followed};

    ghost Value = { List Followed };

    ghost view = { λ r. r.items.items };
}

impl RegressionIndex {
    /// No regressions. The value keeps its allocator.
    pub fn new(alloc: Global) -> RegressionIndex
        ensures { result ≡ [] }
    {
        RegressionIndex {
            items: Vec::new(alloc),
        }
    }

    /// How many there are. Takes no memory.
    pub fn len(&self) -> u64
        ensures told { result ≡ length self.now }
        ensures few { result < 2 ^ 63 }
    {
        self.items.len() as u64
    }

    /// The regression of a number, from 1; none exactly outside 1 to the length. Constant time; takes no memory.
    pub fn get(&self, number: u64) -> Option<&Followed>
        ensures { option_copied result ≡ followed_in number self.now }
    {
        self.items.get(number.checked_sub(1)? as usize)
    }

    /// Adds a change that is raised, which is detected; changes nothing where there is no memory. Constant time, but for
    /// growing.
    pub fn raise(&mut self, raised: Raised) -> Result<(), NoMemory>
        ensures ok { OnOk result
            (self.new ≡ self.old ++ record { raised = raised; state = Detected } ∷ []) }
        ensures err { OnErr result (self.new ≡ self.old) }
    {
        self.items.push(Followed {
            raised,
            state: State::Detected,
        })?;
        Ok(())
    }

    /// Moves the regression of a number, which is there, to a state. Constant time; takes no memory.
    pub fn move_to(&mut self, number: u64, state: State)
        requires { is_number (length self.old) number ≡ true }
        ensures { IsMovedTo number state self.old self.new }
    {
        self.items[(number - 1) as usize].state = state;
    }
}
