//! A shared run: scripts that run at once, and workers beside them, on the machines of a store and of a list.
//!
//! `specs/Endings.antt` says how a run ends on its objects, `specs/Ran.antt` what became of the scripts, `specs/Crews.antt` of
//! the workers beside them, `specs/Stops.antt` which stop decides, `specs/Lists.antt` which machines a list adds.
#![tactic(auto)]

mod crew;
mod finishing;
mod leaving;
mod machines;
mod run;
mod scripts;
mod stop;

pub use machines::{ListFault, add_listed};
pub use run::run_players;
pub use scripts::run_scripts;
pub use stop::{RunStop, deciding_stop};
