//! What was loaded from a keeper.
use std::marker::Model;
use track_replay::MachineState;

/// The machines of a store, and the version of its rows: 2 where `format 2` stands among them, else 1.
#[derive(Drop)]
pub struct Loaded {
    /// The machines, in the order of their rows.
    pub states: Vec<MachineState>,
    /// The version.
    pub version: u8,
}

impl Model for Loaded {
    ghost use Rattle.keep_rows.specs.{Codes.track_codes, Loading.Stored};

    ghost Value = { Stored };

    ghost coded = { Prim.hlevel track_codes };

    ghost view = { λ l. record { machines = l.states.items; version = l.version } };
}
