//! A machine with its whole history.

use history_model::Placed;
use line_text::Name;
use std::marker::Model;

/// A machine with its whole history.
#[derive(Drop)]
pub struct Journal {
    /// The machine.
    pub machine: Name,
    /// Its entries.
    pub history: Vec<Placed>,
}

impl Model for Journal {
    ghost use Rattle.journal_lines.specs.Texts.{Journal as Read};

    ghost Value = { Read };

    ghost view = { λ j. record { machine = j.machine; history = j.history.items } };
}
