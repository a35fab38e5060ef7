//! A finished segmentation, with its table where that is home.
ghost use Rattle.std.specs.Prelude.{◌≡◌, None, Some, option_copied};
ghost use Rattle.publication_index.specs.Standing.{IsTableFor};

use pelt_core::{Done, Square, Table};

// A finished segmentation, and the table of its points at its penalty, unless that was taken.
#[derive(Drop)]
pub struct Held {
    pub done: Done,
    pub table: Option<Table<Square>>,
    pub ghost stands: { ∥ IsTableFor done table ∥₁ },
}

impl Held {
    ghost use Rattle.publication_index.specs.Kept.{done_at_home};

    // The segmentation, where its table is home.
    pub fn at_home(&self) -> Option<&Done>
        ensures { option_copied result ≡ done_at_home (Some self.now) }
    {
        match &self.table {
            Some(_) => Some(&self.done),
            None => None,
        }
    }

    // Takes the table, if it is home.
    pub fn take_table(&mut self) -> Option<Table<Square>>
        ensures taken { result ≡ self.old.table }
        ensures stands { IsTableFor self.old.done result }
        ensures done { self.new.done ≡ self.old.done }
        ensures bare { self.new.table ≡ None }
    {
        self.table.take()
    }
}
