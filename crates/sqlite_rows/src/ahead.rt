//! Rows of a store that are read before they are asked for.
use crate::calls::{bytes_at, number_at};
use crate::statements::{read_row, read_rows};
use sqlite::{Alter, Connection, Error, Row};
use std::alloc::Global;

/// Short rows behind the one that was asked for last. Rows are mostly asked for in order, and a statement for each takes
/// longer than its bytes do.
#[derive(Drop)]
pub struct Ahead {
    // The last is first, so that the next leaves without moving the others.
    rows: Vec<Row>,
    // How many rows behind the one that is asked for are looked at: none behind a long one, then one, three, seven and so on,
    // so that little is looked at in vain.
    more: i64,
}

// The most rows behind the one that is asked for.
const MOST: i64 = 255;

impl Ahead {
    /// No rows.
    pub fn new(alloc: Global) -> Ahead {
        Ahead {
            rows: Vec::new(alloc),
            more: 0,
        }
    }

    /// Lets go of the rows.
    pub fn clear(&mut self) {
        self.rows.clear();
    }

    /// Takes the bytes of row k, if it is the next of the rows.
    pub fn next(&mut self, k: i64) -> Option<Vec<u8>> {
        match number_at(self.rows.last()?, 0) {
            Ok(number) if number == k => bytes_at(&self.rows.pop()?, 1).ok(),
            _ => None,
        }
    }

    /// The bytes of row k, which isn't the next: by a statement for it and rows behind it, or by one of its own, where rows
    /// behind it are read already, where it is long, and where one of them can't be read: so a fault is met at its row.
    pub fn read<S: Alter>(&mut self, store: &mut Connection<S>, k: i64) -> Result<Vec<u8>, Error> {
        if self.rows.is_empty() {
            self.fill(store, k);
        }
        match self.next(k) {
            Some(row) => {
                self.more = self.more.saturating_mul(2).saturating_add(1).min(MOST);
                Ok(row)
            }
            None => {
                self.more = 0;
                read_row(store, k)
            }
        }
    }

    // Reads those of row k and rows behind it that are short, or none where one of them can't be read.
    fn fill<S: Alter>(&mut self, store: &mut Connection<S>, k: i64) {
        if let Ok(mut rows) = read_rows(store, k, self.more) {
            rows.reverse();
            self.rows = rows;
        }
    }
}
