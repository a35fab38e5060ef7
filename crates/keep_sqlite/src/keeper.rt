//! A keeper over the statements on a store.
ghost use Rattle.std.specs.Prelude.{◌≡◌, ℕ, ◌≤◌, Option, None};
ghost use Rattle.track_outside.specs.Counts.{Rose};
ghost use Rattle.track_outside.specs.declared.out_error.OutError.TheVariants as error;

use sqlite::{Error, ErrorCode};
use sqlite_rows::{Ahead, Store, append_last, count_found, find_store, open_store};
use std::alloc::Global;
use std::marker::Model;
use track_outside::{Failed, Keeper, OutError};

/// A keeper of rows in a SQLite file. Until a `start` has answered Ok, its other calls fail. Contracts see how often it
/// failed.
#[derive(Drop)]
pub struct SqliteKeeper<'a> {
    rt: &'a HostRuntime,
    // The name of the file, once it was started.
    name: Option<String>,
    // The file, while it is open. It isn't where there is none yet, and between an append and the next call.
    store: Option<Store>,
    // Rows that were read from the open file before they are asked for.
    ahead: Ahead,
    // How many rows it had when it was started, or rows were added last. Another run may change the file while it isn't open.
    count: u64,
    faults: u64,
}

impl<'a> Model for SqliteKeeper<'a> {
    ghost use Rattle.std.specs.Prelude.{ℕ};

    ghost Value = { ℕ };

    ghost view = { λ s. s.faults };
}

impl<'a> SqliteKeeper<'a> {
    /// A keeper that was not started.
    pub fn new(rt: &'a HostRuntime, alloc: Global) -> SqliteKeeper<'a>
        ensures { result ≡ 0 }
    {
        SqliteKeeper {
            rt,
            name: None,
            store: None,
            ahead: Ahead::new(alloc),
            count: 0,
            faults: 0,
        }
    }

    // Counts one fault more.
    fn fail(&mut self) -> Failed
        ensures rose { Rose self.old self.new }
        ensures counts { self.old ≤ self.new }
    {
        self.faults = self.faults.saturating_add(1);
        Failed
    }

    // An answer of the store, of which each error but want of memory is counted.
    fn counted<T: Drop>(&mut self, answer: Result<T, Error>) -> Result<T, OutError>
        ensures rose { result ≡ Err error.Failed → Rose self.old self.new }
        ensures counts { self.old ≤ self.new }
    {
        match answer {
            Ok(given) => Ok(given),
            Err(Error::SqliteFailure(ErrorCode::OutOfMemory)) => Err(OutError::NoMemory),
            Err(_) => {
                let _ = self.fail();
                Err(OutError::Failed)
            }
        }
    }

    // Closes what was started, finds the file of that name, if there is one, and counts its rows.
    fn begin(&mut self, name: String) -> Result<(), Error>
        ensures { self.new ≡ self.old }
    {
        self.name = None;
        replace(&mut self.store, None);
        self.ahead.clear();
        replace(&mut self.store, find_store(self.rt, &name)?);
        self.count = count_found(&mut self.store)?;
        self.name = Some(name);
        Ok(())
    }

    // Opens the file that was started, if there is one by now and it isn't open. Another run may have changed it meanwhile.
    fn open_again(&mut self) -> Result<(), Error>
        ensures { self.new ≡ self.old }
    {
        let Some(name) = &self.name else {
            return Err(Error::InvalidQuery);
        };
        if self.store.is_none() {
            self.ahead.clear();
            replace(&mut self.store, find_store(self.rt, name)?);
        }
        Ok(())
    }

    // Row k. Rows that were read before are there only while the file is open.
    fn read_kept(&mut self, k: u64) -> Result<Vec<u8>, Error>
        ensures { self.new ≡ self.old }
    {
        let Ok(k) = i64::try_from(k) else {
            return Err(Error::QueryReturnedNoRows);
        };
        match self.ahead.next(k) {
            Some(row) => Ok(row),
            None => self.read_on(k),
        }
    }

    // Row k from the file, and rows behind it.
    fn read_on(&mut self, k: i64) -> Result<Vec<u8>, Error>
        ensures { self.new ≡ self.old }
    {
        self.open_again()?;
        match &mut self.store {
            Some(store) => self.ahead.read(store, k),
            None => Err(Error::QueryReturnedNoRows),
        }
    }

    // Adds all of the rows, and closes the file, so that it holds them.
    fn add(&mut self, rows: &[Vec<u8>]) -> Result<(), Error>
        ensures { self.new ≡ self.old }
    {
        self.ahead.clear();
        let Some(name) = &self.name else {
            return Err(Error::InvalidQuery);
        };
        if rows.is_empty() {
            return Ok(());
        }
        let store = match self.store.take() {
            Some(store) => store,
            None => open_store(self.rt, name, self.count)?,
        };
        self.count = append_last(store, rows)?;
        Ok(())
    }
}

// Lets go of a value for another. What a store owns is much, so it is let go here, where its type isn't known.
fn replace<T: Drop>(place: &mut T, value: T) {
    *place = value;
}

impl<'a> Keeper for SqliteKeeper<'a> {
    ghost kept = { λ s. None };

    ghost started = { λ s. None };

    ghost faults = { λ s. s };

    fn start(&mut self, alloc: Global, name: &str) -> Result<(), OutError> {
        let name = String::from_str(alloc, name)?;
        let begun = self.begin(name);
        self.counted(begun)
    }

    // The rows are counted by `start`, which can tell want of memory, and added to by `append`.
    fn count(&mut self) -> Result<u64, Failed> {
        if self.name.is_none() {
            return Err(self.fail());
        }
        Ok(self.count)
    }

    fn row(&mut self, _alloc: Global, k: u64) -> Result<Vec<u8>, OutError> {
        let row = self.read_kept(k);
        self.counted(row)
    }

    fn append(&mut self, _alloc: Global, rows: &[Vec<u8>]) -> Result<(), OutError> {
        let added = self.add(rows);
        self.counted(added)
    }
}
