//! How the file of a store is opened and closed.
ghost use Rattle.std.specs.Prelude.{IsTrue};

use crate::statements::{append_rows, has_table, rows_in};
use sqlite::{Alter, Connection, Error, ErrorCode, File, FileStore, Files, Options, Unknown};
use sqlite_disk::Disk;
use sqlite_std_file::OpenError;
use std::alloc::Global;
use std::fs;
use std::hash::{BuildHasher, RandomState};
use std::io::ErrorKind;

/// An open store.
pub type Store = Connection<FileStore<File>>;

// How many pages of a file are kept in memory. Rows are read once and in order, so few are asked for again, and a cache takes
// time to make.
const PAGES: usize = 64;

/// Opens the file of that name, if there is one and it has the table of a store; an error where it has another.
pub fn find_store(rt: &HostRuntime, name: &str) -> Result<Option<Store>, Error> {
    match fs::exists(rt, name) {
        Ok(true) => {}
        Ok(false) => return Ok(None),
        Err(_) => return Err(Error::SqliteFailure(ErrorCode::CannotOpen)),
    }
    with_table(open(rt, name)?)
}

// A store, if it has a table.
fn with_table<S: Alter + Drop>(mut store: Connection<S>) -> Result<Option<Connection<S>>, Error> {
    if has_table(&mut store)? {
        Ok(Some(store))
    } else {
        Ok(None)
    }
}

/// Opens the file of that name, or makes it. Where it has not so many rows, another run changed it meanwhile, which is an error.
pub fn open_store(rt: &HostRuntime, name: &str, count: u64) -> Result<Store, Error> {
    with_count(open(rt, name)?, count)
}

// A store that has so many rows.
fn with_count<S: Alter + Drop>(
    mut store: Connection<S>,
    count: u64,
) -> Result<Connection<S>, Error> {
    if rows_in(&mut store)? == count {
        Ok(store)
    } else {
        Err(Error::SqliteFailure(ErrorCode::DatabaseBusy))
    }
}

// Opens the file of that name, or makes it. Refuses what SQLite takes for another thing than a file's name.
fn open(rt: &HostRuntime, name: &str) -> Result<Store, Error> {
    if name == ":memory:" || name.starts_with("file:") {
        return Err(Error::SqliteFailure(ErrorCode::CannotOpen));
    }
    let options = options(rt)?;
    let files = match sqlite_std_file::open(rt, name, Unknown) {
        Ok(files) => files,
        Err(fault) => return Err(Error::SqliteFailure(code_of(fault))),
    };
    connect(rt.alloc(), files, options)
}

// The database that files hold, of whatever kind they are.
fn connect<D: Disk + Drop>(
    alloc: Global,
    files: Files<D>,
    options: Options,
) -> Result<Connection<FileStore<D>>, Error>
    requires log { IsTrue (D.Disk.is_usable files.log) }
    requires db { IsTrue (D.Disk.is_usable files.db) }
{
    match Connection::open_files(alloc, files, options) {
        Ok(store) => Ok(store),
        Err((error, _)) => Err(error),
    }
}

fn options(rt: &HostRuntime) -> Result<Options, Error> {
    let Ok(state) = RandomState::new(rt) else {
        return Err(Error::SqliteFailure(ErrorCode::CannotOpen));
    };
    let mut options = Options::new(state.hash_one(&0u8));
    options.cache_pages = PAGES;
    Ok(options)
}

fn code_of(fault: OpenError) -> ErrorCode {
    match fault {
        OpenError::OutOfMemory => ErrorCode::OutOfMemory,
        OpenError::Io(error) if error.kind() == ErrorKind::OutOfMemory => ErrorCode::OutOfMemory,
        OpenError::Busy => ErrorCode::DatabaseBusy,
        OpenError::Io(_) | OpenError::HotJournal => ErrorCode::CannotOpen,
    }
}

/// Adds all of the rows, or none, and closes the store, which moves them from the log into the file: they are there even where
/// that fails. Answers how many there are then. Linear in the rows.
pub fn append_last<D: Disk + Drop>(
    mut store: Connection<FileStore<D>>,
    rows: &[Vec<u8>],
) -> Result<u64, Error> {
    let count = append_rows(&mut store, rows)?;
    let _ = store.close();
    Ok(count)
}
