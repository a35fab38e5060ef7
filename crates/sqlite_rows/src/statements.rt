//! The statements on a store, of whatever kind it is.
use crate::calls::{bytes_at, find_rows, number_at, run, text_at};
use sqlite::{Alter, Connection, Error, ErrorCode, Row, params};

// The one table of a store.
const TABLE: &str = "CREATE TABLE kept (number INTEGER PRIMARY KEY, content BLOB NOT NULL) STRICT";

// Those of some rows that are short, in order: they take little memory, whatever the store holds.
const ROWS: &str =
    "SELECT number, content FROM kept WHERE number >= ?1 AND number <= ?2 AND length(content) <= 4096 ORDER BY number";

// How many rows there are; none where there is no table yet.
pub(crate) fn rows_in<S: Alter>(store: &mut Connection<S>) -> Result<u64, Error> {
    if has_table(store)? {
        count_rows(store)
    } else {
        Ok(0)
    }
}

// Whether there is the table; any other is an error.
pub(crate) fn has_table<S: Alter>(store: &mut Connection<S>) -> Result<bool, Error> {
    let tables = find_rows(store, "SELECT sql FROM sqlite_schema", &[])?;
    match tables.first() {
        Some(table) if tables.len() == 1 => is_table(table),
        Some(_) => Err(Error::SqliteFailure(ErrorCode::NotADatabase)),
        None => Ok(false),
    }
}

fn is_table(table: &Row) -> Result<bool, Error> {
    let sql = text_at(table, 0)?;
    if sql.as_str() == TABLE {
        Ok(true)
    } else {
        Err(Error::SqliteFailure(ErrorCode::NotADatabase))
    }
}

/// How many rows there are: none where there is no store.
pub fn count_found<S: Alter>(found: &mut Option<Connection<S>>) -> Result<u64, Error> {
    match found {
        Some(store) => count_rows(store),
        None => Ok(0),
    }
}

// How many rows there are: the first is 1, and the last counts them. One that is missing between them is met where it is read.
fn count_rows<S: Alter>(store: &mut Connection<S>) -> Result<u64, Error> {
    let Some(first) = find_number(store, "SELECT number FROM kept ORDER BY number LIMIT 1")? else {
        return Ok(0);
    };
    let last = find_number(
        store,
        "SELECT number FROM kept ORDER BY number DESC LIMIT 1",
    )?;
    match last {
        Some(last) if first == 1 && last > 0 => Ok(last as u64),
        _ => Err(Error::SqliteFailure(ErrorCode::DatabaseCorrupt)),
    }
}

// The number that a statement finds, if it finds one.
fn find_number<S: Alter>(store: &mut Connection<S>, statement: &str) -> Result<Option<i64>, Error> {
    let rows = find_rows(store, statement, &[])?;
    match rows.first() {
        Some(row) => Ok(Some(number_at(row, 0)?)),
        None => Ok(None),
    }
}

// The bytes of row k.
pub(crate) fn read_row<S: Alter>(store: &mut Connection<S>, k: i64) -> Result<Vec<u8>, Error> {
    let rows = find_rows(
        store,
        "SELECT content FROM kept WHERE number = ?1",
        params![k],
    )?;
    match rows.first() {
        Some(row) => bytes_at(row, 0),
        None => Err(Error::QueryReturnedNoRows),
    }
}

// Those of row k and so many rows behind it that are short, each with its number.
pub(crate) fn read_rows<S: Alter>(
    store: &mut Connection<S>,
    k: i64,
    more: i64,
) -> Result<Vec<Row>, Error> {
    find_rows(store, ROWS, params![k, k.saturating_add(more)])
}

// Adds all of the rows by one transaction, or none; answers how many there are then.
pub(crate) fn append_rows<S: Alter>(
    store: &mut Connection<S>,
    rows: &[Vec<u8>],
) -> Result<u64, Error> {
    run(store, "BEGIN", &[])?;
    match add_rows(store, rows) {
        Ok(count) => {
            run(store, "COMMIT", &[])?;
            Ok(count)
        }
        Err(error) => {
            let _ = run(store, "ROLLBACK", &[]);
            Err(error)
        }
    }
}

fn add_rows<S: Alter>(store: &mut Connection<S>, rows: &[Vec<u8>]) -> Result<u64, Error> {
    if !has_table(store)? {
        run(store, TABLE, &[])?;
    }
    let mut number = count_rows(store)?;
    for row in rows {
        number = number.saturating_add(1);
        add_row(store, number, row)?;
    }
    Ok(number)
}

// Adds a row of that number, which no other has.
fn add_row<S: Alter>(store: &mut Connection<S>, number: u64, content: &[u8]) -> Result<(), Error> {
    let Ok(number) = i64::try_from(number) else {
        return Err(Error::SqliteFailure(ErrorCode::NoRowid));
    };
    run(
        store,
        "INSERT INTO kept (number, content) VALUES (?1, ?2)",
        params![number, content],
    )
}
