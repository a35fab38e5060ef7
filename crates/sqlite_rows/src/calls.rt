//! The calls of the database that statements make. What it promises of them is long, so it is met once here, and for any store
//! that it can change.
use sqlite::types::ValueRef;
use sqlite::{Alter, Connection, Error, Row};

// All rows that a statement finds.
pub(crate) fn find_rows<S: Alter>(
    store: &mut Connection<S>,
    statement: &str,
    values: &[ValueRef<'_>],
) -> Result<Vec<Row>, Error> {
    store.query_all(statement, values)
}

// Runs a statement that finds no rows.
pub(crate) fn run<S: Alter>(
    store: &mut Connection<S>,
    statement: &str,
    values: &[ValueRef<'_>],
) -> Result<(), Error> {
    match store.execute(statement, values) {
        Ok(_) => Ok(()),
        Err(error) => Err(error),
    }
}

// A number in a row.
pub(crate) fn number_at(row: &Row, column: usize) -> Result<i64, Error> {
    row.get(column)
}

// Bytes in a row.
pub(crate) fn bytes_at(row: &Row, column: usize) -> Result<Vec<u8>, Error> {
    row.get(column)
}

// A text in a row.
pub(crate) fn text_at(row: &Row, column: usize) -> Result<String, Error> {
    row.get(column)
}
