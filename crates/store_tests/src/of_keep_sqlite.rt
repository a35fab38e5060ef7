//! Rows are there again when a store is opened again; files that are none are refused.
use keep_sqlite::SqliteKeeper;
use sqlite::{Connection, FileStore};
use sqlite_disk::Disk;
use std::alloc::{AllocError, Global};
use std::fs;
use track_outside::Keeper;

const FILE: &str = "rows.db";

// A file that two keepers make at once.
const SHARED: &str = "shared.db";

const OTHER_FILE: &str = "no_database";

// Files with tables that no store has.
const OTHERS: [(&str, &str); 3] = [
    (
        "other.db",
        "CREATE TABLE other (number INTEGER PRIMARY KEY, content BLOB NOT NULL) STRICT",
    ),
    (
        "text.db",
        "CREATE TABLE kept (number INTEGER PRIMARY KEY, content TEXT NOT NULL) STRICT",
    ),
    (
        "more.db",
        "CREATE TABLE kept (number INTEGER PRIMARY KEY, content BLOB NOT NULL) STRICT; CREATE TABLE more (name TEXT) STRICT",
    ),
];

// A store whose second row has the number 3.
const GAP: (&str, &str) = (
    "gap.db",
    "CREATE TABLE kept (number INTEGER PRIMARY KEY, content BLOB NOT NULL) STRICT; INSERT INTO kept VALUES (1, x'61'), (3, x'62')",
);

// A store whose rows don't begin with 1.
const BEFORE: (&str, &str) = (
    "before.db",
    "CREATE TABLE kept (number INTEGER PRIMARY KEY, content BLOB NOT NULL) STRICT; INSERT INTO kept VALUES (0, x'61'), (1, x'62')",
);

// What SQLite takes for something other than a file's name.
const NO_NAMES: [&str; 2] = [":memory:", "file:rows.db"];

// A store of many rows, some of them short and one long.
const MANY: &str = "many.db";

#[test]
fn rows_are_there_after_an_opening(rt: HostRuntime) {
    assert!(rt; makes(&rt, rt.alloc()), "made");
    assert!(rt; reopens(&rt, rt.alloc()), "opened again");
    assert!(rt; is_locked(&rt, rt.alloc()), "open elsewhere");
    assert!(rt; adds_behind_none(&rt, rt.alloc()), "two at once");
}

#[test]
fn other_files_are_refused(rt: HostRuntime) {
    for (file, statements) in &OTHERS {
        assert!(rt;
            holds(&rt, file, statements) && is_refused(&rt, rt.alloc(), file),
            "another table"
        );
    }
    assert!(rt;
        fs::write(&rt, OTHER_FILE, b"no database".as_slice()).is_ok(),
        "written"
    );
    assert!(rt; is_refused(&rt, rt.alloc(), OTHER_FILE), "no database");
    assert!(rt; is_refused(&rt, rt.alloc(), "."), "a folder");
    assert!(rt;
        holds(&rt, GAP.0, GAP.1) && has_gap(&rt, rt.alloc()),
        "a gap"
    );
    assert!(rt;
        holds(&rt, BEFORE.0, BEFORE.1) && is_refused(&rt, rt.alloc(), BEFORE.0),
        "a row before the first"
    );
    for name in &NO_NAMES {
        assert!(rt; is_never_made(&rt, rt.alloc(), name), "no file's name");
    }
}

#[test]
fn many_rows_are_read(rt: HostRuntime) {
    assert!(rt;
        makes_many(&rt, rt.alloc()) && holds(&rt, MANY, "DELETE FROM kept WHERE number = 600"),
        "made"
    );
    assert!(rt; has_many(&rt, rt.alloc()), "many rows");
}

// Whether something is so of a keeper, which is let go of behind it. What a keeper owns is much, so it is let go of here, where
// its type isn't known.
fn is_so<K: Drop, F: FnOnce(&mut K) -> bool>(mut keeper: K, test: F) -> bool
    requires { F.IsAlwaysCallable test }
{
    test(&mut keeper)
}

// Whether no call is answered before a start, no file is made before the first append, and then the row is there.
fn makes(rt: &HostRuntime, alloc: Global) -> bool {
    is_so(SqliteKeeper::new(rt, alloc), |keeper| {
        let fresh = keeper.count().is_err() && keeper.start(alloc, FILE).is_ok();
        fresh && is_missing(rt) && adds(alloc, keeper) && has(alloc, keeper)
    })
}

fn is_missing(rt: &HostRuntime) -> bool {
    match fs::exists(rt, FILE) {
        Ok(found) => !found,
        Err(_) => false,
    }
}

fn reopens(rt: &HostRuntime, alloc: Global) -> bool {
    is_so(SqliteKeeper::new(rt, alloc), |keeper| {
        keeper.start(alloc, FILE).is_ok() && has(alloc, keeper)
    })
}

// Whether a store can't be opened while it is open.
fn is_locked(rt: &HostRuntime, alloc: Global) -> bool {
    is_so(SqliteKeeper::new(rt, alloc), |keeper| {
        keeper.start(alloc, FILE).is_ok() && is_refused(rt, alloc, FILE)
    })
}

// Whether, where no file was there, a keeper adds nothing behind the rows of another.
fn adds_behind_none(rt: &HostRuntime, alloc: Global) -> bool {
    is_so(SqliteKeeper::new(rt, alloc), |keeper| {
        let begun = keeper.start(alloc, SHARED).is_ok() && keeper.count() == Ok(0);
        begun && adds_to(rt, alloc) && !adds_row(alloc, keeper)
    })
}

fn adds_to(rt: &HostRuntime, alloc: Global) -> bool {
    is_so(SqliteKeeper::new(rt, alloc), |keeper| {
        keeper.start(alloc, SHARED).is_ok() && adds(alloc, keeper)
    })
}

fn adds(alloc: Global, keeper: &mut SqliteKeeper<'_>) -> bool {
    keeper.count() == Ok(0) && adds_row(alloc, keeper)
}

fn adds_row(alloc: Global, keeper: &mut SqliteKeeper<'_>) -> bool {
    match Vec::from_slice(alloc, b"machine m\xff") {
        Ok(row) => keeper.append(alloc, &[row]).is_ok(),
        Err(_) => false,
    }
}

fn has(alloc: Global, keeper: &mut SqliteKeeper<'_>) -> bool {
    match keeper.row(alloc, 1) {
        Ok(row) => {
            row.as_slice() == b"machine m\xff".as_slice()
                && keeper.count() == Ok(1)
                && keeper.row(alloc, 2).is_err()
        }
        Err(_) => false,
    }
}

fn is_refused(rt: &HostRuntime, alloc: Global, name: &str) -> bool {
    is_so(SqliteKeeper::new(rt, alloc), |keeper| {
        keeper.start(alloc, name).is_err()
    })
}

// Whether no row can be added under a name.
fn is_never_made(rt: &HostRuntime, alloc: Global, name: &str) -> bool {
    is_so(SqliteKeeper::new(rt, alloc), |keeper| {
        keeper.start(alloc, name).is_ok() && keeper.count() == Ok(0) && !adds_row(alloc, keeper)
    })
}

// Whether the second row isn't there, though rows are counted to the third.
fn has_gap(rt: &HostRuntime, alloc: Global) -> bool {
    is_so(SqliteKeeper::new(rt, alloc), |keeper| {
        keeper.start(alloc, GAP.0).is_ok()
            && keeper.count() == Ok(3)
            && keeper.row(alloc, 1).is_ok()
            && keeper.row(alloc, 2).is_err()
    })
}

fn makes_many(rt: &HostRuntime, alloc: Global) -> bool {
    let Ok(rows) = many_rows(alloc) else {
        return false;
    };
    is_so(SqliteKeeper::new(rt, alloc), |keeper| {
        keeper.start(alloc, MANY).is_ok()
            && keeper.count() == Ok(0)
            && keeper.append(alloc, &rows).is_ok()
    })
}

fn many_rows(alloc: Global) -> Result<Vec<Vec<u8>>, AllocError> {
    let mut rows = Vec::new(alloc);
    for k in 1..700usize {
        let mut row = Vec::new(alloc);
        row.resize(length_of(k), b'a')?;
        rows.push(row)?;
    }
    Ok(rows)
}

// How many bytes row k has, so that no two have the same.
fn length_of(k: usize) -> usize {
    if k == 300 { 6_000 } else { k }
}

// Whether each row before the gap at 600 is there, the gap is a fault, and rows are also read out of their order.
fn has_many(rt: &HostRuntime, alloc: Global) -> bool {
    is_so(SqliteKeeper::new(rt, alloc), |keeper| {
        keeper.start(alloc, MANY).is_ok()
            && first_missing(alloc, keeper) == 600
            && keeper.row(alloc, 600).is_err()
            && has_row(alloc, keeper, 601)
            && has_row(alloc, keeper, 300)
            && has_row(alloc, keeper, 300)
            && has_row(alloc, keeper, 1)
    })
}

// The number of the first row that isn't there.
fn first_missing(alloc: Global, keeper: &mut SqliteKeeper<'_>) -> usize {
    for k in 1..700usize {
        if !has_row(alloc, keeper, k) {
            return k;
        }
    }
    0
}

fn has_row(alloc: Global, keeper: &mut SqliteKeeper<'_>, k: usize) -> bool {
    match keeper.row(alloc, k as u64) {
        Ok(row) => row.len() == length_of(k),
        Err(_) => false,
    }
}

// Makes the file by these statements.
fn holds(rt: &HostRuntime, file: &str, statements: &str) -> bool {
    match Connection::open(rt, file) {
        Ok(store) => has_run(store, statements),
        Err(_) => false,
    }
}

// Runs these statements on a store, and closes it.
fn has_run<D: Disk + Drop>(mut store: Connection<FileStore<D>>, statements: &str) -> bool {
    let done = store.execute_batch(statements).is_ok();
    let _ = store.close();
    done
}
