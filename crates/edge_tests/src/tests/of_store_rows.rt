//! Rows that are read and written, and runs over a keeper in memory.
use line_text::{Name, Names};
use std::alloc::Global;
use std::test::Fail;
use store_rows::{
    AppendFault, LoadFault, NoMemory, Recorded, Restored, RowFault, append_each, load_into,
    put_entry_row, put_machine_row, read_row,
};
use track_outside::MemKeeper;

// A row, and where its entry's text begins, if it is a row.
const READ: [(&[u8], Option<Option<usize>>); 12] = [
    (b"machine m", Some(None)),
    (b"machine a%20b", Some(None)),
    (b"entry m commit 0 a", Some(Some(8))),
    (b"entry m ", Some(Some(8))),
    (b"entry m  commit 2 c", Some(Some(8))),
    (b"", None),
    (b"\xff", None),
    (b"machine ", None),
    (b"machine m ", None),
    (b"machine %6d", None),
    (b"entry m", None),
    (b"machines m", None),
];

// The number of the keeper's call that fails; the answers of a load, an append of two rows and a load; how many rows the
// second load took.
const RUNS: [(
    u64,
    Result<(), LoadFault>,
    Result<(), AppendFault>,
    Result<(), LoadFault>,
    u64,
); 8] = [
    (0, Ok(()), Ok(()), Ok(()), 2),
    (1, Err(LoadFault::KeepFault), Ok(()), Ok(()), 2),
    (2, Err(LoadFault::KeepFault), Ok(()), Ok(()), 2),
    (3, Ok(()), Err(AppendFault::KeepFault), Ok(()), 0),
    (4, Ok(()), Ok(()), Err(LoadFault::KeepFault), 0),
    (5, Ok(()), Ok(()), Err(LoadFault::KeepFault), 0),
    (6, Ok(()), Ok(()), Err(LoadFault::KeepFault), 0),
    (7, Ok(()), Ok(()), Err(LoadFault::KeepFault), 1),
];

// Takes two rows and no more.
#[derive(Drop)]
struct Pair {
    rows: u64,
}

impl Restored for Pair {
    ghost use Rattle.std.specs.Prelude.{◌≡◌, ◌<◌, ◌+◌};

    ghost does = { λ before row after. (before.rows < 2) × (after.rows ≡ before.rows + 1) };

    fn take(&mut self, _alloc: Global, _row: &[u8]) -> Result<bool, NoMemory> {
        if self.rows < 2 {
            self.rows += 1;
            Ok(true)
        } else {
            Ok(false)
        }
    }
}

// A row of one byte.
#[derive(Drop)]
struct Letter {
    byte: u8,
}

impl Recorded for Letter {
    ghost use Rattle.std.specs.Prelude.{[], ◌∷◌};

    ghost new_rows = { λ letter. (letter.byte ∷ []) ∷ [] };

    fn put_rows(&self, alloc: Global, out: &mut Vec<Vec<u8>>) -> Result<(), NoMemory> {
        let row = Vec::from_slice(alloc, &[self.byte])?;
        out.push(row)?;
        Ok(())
    }
}

#[test]
fn rows_are_read_and_written_in_their_one_spelling(rt: HostRuntime) -> Result<(), Fail> {
    for row in &READ {
        assert!(rt; reads(rt.alloc(), row.0, row.1), "a row");
    }
    assert!(rt; writes(rt.alloc()), "written");
    Ok(())
}

#[test]
fn each_call_of_a_keeper_may_fail(rt: HostRuntime) -> Result<(), Fail> {
    for run in &RUNS {
        assert!(rt;
            goes(rt.alloc(), run.0, run.1, run.2, run.3, run.4),
            "a run"
        );
    }
    assert!(rt; third_is_bad(rt.alloc()), "the third row");
    Ok(())
}

fn reads(alloc: Global, row: &[u8], wanted: Option<Option<usize>>) -> bool {
    match read_row(alloc, &mut Names::new(alloc, 8), row) {
        Ok(head) => wanted == Some(head.text),
        Err(fault) => fault == RowFault::NotRow && wanted.is_none(),
    }
}

fn writes(alloc: Global) -> bool {
    match Name::of_text(alloc, b"a b") {
        Ok(name) => writes_machine(alloc, &name) && writes_entry(alloc, &name),
        Err(_) => false,
    }
}

fn writes_machine(alloc: Global, name: &Name) -> bool {
    match put_machine_row(alloc, name) {
        Ok(row) => row.as_slice() == b"machine a%20b".as_slice(),
        Err(_) => false,
    }
}

fn writes_entry(alloc: Global, name: &Name) -> bool {
    match put_entry_row(alloc, name, b"retract r") {
        Ok(row) => row.as_slice() == b"entry a%20b retract r".as_slice(),
        Err(_) => false,
    }
}

fn goes(
    alloc: Global,
    fails: u64,
    first: Result<(), LoadFault>,
    added: Result<(), AppendFault>,
    second: Result<(), LoadFault>,
    rows: u64,
) -> bool {
    match MemKeeper::new(alloc, &[fails]) {
        Ok(mut keeper) => {
            loads(alloc, &mut keeper, first, 0)
                && adds(alloc, &mut keeper, added)
                && loads(alloc, &mut keeper, second, rows)
        }
        Err(_) => false,
    }
}

fn third_is_bad(alloc: Global) -> bool {
    match MemKeeper::new(alloc, &[]) {
        Ok(mut keeper) => {
            adds(alloc, &mut keeper, Ok(()))
                && adds(alloc, &mut keeper, Ok(()))
                && loads(alloc, &mut keeper, Err(LoadFault::BadRow(3)), 2)
        }
        Err(_) => false,
    }
}

fn loads(alloc: Global, keeper: &mut MemKeeper, wanted: Result<(), LoadFault>, rows: u64) -> bool {
    let mut pair = Pair { rows: 0 };
    load_into(alloc, keeper, "s", &mut pair) == wanted && pair.rows == rows
}

fn adds(alloc: Global, keeper: &mut MemKeeper, wanted: Result<(), AppendFault>) -> bool {
    let letters = [Letter { byte: b'a' }, Letter { byte: b'b' }];
    append_each(alloc, keeper, &letters) == wanted
}
