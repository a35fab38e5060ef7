//! Entries and what is read from a history, copied with ample memory. `submit` copies runs.
use history_model::{Acceptance, Author, Declaration, Entry, Placed, Run};
use line_text::{Boxed, Duplicate, Name};
use sample_model::Samples;
use std::alloc::Global;

// A tuning; none where there is no memory.
fn tuning(alloc: Global) -> Option<Placed> {
    let metric = Name::of_text(alloc, b"B/op").ok()?;
    let penalty = Boxed::new(alloc, 50).ok()?;
    Some(Placed {
        author: Author::Script(1),
        entry: Entry::Tune {
            metric,
            penalty,
            length: 2,
        },
    })
}

// A copy of it.
fn placed(alloc: Global) -> Option<Placed> {
    tuning(alloc)?.copy(alloc).ok()
}

// Whether the copy is that tuning.
fn is_placed(alloc: Global) -> bool {
    match placed(alloc) {
        Some(made) => {
            made.author == Author::Script(1)
                && matches!(&made.entry, Entry::Tune { penalty, length: 2, .. } if *penalty.get() == 50)
        }
        None => false,
    }
}

// The step and the number of a declaration that was copied; none where there is no memory.
fn declared(alloc: Global) -> Option<(u64, u64)> {
    let name = Name::of_text(alloc, b"a").ok()?;
    let declaration = Declaration {
        step: 2,
        number: 10,
        name,
    };
    let made = declaration.copy(alloc).ok()?;
    Some((made.step, made.number))
}

// The step and the commit of an acceptance that was copied; none where there is no memory.
fn accepted(alloc: Global) -> Option<(u64, u64)> {
    let run = Name::of_text(alloc, b"r1").ok()?;
    let acceptance = Acceptance {
        step: 3,
        run: Run {
            run,
            commit: 10,
            samples: Samples::new(alloc),
        },
    };
    let made = acceptance.copy(alloc).ok()?;
    Some((made.step, made.run.commit))
}

#[test]
fn entries_are_copied(rt: HostRuntime) {
    assert!(rt; is_placed(rt.alloc()));
    assert!(rt; declared(rt.alloc()) == Some((2, 10)));
    assert!(rt; accepted(rt.alloc()) == Some((3, 10)));
}
