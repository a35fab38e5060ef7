//! Which entries may come behind one another in a journal.
ghost use Rattle.std.specs.{Prelude.{◌↔◌, List, IsTrue}, List.AllByRecursion};
ghost use Rattle.history_model.specs.declared.entries.Placed.{Placed as APlaced};
ghost use Rattle.journal_lines.specs.{Authors.{IsOneOf, IsPublication, IsSettled}, Coming.{MayCome, WasKept}};

use history_model::{Author, Entry, JobEvent, Placed};

// The number of workers of a kind.
const WORKERS: u8 = 8;

// Whether an entry may come behind others, all of which were kept or not.
pub(crate) fn may_come(scripts: u8, kept: bool, placed: &Placed) -> bool
    ensures { (before : List APlaced) → (IsTrue kept ↔ AllByRecursion WasKept before)
        → (IsTrue result ↔ MayCome scripts before placed.now) }
{
    match placed.author {
        Author::Kept => kept && !is_publication(&placed.entry),
        Author::Script(number) => is_one_of(scripts, number),
        Author::Recompute(number) => { is_one_of(WORKERS, number) && is_publication(&placed.entry) }
        Author::Bisect(number) => is_one_of(WORKERS, number) && is_settled(&placed.entry),
    }
}

fn is_one_of(count: u8, number: u8) -> bool
    ensures { IsTrue result ↔ IsOneOf count number }
{
    1 <= number && number <= count
}

fn is_publication(entry: &Entry) -> bool
    ensures { IsTrue result ↔ IsPublication entry.now }
{
    matches!(entry, Entry::Publish { .. })
}

// Whether an entry says what was found of a question.
fn is_settled(entry: &Entry) -> bool
    ensures { IsTrue result ↔ IsSettled entry.now }
{
    match entry {
        Entry::Job { event } => match event {
            JobEvent::Begin { .. } => false,
            JobEvent::Answer { .. } => true,
            JobEvent::GiveUp { .. } => true,
        },
        _ => false,
    }
}
