//! The publication that comes next, added.
ghost use Rattle.std.specs.Prelude.{◌≡◌, IfOk, IfSome, IfNone, OnErr};
ghost use Rattle.history_model.specs.{Allowed.Allowed, Entries.entries_of};
ghost use Rattle.history_model.specs.declared.entries.Entry.TheVariants as entry;
ghost use Rattle.publication_index.specs.Standing.{table_for};
ghost use Rattle.machine_state.specs.Made.{IsMadeFrom, publication_from};
ghost use Rattle.journal_walk.specs.{Ahead.{IsReady, KeepsAhead}, Steps.Publishes};

use crate::NoMemory;
use crate::ahead::Ahead;
use crate::made::made_next;
use crate::tables::Tables;
use history_model::{Author, Placed, Publication};
use machine_state::MachineState;
use request_model::Reply;
use track_step::{Published, Redone, finish};

// Adds what was made, and gives the reply to the request for it; none where it isn't allowed.
fn publish(track: &mut MachineState, made: Redone) -> Result<Option<Reply>, NoMemory>
    requires made { IsMadeFrom (entries_of track.old.history) made.done }
    requires tabled { made.table ≡ table_for made.done }
    ensures published { IfOk result (λ o. IfSome o
        (Publishes track.old (publication_from made.done) track.new)) }
    ensures none { IfOk result (λ o. IfNone o (¬ Allowed (entries_of track.old.history)
        (entry.Publish (publication_from made.done)))) }
    ensures kept { IfOk result (λ o. IfNone o (track.new ≡ track.old)) }
    ensures same { OnErr result (track.new ≡ track.old) }
{
    let Redone { done, table } = made;
    let finished = finish(track, Author::Kept, done, table)?;
    match finished.told {
        Published::Ok(_) => Ok(Some(finished.reply)),
        Published::Stale(_) => Ok(None),
        Published::Full(_) => Ok(None),
    }
}

// Adds the publication that comes next, and gives the reply to the request for it; none exactly where it isn't allowed. Redoes
// the table that is kept of its series, and keeps the new one, where there is memory for it.
pub fn publish_next(
    history: &[Placed],
    track: &mut MachineState,
    ahead: &mut Ahead,
    tables: &mut Tables,
    p: &Publication,
) -> Result<Option<Reply>, NoMemory>
    requires { IsReady (entries_of history.now) (entries_of track.old.history) ahead.old p.now }
    ensures keeps { KeepsAhead (entries_of history.now) (entries_of track.new.history) ahead.new }
    ensures published { IfOk result (λ o. IfSome o (Publishes track.old p.now track.new)) }
    ensures none { IfOk result (λ o. IfNone o
        (¬ Allowed (entries_of track.old.history) (entry.Publish p.now))) }
    ensures kept { IfOk result (λ o. IfNone o (track.new ≡ track.old)) }
    ensures same { OnErr result (track.new ≡ track.old) }
{
    let place = track.len() as usize;
    let kept = tables.take(p);
    let Some(made) = made_next(track.alloc(), track, history, ahead, p, kept)? else {
        return Ok(None);
    };
    let Some(reply) = publish(track, made)? else {
        return Ok(None);
    };
    ahead.let_go(place);
    let _kept = tables.keep(track, p);
    Ok(Some(reply))
}
