//! The segmentation of the publication that comes next.
ghost use Rattle.std.specs.Prelude.{◌≡◌, ◌≤◌, ◌↔◌, IfOk, IfSome, IfNone, IsTrue, length, take};
ghost use Rattle.segment_cost.specs.{Certificate.StandsFor, declared.cert.Cert.Cert};
ghost use Rattle.history_model.specs.{Entries.entries_of, Positions.positions, Publications.{IsBaseAt, Stands, published}};
ghost use Rattle.track_model.specs.Tracks.{is_setting};
ghost use Rattle.journal_walk.specs.{Ahead.IsReady, Made.{IsMadeFor, IsSegmented}, Versions.IsOf};

use crate::NoMemory;
use crate::ahead::Ahead;
use crate::start::{Start, start_at};
use crate::version::Version;
use history_model::{Placed, Publication, Setting, publication_law};
use line_text::{Duplicate, Name};
use machine_state::MachineState;
use point_list::{FrozenPoints, common_prefix};
use segment_cost::Done;
use segment_model::{agreeing_costs_law, best_list_law, cost_law};
use std::alloc::Global;
use track_step::{Redone, Snapshot, compute_apart};

// The best segmentation of a publication's series as it was at its version, as one that was redone from older positions. A
// table that was kept is redone, whichever it is.
fn segmented(
    alloc: Global,
    p: &Publication,
    then: &Version,
    old: &FrozenPoints,
    kept: Option<Start>,
) -> Result<Redone, NoMemory>
    ensures { IfOk result (IsSegmented p.now then.now old.now) }
{
    let start = start_at(alloc, kept, then.setting)?;
    let snapshot = Snapshot {
        test: p.test.copy(alloc)?,
        metric: p.metric.copy(alloc)?,
        version: p.version,
        penalty: then.setting.penalty,
        length: then.setting.length,
        base: 0,
        points: then.points.share()?,
        old: start.points,
        table: start.table,
    };
    let Redone { done, table } = compute_apart(alloc, snapshot)?;
    let redone = (then.points.len() - common_prefix(old, &then.points)) as u64;
    let Done {
        test,
        metric,
        version,
        cert,
        points,
        ..
    } = done;
    let done = Done {
        test,
        metric,
        version,
        base: p.base,
        redone,
        cert,
        points,
    };
    Ok(Redone { done, table })
}

// The positions at the base of the publication that comes next, which are none at base 0; nothing exactly where it may not
// have that base.
fn base_points(
    alloc: Global,
    track: &MachineState,
    history: &[Placed],
    ahead: &Ahead,
    p: &Publication,
    then: &Version,
) -> Result<Option<FrozenPoints>, NoMemory>
    requires ready { IsReady (entries_of history.now) (entries_of track.now.history)
        ahead.now p.now }
    requires past { p.now.version ≤ length (entries_of track.now.history) }
    requires then { IsOf (take p.now.version (entries_of track.now.history))
        (published p.now) then.now }
    ensures some { IfOk result (λ o. IfSome o (λ old.
        IsBaseAt (take p.now.version (entries_of track.now.history)) p.now
        × (old ≡ positions (take p.now.base (take p.now.version (entries_of track.now.history)))
        (published p.now)))) }
    ensures none { IfOk result (λ o. IfNone o
        (¬ IsBaseAt (take p.now.version (entries_of track.now.history)) p.now)) }
{
    track.history_law();
    publication_law();
    if p.base == 0 {
        return Ok(Some(FrozenPoints::none(alloc)?));
    }
    if !ahead.firsts.has_base(p)? {
        return Ok(None);
    }
    let Some(base) = &ahead.bases[track.len() as usize] else {
        return Ok(None);
    };
    if !is_same_setting(base.setting, then.setting) {
        return Ok(None);
    }
    Ok(Some(base.points.share()?))
}

// Whether two settings are one.
pub fn is_same_setting(one: Setting, other: Setting) -> bool
    ensures { result ≡ is_setting one other }
{
    one.penalty == other.penalty && one.length == other.length
}

// Whether a publication says what was made for it.
fn is_said(done: &Done, p: &Publication) -> bool
    ensures { IsTrue result ↔ ((done.now.cert.total ≡ p.now.total) × (done.now.cert.cuts ≡ p.now.cuts)) }
{
    done.cert.total == p.total && done.cert.cuts.as_slice() == p.cuts.as_slice()
}

// The segmentation of the publication that comes next; none exactly where it doesn't stand behind the entries so far. Redoes
// a table that was kept.
pub fn made_next(
    alloc: Global,
    track: &MachineState,
    history: &[Placed],
    ahead: &Ahead,
    p: &Publication,
    kept: Option<Start>,
) -> Result<Option<Redone>, NoMemory>
    requires { IsReady (entries_of history.now) (entries_of track.now.history)
        ahead.now p.now }
    ensures some { IfOk result (λ o. IfSome o
        (IsMadeFor (entries_of track.now.history) p.now)) }
    ensures none { IfOk result (λ o. IfNone o (¬ Stands (entries_of track.now.history) p.now)) }
{
    track.history_law();
    publication_law();
    cost_law();
    best_list_law();
    agreeing_costs_law();
    let Some(then) = &ahead.versions[track.len() as usize] else {
        return Ok(None);
    };
    let Some(old) = base_points(alloc, track, history, ahead, p, then)? else {
        return Ok(None);
    };
    let made = segmented(alloc, p, then, &old, kept)?;
    if !is_said(&made.done, p) {
        return Ok(None);
    }
    Ok(Some(made))
}

// How many cuts the best segmentation of a series has that is so.
pub fn best_cuts(alloc: Global, test: &Name, metric: &Name, now: &Version) -> Result<u64, NoMemory>
    ensures { IfOk result (λ count. (cert : Cert) × StandsFor now.now.points now.now.setting.penalty now.now.setting.length cert
        × (count ≡ length cert.cuts)) }
{
    let snapshot = Snapshot {
        test: test.copy(alloc)?,
        metric: metric.copy(alloc)?,
        version: 0,
        penalty: now.setting.penalty,
        length: now.setting.length,
        base: 0,
        points: now.points.share()?,
        old: FrozenPoints::none(alloc)?,
        table: None,
    };
    let made = compute_apart(alloc, snapshot)?;
    Ok(made.done.cert.cuts.len() as u64)
}
