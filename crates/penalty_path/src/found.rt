//! The path of some points.
ghost use Rattle.std.specs.Prelude.{◌≡◌, ℤ, ◌+◌, ◌-◌, ◌*◌, ◌^◌, ◌<◌, ◌≤◌, [], ◌∷◌, ◌++◌, max, length, pos, ◌+ℤ◌, ◌*ℤ◌, ◌≤ℤ◌, ◌<ℤ◌, ◌↔◌, IsTrue, OnOk, IfOk};
ghost use Rattle.segment_cost.specs.{Certificate.StandsFor, declared.cert.Cert.Cert};
ghost use Rattle.penalty_path.specs.{Paths.{IsRange, IsPath}, Growing.{IsBounded, extended, single, stretches_of}, Crossing.{Crosses, Parts}};

use crate::checked::{are_equal, same_cuts};
use crate::laws::{path_law, points_law};
use crate::stretch::{Stretch, Stretches};
use line_text::Duplicate;
use pelt_core::segmentation;
use segment_cost::{Cert, NoMemory, Points};
use segment_model::cost_law;
use std::alloc::Global;

/// The path of the points from one penalty to another.
///
/// Makes at most three tables for each stretch, as [`counted_path`] does. The only error is want of memory.
pub fn path(alloc: Global, points: &Points, low: i128, high: i128) -> Result<Stretches, NoMemory>
    requires few { length points.now ≤ 1_024 }
    requires range { IsRange low high }
    ensures path { IfOk result (λ made. IsPath points.now low high made) }
    ensures short { IfOk result (λ made. length made ≤ max 1 (length points.now)) }
{
    path_law();
    let counted = counted_path(alloc, points, low, high)?;
    Ok(counted.stretches)
}

/// A path, and how many tables were made for it.
#[derive(Clone, Drop)]
pub struct Counted {
    /// The path.
    pub stretches: Stretches,
    /// How often the best segmentation for one penalty was looked for.
    pub tables: u64,
}

/// An equal path of its own, with the number of its tables. Takes the time of [`Cert::copy`] for each stretch.
impl Duplicate for Counted {
    fn copy(&self, _alloc: Global) -> Result<Counted, NoMemory> {
        self.clone()
    }
}

/// The path of the points, with the number of tables that were made for it: at most three for each stretch.
///
/// Makes a certificate at each of the two penalties, and between two with different cuts one more, where their totals as
/// lines over the penalty cross. It shows a list that wasn't known, or the last penalty of the one list, or the first of
/// the other (after CROPS; Haynes, Eckley and Fearnhead, 2017). The only error is want of memory.
pub fn counted_path(
    alloc: Global,
    points: &Points,
    low: i128,
    high: i128,
) -> Result<Counted, NoMemory>
    requires few { length points.now ≤ 1_024 }
    requires range { IsRange low high }
    ensures path { IfOk result (λ made. IsPath points.now low high made.stretches) }
    ensures tables { IfOk result (λ made. made.tables ≤ 3 * length made.stretches) }
{
    path_law();
    points_law();
    bounds_law(points);
    let mut grown = Grown::begin(alloc, segmentation(alloc, points, low, 1)?)?;
    let mut ahead = Vec::new(alloc);
    let mut tables = 1;
    if low < high {
        ahead.push(segmentation(alloc, points, high, 1)?)?;
        tables = 2;
    }
    while let Some(next) = ahead.pop() {
        if same_cuts(&grown.current.last.cuts, &next.cuts) {
            grown.extend(next);
        } else if is_next(&next, grown.current.to) {
            grown.append(alloc, next)?;
        } else {
            let cert = segmentation(alloc, points, middle(&grown.current.last, &next), 1)?;
            ahead.push(next)?;
            ahead.push(cert)?;
            tables += 1;
        }
    }
    let stretches = grown.finish()?;
    Ok(Counted { stretches, tables })
}

// A path as it grows: its stretches but the last, and the last.
#[derive(Drop)]
pub struct Grown {
    pub done: Vec<Stretch>,
    pub current: Stretch,
}

impl Grown {
    // The stretch of one certificate.
    fn begin(alloc: Global, cert: Cert) -> Result<Grown, NoMemory>
        ensures stretches { IfOk result (λ grown. stretches_of grown ≡ single cert ∷ []) }
        ensures end { IfOk result (λ grown. grown.current.to ≡ cert.penalty) }
        ensures last { IfOk result (λ grown. grown.current.last ≡ cert) }
    {
        Ok(Grown {
            done: Vec::new(alloc),
            current: stretch_of(alloc, cert)?,
        })
    }

    // The last stretch up to a certificate's penalty.
    fn extend(&mut self, cert: Cert)
        ensures stretches { stretches_of self.new
            ≡ self.old.done.items ++ extended self.old.current cert ∷ [] }
        ensures end { self.new.current.to ≡ cert.penalty }
        ensures last { self.new.current.last ≡ cert }
    {
        self.current.to = cert.penalty;
        self.current.last = cert;
    }

    // A stretch more, of one certificate.
    fn append(&mut self, alloc: Global, cert: Cert) -> Result<(), NoMemory>
        ensures stretches { OnOk result
            (stretches_of self.new ≡ stretches_of self.old ++ single cert ∷ []) }
        ensures end { OnOk result (self.new.current.to ≡ cert.penalty) }
        ensures last { OnOk result (self.new.current.last ≡ cert) }
    {
        let next = stretch_of(alloc, cert)?;
        self.done.reserve(1)?;
        let before = std::mem::replace(&mut self.current, next);
        self.done.push(before)?;
        Ok(())
    }

    // All stretches.
    fn finish(self) -> Result<Stretches, NoMemory>
        ensures { IfOk result (λ made. made ≡ stretches_of self) }
    {
        let Grown { mut done, current } = self;
        done.push(current)?;
        Ok(Stretches::of(done))
    }
}

// The stretch of one certificate's penalty.
fn stretch_of(alloc: Global, cert: Cert) -> Result<Stretch, NoMemory>
    ensures { IfOk result (λ made. made ≡ single cert) }
{
    let first = cert.copy(alloc)?;
    Ok(Stretch {
        from: cert.penalty,
        to: cert.penalty,
        first,
        last: cert,
    })
}

// Whether a certificate is for the penalty behind another.
fn is_next(cert: &Cert, to: i128) -> bool
    requires low { pos 0 ≤ℤ to }
    requires high { to ≤ℤ pos (10 ^ 36) }
    ensures { IsTrue result ↔ (cert.now.penalty ≡ to +ℤ pos 1) }
{
    are_equal(cert.penalty, to + 1)
}

// A penalty between those of two certificates: where their totals cross, as far as it is between.
fn middle(last: &Cert, next: &Cert) -> i128
    requires bounded { IsBounded last.now }
    requires next_bounded { IsBounded next.now }
    requires fewer { length next.now.cuts < length last.now.cuts }
    requires apart { (last.now.penalty +ℤ pos 1) <ℤ next.now.penalty }
    ensures above { last.now.penalty <ℤ result }
    ensures below { result <ℤ next.now.penalty }
    ensures parts { Parts last.now next.now result }
{
    let crossing = crossing(last, next);
    if crossing <= last.penalty {
        return last.penalty + 1;
    }
    if crossing >= next.penalty {
        return next.penalty - 1;
    }
    crossing
}

// A penalty below which the total of the first certificate's cuts is less than that of the fewer ones of the second, and
// above which it is more.
fn crossing(last: &Cert, next: &Cert) -> i128
    requires bounded { IsBounded last.now }
    requires next_bounded { IsBounded next.now }
    requires fewer { length next.now.cuts < length last.now.cuts }
    ensures { Crosses last.now next.now result }
{
    (costs(next) - costs(last)).div_euclid(cuts_more(last, next))
}

// How many cuts more the first certificate has than the second.
fn cuts_more(last: &Cert, next: &Cert) -> i128
    requires { length next.now.cuts < length last.now.cuts }
    ensures { result ≡ pos (length last.now.cuts - length next.now.cuts) }
{
    (last.cuts.len() - next.cuts.len()) as i128
}

// What the segments of a certificate's cuts cost.
fn costs(cert: &Cert) -> i128
    requires { IsBounded cert.now }
    ensures above { pos 0 ≤ℤ result }
    ensures below { result ≤ℤ pos (10 ^ 37) }
    ensures total { result +ℤ pos (length cert.now.cuts) *ℤ cert.now.penalty ≡ cert.now.total }
{
    cert.total - cert.cuts.len() as i128 * cert.penalty
}

// What is known of the numbers of a certificate for a penalty in range. Does nothing.
fn bounds_law(points: &Points)
    ensures { (b : ℤ) (cert : Cert) → pos 0 ≤ℤ b → b ≤ℤ pos (10 ^ 36) → StandsFor points.now b 1 cert
        → IsBounded cert }
{
    cost_law();
    points.limits();
}
