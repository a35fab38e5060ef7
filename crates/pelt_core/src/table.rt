//! The pruned table of some positions, which is advanced and rewound.
ghost use Rattle.std.specs.Prelude.{◌≡◌, ℤ, ◌+◌, ◌^◌, ◌<◌, ◌≤◌, [], ◌∷◌, ◌++◌, length, take, pos, ◌≤ℤ◌, OnOk, OnErr, IfOk};
ghost use Rattle.segment_model.specs.Values.{AreWithinLimits, values_by_position, cost_between};

use crate::rows::Rows;
use crate::steps::Steps;
use line_text::Numbers;
use segment_cost::{Cert, Cost, Costs, NoMemory, Places, Points, cuts_back};
use segment_model::{
    agreeing_costs_law, best_list_law, table_law, value_costs_law, values_law, walk_law,
};
use std::alloc::Global;
use std::marker::Model;
use std::sync::ledger::Ledger;

/// The table of the best segmentations of all first positions, which keeps as candidates for a last cut only the places
/// that can still be one (PELT; Killick, Fearnhead and Eckley, 2012).
///
/// Contracts see the positions, each as the list of its values, the penalty, from 0 to 10^36, of a cut, and the least length,
/// from 1 to 64, of a segment where there are several. The only error of its functions is want of memory. What they cost is
/// said for a `C` that answers in O(1), as `Square` does.
#[derive(Drop)]
pub struct Table<C: Cost> {
    cost: C,
    penalty: i128,
    rows: Rows,
}

impl<C: Cost> Model for Table<C> {
    ghost use Rattle.pelt_core.specs.{Seen.Tabled, Rows.IsPrunedTable};

    ghost Value = { Tabled };

    ghost view = { λ t. record {
      positions = C.positions t.cost;
      penalty = t.penalty;
      length = t.rows.length;
    } };

    ghost invariant = { λ t. IsPrunedTable C.cost_of (C.positions t.cost) t.penalty t.rows };
}

impl<C: Cost + Drop> Table<C> {
    ghost use Rattle.pelt_core.specs.{Seen.table_of, Best.IsBestOf};
    ghost use Rattle.segment_model.specs.Limits.{IsLength};
    ghost use Rattle.segment_cost.specs.Certificate.{IsCertificate};

    /// The table of no positions, in O(1).
    pub fn start(alloc: Global, penalty: i128, length: u8) -> Result<Table<C>, NoMemory>
        requires low { pos 0 ≤ℤ penalty }
        requires high { penalty ≤ℤ pos (10 ^ 36) }
        requires length { IsLength length }
        ensures { IfOk result (λ table. table ≡ table_of [] penalty length) }
    {
        value_costs_law();
        let rows = Rows::start(alloc, penalty, length)?;
        Ok(Table {
            cost: C::fresh(alloc),
            penalty,
            rows,
        })
    }

    // The table of all positions of some points, uncounted. O(n² + v) time at most, for n positions with v values.
    pub(crate) fn of_points(
        alloc: Global,
        points: &Points,
        penalty: i128,
        length: u8,
    ) -> Result<Table<C>, NoMemory>
        requires low { pos 0 ≤ℤ penalty }
        requires high { penalty ≤ℤ pos (10 ^ 36) }
        requires length { IsLength length }
        ensures { IfOk result
            (λ table. table ≡ table_of (values_by_position points.now) penalty length) }
    {
        points.limits();
        let mut table = Table::start(alloc, penalty, length)?;
        table.reserve(points.len() + 1, points.count())?;
        for i in 0..points.len() {
            table.push(points.values(i))?;
        }
        Ok(table)
    }

    /// The table with one position more: one step.
    ///
    /// O(c + v + l) time, amortized, for c candidates, at most one for each place, v values and a least length l. Where there is no memory,
    /// only the count of steps is changed.
    pub fn advance<L: Ledger>(
        &mut self,
        values: &[i64],
        steps: &mut Steps<L>,
    ) -> Result<(), NoMemory>
        requires limits { AreWithinLimits (self.old.positions ++ values.now ∷ []) }
        ensures ok { OnOk result
            (self.new ≡ table_of (self.old.positions ++ values.now ∷ []) self.old.penalty
            self.old.length) }
        ensures err { OnErr result (self.new ≡ self.old) }
        ensures step { steps.new ≡ steps.old + 1 }
    {
        steps.tick();
        self.push(values)
    }

    // Makes room for so many places and values more at once, so that no list moves meanwhile.
    fn reserve(&mut self, places: usize, values: usize) -> Result<(), NoMemory>
        requires some { 0 < places }
        requires few { places ≤ 16_385 }
        ensures { self.new ≡ self.old }
    {
        self.cost.reserve(values)?;
        self.rows.reserve(places)
    }

    // The table with one position more, uncounted.
    fn push(&mut self, values: &[i64]) -> Result<(), NoMemory>
        requires limits { AreWithinLimits (self.old.positions ++ values.now ∷ []) }
        ensures ok { OnOk result
            (self.new ≡ table_of (self.old.positions ++ values.now ∷ []) self.old.penalty
            self.old.length) }
        ensures err { OnErr result (self.new ≡ self.old) }
    {
        agreeing_costs_law();
        values_law();
        value_costs_law();
        self.cost.reserve(values.len())?;
        self.rows.reserve(1)?;
        self.cost.push(values);
        self.rows.grow(&self.cost, self.penalty);
        Ok(())
    }

    /// The table of the first k positions. O(k) time, and O(1) for each position that goes; O(1) where none goes.
    pub fn rewind(&mut self, k: usize)
        requires { k ≤ length self.old.positions }
        ensures { self.new
            ≡ table_of (take k self.old.positions) self.old.penalty self.old.length }
    {
        agreeing_costs_law();
        values_law();
        value_costs_law();
        if k == self.cost.len() {
            return;
        }
        self.cost.cut_back(k);
        self.rows.cut_back(k);
    }

    /// How many positions there are.
    pub fn len(&self) -> usize
        ensures { result ≡ length self.now.positions }
    {
        self.cost.len()
    }

    /// What each cut costs.
    pub fn penalty(&self) -> i128
        ensures { result ≡ self.now.penalty }
    {
        self.penalty
    }

    /// How many positions each segment has at least, where there is more than one.
    pub fn length(&self) -> u8
        ensures { result ≡ self.now.length }
    {
        self.rows.length
    }

    /// The best cut list of all positions, with the table that shows it to be the best.
    ///
    /// O(n) time and memory for n positions.
    pub fn certificate(&self, alloc: Global) -> Result<Cert, NoMemory>
        ensures { IfOk result (λ cert. IsCertificate
            (cost_between C.cost_of self.now.positions) (length self.now.positions)
            self.now.penalty self.now.length cert) }
    {
        let best = self.best(alloc)?;
        Ok(Cert {
            points: self.cost.len() as u64,
            penalty: self.penalty,
            length: self.rows.length,
            cuts: Numbers::of(best.cuts),
            total: best.total,
            least: Costs::of(Vec::from_slice(alloc, &self.rows.least)?),
            back: Places::of(Vec::from_slice(alloc, &self.rows.back)?),
            pruned: Places::of(Vec::from_slice(alloc, &self.rows.pruned)?),
        })
    }

    /// The same of a table that is done with, whose lists the certificate takes.
    ///
    /// O(c) time and memory for c cuts.
    pub fn into_certificate(self, alloc: Global) -> Result<Cert, NoMemory>
        ensures { IfOk result (λ cert. IsCertificate
            (cost_between C.cost_of self.positions) (length self.positions) self.penalty
            self.length cert) }
    {
        let best = self.best(alloc)?;
        let Table {
            cost,
            penalty,
            rows,
        } = self;
        let points = cost.len() as u64;
        let Rows {
            length,
            least,
            back,
            pruned,
            ..
        } = rows;
        Ok(Cert {
            points,
            penalty,
            length,
            cuts: Numbers::of(best.cuts),
            total: best.total,
            least: Costs::of(least),
            back: Places::of(back),
            pruned: Places::of(pruned),
        })
    }

    // The best cut list of all positions, and its total.
    fn best(&self, alloc: Global) -> Result<Best, NoMemory>
        ensures { IfOk result (λ best. IsBestOf
            (cost_between C.cost_of self.now.positions) (length self.now.positions)
            self.now.penalty self.now.length best) }
    {
        best_list_law();
        table_law();
        value_costs_law();
        walk_law();
        let n = self.cost.len();
        let mut cuts = cuts_back(alloc, &self.rows.back, n)?;
        cuts.reverse();
        let total = if n == 0 { 0 } else { self.rows.least[n] };
        Ok(Best { cuts, total })
    }
}

// A best cut list, and its total.
#[derive(Drop)]
pub struct Best {
    pub cuts: Vec<u64>,
    pub total: i128,
}
