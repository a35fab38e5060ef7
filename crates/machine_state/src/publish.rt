//! Publications, added with the segmentations that they were made from.
ghost use Rattle.std.specs.Prelude.{◌≡◌, ◌+◌, ◌≤◌, IfOk, OnOk, OnErr, length};
ghost use Rattle.metric_table.specs.Limits.{most};
ghost use Rattle.metric_table.specs.declared.limits.Limit.TheVariants as limit;
ghost use Rattle.history_model.specs.{Allowed.Allowed, Entries.entries_of, Publications.cut_count};
ghost use Rattle.history_model.specs.declared.entries.Entry.TheVariants as entry;
ghost use Rattle.publication_index.specs.Standing.{table_for};
ghost use Rattle.track_model.specs.Tracks.{with_publication};
ghost use Rattle.machine_state.specs.Made.{IsMadeFrom, publication_from};

use crate::NoMemory;
use crate::state::MachineState;
use history_model::{
    Author, Entry, Placed, Publication, growth_law, jobs_law, positions_law, publication_law,
    regressions_law, retraction_law, setting_law,
};
use line_text::Boxed;
use pelt_core::Table;
use segment_cost::{Done, Square};

impl MachineState {
    /// How many cuts were published.
    pub fn cut_count(&self) -> u64
        ensures count { result ≡ cut_count (entries_of self.now.history) }
        ensures few { result ≤ most limit.Cuts }
    {
        self.cuts
    }

    /// Adds a publication that is allowed, with the segmentation that it was made from and its table, which is home then,
    /// and gives its step. Where there is no memory, nothing changes.
    pub fn add_publication(
        &mut self,
        author: Author,
        publication: Publication,
        done: Done,
        table: Table<Square>,
    ) -> Result<u64, NoMemory>
        requires allowed { Allowed (entries_of self.old.history) (entry.Publish publication) }
        requires is { publication ≡ publication_from done }
        requires made { IsMadeFrom (entries_of self.old.history) done }
        requires tabled { table ≡ table_for done }
        ensures step { IfOk result (λ step. step ≡ length (entries_of self.old.history) + 1) }
        ensures track { OnOk result (self.new ≡ with_publication author self.old publication) }
        ensures same { OnErr result (self.new ≡ self.old) }
    {
        growth_law();
        positions_law();
        retraction_law();
        setting_law();
        publication_law();
        regressions_law();
        jobs_law();
        let publication = Boxed::new(self.alloc, publication)?;
        self.history.reserve(1)?;
        let step = self.history.len() as u64 + 1;
        let cuts = done.cert.cuts.len() as u64;
        self.published.insert(done, table)?;
        let entry = Entry::Publish { publication };
        self.history.push_reserved(Placed { author, entry });
        self.cuts += cuts;
        Ok(step)
    }
}
