//! What a machine published last of each series, and the settings by which it segments.
//!
//! `PublicationIndex` keeps the last finished segmentation of each series, by test and metric: contracts see what is kept of
//! any series, by [`kept`](specs/Kept.antt), and of which series the pruned table is home, by [`homes`](specs/Homes.antt): a
//! table may be taken, and comes home with the series' next segmentation. `SettingIndex` gives each metric its setting, by
//! [`given`](specs/Given.antt). Look-ups are logarithmic, and take no memory.
//!
//! Stands on `name_index` for ordered maps, on `pelt_core` for finished segmentations and their tables, on `history_model`
//! for series and settings, and on `metric_table` for the penalties of metrics for which none was set.
#![tactic(auto)]

mod held;
mod published;
mod settings;

pub use held::Held;
pub use published::PublicationIndex;
pub use settings::SettingIndex;
pub use std::alloc::AllocError as NoMemory;
