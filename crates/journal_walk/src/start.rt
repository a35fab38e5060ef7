//! What a segmentation begins with.
ghost use Rattle.std.specs.Prelude.{◌≡◌, IfOk};
ghost use Rattle.track_step.specs.TrackSeriesBegun.{Begins};

use crate::NoMemory;
use crate::made::is_same_setting;
use history_model::Setting;
use pelt_core::Table;
use point_list::FrozenPoints;
use segment_cost::Square;
use std::alloc::Global;

// Positions with their table at a setting; no positions where there is no table.
#[derive(Drop)]
pub struct Start {
    pub points: FrozenPoints,
    pub setting: Setting,
    pub table: Option<Table<Square>>,
    pub ghost begins: { ∥ Begins 0 points setting.penalty setting.length table ∥₁ },
}

// What a segmentation at a setting begins with: a table that was kept, if it is of that setting; else nothing.
pub fn start_at(alloc: Global, kept: Option<Start>, setting: Setting) -> Result<Start, NoMemory>
    ensures { IfOk result (λ start. start.setting ≡ setting) }
{
    if let Some(start) = kept {
        if is_same_setting(start.setting, setting) {
            return Ok(start);
        }
    }
    Ok(Start {
        points: FrozenPoints::none(alloc)?,
        setting,
        table: None,
    })
}
