//! What a series is at a version of a history.
ghost use Rattle.history_model.specs.Penalties.{IsSetting};

use history_model::Setting;
use point_list::FrozenPoints;

// The positions of a series at a version of a history, and the setting of its metric there.
#[derive(Drop)]
pub struct Version {
    pub points: FrozenPoints,
    pub setting: Setting,
    pub ghost fits: { IsSetting setting },
}
