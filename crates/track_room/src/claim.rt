//! The claim on a series that a worker has taken.
use std::marker::Model;
use touch_index::SeriesKey;

/// The claim on a series of a machine: nobody else takes the series until it ends.
///
/// No value of this type can be dropped: [`Room::publish`](crate::Room::publish) and
/// [`Room::release`](crate::Room::release) alone take one. So whoever took a series ends its claim, also where memory is
/// wanting.
pub struct SeriesClaim {
    pub(crate) machine: u8,
    pub(crate) key: SeriesKey,
}

impl Model for SeriesClaim {
    ghost use Rattle.track_room.specs.Claims.{Claimed};

    ghost Value = { Claimed };

    ghost view = { λ c. record { machine = c.machine; key = c.key } };
}
