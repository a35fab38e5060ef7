//! The tests.

mod given;
mod of_absolute_cost;
mod of_absolute_cut;
mod of_change_list;
mod of_part_core;
mod of_pelt_core;
mod of_penalty_path;
mod of_point_list;
mod of_segment_cost;
