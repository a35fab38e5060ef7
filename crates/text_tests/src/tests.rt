//! The tests.

mod of_fixed_value;
mod of_line_text;
mod of_metric_table;
mod of_metric_value;
mod of_regression_state;
mod of_reply_text;
mod of_request_text;
mod of_series_gen;
mod of_track_entry;
