//! The value of a numeral's text by a metric, and the text of a value.
//!
//! A metric's row of the table says how many decimals its values have. A value is the whole number
//! nearest to the numeral, in units of the last of them: by a metric of 4 decimals `0.25` has the
//! value 2500. [`value_of`] reads it and refuses what is above 10^16, [`put_value`] writes it, and
//! [`value_law`] says that what is written is read back, and that no text has two values by a metric.
//!
//! The definitions are in `specs/Values`. Stands on `fixed_value` for numerals and on `metric_table`
//! for decimals.
#![tactic(auto)]

mod value;

pub use std::alloc::AllocError as NoMemory;
pub use value::{ValueFault, put_value, value_law, value_of};
