//! Numerals of benchmark output, taken exactly, with no float between.
//!
//! A numeral is the decimal text of a number: digits with a sign, a point and an exponent if need
//! be, as `0.25`, `-2.5` or `1e-05`. Read, it is three whole numbers: a sign, its digits and a
//! power of ten. A scaled value is a number in units of its last decimal place: with 4 decimals
//! 0.25 is 2500. [`scale`] rounds to it, halves away from zero, and refuses what is above 10^16;
//! [`put_fixed`] writes it.
//!
//! Proved: [`Numeral::read`] answers exactly where the text has the grammar, and with the one
//! numeral that it is; [`scale`] gives the whole number that is nearest, by a relation of whole
//! numbers, for any digits and any exponent; and what [`put_fixed`] writes of a value of a magnitude
//! up to 10^16 with at most nine decimals is read and scaled back to the value. Reading and scaling
//! take no memory. The functions whose name ends in `_law` do nothing: their contracts are laws of
//! these definitions, for proofs above.
//!
//! Stands on `itoa`, which prints whole numbers.
#![tactic(auto)]

mod digits;
mod fixed;
mod numeral;
mod scaled;
mod signs;

pub use fixed::{fixed_law, put_fixed};
pub use numeral::{Numeral, numeral_law};
pub use scaled::{OutOfRange, scale, scaled_law};
pub use std::alloc::AllocError as NoMemory;
