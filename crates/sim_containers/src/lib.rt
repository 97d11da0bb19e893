//! Row arrays, sets of numbers, and a queue of the times at which drivers are due.
#![tactic(auto)]

mod bit_set;
mod entries;
mod number_list;
mod numbers;
mod rising_rows;
mod row_array;
mod stamps;
mod times;
mod words;

pub use number_list::NumberList;
pub use numbers::NumberSet;
pub use rising_rows::RisingRows;
pub use row_array::{RowArray, bounds};
pub use times::TimeQueue;
