//! The sums of the level engine, after Storath and Weinmann, section 4: for each column of a row,
//! the sum at every tick of the cycle (SPECIFICATION, "Sum").
//!
//! `table` has the distances that readings add to sums, with zeros for a silent reading, and
//! `source` joins them with the image. `row` sets the sums of a row up afresh; `step` moves them
//! down to the next row by the differences between the two rows, which are held modulo 2^32.
//! Internal: the level engine has an image that has passed its tests, and meets each `requires`.
#![tactic(auto)]

pub mod row;
pub mod source;
pub mod step;
pub mod table;
