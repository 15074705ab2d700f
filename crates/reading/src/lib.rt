//! The reading engine (SPECIFICATION, "Engines"), after Storath and Weinmann, section 3: it weighs
//! only the readings of a window.
//!
//! Of the lent work memory, R·T·(N + 1) numbers, each row of the padded image that the windows
//! reach has T planes of N sums, one plane for each mask column. From row to row the planes of the
//! rows that stay are carried, and those of the row that comes in are built afresh; in the first
//! row of a range all are built. As soon as a plane has its sums it is weighed. `reading_sums` has
//! the sums; here are the choice (`lowest_pairs`), the work on one mask row (`mask_row`, `turns`),
//! and the rows of the output (`rows`). Internal: the filter calls have made all tests, and meet each
//! `requires`.
#![tactic(auto)]

mod lowest_pairs;
mod mask_row;
mod memory;
pub mod rows;
mod turns;
