//! The level engine (SPECIFICATION, "Engines"), after Storath and Weinmann, section 4: it weighs
//! every tick of the cycle.
//!
//! Of the lent work memory, C·(N + 1) numbers, each column has the sums at its C ticks, and after
//! the last column stand the differences between one row and the next, modulo 2^32. The first row
//! of a range is set up afresh; each later row follows from the one above it. `level_sums` has the
//! sums, `lines` a row's centres and `level_choice` the choice among the ticks; `rows` writes the
//! rows of the output. Internal: the filter calls have made all tests, and meet each `requires`.
#![tactic(auto)]

pub mod rows;
