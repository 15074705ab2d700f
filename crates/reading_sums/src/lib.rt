//! The reading engine's sums, those at the readings of a window (Storath and Weinmann, section 3):
//! the planes of a mask row, carried down by a row (`Carried`) or built afresh (`Built`).
//!
//! What a plane's numbers gain is a sum over the columns of their windows, made in two sweeps. The
//! sweep ahead counts, offset by offset, the columns from each reading's own place on, and after
//! each offset one plane has its part; the sweep behind counts the columns before it. Nothing is
//! taken off again along the row, and the column is the innermost loop. Internal: the reading
//! engine meets each `requires`.
#![tactic(auto)]

mod build;
mod carry;
mod passes;
mod planes;

pub use build::Built;
pub use carry::Carried;
use lines::LINE;
pub use planes::{planes_at, planes_length};

/// What the sums at the readings of a line have gained on the way of a sweep, place by place,
/// modulo 2^32.
pub type Changes = [u32; LINE];
