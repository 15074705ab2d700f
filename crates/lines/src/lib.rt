//! What both engines read of an image: an `Image` that has passed its tests, and its *lines*, local
//! arrays that hold a row with its mirrored edges, or the centres of a row's windows with what
//! stands in for the silent ones.
//!
//! Labels are rows and wakes are columns. Internal: an `Image` has passed the tests of a filter,
//! and the engines meet each `requires`.
#![tactic(auto)]

mod centres;
mod edges;
mod image;

pub use centres::all_heard;
pub use image::Image;
use refusal::limits::{MOST_COLUMNS, MOST_MASK_COLUMNS};

/// The numbers in a line: a longest row, and a mask more at each end.
///
/// It is a multiple of 512, so that lines one after the other start alike, which is a few percent
/// faster.
pub const LINE: usize = (MOST_COLUMNS + 2 * (MOST_MASK_COLUMNS + 1)) as usize;

/// Memory for a line.
pub type Line = [u16; LINE];
