//! The local memory of the reading engine's mask rows.

use crate::lowest_pairs::LowestPairs;
use lines::Line;
use reading_sums::Changes;

/// The local memory that the mask rows of a row share.
#[derive(Drop)]
pub struct Memory {
    /// The line of the readings whose planes are swept.
    pub own: Line,
    /// The line of the row that goes out above the windows, or of one that is counted.
    pub row: Line,
    /// The line of another row that is counted.
    pub other: Line,
    /// The gains or the steps of a pass, or the ranks of a plane.
    pub gains: Line,
    /// The changes of a sweep.
    pub changes: Changes,
    /// The lowest pair of each window of the row.
    pub pairs: LowestPairs,
}
