//! The planes of the reading engine: the sums at the readings of each row of the padded image that
//! the windows reach, and where they lie in the lent work memory.
//!
//! A row of the padded image has T planes, one for each mask column: in plane l the number of
//! column j is the sum of the window of column j at the reading at place l + j. The planes of R
//! such rows lie in a ring, so that the row that goes out gives its planes to the row that comes
//! in, and nothing is copied. `specs` says what planes hold, and `proofs` how the two sweeps of
//! `reading_sums` come to it. Internal: the reading engine has an image that has passed its tests.

ghost use Rattle.std.specs.Prelude.{◌≡◌};
ghost use Rattle.refusal.specs.Limits.{longest_cycle};
ghost use Rattle.refusal.specs.Outcome.{IsClear};
ghost use Rattle.shape.specs.Rules.{shape_rules};
ghost use Rattle.reading_sums.specs.Planes.{planes_length};
ghost use Rattle.reading_sums.specs.Sums.{planes_place};

use shape::Shape;

/// The numbers of the T planes of a row of the padded image: T·N.
pub fn planes_length(shape: Shape) -> usize
    ensures { result ≡ planes_length shape }
{
    shape.mask_columns as usize * shape.columns as usize
}

/// The place of the work memory at which the planes of the row at a position of the padded image
/// start.
pub fn planes_at(shape: Shape, position: usize) -> usize
    requires { IsClear (shape_rules longest_cycle shape) }
    ensures { result ≡ planes_place shape position }
{
    position % shape.mask_rows as usize * planes_length(shape)
}
