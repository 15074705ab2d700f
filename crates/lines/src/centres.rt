//! What stands in for silent centres, and whether any reading is silent.

ghost use Rattle.std.specs.Prelude.{◌≡◌, ◌≤◌, length, IsTrue};
ghost use Rattle.sums.specs.Memory.{Tabulates};
ghost use Rattle.lines.specs.Lines.{AllHeard, heard_or, heard_or_at};

use cycle::{SILENT, highest};

// A centre, or the reading where the centre is silent.
#[tactic(auto, unfolding(cycle::specs::Silence::is_heard))]
fn heard_or(centre: u16, reading: u16) -> u16
    ensures { result ≡ heard_or centre reading }
{
    if centre == SILENT { reading } else { centre }
}

/// Replaces each silent centre by the reading at its place.
pub fn stand_in(centres: &mut [u16], readings: &[u16])
    requires { length centres.old ≤ length readings.now }
    ensures { Tabulates centres.new (heard_or_at centres.old readings.now) }
{
    for (j, centre) in centres.iter_mut().enumerate() {
        *centre = heard_or(*centre, readings[j]);
    }
}

/// Whether all readings are heard. It looks for the highest one, in a loop that packs.
pub fn all_heard(readings: &[u16]) -> bool
    ensures { IsTrue result → AllHeard readings.now (length readings.now) }
{
    highest(readings, 0) < SILENT
}
