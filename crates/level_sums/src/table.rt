//! The level engine's table of distances: what a reading adds to the sums at all ticks stands in it
//! as contiguous numbers, the distances of a heard reading, or zeros for a silent one.

ghost use Rattle.std.specs.Prelude.{◌≡◌, ◌≤◌, ◌<◌, replicate};
ghost use Rattle.refusal.specs.Limits.{level_cycle};
ghost use Rattle.cycle.specs.Distance.{distance};
ghost use Rattle.level_sums.specs.Table.{IsTable, table_length};

use cycle::apart;
use refusal::limits::LEVEL_CYCLE;
use sums::copy;

/// The numbers in the table: two rounds of the longest cycle that the level engine takes, and one
/// of zeros.
pub const TABLE: usize = (3 * LEVEL_CYCLE) as usize;

// The distance from a tick to tick 0.
fn distance_at(cycle: usize, tick: usize) -> u32
    requires limit { cycle ≤ level_cycle }
    requires within { tick < cycle }
    ensures { result ≡ distance cycle tick 0 }
{
    apart(cycle as u16, tick as u16, 0) as u32
}

/// Fills the first two rounds of a table of zeros with the distances from each tick to tick 0.
///
/// The distances from all ticks to a reading y are then the C numbers from place C - y on, and
/// those of a silent reading the C zeros from place 2 C on.
pub fn distances(cycle: usize, table: &mut [u32; TABLE])
    requires limit { cycle ≤ level_cycle }
    requires zeros { table.old ≡ replicate table_length 0 }
    ensures { IsTable cycle table.new }
{
    for tick in 0..cycle {
        table[tick] = distance_at(cycle, tick);
    }
    let (round, rest) = table.split_at_mut(cycle);
    copy(&mut rest[..cycle], round);
}
