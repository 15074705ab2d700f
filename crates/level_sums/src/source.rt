//! What the sums are made from: the image, and what each of its readings adds to the sums at all
//! ticks.

ghost use Rattle.std.specs.Prelude.{◌≤◌, IsTrue};
ghost use Rattle.refusal.specs.Limits.{level_cycle};
ghost use Rattle.cycle.specs.Silence.{is_reading};
ghost use Rattle.window.specs.Ready.{IsReady};
ghost use Rattle.level_sums.specs.Table.{IsTable, IsPartOf};
ghost use Rattle.level_sums.specs.Sums.{HoldsShares};

use crate::table::TABLE;
use cycle::SILENT;
use lines::Image;

/// An image, and the table of distances of its cycle.
#[derive(Clone, Copy)]
pub struct Source<'a> {
    /// The image.
    pub image: Image<'a>,
    /// The table, as `distances` fills it.
    pub table: &'a [u32; TABLE],
    /// Sizes and readings have passed the tests of the level engine.
    pub ghost ready: { IsReady level_cycle image.shape image.readings.now },
    /// The table is that of the image's cycle.
    pub ghost filled: { IsTable image.shape.cycle table.now },
}

// Where the part of the table for a reading starts.
fn part_of(cycle: usize, reading: u16) -> usize
    requires limit { cycle ≤ level_cycle }
    requires reading { IsTrue (is_reading cycle reading) }
    ensures { IsPartOf cycle reading result }
{
    if reading == SILENT {
        2 * cycle
    } else {
        cycle - usize::from(reading)
    }
}

impl<'a> Source<'a> {
    /// What the reading at a row position and a column position of the padded image adds to the sum
    /// at each tick, from tick 0 on: a part of the table.
    pub(crate) fn part_at(&self, row_position: usize, column_position: usize) -> &'a [u32]
        ensures { HoldsShares self.now.image row_position column_position result.now }
    {
        let cycle = self.image.shape.cycle as usize;
        let start = part_of(cycle, self.image.at(row_position, column_position));
        let table = self.table;
        &table[start..start + cycle]
    }
}
