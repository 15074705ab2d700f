//! The level engine's choice among all ticks of the cycle: of those with the least sum the nearest
//! to the centre, the one ahead before the one behind (SPECIFICATION, "Equals").
//!
//! It walks outward from the centre. Where neighbouring readings are alike, a few steps meet the
//! tick. Else one packed pass counts the ticks with the least sum and adds up their places: if
//! there is only one, that sum is its place. If there are several, the walk goes on. Internal: the
//! level engine meets each `requires`.
#![tactic(auto)]

ghost use Rattle.std.specs.Prelude.{◌≡◌, ◌+◌, ◌%◌, ◌≤◌, ◌<◌, length, slice_index};
ghost use Rattle.refusal.specs.Limits.{longest_cycle};
ghost use Rattle.median.specs.Choice.{candidates, IsChosen};
ghost use Rattle.sums.specs.Memory.{AreSigned, lowest};
ghost use Rattle.level_choice.specs.Walk.{HasPassed, WalkResult};
ghost use Rattle.level_choice.specs.Count.{if_equal, count_of, places_of};

// The sums of a window, one for each tick, its centre, and the lowest sum.
#[derive(Clone, Copy)]
struct Column<'a> {
    sums: &'a [u32],
    centre: usize,
    least: u32,
    ghost tick: { centre < length sums.now },
    ghost limit: { length sums.now ≤ longest_cycle },
    ghost lowest: { least ≡ lowest (slice_index sums.now) (length sums.now) },
}

// The ticks with the least sum: how many they are, and the sum of their places.
#[derive(Clone, Copy)]
struct Tally {
    count: u32,
    places: u32,
}

// The tick that lies e ahead of a.
fn ahead_by(cycle: usize, a: usize, e: usize) -> usize
    requires tick { a < cycle }
    requires step { e ≤ cycle }
    requires limit { cycle ≤ longest_cycle }
    ensures { result ≡ (a + e) % cycle }
{
    if a + e < cycle { a + e } else { a + e - cycle }
}

// The number x if the sum is the least one, else 0: a function of one `if`, so that its loop packs.
fn if_equal(sum: u32, least: u32, x: u32) -> u32
    ensures { result ≡ if_equal sum least x }
{
    if sum == least { x } else { 0 }
}

impl<'a> Column<'a> {
    // Walks outward from step `start` up to step `end`, the tick ahead before the one behind, and
    // answers the first tick with the least sum. The steps before `start` met none.
    fn walk(&self, start: usize, end: usize) -> Option<usize>
        requires order { start ≤ end }
        requires within { end ≤ length self.now.sums.now }
        requires passed { HasPassed (length self.now.sums.now) self.now.centre
            (slice_index self.now.sums.now) self.now.least start }
        ensures { WalkResult (length self.now.sums.now) self.now.centre
            (slice_index self.now.sums.now) self.now.least end result }
    {
        let Column {
            sums,
            centre,
            least,
        } = *self;
        let cycle = sums.len();
        for e in start..end {
            let front = ahead_by(cycle, centre, e);
            if sums[front] == least {
                return Some(front);
            }
            let rear = ahead_by(cycle, centre, cycle - e);
            if sums[rear] == least {
                return Some(rear);
            }
        }
        None
    }

    // Counts the ticks with the least sum and adds up their places, in one loop without a branch.
    fn tally(&self) -> Tally
        ensures count { result.count
            ≡ count_of (slice_index self.now.sums.now) self.now.least (length self.now.sums.now) }
        ensures places { result.places
            ≡ places_of (slice_index self.now.sums.now) self.now.least (length self.now.sums.now) }
    {
        let Column {
            sums,
            centre: _,
            least,
        } = *self;
        let mut count = 0;
        let mut places = 0;
        for (q, sum) in sums.iter().enumerate() {
            count += if_equal(*sum, least, 1);
            places += if_equal(*sum, least, q as u32);
        }
        Tally { count, places }
    }
}

/// The chosen tick by the sums of a window (SPECIFICATION, "Chosen phase").
///
/// `sums` has the sum at every tick, each below 2^31, `least` is the lowest of them, and `centre`
/// the window's centre, or what stands in for it. A tally costs as much as many steps, so some
/// steps come first, one for each 64 ticks of the cycle.
pub fn choose(sums: &[u32], centre: usize, least: u32) -> usize
    requires tick { centre < length sums.now }
    requires limit { length sums.now ≤ longest_cycle }
    requires signed { AreSigned (slice_index sums.now) (length sums.now) }
    requires least { least ≡ lowest (slice_index sums.now) (length sums.now) }
    ensures { IsChosen (length sums.now) centre (slice_index sums.now)
        (candidates (length sums.now)) result }
{
    let column = Column {
        sums,
        centre,
        least,
    };
    let first_steps = sums.len() / 64 + 1;
    if let Some(tick) = column.walk(0, first_steps) {
        return tick;
    }
    let tally = column.tally();
    if tally.count == 1 {
        return tally.places as usize;
    }
    column.walk(first_steps, sums.len()).unwrap()
}
