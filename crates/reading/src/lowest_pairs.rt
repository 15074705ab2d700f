//! The lowest pair of each window of a row: the readings of the windows are weighed one plane after
//! the other, and for each window the least sum so far is kept, with the least rank among the
//! readings that have it. A silent reading has no sum, and changes nothing. After the last plane
//! the ranks give the phases of the row.

ghost use Rattle.std.specs.Prelude.{◌≡◌, ℕ, ◌^◌, ◌<◌, ◌≤◌, true, length, if◌then◌else◌};
ghost use Rattle.std.specs.Prelude.{slice_index};
ghost use Rattle.refusal.specs.Limits.{longest_cycle};
ghost use Rattle.cycle.specs.Silence.{is_reading};
ghost use Rattle.sums.specs.Memory.{Tabulates, Changed, AreSigned};
ghost use Rattle.reading.specs.Weighable.{IsWeighable};
ghost use Rattle.reading.specs.Pairs.{rank_at, unweighed_sum, unweighed_rank};
ghost use Rattle.median.specs.Weighed.{is_lower_pair};
ghost use Rattle.reading.specs.Pairs.{least_sum, nearest_rank, phases_by};

use lines::LINE;
use median::{phase_by, rank_of};
use sums::NO_SUM;

// A sum with the rank of its reading.
#[derive(Clone, Copy)]
struct Pair {
    sum: u32,
    rank: u32,
}

impl Pair {
    // Whether it is lower than the pair kept: by its sum, and by its rank where the sums are equal.
    // They are compared as signed numbers, which takes fewer packed instructions.
    fn is_lower(self, lowest: Pair) -> bool
        requires sums_signed { (self.sum < 2 ^ 31) × (lowest.sum < 2 ^ 31) }
        requires ranks_signed { (self.rank < 2 ^ 31) × (lowest.rank < 2 ^ 31) }
        ensures { result ≡ is_lower_pair self.sum self.rank lowest.sum lowest.rank }
    {
        ((self.sum as i32) < (lowest.sum as i32))
            | ((self.sum == lowest.sum) & ((self.rank as i32) < (lowest.rank as i32)))
    }
}

// One of two numbers: a function of one `if`, so that its loop packs.
fn pick(first: bool, a: u32, b: u32) -> u32
    ensures { result ≡ (if first then a else b) }
{
    if first { a } else { b }
}

/// The lowest pair of each window of a row, a least sum and its least rank.
///
/// Sums and ranks have an array each, since packed instructions take contiguous sums, and
/// contiguous ranks.
#[derive(Drop)]
pub struct LowestPairs {
    /// The least sum so far of each window, below 2^31.
    pub least: [u32; LINE],
    /// The least rank among the readings that have it.
    pub nearest: [u32; LINE],
}

impl LowestPairs {
    /// Begins the first n windows: no sum, with the rank 0, so that no reading without a sum is
    /// lower.
    pub fn reset(&mut self, n: usize)
        requires { n ≤ LINE }
        ensures sums_changed { Changed self.old.least self.new.least 0 n unweighed_sum }
        ensures ranks_changed { Changed self.old.nearest self.new.nearest 0 n unweighed_rank }
    {
        self.least[..n].fill(NO_SUM);
        self.nearest[..n].fill(0);
    }

    /// Weighs a plane: one reading of each window, and the window's sum at it, against the pair
    /// that is kept.
    ///
    /// `sums`, `own` and `centres` have the sum, the reading and the centre of each window, column
    /// by column, and `ranks` is memory for as many ranks. The sums and the pairs that are kept are
    /// below 2^31; a silent reading has `NO_SUM`.
    pub fn weigh(
        &mut self,
        cycle: u16,
        sums: &[u32],
        own: &[u16],
        centres: &[u16],
        ranks: &mut [u16],
    )
        requires { IsWeighable sums.now own.now centres.now ranks.old self.old.least
            self.old.nearest }
        ensures sums_changed { Changed self.old.least self.new.least 0 (length sums.now)
            (least_sum sums.now
            (rank_at cycle centres.now own.now) self.old.least self.old.nearest) }
        ensures ranks_changed { Changed self.old.nearest self.new.nearest 0 (length sums.now)
            (nearest_rank sums.now
            (rank_at cycle centres.now own.now) self.old.least self.old.nearest) }
    {
        rank_each(cycle, centres, own, ranks);
        weigh_each(sums, ranks, &mut self.least, &mut self.nearest);
    }

    /// Puts in `phases` the phase of each window, by its centre, or what stands in for it, and the
    /// rank that is kept.
    pub fn phases(&self, cycle: u32, centres: &[u16], phases: &mut [u16])
        requires cycle_accepted { (0 < cycle) × (cycle ≤ longest_cycle) }
        requires room { (length phases.old ≤ length centres.now) × (length phases.old ≤ LINE) }
        requires readings { (j : ℕ) → j < length phases.old
            → is_reading cycle (slice_index centres.now j) ≡ true }
        requires ranks { (j : ℕ) → j < length phases.old → slice_index self.now.nearest j ≤ cycle }
        ensures { Tabulates phases.new (phases_by cycle centres.now self.now.nearest) }
    {
        for (j, phase) in phases.iter_mut().enumerate() {
            *phase = phase_by(cycle, centres[j], self.nearest[j]);
        }
    }
}

// The rank of each reading of a line from the centre of its column.
fn rank_each(cycle: u16, centres: &[u16], own: &[u16], ranks: &mut [u16])
    requires { (length ranks.old ≤ length centres.now) × (length ranks.old ≤ length own.now) }
    ensures { Tabulates ranks.new (rank_at cycle centres.now own.now) }
{
    for (j, rank) in ranks.iter_mut().enumerate() {
        *rank = rank_of(cycle, centres[j], own[j]);
    }
}

// Weighs each sum, with its rank, against the pair that is kept.
fn weigh_each(sums: &[u32], ranks: &[u16], least: &mut [u32], nearest: &mut [u32])
    requires ranks_long { length sums.now ≤ length ranks.now }
    requires kept_long { (length sums.now ≤ length least.old)
        × (length sums.now ≤ length nearest.old) }
    requires sums_signed { AreSigned (slice_index sums.now) (length sums.now) }
    requires pairs_signed { AreSigned (slice_index least.old) (length sums.now)
        × AreSigned (slice_index nearest.old) (length sums.now) }
    ensures least_sums { Changed least.old least.new 0 (length sums.now)
        (least_sum sums.now (slice_index ranks.now) least.old nearest.old) }
    ensures nearest_ranks { Changed nearest.old nearest.new 0 (length sums.now)
        (nearest_rank sums.now (slice_index ranks.now) least.old nearest.old) }
{
    for (j, sum) in sums.iter().enumerate() {
        let pair = Pair {
            sum: *sum,
            rank: ranks[j] as u32,
        };
        let lowest = Pair {
            sum: least[j],
            rank: nearest[j],
        };
        let first = pair.is_lower(lowest);
        least[j] = pick(first, pair.sum, lowest.sum);
        nearest[j] = pick(first, pair.rank, lowest.rank);
    }
}
