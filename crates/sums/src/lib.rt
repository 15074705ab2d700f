//! Passes over sums in lent memory, for both engines and the live window: sums added to, exchanged
//! and moved down by a row, and the lowest sum.
//!
//! Each pass is one loop without a branch over contiguous numbers, so that it compiles to packed
//! instructions. Sums and differences of sums are held modulo 2^32. Internal: the callers have
//! tested their arguments, and meet each `requires`.
#![tactic(auto)]

ghost use Rattle.std.specs.Prelude.{◌≡◌, ◌+◌, ◌^◌, ◌<◌, ◌≤◌, min, length, slice_index, EachIndex};
ghost use Rattle.sums.specs.Memory.{Tabulates, AreSigned, lowest};
ghost use Rattle.sums.specs.Parts.{added_sum, swapped_sum, advanced_change, increased_sum};

/// What stands for no sum: the highest signed number of 32 bits, above every sum.
///
/// A number and no `Option`, so that a loop over sums packs.
pub const NO_SUM: u32 = 2147483647;

/// Copies numbers over others, which are as many.
///
/// It is a loop of its own, which compiles to packed moves: std's `copy_from_slice` calls `memmove`
/// for each part, a name that a program without a C library would have to have for it.
pub fn copy<T: Copy>(to: &mut [T], from: &[T])
    requires { length to.old ≡ length from.now }
    ensures len { length to.new ≡ length to.old }
    ensures after { to.new ≡ from.now }
{
    for (k, number) in to.iter_mut().enumerate() {
        *number = from[k];
    }
}

/// Adds to each sum its number of `entering`, which is at least as long.
pub fn add(sums: &mut [u32], entering: &[u32])
    requires { length sums.old ≤ length entering.now }
    ensures { Tabulates sums.new (added_sum sums.old entering.now) }
{
    for (q, sum) in sums.iter_mut().enumerate() {
        *sum = sum.wrapping_add(entering[q]);
    }
}

/// Adds to each sum its number of `entering` and takes off its number of `leaving`, which are at
/// least as long.
pub fn swap(sums: &mut [u32], entering: &[u32], leaving: &[u32])
    requires entering_long { length sums.old ≤ length entering.now }
    requires leaving_long { length sums.old ≤ length leaving.now }
    ensures { Tabulates sums.new (swapped_sum sums.old entering.now leaving.now) }
{
    for (q, sum) in sums.iter_mut().enumerate() {
        *sum = sum.wrapping_add(entering[q]).wrapping_sub(leaving[q]);
    }
}

/// The lesser of two numbers below 2^31.
///
/// They are compared as signed numbers, which takes fewer packed instructions. In a loop `b` is the
/// least so far: that way round it takes one instruction fewer.
pub fn lower(a: u32, b: u32) -> u32
    requires { (a < 2 ^ 31) × (b < 2 ^ 31) }
    ensures { result ≡ min a b }
{
    (b as i32).min(a as i32) as u32
}

/// The lowest of the sums, all of which are below 2^31; `NO_SUM` where there is none.
pub fn lowest_of(sums: &[u32]) -> u32
    requires { AreSigned (slice_index sums.now) (length sums.now) }
    ensures { result ≡ lowest (slice_index sums.now) (length sums.now) }
{
    let mut least = NO_SUM;
    for sum in sums {
        least = lower(*sum, least);
    }
    least
}

/// Adds to each sum its number of `changes`, which is at least as long, and answers the lowest of
/// the new sums, which are below 2^31.
pub fn add_lowest(sums: &mut [u32], changes: &[u32]) -> u32
    requires long { length sums.old ≤ length changes.now }
    requires signed { AreSigned (added_sum sums.old changes.now) (length sums.old) }
    ensures sums { Tabulates sums.new (added_sum sums.old changes.now) }
    ensures lowest { result ≡ lowest (slice_index sums.new) (length sums.old) }
{
    let mut least = NO_SUM;
    for (q, sum) in sums.iter_mut().enumerate() {
        *sum = sum.wrapping_add(changes[q]);
        least = lower(*sum, least);
    }
    least
}

/// Moves the sums of a column down by a row, and answers the lowest of the new sums.
///
/// `change` has, for each sum, the difference between the two rows at the column before. It gains
/// the numbers of `first_in` and `second_in` and loses those of `first_out` and `second_out`, which
/// makes it the difference at this column, and is added to the sum. The new sums are below 2^31.
pub fn move_sums(
    sums: &mut [u32],
    change: &mut [u32],
    first_in: &[u32],
    second_in: &[u32],
    first_out: &[u32],
    second_out: &[u32],
) -> u32
    requires change_long { length change.old ≡ length sums.old }
    requires first_in_long { length sums.old ≤ length first_in.now }
    requires second_in_long { length sums.old ≤ length second_in.now }
    requires first_out_long { length sums.old ≤ length first_out.now }
    requires second_out_long { length sums.old ≤ length second_out.now }
    requires signed { AreSigned
        (increased_sum sums.old (advanced_change change.old first_in.now second_in.now first_out.now
        second_out.now)) (length sums.old) }
    ensures differences { Tabulates change.new
        (advanced_change change.old first_in.now second_in.now first_out.now second_out.now) }
    ensures sums { Tabulates sums.new (increased_sum sums.old
        (advanced_change change.old first_in.now second_in.now first_out.now second_out.now)) }
    ensures lowest { result ≡ lowest (slice_index sums.new) (length sums.old) }
{
    let mut least = NO_SUM;
    for (q, sum) in sums.iter_mut().enumerate() {
        let more = change[q]
            .wrapping_add(first_in[q])
            .wrapping_add(second_in[q]);
        let difference = more.wrapping_sub(first_out[q]).wrapping_sub(second_out[q]);
        change[q] = difference;
        *sum = sum.wrapping_add(difference);
        least = lower(*sum, least);
    }
    least
}
