//! The running sums of a live window.

ghost use Rattle.std.specs.Prelude.{◌≡◌, ◌<◌, length};
ghost use Rattle.sums.specs.Memory.{Tabulates};
ghost use Rattle.live.specs.Passes.{entered_reading, entered_sum};

use cycle::apart;

/// A reading enters a window, and the oldest one leaves.
///
/// `readings` are ticks of the cycle or 65,535 (silent), oldest first; `sums` has for each the
/// total of its distances in ticks, modulo 65,536. What stays moves one place to the front, each
/// reading with its sum: the distance to the newest is added, that to the oldest taken off. The
/// newest comes last, and the total of what was added is its own sum.
///
/// Two arrays, so that the loop takes packed instructions; the test of the cycle in `apart` leaves
/// the loop.
pub fn slide(cycle: u16, newest: u16, readings: &mut [u16], sums: &mut [u16])
    requires some { 0 < length readings.old }
    requires sums_alike { length sums.old ≡ length readings.old }
    ensures readings { Tabulates readings.new (entered_reading newest readings.old) }
    ensures sums { Tabulates sums.new (entered_sum cycle newest readings.old sums.old) }
{
    let last = readings.len() - 1;
    let oldest = readings[0];
    let mut total: u16 = 0;
    for k in 0..last {
        let q = readings[k + 1];
        let gain = apart(cycle, q, newest);
        let loss = apart(cycle, q, oldest);
        sums[k] = sums[k + 1].wrapping_add(gain).wrapping_sub(loss);
        readings[k] = q;
        total = total.wrapping_add(gain);
    }
    readings[last] = newest;
    sums[last] = total;
}
