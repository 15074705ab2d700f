//! Ranks, which settle equal sums (SPECIFICATION, "Equals"), and the phase by a rank.
//!
//! From a centre the ticks have the ranks 0 (the centre), 2 (one ahead), 3 (one behind), 4 (two
//! ahead) and so on. Each `if` has a function of its own, so that loops over them compile to packed
//! instructions.

ghost use Rattle.std.specs.Prelude.{◌≡◌, ◌-◌, ◌/◌, ◌%◌, ◌<◌, ◌≤◌, true, if◌then◌else◌, nat_eq};
ghost use Rattle.std.specs.Prelude.{nat_le};
ghost use Rattle.refusal.specs.Limits.{longest_cycle};
ghost use Rattle.cycle.specs.Silence.{silent, is_heard, is_reading};
ghost use Rattle.median.specs.Ranks.{way_to, rank_of, tick_of, phase_by};

use cycle::SILENT;

// What to add to q - a so that it counts ticks ahead: the cycle where q is below a, else 0.
fn cycle_if_behind(cycle: u16, a: u16, q: u16) -> u16
    ensures { result ≡ (if nat_le a q then 0 else cycle) }
{
    if a <= q { 0 } else { cycle }
}

// How many ticks q lies ahead of a.
fn way_to(cycle: u16, a: u16, q: u16) -> u16
    ensures { result ≡ way_to cycle a q }
{
    q.wrapping_sub(a).wrapping_add(cycle_if_behind(cycle, a, q))
}

/// The rank of tick q from the centre a. Of numbers that are no ticks it is some number.
pub fn rank_of(cycle: u16, a: u16, q: u16) -> u16
    ensures { result ≡ rank_of cycle a q }
{
    let e = way_to(cycle, a, q);
    let d = e.min(cycle.saturating_sub(e));
    d + d + u16::from(d != e)
}

// How many ticks ahead of the centre the tick with this rank lies.
fn way_of(cycle: u32, rank: u32) -> u32
    requires { rank ≤ cycle }
    ensures { result ≡ (if nat_eq (rank % 2) 0 then rank / 2 else cycle - rank / 2) }
{
    if rank % 2 == 0 {
        rank / 2
    } else {
        cycle - rank / 2
    }
}

// The tick that has this rank from the centre.
fn tick_of(cycle: u32, centre: u32, rank: u32) -> u32
    requires { (centre < cycle) × (rank ≤ cycle) × (cycle ≤ longest_cycle) }
    ensures { result ≡ tick_of cycle centre rank }
{
    let tick = centre + way_of(cycle, rank);
    if tick < cycle { tick } else { tick - cycle }
}

// A heard centre, or tick 0 in place of a silent one.
fn tick_or_0(centre: u16) -> u16
    ensures { result ≡ (if is_heard centre then centre else 0) }
{
    if centre == SILENT { 0 } else { centre }
}

// A tick, or silent if the centre is.
fn unless_silent(centre: u16, tick: u16) -> u16
    ensures { result ≡ (if is_heard centre then tick else silent) }
{
    if centre == SILENT { SILENT } else { tick }
}

/// The phase of a window by its centre, or what stands in for it, and a rank: the tick with that
/// rank, or silent where the centre is silent, which says that none of the window was heard.
///
/// The tick is computed in either case, so that a loop over phases has no branch.
pub fn phase_by(cycle: u32, centre: u16, rank: u32) -> u16
    requires { (is_reading cycle centre ≡ true) × (0 < cycle) × (rank ≤ cycle)
        × (cycle ≤ longest_cycle) }
    ensures { result ≡ phase_by cycle centre rank }
{
    let tick = tick_of(cycle, tick_or_0(centre) as u32, rank);
    unless_silent(centre, tick as u16)
}
