//! What the runs count: the pushes, those of them that were refused, the comparisons, and those
//! that found a difference.

ghost use Rattle.std.specs.Prelude.{◌≡◌, ◌+◌, ◌-◌, ◌^◌, min};

use std::fmt;

/// The counts. Each stops at the largest number.
#[derive(Clone, Copy, Debug, Default)]
pub struct Tally {
    /// Readings pushed.
    pub pushes: usize,
    /// Pushes that were refused.
    pub refusals: usize,
    /// Comparisons made.
    pub comparisons: usize,
    /// Comparisons that found a difference.
    pub differences: usize,
}

impl Tally {
    pub(crate) fn add_push(&mut self, is_refused: bool) {
        self.add_pushes(1);
        self.refusals = self.refusals.saturating_add(usize::from(is_refused));
    }

    /// Counts `n` pushes, none of them refused.
    pub fn add_pushes(&mut self, n: usize)
        ensures { self.new ≡ record self.old { pushes = min (self.old.pushes + n) (2 ^ 64 - 1) } }
    {
        self.pushes = self.pushes.saturating_add(n);
    }

    /// Counts `n` comparisons, of which `equal` found no difference.
    pub fn add_comparisons(&mut self, n: usize, equal: usize)
        ensures { self.new ≡ record self.old {
          comparisons = min (self.old.comparisons + n) (2 ^ 64 - 1);
          differences = min (self.old.differences + (n - equal)) (2 ^ 64 - 1);
        } }
    {
        self.comparisons = self.comparisons.saturating_add(n);
        self.differences = self.differences.saturating_add(n.saturating_sub(equal));
    }

    pub(crate) fn add_comparison(&mut self, is_equal: bool) {
        self.add_comparisons(1, usize::from(is_equal));
    }
}

impl fmt::Display for Tally {
    fn fmt<W: fmt::Write>(&self, f: &mut fmt::Formatter<W>) -> fmt::Result {
        writeln!(f, "pushes {}", self.pushes)?;
        writeln!(f, "refused {}", self.refusals)?;
        writeln!(f, "compared {}", self.comparisons)?;
        writeln!(f, "differences {}", self.differences)
    }
}
