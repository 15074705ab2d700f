//! The mirrored edges of a row in a line.

ghost use Rattle.std.specs.Prelude.{◌+◌, ◌*◌, ◌≤◌, ◌<◌, length};
ghost use Rattle.sums.specs.Memory.{Changed};
ghost use Rattle.lines.specs.Lines.{mirrored_number};

/// Puts mirrored edges, `reach` numbers each, beside a row of n numbers that stands at place
/// `reach` of a line.
///
/// It goes outward from the row: the number k outside of an end is the one k inside of it, which is
/// there already, also where an edge is longer than the row.
pub fn mirror_edges(line: &mut [u16], n: usize, reach: usize)
    requires row { 0 < n }
    requires room { n + 2 * reach ≤ length line.old }
    ensures { Changed line.old line.new 0 (n + 2 * reach) (mirrored_number line.old n reach) }
{
    for k in 0..reach {
        line[reach - 1 - k] = line[reach + k];
        line[reach + n + k] = line[reach + n - 1 - k];
    }
}
