// How many floors lines in whatever order have. A member that others rest on has such lines; no call takes them yet.
ghost use Rattle.std.specs.Prelude.{◌≡◌, cond, map, ◌≤◌};
ghost use Rattle.column.specs.Line.{unpacked};
ghost use Rattle.figure.specs.Carried.{floors_of};
ghost use Rattle.figure.specs.inner.Totals.{Lined};

use crate::lines::floor_of;

// A mark for each floor, and for 0, which no line has.
const MARKS: usize = column::LOWEST_FLOOR as usize + 1;

// How many floors lines have: each is marked where it is met.
pub fn floors_marked(lines: &[u64]) -> u64
    requires { Lined lines.now }
    ensures { result ≡ floors_of (map unpacked lines.now) }
{
    let mut seen = [false; MARKS];
    let mut floors: u64 = 0;
    for line in lines {
        let at = floor_of(*line) as usize;
        if !seen[at] {
            floors += 1;
        }
        seen[at] = true;
    }
    floors
}
