// The 25 load combinations, and the search for the rows that govern.
ghost use Rattle.std.specs.Prelude.{◌≡◌, ◌<◌, ◌^◌, ℤ, Bool, pos, get_or};
ghost use Rattle.newtons.specs.Effect.{limit};
ghost use Rattle.combination.specs.Factors.{factors};
ghost use Rattle.combination.specs.Governing.{sum_of, sums, best};
ghost use Rattle.combination.specs.inner.Sense.{Tests};
ghost use Rattle.combination.specs.Combine.{row_of, governing};
ghost use Rattle.effects.specs.inner.Sized.{Sized, Seven};

use crate::{Governing, GoverningRow};

// The factors of each row in tenths: D, L, Lr, S, R, W, E.
const FACTORS: [[i8; 7]; 25] = [
    [14, 0, 0, 0, 0, 0, 0],
    [12, 16, 5, 0, 0, 0, 0],
    [12, 16, 0, 5, 0, 0, 0],
    [12, 16, 0, 0, 5, 0, 0],
    [12, 10, 16, 0, 0, 0, 0],
    [12, 0, 16, 0, 0, 5, 0],
    [12, 0, 16, 0, 0, -5, 0],
    [12, 10, 0, 16, 0, 0, 0],
    [12, 0, 0, 16, 0, 5, 0],
    [12, 0, 0, 16, 0, -5, 0],
    [12, 10, 0, 0, 16, 0, 0],
    [12, 0, 0, 0, 16, 5, 0],
    [12, 0, 0, 0, 16, -5, 0],
    [12, 10, 5, 0, 0, 10, 0],
    [12, 10, 5, 0, 0, -10, 0],
    [12, 10, 0, 5, 0, 10, 0],
    [12, 10, 0, 5, 0, -10, 0],
    [12, 10, 0, 0, 5, 10, 0],
    [12, 10, 0, 0, 5, -10, 0],
    [12, 10, 0, 2, 0, 0, 10],
    [12, 10, 0, 2, 0, 0, -10],
    [9, 0, 0, 0, 0, 10, 0],
    [9, 0, 0, 0, 0, -10, 0],
    [9, 0, 0, 0, 0, 0, 10],
    [9, 0, 0, 0, 0, 0, -10],
];

// Seven effects in whole newtons, each within the limit.
#[derive(Clone, Copy)]
pub struct Within {
    pub newtons: [i64; 7],
    pub ghost seven: { Seven limit newtons },
}

// The sums of the 25 rows in tenths of a newton, none too large for a double.
#[derive(Drop)]
struct Sums {
    tenths: [i64; 25],
    ghost held: { Sized 25 (2 ^ 53) tenths },
}

// The table, read once for all rows, whose rows stand in proofs as the definition's: with 25 rows of the const
// the proof of `sums_of` did not close (`returns`, at antt's limits).
fn factors_of() -> [[i8; 7]; 25]
    ensures { result ≡ factors }
{
    FACTORS
}

// The sum of a row, each factor times its effect.
fn sum_of(factors: [i8; 7], effects: Within) -> i64
    requires { Seven 16 factors }
    ensures { result ≡ sum_of factors effects.newtons }
{
    let mut sum = 0i64;
    for (factor, effect) in factors.iter().zip(effects.newtons.iter()) {
        sum += i64::from(*factor) * *effect;
    }
    sum
}

// The sum of the row at an index of the table.
fn sum_at(table: [[i8; 7]; 25], row: usize, effects: Within) -> i64
    requires table { table ≡ factors }
    requires row { row < 25 }
    ensures { result ≡ get_or (sums effects.newtons) row (pos 0) }
{
    sum_of(table[row], effects)
}

// The sums of the 25 rows. Each is read at a literal index, so that the compiled code has its factors
// as literals and no term for a 0: combining takes 0.68 to 0.74 of plain Rust, where a loop over the rows
// takes 1.15 to 1.17, and the array's `map` 1.7 to 2.3.
fn sums_of(effects: Within) -> [i64; 25]
    ensures { result ≡ sums effects.newtons }
{
    let table = factors_of();
    [
        sum_at(table, 0, effects),
        sum_at(table, 1, effects),
        sum_at(table, 2, effects),
        sum_at(table, 3, effects),
        sum_at(table, 4, effects),
        sum_at(table, 5, effects),
        sum_at(table, 6, effects),
        sum_at(table, 7, effects),
        sum_at(table, 8, effects),
        sum_at(table, 9, effects),
        sum_at(table, 10, effects),
        sum_at(table, 11, effects),
        sum_at(table, 12, effects),
        sum_at(table, 13, effects),
        sum_at(table, 14, effects),
        sum_at(table, 15, effects),
        sum_at(table, 16, effects),
        sum_at(table, 17, effects),
        sum_at(table, 18, effects),
        sum_at(table, 19, effects),
        sum_at(table, 20, effects),
        sum_at(table, 21, effects),
        sum_at(table, 22, effects),
        sum_at(table, 23, effects),
        sum_at(table, 24, effects),
    ]
}

// The row whose sum beats all others, with its sum as a double too; where sums are equal, the lowest row. As a
// fold it is as quick, and no shorter: the step has the same test, and a row with its sum in both its arms.
fn governing_row<F: Fn(i64, i64) -> bool>(beats: F, sums: &Sums) -> GoverningRow
    requires { F.IsAlwaysCallable beats }
    ensures { (test : ℤ → ℤ → Bool) → Tests (F.post beats) test → result ≡ row_of (best test sums.now.tenths) }
{
    let mut row = 1u64;
    let mut tenths = sums.tenths[0];
    for (i, sum) in sums.tenths.iter().enumerate() {
        if beats(*sum, tenths) {
            row = i as u64 + 1;
            tenths = *sum;
        }
    }
    GoverningRow {
        row,
        tenths,
        double: tenths as f64,
    }
}

// The rows with the greatest and the least sum; compiled into its callers, as `govern` is.
#[inline(always)]
pub fn governing_of(effects: Within) -> Governing
    ensures { result ≡ governing effects.newtons }
{
    let sums = Sums {
        tenths: sums_of(effects),
    };
    Governing {
        greatest: governing_row(|a, b| a > b, &sums),
        least: governing_row(|a, b| a < b, &sums),
    }
}
