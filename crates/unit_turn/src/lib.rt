// Inner to `unit_convert` and `unit_residual`: units by the row of their type; where they count around one turn, T stands for 0, and a difference is
// brought within half a turn.
#![tactic(auto)]

ghost use Rattle.std.specs.Prelude.{◌≡◌, ◌^◌, ◌≤◌, nat_abs};
ghost use Rattle.unit_nearest.specs.Doubles.{unit_within, told_nearest};
ghost use Rattle.unit_types.specs.Narrow.{Narrow};
ghost use Rattle.unit_turn.specs.Turning.{on_circle, top_of, brought, apart_by};

use unit_nearest::NoUnit;
use unit_types::{TURN, TypeRow};

// The unit of a double within the limits of a row, before T becomes 0.
pub fn unit_in(row: TypeRow, x: f64) -> Result<i64, NoUnit>
    requires { Narrow row }
    ensures { told_nearest result ≡ unit_within row.k row.low row.high x }
{
    unit_nearest::unit_within(x, row.k, row.low, row.high)
}

// T stands for 0 where q counts around one turn.
pub fn on_circle(row: TypeRow, q: i64) -> i64
    ensures { result ≡ on_circle row q }
{
    if row.turns {
        if q == TURN {
            return 0;
        }
    }
    q
}

// The greatest unit that becomes a double: below T where q counts around one turn.
pub fn top_of(row: TypeRow) -> i64
    ensures { result ≡ top_of row }
{
    if row.turns { 1_686_629_712 } else { row.high }
}

// A turn added or taken, so that half a turn is not passed.
fn bring(r: i64) -> i64
    requires { nat_abs r ≤ 2 ^ 41 }
    ensures { result ≡ brought r }
{
    if r > 843_314_856 {
        return r - TURN;
    }
    if r < -843_314_856 {
        return r + TURN;
    }
    r
}

// Observed minus computed, of two units within the limits of a row.
pub fn apart(row: TypeRow, o: i64, c: i64) -> i64
    requires { (nat_abs o ≤ 2 ^ 40) × (nat_abs c ≤ 2 ^ 40) }
    ensures { result ≡ apart_by row o c }
{
    if row.turns {
        bring(on_circle(row, o) - on_circle(row, c))
    } else {
        o - c
    }
}
