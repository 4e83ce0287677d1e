// The ten types of measurement: the table's row of each.
#![tactic(auto)]

ghost use Rattle.std.specs.Prelude.{◌≡◌, false};
ghost use Rattle.refusal.specs.Told.{told};
ghost use Rattle.unit_types.specs.Types.{row, is_type, row_of_type, row_at};

use refusal::Refusal;

// T, one turn in units of 2 ^ -28 radian.
pub const TURN: i64 = 1_686_629_713;

// A row of the paper's table of types; `turns` where q counts around one turn.
#[derive(Clone, Copy)]
pub struct TypeRow {
    pub k: u64,
    pub low: i64,
    pub high: i64,
    pub step: u64,
    pub factor: u64,
    pub turns: bool,
}

// Whether a number is that of a type.
pub fn is_type(kind: u32) -> bool
    ensures { result ≡ is_type kind }
{
    num_whole::within(1, kind as u64, 10)
}

// A row in metres: its k and its limits.
fn metre_row(k: u64, low: i64, high: i64) -> TypeRow
    ensures { result ≡ row k low high 64 4 false }
{
    TypeRow {
        k,
        low,
        high,
        step: 64,
        factor: 4,
        turns: false,
    }
}

// A row of cosines or angles: its limits, and whether T stands for 0.
fn angle_row(low: i64, high: i64, turns: bool) -> TypeRow
    ensures { result ≡ row 28 low high 256 1 turns }
{
    TypeRow {
        k: 28,
        low,
        high,
        step: 256,
        factor: 1,
        turns,
    }
}

// The row of a type; what is no type has the first.
pub fn table_row(kind: u32) -> TypeRow
    ensures { result ≡ row_of_type kind }
{
    match kind {
        2 => metre_row(16, -2_147_483_648, 2_147_483_648),
        3 => angle_row(-268_435_456, 268_435_456, false),
        4 => angle_row(-268_435_456, 268_435_456, false),
        5 => angle_row(-421_657_428, 421_657_428, false),
        6 => angle_row(-421_657_428, 421_657_428, false),
        7 => angle_row(0, TURN, true),
        8 => angle_row(0, 421_657_428, false),
        9 => angle_row(0, TURN, true),
        10 => angle_row(-421_657_428, 421_657_428, false),
        _ => metre_row(10, 0, 1_099_511_627_776),
    }
}

// The row of a type, or 11.
pub fn row_of(kind: u32) -> Result<TypeRow, Refusal>
    ensures { told result ≡ row_at kind }
{
    if is_type(kind) {
        Ok(table_row(kind))
    } else {
        Err(Refusal::NoType)
    }
}
