// Inner to `list`: the whole listing of an arc, written into lent room.
#![tactic(auto)]

ghost use Rattle.std.specs.Prelude.{◌≡◌, ◌≤◌, length};
ghost use Rattle.num_limits.specs.Capacities.{parameters_most};
ghost use Rattle.decimal.specs.Laid.{laid};
ghost use Rattle.num_packed.specs.Triangle.{tri};
ghost use Rattle.list_lines.specs.Lines.{arc_lines};

use arc_heading::Heading;
use take_tally::Tally;

// The whole listing of an arc: its heading, so many records with the table of their answers, and the tally and the sums after them.
pub fn put_arc(
    room: &mut [u8],
    h: Heading,
    count: u64,
    table: &[u64],
    t: Tally,
    matrix: &[i64],
    rights: &[i64],
) -> usize
    requires { (h.parameters ≤ parameters_most) × (tri h.parameters ≤ length matrix.now) × (h.parameters ≤ length rights.now) }
    ensures { (room.new, result) ≡ laid room.old 0 (arc_lines h count table.now matrix.now rights.now t) }
{
    let settings = h.settings;
    let a = list_lines::put_one(room, 0, b"arc ", settings.arc as u64);
    let b = list_lines::put_one(room, a, b"parameters ", h.parameters as u64);
    let c = list_lines::put_parameters(room, b, h, t, matrix, rights);
    let d = list_lines::put_two(
        room,
        c,
        b"records ",
        count,
        b" accepted ",
        list_tallies::tally(table, 0),
    );
    let e = list_tallies::put_tallies(room, d, table);
    list_lines::put_one(room, e, b"square sum ", t.square)
}
