// A normal file moved to the small form, or back to the old one: its bytes in that form into lent room, or the first refusal with its place, which
// changes nothing. 20 comes last.
#![tactic(auto)]

ghost use Rattle.std.specs.Prelude.{◌≡◌, true, false, length};
ghost use Rattle.refusal.specs.Told.{told_placed};
ghost use Rattle.num_whole.specs.Answer.{good};
ghost use Rattle.norm_read.specs.Normal.{read_normal, numbers_of};
ghost use Rattle.norm_move.specs.Move.{move_answer, move_left};

use norm_read::NormalRead;
use num_limits::LABELS_MOST;
use refusal::{Fault, Refusal};

// A file that was read: 20, else its bytes in the form.
fn move_read(file: &[u8], r: NormalRead, is_small: bool, out: &mut [u8]) -> Result<usize, Fault>
    requires { numbers_of (read_normal file.now) ≡ good r }
    ensures { (told_placed result ≡ move_answer is_small file.now (length out.old)) × (out.new ≡ move_left is_small file.now out.old) }
{
    let mut w: [usize; LABELS_MOST] = [0; LABELS_MOST];
    let mut u: [usize; LABELS_MOST] = [0; LABELS_MOST];
    let p = r.parameters;
    norm_gather::seat_labels(file, 8 + 4 * r.arcs, p, r.stored, &mut w);
    let m = norm_gather::keep_seats(file, r.matrix, r.stored, &w[..p], is_small, &mut u);
    let long = 36 + 4 * r.arcs + 24 * p + 8 * num_packed::triangle(m) + 8 * m;
    if out.len() < long {
        return Err(Fault {
            why: Refusal::Room,
            place: file.len(),
        });
    }
    norm_gather::put_file(out, file, r, &w[..p], &u[..m], is_small);
    Ok(long)
}

fn move_to(file: &[u8], is_small: bool, out: &mut [u8]) -> Result<usize, Fault>
    ensures { (told_placed result ≡ move_answer is_small file.now (length out.old)) × (out.new ≡ move_left is_small file.now out.old) }
{
    let r = norm_read::read(file)?;
    move_read(file, r, is_small, out)
}

// A normal file of either form, moved to the small one.
pub fn small(file: &[u8], out: &mut [u8]) -> Result<usize, Fault>
    ensures result_value { told_placed result ≡ move_answer true file.now (length out.old) }
    ensures out_after { out.new ≡ move_left true file.now out.old }
{
    move_to(file, true, out)
}

// A normal file of either form, moved to the old one.
pub fn old(file: &[u8], out: &mut [u8]) -> Result<usize, Fault>
    ensures result_value { told_placed result ≡ move_answer false file.now (length out.old) }
    ensures out_after { out.new ≡ move_left false file.now out.old }
{
    move_to(file, false, out)
}
