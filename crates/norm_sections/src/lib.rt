// Inner to `norm_read`: the sections of a normal file's sums, read by their counts and lengths.
#![tactic(auto)]

ghost use Rattle.std.specs.Prelude.{◌≡◌, ◌≤◌};
ghost use Rattle.refusal.specs.Told.{told_placed};
ghost use Rattle.num_limits.specs.Capacities.{labels_most, sums_most};
ghost use Rattle.num_packed.specs.Triangle.{tri};
ghost use Rattle.norm_sections.specs.Sums.{plain_part, totals_part, sums_part};

use refusal::{Fault, Refusal};

// Where the records of the last three sections begin.
#[derive(Clone, Copy)]
pub struct Places {
    pub matrix: usize,
    pub rights: usize,
    pub totals: usize,
}

// A section whose count can only be n, of records that are judged by their length alone.
fn read_plain(s: &[u8], at: usize, n: u32, size: usize) -> Result<usize, Fault>
    requires { (n ≤ sums_most) × (size ≤ 16) }
    ensures { told_placed result ≡ plain_part s.now at n size }
{
    byte_section::read_count(s, at, n, n)?;
    let start = at + 4;
    let needed = n as usize * size;
    if s.len() - start < needed {
        return Err(Fault {
            why: Refusal::Short,
            place: s.len(),
        });
    }
    Ok(start + needed)
}

// How many matrix sums p parameters have.
fn triangle(p: usize) -> u32
    requires { p ≤ labels_most }
    ensures { (result ≡ tri p) × (result ≤ sums_most) }
{
    num_packed::triangle(p) as u32
}

// The totals section, the last one; `matrix` and `rights` are where the sums before it begin.
fn read_totals(s: &[u8], at: usize, matrix: usize, rights: usize) -> Result<Places, Fault>
    ensures { told_placed result ≡ totals_part s.now at matrix rights }
{
    let end = read_plain(s, at, 1, 16)?;
    if end < s.len() {
        return Err(Fault {
            why: Refusal::Surplus,
            place: end,
        });
    }
    Ok(Places {
        matrix,
        rights,
        totals: at + 4,
    })
}

// The matrix sums, the right sides and the totals of p parameters, and then no byte more.
pub fn read_sums(s: &[u8], at: usize, p: usize) -> Result<Places, Fault>
    requires { p ≤ labels_most }
    ensures { told_placed result ≡ sums_part s.now p at }
{
    let sides = read_plain(s, at, triangle(p), 8)?;
    let last = read_plain(s, sides, p as u32, 8)?;
    read_totals(s, last, at + 4, sides + 4)
}
