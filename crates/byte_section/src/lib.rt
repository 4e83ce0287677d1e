// The generic section of a file, and what readers and writers of files answer. A section's count is read here; how records follow it is in
// specs/, with its laws in proofs/.
#![tactic(auto)]

ghost use Rattle.std.specs.Prelude.{◌≡◌};
ghost use Rattle.refusal.specs.Told.{told_placed};
ghost use Rattle.byte_section.specs.Section.{count_at};

use refusal::{Fault, Refusal};

// A section whose records no one keeps: how many, and the place after it.
#[derive(Clone, Copy)]
pub struct Span {
    pub count: usize,
    pub next: usize,
}

// The count at a place, from low to high: 1 where the bytes end before it does, 2 where it is not allowed.
pub fn read_count(s: &[u8], at: usize, low: u32, high: u32) -> Result<usize, Fault>
    ensures { told_placed result ≡ count_at s.now at low high }
{
    if byte_words::left(s.len(), at) < 4 {
        return Err(Fault {
            why: Refusal::Short,
            place: s.len(),
        });
    }
    let n = byte_read::read_u32(s, at);
    if num_whole::within(low as u64, n as u64, high as u64) {
        Ok(n as usize)
    } else {
        Err(Fault {
            why: Refusal::Count,
            place: at,
        })
    }
}
