// Inner to `merge_put`: where the labels whose sums one file stores stand among united ones, found once.
#![tactic(auto)]

ghost use Rattle.std.specs.Prelude.{◌≡◌, ◌+◌, ◌*◌, ◌≤◌, length};
ghost use Rattle.byte_words.specs.Words.{lay};
ghost use Rattle.merge_locate.specs.Locate.{stored_at, stored_for, numbers_where};

// Whether the qth of the p labels that stand at a place has its sums stored; one past them has not.
fn is_stored(s: &[u8], labels: usize, p: usize, q: usize) -> bool
    requires { labels + 24 * p ≤ length s.now }
    ensures { result ≡ stored_at s.now labels p q }
{
    q < p && byte_read::read_u32(s, labels + 24 * q + 12) != 2
}

// How many of n united labels have their sums stored in a file, where `left` has the place of each among the file's p labels, p or more where
// the file lacks it; which they are goes into the lent room.
pub fn locate(s: &[u8], labels: usize, p: usize, left: &[usize], n: usize, t: &mut [usize]) -> usize
    requires { (labels + 24 * p ≤ length s.now) × (n ≤ length left.now) × (n ≤ length t.old) }
    ensures { (result ≡ length (numbers_where (stored_for s.now labels p left.now) 0 n)) × (t.new ≡ lay t.old 0 (numbers_where (stored_for s.now labels p left.now) 0 n)) }
{
    let mut m: usize = 0;
    for i in 0..n {
        if is_stored(s, labels, p, left[i]) {
            t[m] = i;
            m += 1;
        }
    }
    m
}
