// Inner to the merging of normal files: labels read from a file's bytes, and those of two files compared.
#![tactic(auto)]

ghost use Rattle.std.specs.Prelude.{◌≡◌, ◌+◌, ◌*◌, ◌≤◌, length};
ghost use Rattle.num_whole.specs.Tests.{below};
ghost use Rattle.byte_words.specs.Words.{lay};
ghost use Rattle.norm_kinds.specs.Kinds.{normal_label_at};
ghost use Rattle.merge_join.specs.Alike.{alike};
ghost use Rattle.merge_read.specs.Read.{keys_at, agree_in, agree_at};

use norm_system::NormalLabel;

// ---- reading

// The label at a place, read from a part of just its bytes, so that nothing is tested.
pub fn label_at(s: &[u8], at: usize) -> NormalLabel
    requires { at + 24 ≤ length s.now }
    ensures { result ≡ normal_label_at s.now at }
{
    norm_kinds::load_label(&s[at..at + 24], 0)
}

// The keys of the n labels that stand at a place, into lent room.
pub fn load_keys(s: &[u8], start: usize, n: usize, keys: &mut [u64])
    requires { (start + 24 * n ≤ length s.now) × (n ≤ length keys.old) }
    ensures { keys.new ≡ lay keys.old 0 (keys_at s.now start n) }
{
    for i in 0..n {
        let l = label_at(s, start + 24 * i);
        let k = norm_system::label_key(l);
        keys[i] = k;
    }
}

// ---- comparing

fn alike_at(a: &[u8], p: usize, b: &[u8], q: usize) -> bool
    requires { (p + 24 ≤ length a.now) × (q + 24 ≤ length b.now) }
    ensures { result ≡ alike (normal_label_at a.now p) (normal_label_at b.now q) }
{
    byte_read::read_u32(a, p + 8) == byte_read::read_u32(b, q + 8)
        && byte_signed::read_i64(a, p + 16) == byte_signed::read_i64(b, q + 16)
}

fn agree_in(
    a: &[u8],
    start: usize,
    n: usize,
    b: &[u8],
    begin: usize,
    m: usize,
    p: usize,
    q: usize,
) -> bool
    requires { (start + 24 * n ≤ length a.now) × (begin + 24 * m ≤ length b.now) }
    ensures { result ≡ agree_in a.now start n b.now begin m p q }
{
    if p < n {
        if q < m {
            return alike_at(a, start + 24 * p, b, begin + 24 * q);
        }
    }
    true
}

// Whether the labels that both files have are alike.
pub fn agree(
    a: &[u8],
    start: usize,
    n: usize,
    left: &[usize],
    b: &[u8],
    begin: usize,
    m: usize,
    right: &[usize],
    count: usize,
) -> bool
    requires n_in_bounds { (start + 24 * n ≤ length a.now) × (begin + 24 * m ≤ length b.now) }
    requires count_in_bounds { (count ≤ length left.now) × (count ≤ length right.now) }
    ensures { result ≡ below (agree_at a.now start n left.now b.now begin m right.now) count }
{
    for i in 0..count {
        if !agree_in(a, start, n, b, begin, m, left[i], right[i]) {
            return false;
        }
    }
    true
}
