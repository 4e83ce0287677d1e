// The marks of a parameter, one word: which stations gave an accepted partial other than 0 for it.
#![tactic(auto)]

ghost use Rattle.std.specs.Prelude.{◌≡◌, ◌≤◌, ◌<◌};
ghost use Rattle.num_whole.specs.Tests.{less, pick};
ghost use Rattle.num_packed.specs.Sound.{is_zero};
ghost use Rattle.num_limits.specs.Capacities.{stations_most};
ghost use Rattle.take_marks.specs.Marks.{has_mark, with_mark, mark_count};
ghost use Rattle.take_marks.specs.Parts.{heard_word, among_marks};

use num_limits::STATIONS_MOST;

// The word with the mark of the station of row k.
pub fn with_mark(word: u16, k: u16) -> u16
    requires { k < stations_most }
    ensures { result ≡ with_mark word k }
{
    word | (1u16 << k)
}

// The word with that mark where a partial is not 0.
pub fn with_partial(word: u16, k: u16, x: i16) -> u16
    requires { k < stations_most }
    ensures { result ≡ pick (is_zero x) word (with_mark word k) }
{
    if x == 0 { word } else { with_mark(word, k) }
}

// Whether that station has a mark.
pub fn has(word: u16, k: u16) -> bool
    requires { k < stations_most }
    ensures { result ≡ has_mark word k }
{
    (word >> k) & 1 == 1
}

// How many stations have one.
pub fn count(word: u16) -> u32
    ensures { (result ≡ mark_count word) × (result ≤ stations_most) }
{
    word.count_ones()
}

// The word with the mark of row k where its count is above 0.
fn with_count(word: u16, k: u16, count: u32) -> u16
    requires { k < stations_most }
    ensures { result ≡ pick (less 0 count) (with_mark word k) word }
{
    if 0 < count { with_mark(word, k) } else { word }
}

// The word of the stations that have records, by their counts.
pub fn heard(counts: [u32; STATIONS_MOST]) -> u16
    ensures { result ≡ heard_word counts stations_most }
{
    let mut word: u16 = 0;
    for k in 0..STATIONS_MOST {
        word = with_count(word, k as u16, counts[k]);
    }
    word
}

// Whether each mark of a word is one of another's.
pub fn is_among(word: u16, all: u16) -> bool
    ensures { result ≡ among_marks word all }
{
    word & all == word
}
