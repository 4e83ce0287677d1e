// What the programs that run vectors share: a line's words and numbers, and the pieces of a line that is written. Nothing here refuses: a part
// that a text does not have is empty, and where no digit stands the number is 0.
#![tactic(auto)]

ghost use Rattle.std.specs.Prelude.{◌≡◌, ◌+◌, ◌-◌, ◌<◌, ◌≤◌, IfSome, length, drop, min};

pub use desk_files::Tell;
use refusal::Refusal;
use std::cell::Cell;
use std::fmt::Display;
use std::io;

// The text after its first mark; nothing where it has none.
pub fn after(text: &[u8], mark: u8) -> &[u8]
    ensures of_text { result.now ≡ drop (length text.now - length result.now) text.now }
    ensures within { length result.now ≤ length text.now }
    ensures later { min 1 (length text.now) + length result.now ≤ length text.now }
{
    match text.iter().position(|b| *b == mark) {
        Some(i) => &text[i + 1..],
        None => &[],
    }
}

// A text from an item on, with items counted from 0 and a mark after each; nothing where it has fewer.
pub fn from_item(text: &[u8], mark: u8, count: usize) -> &[u8] {
    text.splitn(count.saturating_add(1), |b| *b == mark)
        .nth(count)
        .unwrap_or(&[])
}

// How many items a text has, with a mark between them; an empty one has none.
pub fn items(text: &[u8], mark: u8) -> usize {
    text.split_inclusive(|b| *b == mark).count()
}

// A line from a word on, with words counted from 0 and a space after each; nothing where it has fewer.
pub fn from_word(line: &[u8], count: usize) -> &[u8] {
    from_item(line, b' ', count)
}

// What stands before a word of a line; all of it where it has fewer.
pub fn before_word(line: &[u8], count: usize) -> &[u8] {
    &line[..line.len().saturating_sub(from_word(line, count).len())]
}

// The first word of a text: what stands before a space or the line's end.
pub fn first_word(text: &[u8]) -> &[u8] {
    text.split(|b| *b <= b' ').next().unwrap_or(text)
}

// What stands after the `=` of a line's word.
pub fn value(line: &[u8], count: usize) -> &[u8] {
    first_word(after(from_word(line, count), b'='))
}

// The text from a place to another, or nothing where there is no such part.
pub fn part(text: &[u8], from: usize, to: usize) -> &[u8] {
    text.get(from..to).unwrap_or(&[])
}

// What a digit of a base stands for; letters are in lower case.
fn digit(byte: u8, base: u8) -> Option<u8>
    ensures { IfSome result (λ value. value < base) }
{
    let value = match byte {
        b'0'..=b'9' => byte - b'0',
        b'a'..=b'f' => byte - b'a' + 10,
        _ => return None,
    };
    if value < base { Some(value) } else { None }
}

// The number whose digits in a base begin a text, or the largest where it is too large.
fn number(text: &[u8], base: u8) -> u64 {
    text.iter()
        .map_while(|b| digit(*b, base))
        .fold(0, |value: u64, next: u8| {
            value
                .saturating_mul(u64::from(base))
                .saturating_add(u64::from(next))
        })
}

// The number whose decimal digits begin a text, or the largest where it is too large.
pub fn decimal(text: &[u8]) -> u64 {
    number(text, 10)
}

// The number whose hexadecimal digits begin a text, or the largest where it is too large.
pub fn hex(text: &[u8]) -> u64 {
    number(text, 16)
}

// The number whose decimal digits begin a text, after a minus or none, as far as a signed number goes.
pub fn signed(text: &[u8]) -> i64 {
    match text.strip_prefix(b"-") {
        Some(digits) => 0i64.saturating_sub_unsigned(decimal(digits)),
        None => 0i64.saturating_add_unsigned(decimal(text)),
    }
}

// A number, or the largest of 16 bits where it is too large.
pub fn as_u16(value: u64) -> u16 {
    u16::try_from(value).unwrap_or(u16::MAX)
}

// A number, or the largest of 32 bits where it is too large.
pub fn as_u32(value: u64) -> u32 {
    u32::try_from(value).unwrap_or(u32::MAX)
}

// The number that a word of a line is, or the largest of 32 bits where it is too large.
pub fn small(line: &[u8], count: usize) -> u32 {
    as_u32(decimal(from_word(line, count)))
}

// The bytes that pairs of hexadecimal digits at a line's start stand for, put at the start of a buffer, as far as it goes.
pub fn hex_bytes<'a>(line: &[u8], buf: &'a mut [u8]) -> &'a [u8] {
    let mut n: usize = 0;
    for &[high, low] in line.as_chunks::<2>().0 {
        let (Some(high), Some(low)) = (digit(high, 16), digit(low, 16)) else {
            break;
        };
        if n >= buf.len() {
            break;
        }
        buf[n] = high * 16 + low;
        n += 1;
    }
    &buf[..n]
}

// Standard output, and whether it takes no more.
#[derive(Drop)]
pub struct Output<'a, R> {
    rt: &'a R,
    is_lost: Cell<bool>,
}

impl<'a, R> Output<'a, R> {
    pub fn new(rt: &'a R) -> Output<'a, R> {
        Output {
            rt,
            is_lost: Cell::new(false),
        }
    }

    // What the output goes through, for files and standard error.
    pub fn runtime(&self) -> &'a R {
        self.rt
    }
}

impl<'a, R: Print + Tell> Output<'a, R> {
    // Writes a value; by this method `print!(stdout; ..)` writes a format.
    pub fn print<D: Display + Drop>(&self, what: D) {
        if !self.is_lost.get() {
            self.look(self.rt.print(what));
        }
    }

    // Looks at what a write answered. The first failure is told, and what would still be written is dropped: no program here ends early for it,
    // and each later write would fail and be told again.
    fn look(&self, written: io::Result<()>) {
        if let Err(why) = written {
            desk_files::fail(self.rt, b"standard output", why);
            self.is_lost.set(true);
        }
    }
}

// Writes bytes to standard output.
pub fn put<R: Print + Tell>(stdout: &Output<'_, R>, bytes: &[u8]) {
    if !stdout.is_lost.get() {
        stdout.look(stdout.rt.write_all(bytes));
    }
}

// Writes a number in decimal, and what stands after it.
pub fn put_number<R: Print + Tell>(stdout: &Output<'_, R>, value: u64, after: &[u8]) {
    stdout.print(value);
    put(stdout, after);
}

// Writes a signed number in decimal, and what stands after it.
pub fn put_signed<R: Print + Tell>(stdout: &Output<'_, R>, value: i64, after: &[u8]) {
    stdout.print(value);
    put(stdout, after);
}

// Writes bytes as two hexadecimal digits each.
pub fn put_bytes<R: Print + Tell>(stdout: &Output<'_, R>, bytes: &[u8]) {
    for b in bytes {
        print!(stdout; "{b:02x}");
    }
}

// Writes the items of a list, with a comma between them.
pub fn put_list<R: Print + Tell, T: Display + Copy + Drop>(stdout: &Output<'_, R>, list: &[T]) {
    for (i, item) in list.iter().enumerate() {
        if i > 0 {
            print!(stdout; ",");
        }
        stdout.print(*item);
    }
}

// Writes a refusal by its number, and what stands after it.
pub fn put_refusal<R: Print + Tell>(stdout: &Output<'_, R>, why: Refusal, after: &[u8]) {
    put(stdout, b"refused ");
    put_number(stdout, u64::from(refusal::number(why)), after);
}
