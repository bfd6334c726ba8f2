// Answers as lines of text, printed into a lent buffer from a place on. Each function answers the next place.
// A number takes at most ten digits, and one byte before or behind it.
ghost use Rattle.std.specs.Prelude.{◌≡◌, ℕ, [], ◌∷◌, ◌++◌, ◌+◌, ◌*◌, ◌≤◌, ◌<◌, length};
ghost use Rattle.meaning.specs.Run.{number_of};
ghost use Rattle.meaning.specs.Answers.{answered, counted};
ghost use Rattle.text.specs.Line.{space};
ghost use Rattle.text.specs.Print.{decimal, hex_digit, hex, hex_word, spaced, printed, newline, question};
ghost use Rattle.text.specs.Lays.{Lays, LaysAtMost};

use meaning::Report;
use meaning::values::Values;

// ---- bytes, numbers, hex

// One byte.
pub fn put_byte(out: &mut [u8], at: usize, b: u8) -> usize
    requires { at < length out.old }
    ensures { Lays out.old at (b ∷ []) out.new result }
{
    out[at] = b;
    at + 1
}

// Bytes as they are.
pub fn put_bytes(out: &mut [u8], at: usize, bytes: &[u8]) -> usize
    requires { at + length bytes.now ≤ length out.old }
    ensures { Lays out.old at bytes.now out.new result }
{
    let end = at + bytes.len();
    out[at..end].copy_from_slice(bytes);
    end
}

// A number in decimal: the digits before its last one, and that digit.
pub fn put_decimal(out: &mut [u8], at: usize, n: u32) -> usize
    requires { at + 10 ≤ length out.old }
    ensures { LaysAtMost 10 out.old at (decimal n) out.new result }
{
    if n < 10 {
        return put_byte(out, at, b'0' + n as u8);
    }
    let next = put_decimal(out, at, n / 10);
    put_byte(out, next, b'0' + (n % 10) as u8)
}

// A number after a space.
fn put_number(out: &mut [u8], at: usize, n: u32) -> usize
    requires { at + 11 ≤ length out.old }
    ensures { LaysAtMost 11 out.old at (space ∷ decimal n) out.new result }
{
    let next = put_byte(out, at, b' ');
    put_decimal(out, next, n)
}

// Numbers, each after a space.
fn put_numbers(out: &mut [u8], at: usize, numbers: &[u32]) -> usize
    requires { at + 11 * length numbers.now ≤ length out.old }
    ensures { LaysAtMost (11 * length numbers.now) out.old at (spaced numbers.now) out.new result }
{
    let mut next = at;
    for n in numbers {
        next = put_number(out, next, *n);
    }
    next
}

// Hex is lower case.
fn hex_digit(n: u8) -> u8
    requires { n < 16 }
    ensures { result ≡ hex_digit n }
{
    if n < 10 { 48 + n } else { 87 + n }
}

// A byte in hex: two digits.
fn put_hex_byte(out: &mut [u8], at: usize, b: u8) -> usize
    requires { at + 2 ≤ length out.old }
    ensures { Lays out.old at (hex (b ∷ [])) out.new result }
{
    let next = put_byte(out, at, hex_digit(b / 16));
    put_byte(out, next, hex_digit(b % 16))
}

// Bytes in hex.
pub fn put_hex(out: &mut [u8], at: usize, bytes: &[u8]) -> usize
    requires { at + 2 * length bytes.now ≤ length out.old }
    ensures { Lays out.old at (hex bytes.now) out.new result }
{
    let mut next = at;
    for b in bytes {
        next = put_hex_byte(out, next, *b);
    }
    next
}

// Bytes as one hex word after a space; nothing where there are none.
fn put_hex_word(out: &mut [u8], at: usize, bytes: &[u8]) -> usize
    requires { at + 1 + 2 * length bytes.now ≤ length out.old }
    ensures { Lays out.old at (hex_word bytes.now) out.new result }
{
    if bytes.is_empty() {
        return at;
    }
    let next = put_byte(out, at, b' ');
    put_hex(out, next, bytes)
}

// ---- answers, each a line with its newline

// A line that is no call.
pub fn print_unknown(out: &mut [u8], at: usize) -> usize
    requires { at + 2 ≤ length out.old }
    ensures { Lays out.old at (question ++ newline ∷ []) out.new result }
{
    let next = put_byte(out, at, b'?');
    put_byte(out, next, b'\n')
}

// The report of a call that was refused.
fn print_refusal(out: &mut [u8], at: usize, why: Report) -> usize
    requires { at + 11 ≤ length out.old }
    ensures { Lays out.old at (decimal (number_of why) ++ newline ∷ []) out.new result }
{
    let next = put_decimal(out, at, u32::from(why));
    put_byte(out, next, b'\n')
}

// The report, and the numbers of an accepted call.
pub fn print_answer<const N: usize, T: Values<N>>(
    out: &mut [u8],
    at: usize,
    answer: Result<T, Report>,
) -> usize
    requires { at + 11 * (1 + N) ≤ length out.old }
    ensures { (n : ℕ) → Lays out.old at (printed (answered n T.numbers answer) [] ++ newline ∷ []) out.new result }
{
    match answer {
        Ok(values) => {
            let next = put_byte(out, at, b'0');
            let end = put_numbers(out, next, &values.numbers());
            put_byte(out, end, b'\n')
        }
        Err(why) => print_refusal(out, at, why),
    }
}

// A count, and so many bytes in hex.
pub fn print_counted(out: &mut [u8], at: usize, answer: Result<u32, Report>, bytes: &[u8]) -> usize
    requires { at + 23 + 2 * length bytes.now ≤ length out.old }
    ensures { Lays out.old at (printed (counted answer) bytes.now ++ newline ∷ []) out.new result }
{
    match answer {
        Ok(n) => {
            let next = put_byte(out, at, b'0');
            let behind = put_number(out, next, n);
            let end = put_hex_word(out, behind, bytes);
            put_byte(out, end, b'\n')
        }
        Err(why) => print_refusal(out, at, why),
    }
}
