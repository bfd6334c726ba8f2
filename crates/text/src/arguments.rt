// What follows on a line, taken from the left: words, numbers, data. None: no space follows, and so nothing more.
ghost use Rattle.std.specs.Prelude.{◌≡◌, ℕ, List, Option, Some, option_map};
ghost use Rattle.std.specs.Option.{option_copied};
ghost use Rattle.meaning.specs.Run.{Call};
ghost use Rattle.text.specs.Line.{number, first_word, after_word, nothing, a_word, a_number, a_name, two_names, last_number, the_data};
ghost use Rattle.text.specs.Arguments.{taken, counted};
ghost use Rattle.text.specs.Words.{to_read, to_write, to_seek};

use crate::search::cut;

// read may ask for so many bytes.
const LARGEST_READ: u32 = 2048;

// The word that a row of bytes begins with, and what follows the space behind it.
pub fn first_word(bytes: &[u8]) -> (&[u8], Option<&[u8]>)
    ensures word { result.0.now ≡ first_word bytes.now }
    ensures rest { option_copied result.1 ≡ after_word bytes.now }
{
    cut(bytes, b' ')
}

// Whether nothing follows.
pub fn ended(rest: Option<&[u8]>) -> Option<()>
    ensures { (call : Call) → option_map (λ _. call) result ≡ nothing call (option_copied rest.entry) }
{
    match rest {
        None => Some(()),
        Some(_) => None,
    }
}

// A word that is not empty, and what follows it.
fn a_word<'a>(rest: Option<&'a [u8]>) -> Option<(&'a [u8], Option<&'a [u8]>)>
    ensures { (k : List ℕ → Option (List ℕ) → Option Call) → taken result k ≡ a_word k (option_copied rest.entry) }
{
    let bytes = rest?;
    let (word, behind) = first_word(bytes);
    (!word.is_empty()).then_some((word, behind))
}

// The number that a word is, if it is one. By hand: std's parse takes a sign too.
fn number_of(word: &[u8]) -> Option<u32>
    ensures { result ≡ number word.now }
{
    if word.is_empty() {
        return None;
    }
    let mut value: u64 = 0;
    for b in word {
        if !b.is_ascii_digit() {
            return None;
        }
        value = 10 * value + (*b - b'0') as u64;
        if value > u32::MAX as u64 {
            return None;
        }
    }
    Some(value as u32)
}

// A number, and what follows it.
fn a_number<'a>(rest: Option<&'a [u8]>) -> Option<(u32, Option<&'a [u8]>)>
    ensures { (k : ℕ → Option (List ℕ) → Option Call) → counted result k ≡ a_number k (option_copied rest.entry) }
{
    let (word, behind) = a_word(rest)?;
    Some((number_of(word)?, behind))
}

// One name, and nothing behind it.
pub fn name<'a>(rest: Option<&'a [u8]>) -> Option<&'a [u8]>
    ensures { (call : List ℕ → Call) → option_map (λ name. call name.now) result ≡ a_name call (option_copied rest.entry) }
{
    let (name, rest) = a_word(rest)?;
    ended(rest)?;
    Some(name)
}

// Two names.
pub fn names<'a>(rest: Option<&'a [u8]>) -> Option<(&'a [u8], &'a [u8])>
    ensures { (call : List ℕ → List ℕ → Call) → option_map (λ names. call names.0.now names.1.now) result ≡ two_names call (option_copied rest.entry) }
{
    let (old, rest) = a_word(rest)?;
    Some((old, name(rest)?))
}

// One number.
pub fn number(rest: Option<&[u8]>) -> Option<u32>
    ensures { (call : ℕ → Call) → option_map call result ≡ last_number call (option_copied rest.entry) }
{
    let (n, rest) = a_number(rest)?;
    ended(rest)?;
    Some(n)
}

// read: a channel and a count.
pub fn to_read(rest: Option<&[u8]>) -> Option<(u32, u32)>
    ensures { option_map (λ r. Call.Read r.0 r.1) result ≡ to_read (option_copied rest.entry) }
{
    let (c, rest) = a_number(rest)?;
    let (count, rest) = a_number(rest)?;
    if LARGEST_READ < count {
        return None;
    }
    ended(rest)?;
    Some((c, count))
}

// The rest of the line as data. It may be missing, and then the space before it too.
fn the_data<'a>(rest: Option<&'a [u8]>) -> Option<&'a [u8]>
    ensures { (call : List ℕ → Call) → option_map (λ bytes. call bytes.now) result ≡ the_data call (option_copied rest.entry) }
{
    let Some(bytes) = rest else {
        return Some(&[]);
    };
    (!bytes.is_empty()).then_some(bytes)
}

// write: a channel and data.
pub fn to_write<'a>(rest: Option<&'a [u8]>) -> Option<(u32, &'a [u8])>
    ensures { option_map (λ w. Call.Write w.0 w.1.now) result ≡ to_write (option_copied rest.entry) }
{
    let (c, rest) = a_number(rest)?;
    Some((c, the_data(rest)?))
}

// seek: a channel, a mode and a number.
pub fn to_seek(rest: Option<&[u8]>) -> Option<(u32, u32, u32)>
    ensures { option_map (λ s. Call.Seek s.0 s.1 s.2) result ≡ to_seek (option_copied rest.entry) }
{
    let (c, rest) = a_number(rest)?;
    let (mode, rest) = a_number(rest)?;
    Some((c, mode, number(rest)?))
}
