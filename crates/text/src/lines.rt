// Lines put together from input that comes in pieces. Of a line over 1,024 bytes it is known only that it is too long.
ghost use Rattle.std.specs.Prelude.{◌≡◌, List, [], ◌∷◌, ◌++◌, ℕ};
ghost use Rattle.std.specs.Option.{option_copied};
ghost use Rattle.records.specs.Rows.{pick};
ghost use Rattle.text.specs.Line.{asked};
ghost use Rattle.text.specs.Print.{newline};
ghost use Rattle.text.specs.Program.{unended};
ghost use Rattle.text.specs.Commands.{commanded, behind};
ghost use Rattle.text.specs.Gathering.{first_line, Fits, Pends};

use crate::print::put_bytes;
use crate::search::cut;
use crate::{Command, parse};

// A line is not longer.
pub const LONGEST_LINE: usize = 1024;

// A line that has not ended: so many of its bytes have come and are kept, or it is too long.
#[derive(Clone, Copy)]
pub struct Pending {
    pub bytes: [u8; LONGEST_LINE],
    pub len: usize,
    pub long: bool,
}

// A line of which nothing has come.
pub fn fresh() -> Pending
    ensures { Pends [] result }
{
    Pending {
        bytes: [0; LONGEST_LINE],
        len: 0,
        long: false,
    }
}

// Begins the next line.
pub fn begin(line: &mut Pending)
    ensures { Pends [] line.new }
{
    line.len = 0;
    line.long = false;
}

// The line with more bytes behind it.
fn append(line: &mut Pending, bytes: &[u8])
    ensures appends { (before : List ℕ) → Pends before line.old → Pends (before ++ bytes.now) line.new }
    ensures fits { Fits line.new }
{
    if line.long {
        return;
    }
    let too_long = line.len.saturating_add(bytes.len()) > LONGEST_LINE;
    if too_long {
        line.long = true;
        return;
    }
    // An empty line takes no copy.
    if !bytes.is_empty() {
        line.len = put_bytes(&mut line.bytes, line.len, bytes);
    }
}

// Takes the bytes of a piece up to the next newline, or to the piece's end. The answer is the rest of the piece where the line ends.
pub fn gather<'a>(line: &mut Pending, piece: &'a [u8]) -> Option<&'a [u8]>
    ensures appends { (before : List ℕ) → Pends before line.old → Pends (before ++ first_line piece.now) line.new }
    ensures fits { Fits line.new }
    ensures rest { option_copied result ≡ behind newline piece.now }
{
    let (bytes, rest) = cut(piece, b'\n');
    append(line, bytes);
    rest
}

// What the line asks for, which is what some line of text asks for. The command's names and data are parts of it.
pub fn ask<'a>(line: &'a Pending) -> Option<Command<'a>>
    ensures asked { (bytes : List ℕ) → Pends bytes line.now → commanded result ≡ asked bytes }
    ensures some_line { (bytes : List ℕ) × (commanded result ≡ asked bytes) }
{
    if line.long {
        return None;
    }
    if line.len > LONGEST_LINE {
        return None;
    }
    parse(&line.bytes[..line.len])
}

// Whether there is a line where the input ends.
pub fn has_line(line: &Pending) -> bool
    ensures { (bytes : List ℕ) → Pends bytes line.now → unended bytes ≡ pick result (bytes ∷ []) [] }
{
    line.long || line.len > 0
}
