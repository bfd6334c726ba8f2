// A line of text to a call, an answer to a line. Definitions are in specs/.
#![tactic(auto)]

mod arguments;
pub mod lines;
pub mod print;
mod search;
mod words;

ghost use Rattle.std.specs.Prelude.{◌≡◌};
ghost use Rattle.std.specs.Option.{option_copied};
ghost use Rattle.text.specs.Line.{asked};
ghost use Rattle.text.specs.Commands.{commanded};
ghost use Rattle.text.specs.Words.{call_of};

use arguments::{ended, first_word, name, names, number, to_read, to_seek, to_write};
use lines::LONGEST_LINE;
use words::{Word, word_of};

// What a line asks for: a call, whose names and data are parts of the line.
#[derive(Clone, Copy)]
pub enum Command<'a> {
    Prepare,
    Room,
    Create(&'a [u8]),
    Open(&'a [u8]),
    Unlink(&'a [u8]),
    Mkdir(&'a [u8]),
    Rmdir(&'a [u8]),
    Link(&'a [u8], &'a [u8]),
    Move(&'a [u8], &'a [u8]),
    Ls(&'a [u8]),
    Close(u32),
    Fstat(u32),
    Read(u32, u32),
    Write(u32, &'a [u8]),
    Seek(u32, u32, u32),
}

// What a line asks for, if that is a call. A line that is too long asks for nothing.
pub fn parse<'a>(line: &'a [u8]) -> Option<Command<'a>>
    ensures { commanded result ≡ asked line.now }
{
    if LONGEST_LINE < line.len() {
        return None;
    }
    let (word, rest) = first_word(line);
    asked_by(word_of(word)?, rest)
}

// What a word and what follows it ask for.
fn asked_by<'a>(word: Word, rest: Option<&'a [u8]>) -> Option<Command<'a>>
    ensures { commanded result ≡ call_of (Some word) (option_copied rest.entry) }
{
    match word {
        Word::Prepare => {
            ended(rest)?;
            Some(Command::Prepare)
        }
        Word::Create => Some(Command::Create(name(rest)?)),
        Word::Open => Some(Command::Open(name(rest)?)),
        Word::Close => Some(Command::Close(number(rest)?)),
        Word::Read => {
            let (c, count) = to_read(rest)?;
            Some(Command::Read(c, count))
        }
        Word::Write => {
            let (c, bytes) = to_write(rest)?;
            Some(Command::Write(c, bytes))
        }
        Word::Seek => {
            let (c, mode, n) = to_seek(rest)?;
            Some(Command::Seek(c, mode, n))
        }
        Word::Fstat => Some(Command::Fstat(number(rest)?)),
        Word::Link => {
            let (old, new) = names(rest)?;
            Some(Command::Link(old, new))
        }
        Word::Unlink => Some(Command::Unlink(name(rest)?)),
        Word::Move => {
            let (old, new) = names(rest)?;
            Some(Command::Move(old, new))
        }
        Word::Ls => Some(Command::Ls(name(rest)?)),
        Word::Mkdir => Some(Command::Mkdir(name(rest)?)),
        Word::Rmdir => Some(Command::Rmdir(name(rest)?)),
        Word::Room => {
            ended(rest)?;
            Some(Command::Room)
        }
    }
}
