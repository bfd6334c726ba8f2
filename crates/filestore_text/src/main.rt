// Calls from standard input, carried out on a store of 4 blocks, 4 files and 2 channels; a line is printed for each.
#![tactic(auto)]

mod buffer;
mod lines;
mod output;

ghost use Rattle.std.specs.Prelude.{◌≡◌, OnOk};
ghost use Rattle.text.specs.Program.{at_start};
ghost use Rattle.filestore_text.specs.Parts.{tables_in, waiting, PrintsLast, ServesPiece, ServesLast, ServesInput};
ghost use Rattle.filestore_text.specs.Endings.{all_served, ServesGiven, OnWritten, MovesAll};

use buffer::{OUTPUT, Output};
use lines::{serve_last, serve_next};
use output::{make_room, write_out};
use rooms::prepare;
use std::io;
use std::io::{Read, Write};
use text::lines::{Pending, fresh};

// What one read gives at most.
const PIECE: usize = 4096;

// The program's store: 4 blocks, 4 files and 2 channels.
#[derive(Drop)]
pub struct Store {
    pub blocks: [u8; 2048],
    pub block_records: [u8; 16],
    pub file_records: [u8; 32],
    pub channel_records: [u8; 16],
}

// How a run ends.
#[derive(Clone, Copy)]
pub enum Ending {
    // All of the input is served, and all that it prints is written.
    Written,
    // All of the input is served, and the last write failed.
    Unwritten,
    // A read or a write failed before the input's end. A line that this cuts is not served.
    Cut,
}

// The lines that end in a piece of the input. All that they print is written, many lines at a time; a write that fails ends it.
// The piece is left at what is not served.
fn serve_piece<'a, W: Write>(
    output: &mut W,
    store: &mut Store,
    line: &mut Pending,
    piece: &mut &'a [u8],
    out: &mut Output,
) -> io::Result<()>
    requires { out.old.at ≡ 0 }
    ensures serves { ServesPiece piece.old.now piece.new.now line.old (tables_in store.old) line.new (tables_in store.new) (W.contents output.old) (W.contents output.new) result }
    ensures empty { OnOk result (out.new.at ≡ 0) }
{
    while let Some(rest) = serve_next(store, line, *piece, out) {
        *piece = rest;
        make_room(output, out)?;
    }
    *piece = &[];
    write_out(output, out)
}

// The line that the input's end ends, if there is one. What it prints stays in the output, whatever the write answers.
fn serve_end<W: Write>(
    output: &mut W,
    store: &mut Store,
    line: &Pending,
    out: &mut Output,
) -> io::Result<()>
    requires { out.old.at ≡ 0 }
    ensures prints { PrintsLast line.now (tables_in store.old) (waiting out.old) (tables_in store.new) (waiting out.new) }
    ensures writes { ServesLast line.now (tables_in store.old) (tables_in store.new) (W.contents output.old) (W.contents output.new) result }
{
    serve_last(store, line, out);
    output.write_all(&out.bytes[..out.at])
}

// All of the input. A proved loop has to end: this one ends after a number of pieces that no input has.
fn serve_input<R: Read, W: Write>(input: &mut R, output: &mut W, store: &mut Store) -> Ending
    requires { tables_in store.old ≡ at_start }
    ensures serves { ServesInput (tables_in store.new) (all_served result) }
    ensures read { ServesGiven (R.remaining input.old) (R.remaining input.new) (tables_in store.new) (all_served result) }
    ensures moves { OnWritten result (MovesAll (R.remaining input.old) (W.contents output.old) (W.contents output.new) (tables_in store.new)) }
{
    let mut line = fresh();
    let mut piece = [0; PIECE];
    let mut out = Output {
        bytes: [0; OUTPUT],
        at: 0,
    };
    for _ in 0..u64::MAX {
        let Ok(read) = input.read(&mut piece) else {
            return Ending::Cut;
        };
        if read == 0 {
            return match serve_end(output, store, &line, &mut out) {
                Ok(()) => Ending::Written,
                Err(_) => Ending::Unwritten,
            };
        }
        let mut rest = &piece[..read];
        if serve_piece(output, store, &mut line, &mut rest, &mut out).is_err() {
            return Ending::Cut;
        }
    }
    Ending::Cut
}

fn main(rt: HostRuntime) {
    let mut store = Store {
        blocks: [0; 2048],
        block_records: [0; 16],
        file_records: [0; 32],
        channel_records: [0; 16],
    };
    let _ = prepare(
        &store.blocks,
        &mut store.block_records,
        &mut store.file_records,
        &mut store.channel_records,
    );
    serve_input(&mut rt.stdin(), &mut rt.stdout(), &mut store);
}
