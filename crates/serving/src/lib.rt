// A call carried out on the tables, and the line that is printed for it. Definitions are in specs/.
// Tables that are changed are taken one by one; `channels` says why.
#![tactic(auto)]

mod filling;

ghost use Rattle.std.specs.Prelude.{Some, ◌+◌, ◌≤◌, length};
ghost use Rattle.meaning.specs.Run.{entered, left};
ghost use Rattle.text.specs.Commands.{command_call};
ghost use Rattle.serving.specs.Serves.{Serves, ServesLine, line_room};
ghost use Rattle.serving.specs.Brief.{BriefCall};

use channels::{close, fstat, seek};
use filling::{serve_ls, serve_read};
use folders::{mkdir, rmdir};
use linking::{link, move_name};
use meaning::{ChannelNo, Lent};
use opening::{create, open};
use rooms::{prepare, room};
use text::Command;
use text::lines::{Pending, ask};
use text::print::{print_answer, print_unknown};
use unlinking::unlink;
use writing::write;

// Carries out a command, and prints its line from a place on. The answer is the next place.
pub fn serve(
    blocks: &mut [u8],
    block_records: &mut [u8],
    file_records: &mut [u8],
    channel_records: &mut [u8],
    command: Command<'_>,
    out: &mut [u8],
    at: usize,
) -> usize
    requires brief { BriefCall (command_call command) }
    requires room { at + line_room ≤ length out.old }
    ensures { Serves (Some (command_call command.entry)) (entered blocks block_records file_records channel_records) out.old at (left blocks block_records file_records channel_records) out.new result }
{
    let store = Lent {
        blocks,
        block_records,
        file_records,
        channel_records,
    };
    match command {
        Command::Prepare => print_answer(
            out,
            at,
            prepare(blocks, block_records, file_records, channel_records),
        ),
        Command::Room => print_answer(out, at, room(&store)),
        Command::Create(name) => print_answer(
            out,
            at,
            create(blocks, block_records, file_records, channel_records, name),
        ),
        Command::Open(name) => print_answer(
            out,
            at,
            open(blocks, block_records, file_records, channel_records, name),
        ),
        Command::Unlink(name) => print_answer(
            out,
            at,
            unlink(blocks, block_records, file_records, channel_records, name),
        ),
        Command::Mkdir(name) => print_answer(
            out,
            at,
            mkdir(blocks, block_records, file_records, channel_records, name),
        ),
        Command::Rmdir(name) => print_answer(
            out,
            at,
            rmdir(blocks, block_records, file_records, channel_records, name),
        ),
        Command::Link(old, new) => print_answer(
            out,
            at,
            link(
                blocks,
                block_records,
                file_records,
                channel_records,
                old,
                new,
            ),
        ),
        Command::Move(old, new) => print_answer(
            out,
            at,
            move_name(
                blocks,
                block_records,
                file_records,
                channel_records,
                old,
                new,
            ),
        ),
        Command::Ls(name) => serve_ls(&store, name, out, at),
        Command::Close(c) => print_answer(
            out,
            at,
            close(
                blocks,
                block_records,
                file_records,
                channel_records,
                ChannelNo(c),
            ),
        ),
        Command::Fstat(c) => print_answer(out, at, fstat(&store, ChannelNo(c))),
        Command::Read(c, count) => serve_read(
            blocks,
            block_records,
            file_records,
            channel_records,
            ChannelNo(c),
            count,
            out,
            at,
        ),
        Command::Write(c, bytes) => print_answer(
            out,
            at,
            write(
                blocks,
                block_records,
                file_records,
                channel_records,
                ChannelNo(c),
                bytes,
            ),
        ),
        Command::Seek(c, mode, n) => print_answer(
            out,
            at,
            seek(
                blocks,
                block_records,
                file_records,
                channel_records,
                ChannelNo(c),
                mode,
                n,
            ),
        ),
    }
}

// Serves a line that has been put together. The answer is the next place.
pub fn serve_line(
    blocks: &mut [u8],
    block_records: &mut [u8],
    file_records: &mut [u8],
    channel_records: &mut [u8],
    line: &Pending,
    out: &mut [u8],
    at: usize,
) -> usize
    requires room { at + line_room ≤ length out.old }
    ensures { ServesLine line.now (entered blocks block_records file_records channel_records) out.old at (left blocks block_records file_records channel_records) out.new result }
{
    match ask(line) {
        Some(command) => serve(
            blocks,
            block_records,
            file_records,
            channel_records,
            command,
            out,
            at,
        ),
        None => print_unknown(out, at),
    }
}
