// The two calls that fill a buffer, which is lent to them here; what they put there is printed.
ghost use Rattle.std.specs.Prelude.{Some, ◌+◌, ◌≤◌, length};
ghost use Rattle.meaning.specs.Tables.{tables};
ghost use Rattle.meaning.specs.Types.{tables_of};
ghost use Rattle.meaning.specs.Run.{Call};
ghost use Rattle.text.specs.Line.{lent_bytes};
ghost use Rattle.serving.specs.Serves.{Serves, line_room};

use channels::read;
use listing::ls;
use meaning::{ChannelNo, LONGEST_SYLLABLE, Lent};
use text::print::print_counted;

// So many bytes are lent.
const LENT_BYTES: usize = 2048;

// Reads from a channel, and prints what was read.
pub fn serve_read(
    blocks: &[u8],
    block_records: &[u8],
    file_records: &[u8],
    channel_records: &mut [u8],
    c: ChannelNo,
    count: u32,
    out: &mut [u8],
    at: usize,
) -> usize
    requires brief { count ≤ lent_bytes }
    requires room { at + line_room ≤ length out.old }
    ensures { Serves (Some (Call.Read c.0 count)) (tables blocks.now block_records.now file_records.now channel_records.old) out.old at (tables blocks.now block_records.now file_records.now channel_records.new) out.new result }
{
    let mut lent = [0; LENT_BYTES];
    let buffer = &mut lent[..count as usize];
    let answer = read(
        blocks,
        block_records,
        file_records,
        channel_records,
        c,
        buffer,
    );
    let n = answer.unwrap_or(0) as usize;
    print_counted(out, at, answer, &buffer[..n])
}

// Lists a directory, and prints what was listed.
pub fn serve_ls(store: &Lent, name: &[u8], out: &mut [u8], at: usize) -> usize
    requires room { at + line_room ≤ length out.old }
    ensures { Serves (Some (Call.Ls name.now lent_bytes)) (tables_of store.now) out.old at (tables_of store.now) out.new result }
{
    let mut buffer = [0; LENT_BYTES];
    let answer = ls(store, name, &mut buffer);
    let n = LONGEST_SYLLABLE * answer.unwrap_or(0) as usize;
    print_counted(out, at, answer, &buffer[..n])
}
