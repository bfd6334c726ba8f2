// Writing on a channel.
// Tables that are changed are taken one by one; `channels` says why.
#![tactic(auto)]

ghost use Rattle.std.specs.Prelude.{◌≡◌, ◌+◌, ◌-◌, ◌≤◌, max, length, ltb};
ghost use Rattle.meaning.specs.Types.{tables_of};
ghost use Rattle.meaning.specs.File.{needed, longest};
ghost use Rattle.meaning.specs.Run.{left, Keeps, Call, entered};
ghost use Rattle.meaning.specs.Answers.{counted};
ghost use Rattle.writing.specs.Write.{Decided};

use channels::{held_channel, moved_by};
use files::write_file;
use meaning::{ChannelNo, Kind, LONGEST, Lent, Report};
use tables::{ChannelRecord, count_free_blocks, file_record, places, put_channel_record};

// Whether n bytes from a place on pass the longest file.
fn too_long(at: u32, n: usize) -> bool
    ensures { result ≡ ltb longest (at + n) }
{
    (at as usize).saturating_add(n) > LONGEST as usize
}

// How many blocks more a file of some bytes needs, where n bytes are written from a place on.
fn new_blocks(old: usize, at: usize, n: usize) -> usize
    requires { at + n ≤ longest }
    ensures { result ≡ needed (max old (at + n)) - needed old }
{
    places(at + n).saturating_sub(places(old))
}

// The refusals of a write of n bytes, in their order: before any byte changes. Or the channel's record as it is.
fn decide_write(store: &Lent, c: ChannelNo, n: usize) -> Result<ChannelRecord, Report>
    ensures { Decided (tables_of store.now) c.0 n result }
{
    let channel = held_channel(store, c)?;
    let record = file_record(store.file_records, channel.file);
    if record.is(Kind::Directory) {
        return Err(Report::IsDirectory);
    }
    if too_long(channel.position, n) {
        return Err(Report::TooBig);
    }
    let more = new_blocks(record.length as usize, channel.position as usize, n);
    if count_free_blocks(store.block_records) < more {
        return Err(Report::NoRoom);
    }
    Ok(channel)
}

// Writes bytes at the channel's position, which moves by their number: the answer.
pub fn write(
    blocks: &mut [u8],
    block_records: &mut [u8],
    file_records: &mut [u8],
    channel_records: &mut [u8],
    c: ChannelNo,
    data: &[u8],
) -> Result<u32, Report>
    ensures { Keeps (Call.Write c.0 «data».now) (entered blocks block_records file_records channel_records) (left blocks block_records file_records channel_records) (counted result) }
{
    let store = Lent {
        blocks,
        block_records,
        file_records,
        channel_records,
    };
    let n = data.len();
    let channel = decide_write(&store, c, n)?;
    write_file(
        blocks,
        block_records,
        file_records,
        channel.file,
        channel.position,
        data,
    );
    let next = moved_by(channel, n);
    put_channel_record(channel_records, c, next);
    Ok(n as u32)
}
