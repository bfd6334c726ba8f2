// Calls on a channel. A call that changes tables takes each by itself, as the C interface does: a struct of `&mut` is no plainer, since
// a clause would have to name each of its fields.
#![tactic(auto)]

ghost use Rattle.std.specs.Prelude.{◌≡◌, ◌+◌, ◌≤◌, ◌<◌, length, ltb, Some, None};
ghost use Rattle.records.specs.Rows.{pick};
ghost use Rattle.meaning.specs.Tables.{tables};
ghost use Rattle.meaning.specs.Types.{tables_of};
ghost use Rattle.meaning.specs.ChannelCalls.{seek_to};
ghost use Rattle.meaning.specs.Run.{Keeps, KeepsInto, Call};
ghost use Rattle.meaning.specs.Answers.{counted, reported, sought, stat_of};
ghost use Rattle.channels.specs.Held.{OnChannel};
ghost use Rattle.channels.specs.Move.{moved_by};
ghost use Rattle.channels.specs.Seek.{Decided};
ghost use Rattle.channels.specs.Close.{Closes};

use counts::names_of;
use files::{clear_file, read_file};
use meaning::{ChannelNo, FileNo, Kind, LAST_POSITION, Lent, Report, Stat};
use soundness::is_sound;
use tables::{ChannelRecord, channel_record, count_channels, file_record, put_channel_record};

// What a channel holds, or the refusal that comes before any other of a call on a channel.
pub fn held_channel(store: &Lent, c: ChannelNo) -> Result<ChannelRecord, Report>
    ensures { OnChannel (tables_of store.now) c.0 result }
{
    if !is_sound(store) {
        return Err(Report::NotAStore);
    }
    if store.channel_records.len() / 8 <= c.0 as usize {
        return Err(Report::NoSuchCid);
    }
    let record = channel_record(store.channel_records, c);
    if record.file.is_none() {
        return Err(Report::NoSuchCid);
    }
    Ok(record)
}

// The file that a channel holds: length, file number, kind.
pub fn fstat(store: &Lent, c: ChannelNo) -> Result<Stat, Report>
    ensures { Keeps (Call.Fstat c.0) (tables_of store.now) (tables_of store.now) (stat_of result) }
{
    let channel = held_channel(store, c)?;
    let record = file_record(store.file_records, channel.file);
    let kind = if record.kind == Kind::Directory as u8 {
        Kind::Directory
    } else {
        Kind::File
    };
    Ok(Stat {
        length: record.length,
        file: channel.file,
        kind,
    })
}

// Where a seek leads, by its mode 0 to 5.
fn seek_to(mode: u32, posn: u32, size: u32, n: u32) -> Option<u64>
    ensures { result ≡ pick (ltb 5 mode) None (Some (seek_to mode posn size n)) }
{
    let bytes = n as u64;
    match mode {
        0 => Some(bytes),
        1 => Some(posn as u64 + bytes),
        2 => Some(size as u64 + bytes),
        3 => Some(512 * bytes),
        4 => Some(posn as u64 + 512 * bytes),
        5 => Some(size as u64 + 512 * bytes),
        _ => None,
    }
}

// The refusals of a seek in their order, or the channel's record with its new position.
fn decide_seek(store: &Lent, c: ChannelNo, mode: u32, n: u32) -> Result<ChannelRecord, Report>
    ensures { Decided (tables_of store.now) c.0 mode n result }
{
    let channel = held_channel(store, c)?;
    let record = file_record(store.file_records, channel.file);
    let to = seek_to(mode, channel.position, record.length, n).ok_or(Report::BadSeek)?;
    if (LAST_POSITION as u64) < to {
        return Err(Report::BadSeek);
    }
    Ok(ChannelRecord {
        position: to as u32,
        ..channel
    })
}

// Moves a channel's position.
pub fn seek(
    blocks: &[u8],
    block_records: &[u8],
    file_records: &[u8],
    channel_records: &mut [u8],
    c: ChannelNo,
    mode: u32,
    n: u32,
) -> Result<u32, Report>
    ensures { Keeps (Call.Seek c.0 mode n) (tables blocks.now block_records.now file_records.now channel_records.old) (tables blocks.now block_records.now file_records.now channel_records.new) (sought result) }
{
    let store = Lent {
        blocks,
        block_records,
        file_records,
        channel_records,
    };
    let moved = decide_seek(&store, c, mode, n)?;
    put_channel_record(channel_records, c, moved);
    Ok(moved.position)
}

// The position a count of bytes further.
fn further(position: u32, n: usize) -> u32
    requires { position + n < 4294967296 }
    ensures { result ≡ position + n }
{
    (position as usize + n) as u32
}

// The position moves by a count of bytes, and the file stays.
pub fn move_by(channel: &mut ChannelRecord, n: usize)
    requires { channel.old.position + n < 4294967296 }
    ensures { channel.new ≡ moved_by channel.old n }
{
    channel.position = further(channel.position, n);
}

// A channel with its position n further: how read and write move it.
pub fn moved_by(channel: ChannelRecord, n: usize) -> ChannelRecord
    requires { channel.position + n < 4294967296 }
    ensures { result ≡ moved_by channel n }
{
    let mut moved = channel;
    move_by(&mut moved, n);
    moved
}

// Reads as many bytes as the file has after the position and the buffer holds. It answers how many, and the position moves by that.
pub fn read(
    blocks: &[u8],
    block_records: &[u8],
    file_records: &[u8],
    channel_records: &mut [u8],
    c: ChannelNo,
    buffer: &mut [u8],
) -> Result<u32, Report>
    ensures { KeepsInto (Call.Read c.0 (length buffer.old)) (tables blocks.now block_records.now file_records.now channel_records.old) (tables blocks.now block_records.now file_records.now channel_records.new) buffer.old buffer.new (counted result) }
{
    let store = Lent {
        blocks,
        block_records,
        file_records,
        channel_records,
    };
    let channel = held_channel(&store, c)?;
    let n = read_file(&store, channel.file, channel.position, buffer);
    let next = moved_by(channel, n as usize);
    put_channel_record(channel_records, c, next);
    Ok(n)
}

// Whether a channel can be closed, and the file that goes with it: an ordinary one that no other channel holds and no record names.
fn decide_close(store: &Lent, c: ChannelNo) -> Result<Option<FileNo>, Report>
    ensures { Closes (tables_of store.now) c.0 result }
{
    let file = held_channel(store, c)?.file;
    let goes = file_record(store.file_records, file).is(Kind::File)
        && count_channels(store.channel_records, file) == 1
        && names_of(store, file) == 0;
    Ok(goes.then_some(file))
}

// Closes a channel. An ordinary file with neither a name nor a channel goes with it.
pub fn close(
    blocks: &[u8],
    block_records: &mut [u8],
    file_records: &mut [u8],
    channel_records: &mut [u8],
    c: ChannelNo,
) -> Result<(), Report>
    ensures { Keeps (Call.Close c.0) (tables blocks.now block_records.old file_records.old channel_records.old) (tables blocks.now block_records.new file_records.new channel_records.new) (reported result) }
{
    let store = Lent {
        blocks,
        block_records,
        file_records,
        channel_records,
    };
    let gone = decide_close(&store, c)?;
    let free = ChannelRecord {
        file: FileNo::NONE,
        position: 0,
    };
    put_channel_record(channel_records, c, free);
    if let Some(f) = gone {
        clear_file(block_records, file_records, f, Kind::Free as u8, 0);
    }
    Ok(())
}
