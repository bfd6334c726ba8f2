// The calls as programs in other languages make them. Each makes its call and tells the answer as four numbers; nothing is decided here.
// Above each stands what it answers after its report.
// Tables are taken one by one, as the C interface has them.
#![tactic(auto)]

mod answers;

ghost use Rattle.std.specs.Prelude.{length};
ghost use Rattle.meaning.specs.Tables.{tables};
ghost use Rattle.meaning.specs.Run.{entered, left, Call};
ghost use Rattle.filestore.specs.Tells.{Tells, TellsInto};

use answers::tell;
use channels::{close, fstat, read, seek};
use folders::{mkdir, rmdir};
use linking::{link, move_name};
use listing::ls;
use meaning::{ChannelNo, Lent};
use opening::{create, open};
use rooms::{prepare, room};
use unlinking::unlink;
use writing::write;

// What a call answers: its report, then its numbers, then zeros. A refusal has zeros after its report.
#[repr(C)]
#[derive(Clone, Copy, Debug, PartialEq, Eq)]
pub struct Told {
    pub report: u32,
    pub first: u32,
    pub second: u32,
    pub third: u32,
}

// Nothing.
pub fn filestore_prepare(
    blocks: &[u8],
    block_records: &mut [u8],
    file_records: &mut [u8],
    channel_records: &mut [u8],
) -> Told
    ensures { Tells Call.Prepare (tables blocks.now block_records.old file_records.old channel_records.old) (tables blocks.now block_records.new file_records.new channel_records.new) result }
{
    tell(prepare(blocks, block_records, file_records, channel_records))
}

// The channel.
pub fn filestore_create(
    blocks: &mut [u8],
    block_records: &mut [u8],
    file_records: &mut [u8],
    channel_records: &mut [u8],
    name: &[u8],
) -> Told
    ensures { Tells (Call.Create name.now) (entered blocks block_records file_records channel_records) (left blocks block_records file_records channel_records) result }
{
    tell(create(blocks, block_records, file_records, channel_records, name))
}

// The channel.
pub fn filestore_open(
    blocks: &[u8],
    block_records: &[u8],
    file_records: &[u8],
    channel_records: &mut [u8],
    name: &[u8],
) -> Told
    ensures { Tells (Call.Open name.now) (tables blocks.now block_records.now file_records.now channel_records.old) (tables blocks.now block_records.now file_records.now channel_records.new) result }
{
    tell(open(blocks, block_records, file_records, channel_records, name))
}

// Nothing.
pub fn filestore_close(
    blocks: &[u8],
    block_records: &mut [u8],
    file_records: &mut [u8],
    channel_records: &mut [u8],
    c: u32,
) -> Told
    ensures { Tells (Call.Close c) (tables blocks.now block_records.old file_records.old channel_records.old) (tables blocks.now block_records.new file_records.new channel_records.new) result }
{
    tell(close(
        blocks,
        block_records,
        file_records,
        channel_records,
        ChannelNo(c),
    ))
}

// The count of bytes read.
pub fn filestore_read(
    blocks: &[u8],
    block_records: &[u8],
    file_records: &[u8],
    channel_records: &mut [u8],
    c: u32,
    buffer: &mut [u8],
) -> Told
    ensures { TellsInto (Call.Read c (length buffer.old)) (tables blocks.now block_records.now file_records.now channel_records.old) (tables blocks.now block_records.now file_records.now channel_records.new) buffer.old buffer.new result }
{
    tell(read(
        blocks,
        block_records,
        file_records,
        channel_records,
        ChannelNo(c),
        buffer,
    ))
}

// The count of bytes written.
pub fn filestore_write(
    blocks: &mut [u8],
    block_records: &mut [u8],
    file_records: &mut [u8],
    channel_records: &mut [u8],
    c: u32,
    data: &[u8],
) -> Told
    ensures { Tells (Call.Write c «data».now) (entered blocks block_records file_records channel_records) (left blocks block_records file_records channel_records) result }
{
    tell(write(
        blocks,
        block_records,
        file_records,
        channel_records,
        ChannelNo(c),
        data,
    ))
}

// The new position.
pub fn filestore_seek(
    blocks: &[u8],
    block_records: &[u8],
    file_records: &[u8],
    channel_records: &mut [u8],
    c: u32,
    mode: u32,
    n: u32,
) -> Told
    ensures { Tells (Call.Seek c mode n) (tables blocks.now block_records.now file_records.now channel_records.old) (tables blocks.now block_records.now file_records.now channel_records.new) result }
{
    tell(seek(
        blocks,
        block_records,
        file_records,
        channel_records,
        ChannelNo(c),
        mode,
        n,
    ))
}

// Length, file number, kind.
pub fn filestore_fstat(
    blocks: &[u8],
    block_records: &[u8],
    file_records: &[u8],
    channel_records: &[u8],
    c: u32,
) -> Told
    ensures { Tells (Call.Fstat c) (tables blocks.now block_records.now file_records.now channel_records.now) (tables blocks.now block_records.now file_records.now channel_records.now) result }
{
    let store = Lent {
        blocks,
        block_records,
        file_records,
        channel_records,
    };
    tell(fstat(&store, ChannelNo(c)))
}

// Nothing.
pub fn filestore_link(
    blocks: &mut [u8],
    block_records: &mut [u8],
    file_records: &mut [u8],
    channel_records: &[u8],
    old: &[u8],
    new: &[u8],
) -> Told
    ensures { Tells (Call.Link old.now new.now) (tables blocks.old block_records.old file_records.old channel_records.now) (tables blocks.new block_records.new file_records.new channel_records.now) result }
{
    tell(link(
        blocks,
        block_records,
        file_records,
        channel_records,
        old,
        new,
    ))
}

// Nothing.
pub fn filestore_unlink(
    blocks: &mut [u8],
    block_records: &mut [u8],
    file_records: &mut [u8],
    channel_records: &[u8],
    name: &[u8],
) -> Told
    ensures { Tells (Call.Unlink name.now) (tables blocks.old block_records.old file_records.old channel_records.now) (tables blocks.new block_records.new file_records.new channel_records.now) result }
{
    tell(unlink(blocks, block_records, file_records, channel_records, name))
}

// Nothing.
pub fn filestore_move(
    blocks: &mut [u8],
    block_records: &mut [u8],
    file_records: &mut [u8],
    channel_records: &[u8],
    old: &[u8],
    new: &[u8],
) -> Told
    ensures { Tells (Call.Move old.now new.now) (tables blocks.old block_records.old file_records.old channel_records.now) (tables blocks.new block_records.new file_records.new channel_records.now) result }
{
    tell(move_name(
        blocks,
        block_records,
        file_records,
        channel_records,
        old,
        new,
    ))
}

// The count of names.
pub fn filestore_ls(
    blocks: &[u8],
    block_records: &[u8],
    file_records: &[u8],
    channel_records: &[u8],
    name: &[u8],
    buffer: &mut [u8],
) -> Told
    ensures { TellsInto (Call.Ls name.now (length buffer.old)) (tables blocks.now block_records.now file_records.now channel_records.now) (tables blocks.now block_records.now file_records.now channel_records.now) buffer.old buffer.new result }
{
    let store = Lent {
        blocks,
        block_records,
        file_records,
        channel_records,
    };
    tell(ls(&store, name, buffer))
}

// Nothing.
pub fn filestore_mkdir(
    blocks: &mut [u8],
    block_records: &mut [u8],
    file_records: &mut [u8],
    channel_records: &[u8],
    name: &[u8],
) -> Told
    ensures { Tells (Call.Mkdir name.now) (tables blocks.old block_records.old file_records.old channel_records.now) (tables blocks.new block_records.new file_records.new channel_records.now) result }
{
    tell(mkdir(blocks, block_records, file_records, channel_records, name))
}

// Nothing.
pub fn filestore_rmdir(
    blocks: &mut [u8],
    block_records: &mut [u8],
    file_records: &mut [u8],
    channel_records: &[u8],
    name: &[u8],
) -> Told
    ensures { Tells (Call.Rmdir name.now) (tables blocks.old block_records.old file_records.old channel_records.now) (tables blocks.new block_records.new file_records.new channel_records.now) result }
{
    tell(rmdir(blocks, block_records, file_records, channel_records, name))
}

// Free blocks, free file numbers, free channels.
pub fn filestore_room(
    blocks: &[u8],
    block_records: &[u8],
    file_records: &[u8],
    channel_records: &[u8],
) -> Told
    ensures { Tells Call.Room (tables blocks.now block_records.now file_records.now channel_records.now) (tables blocks.now block_records.now file_records.now channel_records.now) result }
{
    let store = Lent {
        blocks,
        block_records,
        file_records,
        channel_records,
    };
    tell(room(&store))
}
