// The exports of the static library, for programs in other languages: each is the call of `filestore` with its name, and keeps its contract.
// Each stands here too, since a crate is a library or a static library, not both, and C passes each table by itself.
#![tactic(auto)]

ghost use Rattle.std.specs.Prelude.{length};
ghost use Rattle.meaning.specs.Tables.{tables};
ghost use Rattle.meaning.specs.Run.{entered, left, Call};
ghost use Rattle.filestore.specs.Tells.{Tells, TellsInto};

use filestore::Told;

// Nothing.
#[unsafe(no_mangle)]
pub extern "C" fn filestore_prepare(
    blocks: &[u8],
    block_records: &mut [u8],
    file_records: &mut [u8],
    channel_records: &mut [u8],
) -> Told
    ensures { Tells Call.Prepare (tables blocks.now block_records.old file_records.old channel_records.old) (tables blocks.now block_records.new file_records.new channel_records.new) result }
{
    filestore::filestore_prepare(blocks, block_records, file_records, channel_records)
}

// The channel.
#[unsafe(no_mangle)]
pub extern "C" fn filestore_create(
    blocks: &mut [u8],
    block_records: &mut [u8],
    file_records: &mut [u8],
    channel_records: &mut [u8],
    name: &[u8],
) -> Told
    ensures { Tells (Call.Create name.now) (entered blocks block_records file_records channel_records) (left blocks block_records file_records channel_records) result }
{
    filestore::filestore_create(blocks, block_records, file_records, channel_records, name)
}

// The channel.
#[unsafe(no_mangle)]
pub extern "C" fn filestore_open(
    blocks: &[u8],
    block_records: &[u8],
    file_records: &[u8],
    channel_records: &mut [u8],
    name: &[u8],
) -> Told
    ensures { Tells (Call.Open name.now) (tables blocks.now block_records.now file_records.now channel_records.old) (tables blocks.now block_records.now file_records.now channel_records.new) result }
{
    filestore::filestore_open(blocks, block_records, file_records, channel_records, name)
}

// Nothing.
#[unsafe(no_mangle)]
pub extern "C" fn filestore_close(
    blocks: &[u8],
    block_records: &mut [u8],
    file_records: &mut [u8],
    channel_records: &mut [u8],
    c: u32,
) -> Told
    ensures { Tells (Call.Close c) (tables blocks.now block_records.old file_records.old channel_records.old) (tables blocks.now block_records.new file_records.new channel_records.new) result }
{
    filestore::filestore_close(blocks, block_records, file_records, channel_records, c)
}

// The count of bytes read.
#[unsafe(no_mangle)]
pub extern "C" fn filestore_read(
    blocks: &[u8],
    block_records: &[u8],
    file_records: &[u8],
    channel_records: &mut [u8],
    c: u32,
    buffer: &mut [u8],
) -> Told
    ensures { TellsInto (Call.Read c (length buffer.old)) (tables blocks.now block_records.now file_records.now channel_records.old) (tables blocks.now block_records.now file_records.now channel_records.new) buffer.old buffer.new result }
{
    filestore::filestore_read(
        blocks,
        block_records,
        file_records,
        channel_records,
        c,
        buffer,
    )
}

// The count of bytes written.
#[unsafe(no_mangle)]
pub extern "C" fn filestore_write(
    blocks: &mut [u8],
    block_records: &mut [u8],
    file_records: &mut [u8],
    channel_records: &mut [u8],
    c: u32,
    data: &[u8],
) -> Told
    ensures { Tells (Call.Write c «data».now) (entered blocks block_records file_records channel_records) (left blocks block_records file_records channel_records) result }
{
    filestore::filestore_write(
        blocks,
        block_records,
        file_records,
        channel_records,
        c,
        data,
    )
}

// The new position.
#[unsafe(no_mangle)]
pub extern "C" fn filestore_seek(
    blocks: &[u8],
    block_records: &[u8],
    file_records: &[u8],
    channel_records: &mut [u8],
    c: u32,
    mode: u32,
    n: u32,
) -> Told
    ensures { Tells (Call.Seek c mode n) (tables blocks.now block_records.now file_records.now channel_records.old) (tables blocks.now block_records.now file_records.now channel_records.new) result }
{
    filestore::filestore_seek(
        blocks,
        block_records,
        file_records,
        channel_records,
        c,
        mode,
        n,
    )
}

// Length, file number, kind.
#[unsafe(no_mangle)]
pub extern "C" fn filestore_fstat(
    blocks: &[u8],
    block_records: &[u8],
    file_records: &[u8],
    channel_records: &[u8],
    c: u32,
) -> Told
    ensures { Tells (Call.Fstat c) (tables blocks.now block_records.now file_records.now channel_records.now) (tables blocks.now block_records.now file_records.now channel_records.now) result }
{
    filestore::filestore_fstat(blocks, block_records, file_records, channel_records, c)
}

// Nothing.
#[unsafe(no_mangle)]
pub extern "C" fn filestore_link(
    blocks: &mut [u8],
    block_records: &mut [u8],
    file_records: &mut [u8],
    channel_records: &[u8],
    old: &[u8],
    new: &[u8],
) -> Told
    ensures { Tells (Call.Link old.now new.now) (tables blocks.old block_records.old file_records.old channel_records.now) (tables blocks.new block_records.new file_records.new channel_records.now) result }
{
    filestore::filestore_link(
        blocks,
        block_records,
        file_records,
        channel_records,
        old,
        new,
    )
}

// Nothing.
#[unsafe(no_mangle)]
pub extern "C" fn filestore_unlink(
    blocks: &mut [u8],
    block_records: &mut [u8],
    file_records: &mut [u8],
    channel_records: &[u8],
    name: &[u8],
) -> Told
    ensures { Tells (Call.Unlink name.now) (tables blocks.old block_records.old file_records.old channel_records.now) (tables blocks.new block_records.new file_records.new channel_records.now) result }
{
    filestore::filestore_unlink(blocks, block_records, file_records, channel_records, name)
}

// Nothing.
#[unsafe(no_mangle)]
pub extern "C" fn filestore_move(
    blocks: &mut [u8],
    block_records: &mut [u8],
    file_records: &mut [u8],
    channel_records: &[u8],
    old: &[u8],
    new: &[u8],
) -> Told
    ensures { Tells (Call.Move old.now new.now) (tables blocks.old block_records.old file_records.old channel_records.now) (tables blocks.new block_records.new file_records.new channel_records.now) result }
{
    filestore::filestore_move(
        blocks,
        block_records,
        file_records,
        channel_records,
        old,
        new,
    )
}

// The count of names.
#[unsafe(no_mangle)]
pub extern "C" fn filestore_ls(
    blocks: &[u8],
    block_records: &[u8],
    file_records: &[u8],
    channel_records: &[u8],
    name: &[u8],
    buffer: &mut [u8],
) -> Told
    ensures { TellsInto (Call.Ls name.now (length buffer.old)) (tables blocks.now block_records.now file_records.now channel_records.now) (tables blocks.now block_records.now file_records.now channel_records.now) buffer.old buffer.new result }
{
    filestore::filestore_ls(
        blocks,
        block_records,
        file_records,
        channel_records,
        name,
        buffer,
    )
}

// Nothing.
#[unsafe(no_mangle)]
pub extern "C" fn filestore_mkdir(
    blocks: &mut [u8],
    block_records: &mut [u8],
    file_records: &mut [u8],
    channel_records: &[u8],
    name: &[u8],
) -> Told
    ensures { Tells (Call.Mkdir name.now) (tables blocks.old block_records.old file_records.old channel_records.now) (tables blocks.new block_records.new file_records.new channel_records.now) result }
{
    filestore::filestore_mkdir(blocks, block_records, file_records, channel_records, name)
}

// Nothing.
#[unsafe(no_mangle)]
pub extern "C" fn filestore_rmdir(
    blocks: &mut [u8],
    block_records: &mut [u8],
    file_records: &mut [u8],
    channel_records: &[u8],
    name: &[u8],
) -> Told
    ensures { Tells (Call.Rmdir name.now) (tables blocks.old block_records.old file_records.old channel_records.now) (tables blocks.new block_records.new file_records.new channel_records.now) result }
{
    filestore::filestore_rmdir(blocks, block_records, file_records, channel_records, name)
}

// Free blocks, free file numbers, free channels.
#[unsafe(no_mangle)]
pub extern "C" fn filestore_room(
    blocks: &[u8],
    block_records: &[u8],
    file_records: &[u8],
    channel_records: &[u8],
) -> Told
    ensures { Tells Call.Room (tables blocks.now block_records.now file_records.now channel_records.now) (tables blocks.now block_records.now file_records.now channel_records.now) result }
{
    filestore::filestore_room(blocks, block_records, file_records, channel_records)
}
