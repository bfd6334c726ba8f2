// What is free in a store, and a store prepared.
// Tables that are changed are taken one by one; `channels` says why.
#![tactic(auto)]

ghost use Rattle.std.specs.Prelude.{◌≡◌, length, replicate};
ghost use Rattle.meaning.specs.Tables.{tables};
ghost use Rattle.meaning.specs.Types.{tables_of};
ghost use Rattle.meaning.specs.Run.{Keeps, Call};
ghost use Rattle.meaning.specs.Answers.{reported, space_of};

use meaning::{FileNo, Kind, Lent, Report, Space};
use soundness::{is_sound, lengths_agree};
use tables::{FileRecord, count_channels, count_files, count_free_blocks, put_file_record};

// Free blocks, free file numbers, free channels.
pub fn room(store: &Lent) -> Result<Space, Report>
    ensures { Keeps Call.Room (tables_of store.now) (tables_of store.now) (space_of result) }
{
    if !is_sound(store) {
        return Err(Report::NotAStore);
    }
    let blocks = count_free_blocks(store.block_records);
    let files = count_files(store.file_records, Kind::Free as u8);
    let channels = count_channels(store.channel_records, FileNo::NONE);
    Ok(Space {
        blocks: blocks as u32,
        files: files as u32,
        channels: channels as u32,
    })
}

// All bytes zero. std's `fill` sets the last byte by itself, for which prepare would use more stack.
fn blank_records(records: &mut [u8])
    ensures { records.new ≡ replicate (length records.old) 0 }
{
    for i in 0..records.len() {
        records[i] = 0;
    }
}

// All records zero but file 1, an empty directory. Blocks keep their bytes.
pub fn prepare(
    blocks: &[u8],
    block_records: &mut [u8],
    file_records: &mut [u8],
    channel_records: &mut [u8],
) -> Result<(), Report>
    ensures { Keeps Call.Prepare (tables blocks.now block_records.old file_records.old channel_records.old) (tables blocks.now block_records.new file_records.new channel_records.new) (reported result) }
{
    let store = Lent {
        blocks,
        block_records,
        file_records,
        channel_records,
    };
    if !lengths_agree(&store) {
        return Err(Report::NotAStore);
    }
    blank_records(block_records);
    blank_records(file_records);
    blank_records(channel_records);
    put_file_record(
        file_records,
        FileNo::ROOT,
        FileRecord {
            kind: Kind::Directory as u8,
            depth: 0,
            length: 0,
        },
    );
    Ok(())
}
