// A name's record written into its directory, or made blank.
// Tables that are changed are taken one by one; `channels` says why.
#![tactic(auto)]

ghost use Rattle.std.specs.Prelude.{◌≡◌, ◌+◌, ◌*◌, ◌≤◌, ◌<◌, max, length, true};
ghost use Rattle.meaning.specs.Name.{blank_record, is_syllable};
ghost use Rattle.meaning.specs.Store.{is_directory};
ghost use Rattle.meaning.specs.Tables.{file_length};
ghost use Rattle.names.specs.Syllables.{part, last_start};
ghost use Rattle.tables.specs.Searches.{free_block_count};
ghost use Rattle.soundness.specs.Seen.{files_store};
ghost use Rattle.recording.specs.Fit.{FitsIn};
ghost use Rattle.recording.specs.Recording.{Rewritable, Rewrites, record_of};

use files::write_file;
use meaning::{FileNo, LONGEST, Lent, Report};
use names::{last_syllable, write_record};
use tables::{count_free_blocks, file_record, places};

// Record i of directory d comes to hold the last syllable of a name, for file f.
pub fn give_name(
    blocks: &mut [u8],
    block_records: &mut [u8],
    file_records: &mut [u8],
    d: FileNo,
    i: usize,
    f: FileNo,
    name: &[u8],
)
    requires record_fits { (i < 65536) × (last_start name.now ≤ length name.now) × (is_syllable (part name.now (last_start name.now) (length name.now)) ≡ true) }
    requires rewritable { Rewritable blocks.old block_records.old file_records.old d.0 i (record_of f.0 name.now) }
    ensures { Rewrites blocks block_records file_records d.0 i (record_of f.0 name.now) }
{
    let mut record = [0u8; 16];
    write_record(&mut record, 0, f, last_syllable(name));
    write_file(
        blocks,
        block_records,
        file_records,
        d,
        16 * (i as u32),
        &record,
    );
}

// Record i of directory d is made blank.
pub fn take_name(
    blocks: &mut [u8],
    block_records: &mut [u8],
    file_records: &mut [u8],
    d: FileNo,
    i: usize,
)
    requires i_in_bounds { i < 65536 }
    requires rewritable { Rewritable blocks.old block_records.old file_records.old d.0 i blank_record }
    ensures { Rewrites blocks block_records file_records d.0 i blank_record }
{
    let blank = [0u8; 16];
    write_file(
        blocks,
        block_records,
        file_records,
        d,
        16 * (i as u32),
        &blank,
    );
}

// Whether directory d has room for its record i, or the refusal where it has none. Only a record past the end asks for any.
pub fn record_fits(store: &Lent, d: FileNo, i: usize) -> Result<(), Report>
    requires d_is_directory { is_directory (files_store store.now.file_records.now) d.0 ≡ true }
    requires length_in_bounds { (file_length store.now.file_records.now d.0 ≤ 32768) × (i ≤ 2048) }
    ensures { FitsIn (free_block_count store.now.block_records.now) (file_length store.now.file_records.now d.0) (max (file_length store.now.file_records.now d.0) (16 * i + 16)) result }
{
    let size = file_record(store.file_records, d).length as usize;
    let end = 16 * i + 16;
    if end <= size {
        return Ok(());
    }
    if (LONGEST as usize) < end {
        return Err(Report::TooBig);
    }
    if count_free_blocks(store.block_records) < places(end) - places(size) {
        return Err(Report::NoRoom);
    }
    Ok(())
}
