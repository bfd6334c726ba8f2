// A file as a whole: its bytes read, written and let go. Each change is the definitions' own, every byte of the tables.
// Tables that are changed are taken one by one; `channels` says why.
#![tactic(auto)]

ghost use Rattle.files.specs.Files.{HasFile, Writable, Clearable, Reads, Writes, Clears};

use blocks::{fill_gap, lay_run, read_run, release_from, take_blocks};
use meaning::{FileNo, Lent};
use tables::{FileRecord, file_record, places, put_file_record};

// Reads bytes of file f, from byte `at` on, as many as it has and `buffer` holds, to the head of `buffer`. It answers how many.
pub fn read_file(store: &Lent, f: FileNo, at: u32, buffer: &mut [u8]) -> u32
    requires { HasFile store.now.blocks.now store.now.block_records.now store.now.file_records.now f.0 }
    ensures { Reads store.now.blocks.now store.now.block_records.now store.now.file_records.now f.0 at buffer.old buffer.new result }
{
    let record = file_record(store.file_records, f);
    let left = record.length.saturating_sub(at);
    let n = buffer.len().min(left as usize);
    read_run(store, f, at as usize, &mut buffer[..n]);
    n as u32
}

// Writes bytes into file f, from byte `at` on: places are taken for a longer file, a gap past its end is filled with zeros.
pub fn write_file(
    blocks: &mut [u8],
    block_records: &mut [u8],
    file_records: &mut [u8],
    f: FileNo,
    at: u32,
    data: &[u8],
)
    requires { Writable blocks.old block_records.old file_records.old f.0 at «data».now }
    ensures { Writes blocks block_records file_records f.0 at «data».now }
{
    let record = file_record(file_records, f);
    let start = at as usize;
    let old = record.length as usize;
    let new = old.max(start + data.len());
    let first = places(old);
    let more = places(new) - first;
    take_blocks(block_records, f, first as u16, more as u16);
    fill_gap(blocks, block_records, f, old, start.saturating_sub(old));
    lay_run(blocks, block_records, f, start, data);
    let record = FileRecord {
        length: new as u32,
        ..record
    };
    put_file_record(file_records, f, record);
}

// Lets all blocks of file f go, and writes its record: no bytes, this kind and depth. The blocks keep their bytes.
// The kind stays a number: the pages name this function, and a Kind would take fewer.
pub fn clear_file(block_records: &mut [u8], file_records: &mut [u8], f: FileNo, kind: u8, depth: u8)
    requires { Clearable block_records.old file_records.old f.0 }
    ensures { Clears block_records file_records f.0 kind depth }
{
    release_from(block_records, f, 0);
    let record = FileRecord {
        kind,
        depth,
        length: 0,
    };
    put_file_record(file_records, f, record);
}
