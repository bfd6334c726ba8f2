// Whether the records of each directory are sound.
ghost use Rattle.std.specs.Prelude.{◌≡◌, true, ◌+◌, ◌-◌, ◌*◌, ◌/◌, ◌≤◌, ◌<◌, length, eqb};
ghost use Rattle.meaning.specs.File.{needed};
ghost use Rattle.meaning.specs.Name.{is_written, entry_at};
ghost use Rattle.meaning.specs.Sound.{record_sound};
ghost use Rattle.meaning.specs.Tables.{file_count, file_length};
ghost use Rattle.names.specs.RecordNames.{record_from};
ghost use Rattle.tables.specs.Read.{FileRead};
ghost use Rattle.soundness.specs.Rules.{deeper_than, records_at, deeper_at};
ghost use Rattle.soundness.specs.Seen.{files_store};
ghost use Rattle.soundness.specs.Slots.{directories_of, Findable, Starts, slot, PlacedIn, Within};
ghost use Rattle.soundness.specs.DirectoryRules.{directory_rule, directories_rule};

use crate::distinct::Names;
use crate::{every_file, in_use, is_directory};
use meaning::{BlockNo, FileNo, Kind, LONGEST_SYLLABLE, Lent};
use names::record_file;
use records::rows::every;
use records::{one_at, zeros_at};
use tables::{FileRecord, block_start, file_record, held_block, places};

// The records of a directory as they lie in the block table: its blocks in a row, and how many records there are.
#[derive(Drop)]
pub struct DirectoryRecords<'a, 's> {
    pub blocks: &'a [u8],
    pub starts: &'s [u16; 64],
    pub count: usize,
    ghost within: { Within blocks.now starts.now count },
}

// The blocks of the first n places of file f, in a row. Each place has one.
fn find_blocks(block_records: &[u8], f: FileNo, n: usize) -> [u16; 64]
    requires { Findable block_records.now f.0 n }
    ensures { Starts block_records.now f.0 n result }
{
    let mut starts: [u16; 64] = [0; 64];
    for p in 0..n {
        starts[p] = held_block(block_records, f, p as u16).0;
    }
    starts
}

// The blocks of file f, a directory of some size, in a row.
pub fn starts_of(store: &Lent, f: FileNo, size: u32) -> [u16; 64]
    requires placed { PlacedIn store.now }
    requires f_in_bounds { (0 < f.0) × (f.0 ≤ file_count store.now.file_records.now) }
    requires size_is { size ≡ file_length store.now.file_records.now f.0 }
    ensures { Starts store.now.block_records.now f.0 (needed (file_length store.now.file_records.now f.0)) result }
{
    find_blocks(store.block_records, f, places(size as usize))
}

// The records of file f, a directory of some size, in the blocks of a row. The row is lent, not held: a copy of it costs as much
// as a small directory.
pub fn records_of<'a, 's>(
    store: &Lent<'a>,
    f: FileNo,
    size: u32,
    starts: &'s [u16; 64],
) -> DirectoryRecords<'a, 's>
    requires placed { PlacedIn store.now }
    requires f_in_bounds { (0 < f.0) × (f.0 ≤ file_count store.now.file_records.now) }
    requires size_is { size ≡ file_length store.now.file_records.now f.0 }
    requires found { Starts store.now.block_records.now f.0 (needed (file_length store.now.file_records.now f.0)) starts.now }
    ensures blocks { result.blocks.now ≡ store.now.blocks.now }
    ensures starts { Starts store.now.block_records.now f.0 (needed (file_length store.now.file_records.now f.0)) result.starts.now }
    ensures count { result.count ≡ file_length store.now.file_records.now f.0 / 16 }
{
    DirectoryRecords {
        blocks: store.blocks,
        starts,
        count: size as usize / 16,
    }
}

// Whether the record that starts at a place has a syllable as its name, and zeros behind it.
fn is_written(table: &[u8], at: usize) -> bool
    requires { at + 16 ≤ length table.now }
    ensures { result ≡ is_written (record_from table.now at) }
{
    for i in 0..LONGEST_SYLLABLE {
        let b = one_at(table, at + 2 + i);
        if b == 0 {
            if i == 0 {
                return false;
            }
            return zeros_at(table, at + 2 + i, LONGEST_SYLLABLE - i);
        }
        if b == b'/' {
            return false;
        }
    }
    true
}

// Whether file f, if it is a directory, is one deeper than a directory of some depth.
fn one_deeper(file_records: &[u8], depth: u8, f: FileNo) -> bool
    ensures { result ≡ deeper_than (files_store file_records.now) depth f.0 }
{
    !is_directory(file_records, f) || file_record(file_records, f).depth as u16 == depth as u16 + 1
}

impl DirectoryRecords<'_, '_> {
    // Where record i starts in the block table.
    pub fn start(&self, i: usize) -> usize
        requires { i < self.now.count }
        ensures at { result ≡ 16 * slot self.now.starts.now i }
        ensures inside { result + 16 ≤ length self.now.blocks.now }
    {
        let b = BlockNo(self.starts[i / 32]);
        block_start(b) + 16 * (i % 32)
    }

    // The file number of record i.
    pub fn file(&self, i: usize) -> FileNo
        requires { i < self.now.count }
        ensures { result.0 ≡ (entry_at self.now.blocks.now (slot self.now.starts.now i)).file }
    {
        record_file(self.blocks, self.start(i))
    }

    // Whether record i is blank, or names a file in use, not the root, by a syllable.
    fn is_sound(&self, file_records: &[u8], i: usize) -> bool
        requires { i < self.now.count }
        ensures { result ≡ record_sound (files_store file_records.now) self.now.blocks.now (slot self.now.starts.now i) }
    {
        let at = self.start(i);
        let f = record_file(self.blocks, at);
        if f.is_none() {
            zeros_at(self.blocks, at, 16)
        } else {
            f.0 != 1 && in_use(file_records, f) && is_written(self.blocks, at)
        }
    }

    // Whether every record is sound.
    fn all_sound(&self, file_records: &[u8]) -> bool
        ensures { result ≡ records_at (files_store file_records.now) self.now.blocks.now self.now.starts.now self.now.count }
    {
        every(self.count, |i| self.is_sound(file_records, i))
    }

    // Whether every directory that a record names is one deeper than this one.
    fn all_deeper(&self, file_records: &[u8], depth: u8) -> bool
        ensures { result ≡ deeper_at (files_store file_records.now) self.now.blocks.now self.now.starts.now depth self.now.count }
    {
        every(
            self.count,
            |i| one_deeper(file_records, depth, self.file(i)),
        )
    }
}

// Whether the records of file f, a directory, are sound, their names new and what they name one deeper. Not inlined, since a
// loop over files, most of which are no directories, would clear the room of its locals for each.
#[inline(never)]
fn records_sound(store: &Lent, f: FileNo, read: FileRecord) -> bool
    requires placed { PlacedIn store.now }
    requires f_in_bounds { (0 < f.0) × (f.0 ≤ file_count store.now.file_records.now) }
    requires read_is { FileRead store.now.file_records.now (f.0 - 1) read }
    requires kind_is { eqb read.kind 2 ≡ true }
    ensures { result ≡ directory_rule (directories_of store.now) f.0 }
{
    let starts = starts_of(store, f, read.length);
    let records = records_of(store, f, read.length, &starts);
    records.all_sound(store.file_records)
        && Names { records: &records }.all_new()
        && records.all_deeper(store.file_records, read.depth)
}

// Whether file f, if it is a directory, has sound records.
fn directory_sound(store: &Lent, f: FileNo) -> bool
    requires placed { PlacedIn store.now }
    requires f_in_bounds { (0 < f.0) × (f.0 ≤ file_count store.now.file_records.now) }
    ensures { result ≡ directory_rule (directories_of store.now) f.0 }
{
    let read = file_record(store.file_records, f);
    !read.is(Kind::Directory) || records_sound(store, f, read)
}

// Whether every directory is sound.
pub fn directories_sound(store: &Lent) -> bool
    requires { PlacedIn store.now }
    ensures { result ≡ directories_rule (directories_of store.now) }
{
    every_file(store.file_records, |f| directory_sound(store, f))
}
