// Records of the lent tables as structs, and searches over them.
#![tactic(auto)]

ghost use Rattle.std.specs.Prelude.{◌≡◌, ◌+◌, ◌-◌, ◌*◌, ◌≤◌, ◌<◌, length, eqb, ltb};
ghost use Rattle.records.specs.Numbers.{zeros, with_record};
ghost use Rattle.meaning.specs.File.{needed};
ghost use Rattle.meaning.specs.Tables.{block_count, file_count, channel_count, block_record, file_record, channel_record, block_of};
ghost use Rattle.meaning.specs.Types.{kind_number};
ghost use Rattle.tables.specs.Read.{BlockRead, FileRead, ChannelRead};
ghost use Rattle.tables.specs.Searches.{blocks_with, free_block_count, file_with, file_found, files_with, channel_with, channel_found, channels_with};

use meaning::{BLOCK_SIZE, BlockNo, ChannelNo, FileNo, Kind};
use records::rows::{how_many, lowest};
use records::{four_at, one_at, put_four, put_one, put_two, two_at, zeros_at};

// The records as their bytes have them, sound or not: a file number may be 0, and a kind any byte.
#[derive(Clone, Copy, Debug, PartialEq, Eq)]
pub struct BlockRecord {
    pub owner: FileNo,
    pub place: u16,
}

impl BlockRecord {
    // The record of a block of no file.
    pub const FREE: BlockRecord = BlockRecord {
        owner: FileNo::NONE,
        place: 0,
    };
}

#[derive(Clone, Copy, Debug, PartialEq, Eq)]
pub struct FileRecord {
    pub kind: u8,
    pub depth: u8,
    pub length: u32,
}

impl FileRecord {
    // Whether the record is used for this.
    pub fn is(self, kind: Kind) -> bool
        ensures { result ≡ eqb self.kind (kind_number kind) }
    {
        self.kind == u8::from(kind)
    }
}

#[derive(Clone, Copy, Debug, PartialEq, Eq)]
pub struct ChannelRecord {
    pub file: FileNo,
    pub position: u32,
}

// Block b's record.
pub fn block_record(records: &[u8], b: BlockNo) -> BlockRecord
    requires { b.0 < block_count records.now }
    ensures { BlockRead records.now b.0 result }
{
    let at = 4 * (b.0 as usize);
    let owner = FileNo(two_at(records, at));
    let place = two_at(records, at + 2);
    BlockRecord { owner, place }
}

// File f's record, number f - 1 of the file records.
pub fn file_record(records: &[u8], f: FileNo) -> FileRecord
    requires { (0 < f.0) × (f.0 ≤ file_count records.now) }
    ensures { FileRead records.now (f.0 - 1) result }
{
    let at = 8 * (f.0 as usize - 1);
    let kind = one_at(records, at);
    let depth = one_at(records, at + 1);
    let length = four_at(records, at + 4);
    FileRecord {
        kind,
        depth,
        length,
    }
}

// Channel c's record.
pub fn channel_record(records: &[u8], c: ChannelNo) -> ChannelRecord
    requires { c.0 < channel_count records.now }
    ensures { ChannelRead records.now c.0 result }
{
    let at = 8 * (c.0 as usize);
    let file = FileNo(two_at(records, at));
    let position = four_at(records, at + 4);
    ChannelRecord { file, position }
}

// Whether the two zeros of record r stand, in a table of records of 8 bytes.
pub fn zeros_of(records: &[u8], r: usize) -> bool
    requires { r < file_count records.now }
    ensures { result ≡ zeros records.now (8 * r + 2) 2 }
{
    zeros_at(records, 8 * r + 2, 2)
}

// Whether the two zeros of file f's record stand.
pub fn file_zeros(records: &[u8], f: FileNo) -> bool
    requires { (0 < f.0) × (f.0 ≤ file_count records.now) }
    ensures { result ≡ zeros records.now (8 * (f.0 - 1) + 2) 2 }
{
    zeros_of(records, f.0 as usize - 1)
}

// Whether the two zeros of channel c's record stand.
pub fn channel_zeros(records: &[u8], c: ChannelNo) -> bool
    requires { c.0 < channel_count records.now }
    ensures { result ≡ zeros records.now (8 * c.0 + 2) 2 }
{
    zeros_of(records, c.0 as usize)
}

// How many places a file of n bytes has.
pub fn places(n: usize) -> usize
    ensures { result ≡ needed n }
{
    n.div_ceil(BLOCK_SIZE)
}

// Block b's record written.
pub fn put_block_record(records: &mut [u8], b: BlockNo, record: BlockRecord)
    requires { b.0 < block_count records.old }
    ensures { records.new ≡ with_record 4 records.old b.0 (block_record «record».owner.0 «record».place) }
{
    let at = 4 * (b.0 as usize);
    put_two(records, at, record.owner.0);
    put_two(records, at + 2, record.place);
}

// File f's record written.
pub fn put_file_record(records: &mut [u8], f: FileNo, record: FileRecord)
    requires { (0 < f.0) × (f.0 ≤ file_count records.old) }
    ensures { records.new ≡ with_record 8 records.old (f.0 - 1) (file_record «record».kind «record».depth «record».length) }
{
    let at = 8 * (f.0 as usize - 1);
    put_one(records, at, record.kind);
    put_one(records, at + 1, record.depth);
    put_two(records, at + 2, 0);
    put_four(records, at + 4, record.length);
}

// Channel c's record written.
pub fn put_channel_record(records: &mut [u8], c: ChannelNo, record: ChannelRecord)
    requires { c.0 < channel_count records.old }
    ensures { records.new ≡ with_record 8 records.old c.0 (channel_record «record».file.0 «record».position) }
{
    let at = 8 * (c.0 as usize);
    put_two(records, at, record.file.0);
    put_two(records, at + 2, 0);
    put_four(records, at + 4, record.position);
}

// The record of a block that is place i of file f, as one number.
fn place_number(f: FileNo, i: u16) -> u32
    ensures { result ≡ f.0 + 65536 * i }
{
    f.0 as u32 + 65536 * (i as u32)
}

// The block of a place that has one. Owner and place are compared as one number.
pub fn held_block(records: &[u8], f: FileNo, i: u16) -> BlockNo
    requires { (block_count records.now ≤ 65536) × (block_of records.now f.0 i < block_count records.now) }
    ensures { result.0 ≡ block_of records.now f.0 i }
{
    let wanted = place_number(f, i);
    // What is looked for is there, so the loop tests no end. `lowest(..).unwrap()`, which tests it, was tried and is a sixth slower.
    let mut b = 0;
    while four_at(records, 4 * b) != wanted {
        b += 1;
    }
    BlockNo(b as u16)
}

// Where block b's bytes start in the block table.
pub fn block_start(b: BlockNo) -> usize
    ensures { result ≡ 512 * b.0 }
{
    BLOCK_SIZE * (b.0 as usize)
}

// Where the bytes of a place that has a block start in the block table.
pub fn place_start(records: &[u8], f: FileNo, i: u16) -> usize
    requires { (block_count records.now ≤ 65536) × (block_of records.now f.0 i < block_count records.now) }
    ensures { result ≡ 512 * block_of records.now f.0 i }
{
    block_start(held_block(records, f, i))
}

// How many blocks are place i of file f. Owner and place are compared as one number.
pub fn count_blocks(records: &[u8], f: FileNo, i: u16) -> usize
    ensures { result ≡ blocks_with records.now f.0 i }
{
    let wanted = place_number(f, i);
    how_many(records.len() / 4, |b| four_at(records, 4 * b) == wanted)
}

// How many blocks are free.
pub fn count_free_blocks(records: &[u8]) -> usize
    ensures { result ≡ free_block_count records.now }
{
    count_blocks(records, FileNo::NONE, 0)
}

// The lowest file of a kind, if there is one. Kind 0: the lowest free one. Record r is file r + 1's.
pub fn find_file(records: &[u8], kind: u8) -> Option<FileNo>
    requires { file_count records.now < 65536 }
    ensures { result ≡ file_found (file_count records.now) (file_with records.now kind) }
{
    let r = lowest(records.len() / 8, |r| one_at(records, 8 * r) == kind)?;
    Some(FileNo(r as u16 + 1))
}

// How many file records have a kind. Kind 0: how many are free.
pub fn count_files(records: &[u8], kind: u8) -> usize
    ensures { result ≡ files_with records.now kind }
{
    how_many(records.len() / 8, |r| one_at(records, 8 * r) == kind)
}

// The lowest channel that holds file f, if there is one. Of FileNo::NONE: the lowest free one.
pub fn find_channel(records: &[u8], f: FileNo) -> Option<ChannelNo>
    requires { channel_count records.now ≤ 4294967296 }
    ensures { result ≡ channel_found (channel_count records.now) (channel_with records.now f.0) }
{
    let c = lowest(records.len() / 8, |c| two_at(records, 8 * c) == f.0)?;
    Some(ChannelNo(c as u32))
}

// How many channels hold file f. Of FileNo::NONE: how many are free.
pub fn count_channels(records: &[u8], f: FileNo) -> usize
    ensures { result ≡ channels_with records.now f.0 }
{
    how_many(records.len() / 8, |c| two_at(records, 8 * c) == f.0)
}

// Whether a channel holds file f.
pub fn is_held(records: &[u8], f: FileNo) -> bool
    ensures { result ≡ ltb 0 (channels_with records.now f.0) }
{
    0 < count_channels(records, f)
}
