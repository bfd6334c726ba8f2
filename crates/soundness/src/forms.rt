// Whether each file record, channel record and block record has one of its forms.
ghost use Rattle.std.specs.Prelude.{◌≡◌, ◌≤◌, ◌<◌};
ghost use Rattle.records.specs.Rows.{every};
ghost use Rattle.meaning.specs.Tables.{block_count, file_count, channel_count};
ghost use Rattle.meaning.specs.Sound.{block_sound, file_sound, files_sound, channel_sound, channels_sound};
ghost use Rattle.soundness.specs.Rules.{directory_form};
ghost use Rattle.soundness.specs.Seen.{files_store, channels_of, records_of};

use crate::placed::places_of;
use crate::{every_file, in_use};
use meaning::{BlockNo, ChannelNo, FileNo, Kind, LAST_POSITION, LONGEST, Lent};
use records::rows::every;
use tables::{block_record, channel_record, file_record};

// Whether file f may be a directory of some depth and size: the first, and no other, has depth 0.
fn directory_form(f: FileNo, depth: u8, size: u32) -> bool
    ensures { result ≡ directory_form f.0 depth size }
{
    depth <= 7 && size <= LONGEST && size % 16 == 0 && (f.0 == 1) == (depth == 0)
}

// Whether file f's record has one of the three forms, and is a directory of depth 0 just where it is the first.
fn file_sound(file_records: &[u8], f: FileNo) -> bool
    requires { (0 < f.0) × (f.0 ≤ file_count file_records.now) }
    ensures { result ≡ file_sound f.0 ((files_store file_records.now).file f.0) }
{
    let record = file_record(file_records, f);
    if record.is(Kind::Directory) {
        return directory_form(f, record.depth, record.length);
    }
    if f.0 == 1 || record.depth != 0 {
        return false;
    }
    if record.is(Kind::File) {
        record.length <= LONGEST
    } else {
        record.is(Kind::Free) && record.length == 0
    }
}

// Whether every file record is sound.
pub fn files_sound(file_records: &[u8]) -> bool
    requires { file_count file_records.now ≤ 64 }
    ensures { result ≡ files_sound (files_store file_records.now) }
{
    every_file(file_records, |f| file_sound(file_records, f))
}

// Whether channel c's record is free, or names a file in use with a position that it may have.
fn channel_sound(store: &Lent, c: ChannelNo) -> bool
    requires { c.0 < channel_count store.now.channel_records.now }
    ensures { result ≡ channel_sound (channels_of store.now) ((channels_of store.now).channel c.0) }
{
    let record = channel_record(store.channel_records, c);
    if record.file.is_none() {
        record.position == 0
    } else {
        in_use(store.file_records, record.file) && record.position <= LAST_POSITION
    }
}

// Whether every channel record is sound.
pub fn channels_sound(store: &Lent) -> bool
    requires { channel_count store.now.channel_records.now ≤ 16 }
    ensures { result ≡ channels_sound (channels_of store.now) }
{
    every(store.channel_records.len() / 8, |c| {
        channel_sound(store, ChannelNo(c as u32))
    })
}

// Whether block b's record is free, or its owner is in use and has its place.
fn block_sound(store: &Lent, b: BlockNo) -> bool
    requires { b.0 < block_count store.now.block_records.now }
    ensures { result ≡ block_sound (records_of store.now) b.0 }
{
    let record = block_record(store.block_records, b);
    if record.owner.is_none() {
        record.place == 0
    } else {
        in_use(store.file_records, record.owner)
            && (record.place as usize) < places_of(store.file_records, record.owner)
    }
}

// Whether every block record is sound.
pub fn owners_sound(store: &Lent) -> bool
    requires { block_count store.now.block_records.now ≤ 128 }
    ensures { result ≡ every (block_count store.now.block_records.now) (block_sound (records_of store.now)) }
{
    every(store.block_records.len() / 4, |b| {
        block_sound(store, BlockNo(b as u16))
    })
}
