// Names looked up, from directory to directory.
#![tactic(auto)]

ghost use Rattle.std.specs.Prelude.{◌≡◌, ◌+◌, ◌*◌, ◌/◌, ◌≤◌, true, length};
ghost use Rattle.soundness.specs.Seen.{files_store};
ghost use Rattle.meaning.specs.Tables.{file_length};
ghost use Rattle.meaning.specs.Name.{entry_in};
ghost use Rattle.meaning.specs.Store.{is_directory, within};
ghost use Rattle.names.specs.Syllables.{syllables_from, Reaches};
ghost use Rattle.names.specs.RecordNames.{record_from};
ghost use Rattle.directories.specs.Places.{record_place};
ghost use Rattle.directories.specs.Find.{Lies};
ghost use Rattle.lookup.specs.Filed.{filed_in, ShelvesIn};
ghost use Rattle.meaning.specs.Types.{file_numbered};
ghost use Rattle.lookup.specs.Walk.{walk};

use directories::find_named;
use meaning::{FileNo, Lent};
use names::record_file;
use paths::take_syllable;
use soundness::is_directory;
use tables::{file_record, place_start};

// How many records a directory has.
pub fn record_count(file_records: &[u8], d: FileNo) -> usize
    requires { is_directory (files_store file_records.now) d.0 ≡ true }
    ensures { result ≡ file_length file_records.now d.0 / 16 }
{
    file_record(file_records, d).length as usize / 16
}

// The file number of record i of a directory.
fn entry_file(store: &Lent, d: FileNo, i: usize) -> FileNo
    requires { Lies store.now.blocks.now store.now.block_records.now d.0 (i + 1) }
    ensures { result.0 ≡ (entry_in (record_from store.now.blocks.now (record_place store.now.block_records.now d.0 i))).file }
{
    let at = place_start(store.block_records, d, (i / 32) as u16);
    record_file(store.blocks, at + 16 * (i % 32))
}

// What a syllable names in file d, if d is a directory and the syllable names something there.
pub fn look_in(store: &Lent, d: FileNo, syllable: &[u8]) -> Option<FileNo>
    requires { ShelvesIn store.now }
    ensures { result ≡ file_numbered (within (filed_in store.now) d.0 syllable.now) }
{
    if !is_directory(store.file_records, d) {
        return None;
    }
    let count = record_count(store.file_records, d);
    let i = find_named(store, d, count, syllable)?;
    entry_file(store, d, i).or_none()
}

// The file that n syllables from a place on name, from directory d on: the first is looked up there, the others from what it names.
pub fn lookup(store: &Lent, d: FileNo, name: &[u8], at: usize, n: usize) -> Option<FileNo>
    requires { (ShelvesIn store.now) × (Reaches name.now at n) }
    ensures { result ≡ file_numbered (walk (filed_in store.now) d.0 (syllables_from name.now at n)) }
{
    if n == 0 {
        return d.or_none();
    }
    let taken = take_syllable(name, at);
    let end = taken.end;
    let f = look_in(store, d, &name[at..end])?;
    if n == 1 {
        return Some(f);
    }
    lookup(store, f, name, taken.next, n - 1)
}
