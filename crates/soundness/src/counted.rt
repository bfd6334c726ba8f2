// The names of each file counted, and whether each has the names or the channel that it needs.
ghost use Rattle.std.specs.Prelude.{◌≡◌, true, ◌-◌, ◌≤◌, ◌<◌};
ghost use Rattle.meaning.specs.Store.{is_directory};
ghost use Rattle.meaning.specs.Tables.{file_count, file_length};
ghost use Rattle.soundness.specs.Rules.{Countable, Counted, named_by, all_named_by};
ghost use Rattle.soundness.specs.Seen.{channels_of};
ghost use Rattle.soundness.specs.Slots.{directories_of, PlacedIn};
ghost use Rattle.soundness.specs.DirectoryRules.{directories_rule};
ghost use Rattle.soundness.specs.Counts.{Counts};

use crate::directory::{DirectoryRecords, records_of, starts_of};
use crate::{every_file, in_use, is_directory};
use meaning::{FileNo, Kind, Lent};
use tables::{file_record, is_held};

// The names that a directory's records give, added to the count of each file.
fn count_directory(records: &DirectoryRecords, counts: &mut [u32; 65])
    requires { Countable «records».now.blocks.now «records».now.starts.now «records».now.count counts.old }
    ensures { Counted «records».now.blocks.now «records».now.starts.now «records».now.count counts.old counts.new }
{
    for i in 0..records.count {
        let k = records.file(i).0 as usize;
        counts[k] += 1;
    }
}

// The names that file f, a directory, gives, added to the count of each file. Not inlined, as records_sound.
#[inline(never)]
fn add_directory(store: &Lent, f: FileNo, size: u32, counts: &mut [u32; 65])
    requires placed { PlacedIn store.now }
    requires f_in_bounds { (0 < f.0) × (f.0 ≤ file_count store.now.file_records.now) }
    requires size_is { size ≡ file_length store.now.file_records.now f.0 }
    requires is_directory { is_directory (directories_of store.now) f.0 ≡ true }
    requires directories_kept { directories_rule (directories_of store.now) ≡ true }
    requires counted { Counts (directories_of store.now) (f.0 - 1) counts.old }
    ensures { Counts (directories_of store.now) f.0 counts.new }
{
    let starts = starts_of(store, f, size);
    count_directory(&records_of(store, f, size, &starts), counts);
}

// The names that file f gives, if that is a directory, added to the count of each file.
fn add_names(store: &Lent, f: FileNo, counts: &mut [u32; 65])
    requires placed { PlacedIn store.now }
    requires f_in_bounds { (0 < f.0) × (f.0 ≤ file_count store.now.file_records.now) }
    requires directories_kept { directories_rule (directories_of store.now) ≡ true }
    requires counted { Counts (directories_of store.now) (f.0 - 1) counts.old }
    ensures { Counts (directories_of store.now) f.0 counts.new }
{
    let read = file_record(store.file_records, f);
    if read.is(Kind::Directory) {
        add_directory(store, f, read.length, counts);
    }
}

// How many records name each file, over all directories, counted into a row that has no counts yet. It is filled in place, since
// an array that a function answers is copied.
pub fn count_all(store: &Lent, counts: &mut [u32; 65])
    requires placed { PlacedIn store.now }
    requires directories_kept { directories_rule (directories_of store.now) ≡ true }
    requires fresh { Counts (directories_of store.now) 0 counts.old }
    ensures { Counts (directories_of store.now) (file_count store.now.file_records.now) counts.new }
{
    for r in 0..store.file_records.len() / 8 {
        add_names(store, FileNo(r as u16 + 1), counts);
    }
}

// The same as a row of its own.
pub fn count_names(store: &Lent) -> [u32; 65]
    requires placed { PlacedIn store.now }
    requires directories_kept { directories_rule (directories_of store.now) ≡ true }
    ensures { Counts (directories_of store.now) (file_count store.now.file_records.now) result }
{
    let mut counts: [u32; 65] = [0; 65];
    count_all(store, &mut counts);
    counts
}

// Whether file f has the names or the channel that it needs, by the counts of names.
fn is_named(store: &Lent, counts: &[u32; 65], f: FileNo) -> bool
    requires { f.0 ≤ 64 }
    ensures { result ≡ named_by (channels_of store.now) counts.now f.0 }
{
    if f.0 == 1 || !in_use(store.file_records, f) {
        return true;
    }
    let k = f.0 as usize;
    let count = counts[k];
    if is_directory(store.file_records, f) {
        count == 1
    } else {
        0 < count || is_held(store.channel_records, f)
    }
}

// Whether every file has the names or the channel that it needs, by the counts of names.
pub fn all_named(store: &Lent, counts: &[u32; 65]) -> bool
    requires { file_count store.now.file_records.now ≤ 64 }
    ensures { result ≡ all_named_by (channels_of store.now) counts.now }
{
    every_file(store.file_records, |f| is_named(store, counts, f))
}
