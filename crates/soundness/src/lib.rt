// Whether four lent tables are a sound store, decided on any bytes (01, "A store is sound when all of these hold").
#![tactic(auto)]

mod counted;
mod directory;
mod distinct;
mod forms;
mod placed;

ghost use Rattle.std.specs.Prelude.{true, ◌≡◌, ℕ, Bool, ◌&&◌, suc, ◌+◌, ◌*◌, ◌/◌, ◌%◌, ◌≤◌, ◌<◌, length, eqb};
ghost use Rattle.records.specs.Rows.{every};
ghost use Rattle.meaning.specs.Store.{in_use, is_directory};
ghost use Rattle.meaning.specs.Tables.{file_count, channel_count};
ghost use Rattle.meaning.specs.Types.{tables_of};
ghost use Rattle.meaning.specs.Sound.{lengths_agree, sound};
ghost use Rattle.soundness.specs.Rules.{counts_to};
ghost use Rattle.soundness.specs.Seen.{files_store};
ghost use Rattle.soundness.specs.DirectoryRules.{directories_rule};
ghost use Rattle.soundness.specs.Slots.{directories_of};
ghost use Rattle.soundness.specs.SoundLaws.{zeros_in, tables_sound};
ghost use Rattle.soundness.specs.SoundRules.{named_sound};

pub use counted::count_names;
use counted::{all_named, count_all};
use directory::directories_sound;
use forms::{channels_sound, files_sound, owners_sound};
use meaning::{BLOCK_SIZE, ChannelNo, FileNo, Kind, Lent, MOST_BLOCKS, MOST_CHANNELS, MOST_FILES};
use placed::places_sound;
use records::rows::every;
use tables::{channel_zeros, file_record, file_zeros};

// Whether f is the number of a file in use.
pub fn in_use(file_records: &[u8], f: FileNo) -> bool
    ensures { result ≡ in_use (files_store file_records.now) f.0 }
{
    !f.is_none()
        && f.0 as usize <= file_records.len() / 8
        && !file_record(file_records, f).is(Kind::Free)
}

// Whether f is a directory in use.
pub fn is_directory(file_records: &[u8], f: FileNo) -> bool
    ensures { result ≡ is_directory (files_store file_records.now) f.0 }
{
    in_use(file_records, f) && file_record(file_records, f).is(Kind::Directory)
}

// Whether every file number that has a record meets a rule.
fn every_file<F: Fn(FileNo) -> bool>(file_records: &[u8], rule: F) -> bool
    requires few { file_count file_records.now ≤ 64 }
    requires asked { (f : FileNo) → 0 < f.0 → f.0 ≤ file_count file_records.now → F.pre rule f }
    ensures { (p : ℕ → Bool) → ((f : FileNo) (b : Bool) → 0 < f.0 → f.0 ≤ file_count file_records.now → F.post rule f b → b ≡ p f.0) → result ≡ every (file_count file_records.now) (λ r. p (suc r)) }
{
    every(file_records.len() / 8, |r| rule(FileNo(r as u16 + 1)))
}

// Whether the two zeros of every file record stand.
fn file_zeros_stand(file_records: &[u8]) -> bool
    requires { file_count file_records.now ≤ 64 }
    ensures { result ≡ zeros_in file_records.now }
{
    every_file(file_records, |f| file_zeros(file_records, f))
}

// Whether the two zeros of every channel record stand.
fn channel_zeros_stand(channel_records: &[u8]) -> bool
    requires { channel_count channel_records.now ≤ 16 }
    ensures { result ≡ zeros_in channel_records.now }
{
    every(channel_records.len() / 8, |c| {
        channel_zeros(channel_records, ChannelNo(c as u32))
    })
}

// Whether a count is from 1 up to a most.
fn counts_to(n: usize, most: usize) -> bool
    ensures { result ≡ counts_to n most }
{
    1 <= n && n <= most
}

// Whether a table of records of some size has whole ones alone, from 1 up to a most.
fn records_agree(records: &[u8], size: usize, most: usize) -> bool
    requires { 0 < size }
    ensures { result ≡ counts_to (length records.now / size) most && eqb (length records.now % size) 0 }
{
    counts_to(records.len() / size, most) && records.len() % size == 0
}

// Whether the tables' lengths agree with one count of blocks, files and channels each, all in range.
pub fn lengths_agree(store: &Lent) -> bool
    ensures { result ≡ lengths_agree (tables_of store.now) }
{
    records_agree(store.block_records, 4, MOST_BLOCKS)
        && records_agree(store.file_records, 8, MOST_FILES)
        && records_agree(store.channel_records, 8, MOST_CHANNELS)
        && store.blocks.len() == BLOCK_SIZE * (store.block_records.len() / 4)
}

// Whether table lengths, zeros, file records, block records and places are sound.
fn tables_sound(store: &Lent) -> bool
    ensures { result ≡ tables_sound (tables_of store.now) }
{
    lengths_agree(store)
        && file_zeros_stand(store.file_records)
        && channel_zeros_stand(store.channel_records)
        && files_sound(store.file_records)
        && owners_sound(store)
        && places_sound(store)
}

// Whether every file has the names or the channel that it needs, in tables whose directories are sound. Not inlined, so that the
// counts of names take no stack while the names are looked at.
#[inline(never)]
fn names_sound(store: &Lent) -> bool
    requires sound_tables { tables_sound (tables_of store.now) ≡ true }
    requires directories_kept { directories_rule (directories_of store.now) ≡ true }
    ensures { result ≡ named_sound (tables_of store.now) }
{
    let mut counts: [u32; 65] = [0; 65];
    count_all(store, &mut counts);
    all_named(store, &counts)
}

// Whether the tables are a sound store. They may have any lengths and hold any bytes.
pub fn is_sound(store: &Lent) -> bool
    ensures { result ≡ sound (tables_of store.now) }
{
    tables_sound(store) && channels_sound(store) && directories_sound(store) && names_sound(store)
}
