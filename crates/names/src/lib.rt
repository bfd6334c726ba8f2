// Names: their syllables, and the directory records that hold them (01, "Names").
#![tactic(auto)]

ghost use Rattle.std.specs.Prelude.{◌≡◌, ◌+◌, ◌≤◌, ◌<◌, length};
ghost use Rattle.std.proofs.lemmas.List.Edits.{sets};
ghost use Rattle.records.specs.Numbers.{one};
ghost use Rattle.meaning.specs.Name.{is_syllable, syllables, same, entry, entry_in, written};
ghost use Rattle.names.specs.Syllables.{part, last_start, form_of};
ghost use Rattle.names.specs.RecordNames.{record_from, padded};

use meaning::{FileNo, LONGEST_SYLLABLE, MOST_SYLLABLES};
use paths::take_syllable;
use records::{put_two, two_at};

// No name is longer: eight syllables of 14 bytes, each after a slash.
const LONGEST_NAME: usize = 120;

// Whether a row of bytes is a syllable.
pub fn is_syllable(bytes: &[u8]) -> bool
    ensures { result ≡ is_syllable bytes.now }
{
    (1..=LONGEST_SYLLABLE).contains(&bytes.len()) && bytes.iter().all(|b| *b != 0 && *b != b'/')
}

// How many syllables a name has that starts with a slash and goes on, counted from the left; none where it is not written as a name.
fn count_syllables(name: &[u8]) -> Option<usize>
    requires { (1 < length name.now) × (one name.now 0 ≡ 47) }
    ensures { result ≡ form_of (syllables name.now) }
{
    let mut at = 1;
    for k in 0..MOST_SYLLABLES {
        let taken = take_syllable(name, at);
        let end = taken.end;
        if !is_syllable(&name[at..end]) {
            return None;
        }
        if end == name.len() {
            return Some(k + 1);
        }
        at = taken.next;
    }
    None
}

// How many syllables a row of bytes has, or that it is not written as a name. A row that is too long is not looked at.
pub fn name_form(name: &[u8]) -> Option<usize>
    ensures { result ≡ form_of (syllables name.now) }
{
    match name {
        [b'/'] => Some(0),
        [b'/', ..] if name.len() <= LONGEST_NAME => count_syllables(name),
        _ => None,
    }
}

// The last syllable of a name: what stands behind the last slash.
pub fn last_syllable(name: &[u8]) -> &[u8]
    ensures { result.now ≡ part name.now (last_start name.now) (length name.now) }
{
    let mut at = 0;
    loop {
        let taken = take_syllable(name, at);
        if taken.end == name.len() {
            return &name[at..];
        }
        at = taken.next;
    }
}

// Whether the record that starts at a place of a table has a row of bytes as its name.
pub fn names_record(table: &[u8], at: usize, syllable: &[u8]) -> bool
    requires { at + 16 ≤ length table.now }
    ensures { result ≡ same (entry_in (record_from table.now at)).name syllable.now }
{
    let name = &table[at + 2..at + 16];
    let n = syllable.len();
    if !name.starts_with(syllable) || syllable.contains(&0) {
        return false;
    }
    n == LONGEST_SYLLABLE || name[n] == 0
}

// The file number of the record that starts at a place.
pub fn record_file(table: &[u8], at: usize) -> FileNo
    requires { at + 16 ≤ length table.now }
    ensures { result.0 ≡ (entry_in (record_from table.now at)).file }
{
    FileNo(two_at(table, at))
}

// A name laid at a place, with zeros behind it up to 14 bytes.
fn put_name(table: &mut [u8], at: usize, name: &[u8])
    requires at_in_bounds { at + 14 ≤ length table.old }
    requires name_fits { length name.now ≤ 14 }
    ensures { table.new ≡ sets table.old at (padded name.now) }
{
    let end = at + name.len();
    table[at..end].copy_from_slice(name);
    table[end..at + LONGEST_SYLLABLE].fill(0);
}

// The record that starts at a place written anew: a syllable comes to stand for a file.
pub fn write_record(table: &mut [u8], at: usize, f: FileNo, syllable: &[u8])
    requires at_in_bounds { at + 16 ≤ length table.old }
    requires syllable_fits { length syllable.now ≤ 14 }
    ensures { table.new ≡ sets table.old at (written (entry f.0 syllable.now)) }
{
    put_two(table, at, f.0);
    put_name(table, at + 2, syllable);
}
