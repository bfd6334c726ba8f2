// A name judged, located and its record found: what every call on names begins with.
#![tactic(auto)]

ghost use Rattle.meaning.specs.Name.{syllables};
ghost use Rattle.meaning.specs.Types.{tables_of};
ghost use Rattle.names.specs.FormLaws.{Counted};
ghost use Rattle.lookup.specs.Filed.{filed_in, ShelvesIn};
ghost use Rattle.naming.specs.Judged.{OnName};
ghost use Rattle.naming.specs.Located.{Locates, Recorded, NewIn, OldIn};

use directories::{find_blank, find_named};
use lookup::{look_in, lookup, record_count};
use meaning::{FileNo, Lent, Report};
use names::{last_syllable, name_form};
use soundness::{is_directory, is_sound};

// How many syllables a name has, or the refusal that comes before any other of a call on a name.
pub fn judge_name(store: &Lent, name: &[u8]) -> Result<usize, Report>
    ensures { OnName (tables_of store.now) name.now result }
{
    if !is_sound(store) {
        return Err(Report::NotAStore);
    }
    name_form(name).ok_or(Report::BadName)
}

// Where a name stands: its directory is not there, and what stands in its place, if anything does; the name is new in its directory;
// or the directory, and the file that it stands for.
#[derive(Clone, Copy, Debug, PartialEq, Eq)]
pub enum Located {
    Nowhere(Option<FileNo>),
    New(FileNo),
    Old(FileNo, FileNo),
}

// A name of k syllables looked up.
pub fn locate(store: &Lent, name: &[u8], k: usize) -> Located
    requires shelves { ShelvesIn store.now }
    requires k_counted { Counted (syllables name.now) k }
    ensures { Locates (filed_in store.now) name.now result }
{
    if k == 0 {
        return Located::Old(FileNo::ROOT, FileNo::ROOT);
    }
    let Some(d) = lookup(store, FileNo::ROOT, name, 1, k - 1) else {
        return Located::Nowhere(None);
    };
    if !is_directory(store.file_records, d) {
        return Located::Nowhere(Some(d));
    }
    match look_in(store, d, last_syllable(name)) {
        Some(file) => Located::Old(d, file),
        None => Located::New(d),
    }
}

// Where the record of a new name goes in directory d: to the first blank one, or to the end.
pub fn new_record(store: &Lent, name: &[u8], d: FileNo) -> usize
    requires { NewIn store.now.blocks.now store.now.block_records.now store.now.file_records.now name.now d.0 }
    ensures { Recorded (filed_in store.now) name.now result }
{
    let count = record_count(store.file_records, d);
    find_blank(store, d, count).unwrap_or(count)
}

// Where the record of a name is in directory d.
pub fn own_record(store: &Lent, name: &[u8], d: FileNo) -> usize
    requires { OldIn store.now.blocks.now store.now.block_records.now store.now.file_records.now name.now d.0 }
    ensures { Recorded (filed_in store.now) name.now result }
{
    let count = record_count(store.file_records, d);
    find_named(store, d, count, last_syllable(name)).unwrap_or(count)
}
