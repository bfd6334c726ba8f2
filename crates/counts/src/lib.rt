// How many records name a file, and what goes with its last name.
#![tactic(auto)]

ghost use Rattle.std.specs.Prelude.{◌≡◌};
ghost use Rattle.meaning.specs.Store.{names};
ghost use Rattle.meaning.specs.Tables.{store_of};
ghost use Rattle.meaning.specs.Types.{tables_of, file_numbered};
ghost use Rattle.soundness.specs.Slots.{directories_of};
ghost use Rattle.counts.specs.OfStore.{OfStore};
ghost use Rattle.counts.specs.Gone.{gone_with};

use meaning::{FileNo, Lent};
use soundness::count_names;
use tables::is_held;

// How many records name file f, over all directories together.
pub fn names_of(store: &Lent, f: FileNo) -> u32
    requires { OfStore store.now.blocks.now store.now.block_records.now store.now.file_records.now f.0 }
    ensures { result ≡ names (directories_of store.now) f.0 }
{
    let counts = count_names(store);
    let k = f.0 as usize;
    counts[k]
}

// The file that goes with a name of file f: f itself, where this is its only name and no channel holds it.
pub fn gone_with(store: &Lent, f: FileNo) -> Option<FileNo>
    requires { OfStore store.now.blocks.now store.now.block_records.now store.now.file_records.now f.0 }
    ensures { result ≡ file_numbered (gone_with (store_of (tables_of store.now)) f.0) }
{
    if names_of(store, f) != 1 {
        return None;
    }
    if is_held(store.channel_records, f) {
        return None;
    }
    f.or_none()
}
