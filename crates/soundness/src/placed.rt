// Whether each place of each file has exactly one block.
ghost use Rattle.std.specs.Prelude.{◌≡◌, true, suc, ◌+◌, ◌*◌, ◌≤◌, ◌<◌};
ghost use Rattle.records.specs.Rows.{every};
ghost use Rattle.meaning.specs.File.{needed};
ghost use Rattle.meaning.specs.Tables.{block_count, file_count, file_length};
ghost use Rattle.meaning.specs.Sound.{placed_once, files_sound};
ghost use Rattle.soundness.specs.Rules.{placed_below};
ghost use Rattle.soundness.specs.Seen.{files_store, records_of};
ghost use Rattle.soundness.specs.PlaceCounts.{Placeable, PlaceCounts, counted_below, counted_once};

use crate::every_file;
use meaning::{BlockNo, FileNo, Lent};
use records::rows::every;
use tables::{block_record, count_blocks, file_record, places};

// How many places file f has.
pub fn places_of(file_records: &[u8], f: FileNo) -> usize
    requires { (0 < f.0) × (f.0 ≤ file_count file_records.now) }
    ensures { result ≡ needed (file_length file_records.now f.0) }
{
    places(file_record(file_records, f).length as usize)
}

// Whether each of the first n places of file f has exactly one block. The first that has not ends the work.
fn placed_below(block_records: &[u8], f: FileNo, n: usize) -> bool
    requires { n ≤ 64 }
    ensures { result ≡ placed_below block_records.now f.0 n }
{
    every(n, |i| count_blocks(block_records, f, i as u16) == 1)
}

// Whether each place of each file has exactly one block, each looked for among all. File records are sound, so no file
// has more than 64 places.
fn places_searched(store: &Lent) -> bool
    requires { (file_count store.now.file_records.now ≤ 64) × (files_sound (files_store store.now.file_records.now) ≡ true) }
    ensures { result ≡ every (file_count store.now.file_records.now) (λ r. placed_once (records_of store.now) (suc r)) }
{
    every_file(store.file_records, |f| {
        placed_below(store.block_records, f, places_of(store.file_records, f))
    })
}

// Where the count of place i of file f stands in a row of counts, 64 to a file.
fn count_at(f: FileNo, i: usize) -> usize
    requires { i < 65536 }
    ensures { result ≡ 64 * f.0 + i }
{
    64 * (f.0 as usize) + i
}

// Block b counted as its place of its owner, unless it is free.
fn count_block(block_records: &[u8], b: BlockNo, counts: &mut [u8; 4160])
    requires placeable { Placeable block_records.now }
    requires b_in_bounds { b.0 < block_count block_records.now }
    requires places_counted { PlaceCounts block_records.now b.0 counts.old }
    ensures { PlaceCounts block_records.now (b.0 + 1) counts.new }
{
    let record = block_record(block_records, b);
    if record.owner.is_none() {
        return;
    }
    let k = count_at(record.owner, record.place as usize);
    counts[k] += 1;
}

// Whether each of the first n places of file f is counted once.
fn counted_below(counts: &[u8; 4160], f: FileNo, n: usize) -> bool
    requires { (f.0 ≤ 64) × (n ≤ 64) }
    ensures { result ≡ counted_below counts.now f.0 n }
{
    every(n, |i| counts[count_at(f, i)] == 1)
}

// Whether each place of each file is counted once.
fn all_counted(file_records: &[u8], counts: &[u8; 4160]) -> bool
    requires { (file_count file_records.now ≤ 64) × (files_sound (files_store file_records.now) ≡ true) }
    ensures { result ≡ every (file_count file_records.now) (λ r. counted_once counts.now file_records.now (suc r)) }
{
    every_file(file_records, |f| {
        counted_below(counts, f, places_of(file_records, f))
    })
}

// The same as places_searched, by one pass over the block records, which are sound: how many blocks are each place of each file,
// 64 places to a file, is counted first. Not inlined, so that the counts' 4,160 bytes of stack are given back before the names are
// looked at; and the counts are made here, since an array that a function answers is copied.
#[inline(never)]
fn places_counted(store: &Lent) -> bool
    requires files_sound { (file_count store.now.file_records.now ≤ 64) × (files_sound (files_store store.now.file_records.now) ≡ true) }
    requires placeable { Placeable store.now.block_records.now }
    ensures { result ≡ every (file_count store.now.file_records.now) (λ r. placed_once (records_of store.now) (suc r)) }
{
    let mut counts: [u8; 4160] = [0; 4160];
    for b in 0..store.block_records.len() / 4 {
        count_block(store.block_records, BlockNo(b as u16), &mut counts);
    }
    all_counted(store.file_records, &counts)
}

// Whether each place of each file has exactly one block. For few blocks counts do not pay.
pub fn places_sound(store: &Lent) -> bool
    requires { ((file_count store.now.file_records.now ≤ 64) × (files_sound (files_store store.now.file_records.now) ≡ true)) × (Placeable store.now.block_records.now) }
    ensures { result ≡ every (file_count store.now.file_records.now) (λ r. placed_once (records_of store.now) (suc r)) }
{
    if store.block_records.len() < 128 {
        places_searched(store)
    } else {
        places_counted(store)
    }
}
