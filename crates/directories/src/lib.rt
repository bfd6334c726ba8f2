// Directories: records found and counted in the blocks of a directory, run by run. Laws of records are in specs/.
#![tactic(auto)]

ghost use Rattle.std.specs.Prelude.{◌≡◌, ◌+◌, ◌-◌, ◌*◌, ◌≤◌, ◌<◌, ℕ, Bool, min, length};
ghost use Rattle.records.specs.Rows.{found_below};
ghost use Rattle.directories.specs.Find.{Lies, named_at, blank_at, place_lowest, place_passing};

use meaning::{FileNo, Lent};
use names::names_record;
use records::zeros_at;
use tables::place_start;

// How many of the records from run k on lie in one block.
pub fn run_size(count: usize, k: usize) -> usize
    requires { 32 * k < count }
    ensures { result ≡ min 32 (count - 32 * k) }
{
    (count - 32 * k).min(32)
}

// The lowest record of directory d that passes a test of the place where a record starts, if one does. The block of a run is found once.
pub fn lowest_record<F: Fn(usize) -> bool>(
    store: &Lent,
    d: FileNo,
    count: usize,
    test: F,
) -> Option<usize>
    requires lies { Lies store.now.blocks.now store.now.block_records.now d.0 count }
    requires testable { (at : ℕ) → at + 16 ≤ length store.now.blocks.now → F.pre test at }
    ensures { (p : ℕ → Bool) → ((at : ℕ) (b : Bool) → at + 16 ≤ length store.now.blocks.now → F.post test at b → b ≡ p at)
        → result ≡ found_below count (place_lowest p store.now.block_records.now d.0 count) }
{
    for k in 0..count.div_ceil(32) {
        let at = place_start(store.block_records, d, k as u16);
        for j in 0..run_size(count, k) {
            if test(at + 16 * j) {
                return Some(32 * k + j);
            }
        }
    }
    None
}

// How many records of directory d pass such a test.
pub fn count_records<F: Fn(usize) -> bool>(store: &Lent, d: FileNo, count: usize, test: F) -> usize
    requires lies { Lies store.now.blocks.now store.now.block_records.now d.0 count }
    requires testable { (at : ℕ) → at + 16 ≤ length store.now.blocks.now → F.pre test at }
    ensures { (p : ℕ → Bool) → ((at : ℕ) (b : Bool) → at + 16 ≤ length store.now.blocks.now → F.post test at b → b ≡ p at)
        → result ≡ place_passing p store.now.block_records.now d.0 count }
{
    let mut passing: usize = 0;
    for k in 0..count.div_ceil(32) {
        let at = place_start(store.block_records, d, k as u16);
        for j in 0..run_size(count, k) {
            if test(at + 16 * j) {
                passing += 1;
            }
        }
    }
    passing
}

// The record of directory d that has a syllable as its name, if one has.
pub fn find_named(store: &Lent, d: FileNo, count: usize, syllable: &[u8]) -> Option<usize>
    requires { Lies store.now.blocks.now store.now.block_records.now d.0 count }
    ensures { result ≡ found_below count (place_lowest (named_at store.now.blocks.now syllable.now) store.now.block_records.now d.0 count) }
{
    lowest_record(store, d, count, |at| {
        names_record(store.blocks, at, syllable)
    })
}

// The first blank record of directory d, if one is blank.
pub fn find_blank(store: &Lent, d: FileNo, count: usize) -> Option<usize>
    requires { Lies store.now.blocks.now store.now.block_records.now d.0 count }
    ensures { result ≡ found_below count (place_lowest (blank_at store.now.blocks.now) store.now.block_records.now d.0 count) }
{
    lowest_record(store, d, count, |at| zeros_at(store.blocks, at, 16))
}
