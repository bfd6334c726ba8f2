// The names of a directory: counted, and listed.
#![tactic(auto)]

ghost use Rattle.std.specs.Prelude.{◌≡◌, ◌+◌, ◌*◌, ◌≤◌, length};
ghost use Rattle.std.proofs.lemmas.List.Edits.{sets};
ghost use Rattle.meaning.specs.Types.{tables_of};
ghost use Rattle.meaning.specs.File.{over};
ghost use Rattle.meaning.specs.Run.{KeepsInto, Call};
ghost use Rattle.meaning.specs.Answers.{counted};
ghost use Rattle.directories.specs.Find.{Lies};
ghost use Rattle.listing.specs.Names.{name_at, run_names, place_count, place_names};
ghost use Rattle.listing.specs.List.{Decided};

use blocks::copy_run;
use directories::{count_records, run_size};
use lookup::record_count;
use meaning::{FileNo, LONGEST_SYLLABLE, Lent, Report};
use naming::{Located, judge_name, locate};
use records::zeros_at;
use soundness::is_directory;
use tables::place_start;

// How many of the records of directory d are not blank.
pub fn count_names(store: &Lent, d: FileNo, count: usize) -> usize
    requires { Lies store.now.blocks.now store.now.block_records.now d.0 count }
    ensures { result ≡ place_count store.now.blocks.now store.now.block_records.now d.0 count }
{
    count_records(store, d, count, |at| !zeros_at(store.blocks, at, 16))
}

// The name of the record at a place laid into a buffer, from byte `to` on; of a blank record nothing. It answers where it ends.
fn lay_name(blocks: &[u8], at: usize, buffer: &mut [u8], to: usize) -> usize
    requires at_in_bounds { at + 16 ≤ length blocks.now }
    requires room_in_bounds { to + length (name_at blocks.now at) ≤ length buffer.old }
    ensures value { result ≡ to + length (name_at blocks.now at) }
    ensures buffer_after { buffer.new ≡ sets buffer.old to (name_at blocks.now at) }
{
    if zeros_at(blocks, at, 16) {
        return to;
    }
    copy_run(&blocks[at + 2..at + 16], buffer, to);
    to + LONGEST_SYLLABLE
}

// The names of n records from a place on laid into a buffer, from byte `to` on. It answers where they end.
fn lay_names_in_run(blocks: &[u8], at: usize, n: usize, buffer: &mut [u8], to: usize) -> usize
    requires run_in_bounds { (at + 16 * n ≤ length blocks.now) × (n ≤ 32) }
    requires room_in_bounds { to + length (run_names blocks.now at n) ≤ length buffer.old }
    ensures value { result ≡ to + length (run_names blocks.now at n) }
    ensures buffer_after { buffer.new ≡ sets buffer.old to (run_names blocks.now at n) }
{
    let mut end = to;
    for j in 0..n {
        end = lay_name(blocks, at + 16 * j, buffer, end);
    }
    end
}

// The names of directory d laid at the head of a buffer, in record order. The runs are gone through as in directories::count_records:
// a walk for both would take a closure that changes the buffer, and more clauses about it than these are lines.
fn lay_names(store: &Lent, d: FileNo, count: usize, buffer: &mut [u8])
    requires lies { Lies store.now.blocks.now store.now.block_records.now d.0 count }
    requires names_fit { length (place_names store.now.blocks.now store.now.block_records.now d.0 count) ≤ length buffer.old }
    ensures { buffer.new ≡ over buffer.old (place_names store.now.blocks.now store.now.block_records.now d.0 count) }
{
    let mut end = 0;
    for k in 0..count.div_ceil(32) {
        let at = place_start(store.block_records, d, k as u16);
        let n = run_size(count, k);
        end = lay_names_in_run(store.blocks, at, n, buffer, end);
    }
}

// The refusals of ls in their order, for a buffer of `size` bytes; or the directory that is listed, how many records it has and how
// many names.
fn decide_ls(store: &Lent, name: &[u8], size: usize) -> Result<(FileNo, usize, u32), Report>
    ensures { Decided (tables_of store.now) name.now size result }
{
    let k = judge_name(store, name)?;
    let Located::Old(_, f) = locate(store, name, k) else {
        return Err(Report::NoSuchName);
    };
    if !is_directory(store.file_records, f) {
        return Err(Report::NotDirectory);
    }
    let count = record_count(store.file_records, f);
    let names = count_names(store, f, count);
    if size < LONGEST_SYLLABLE * names {
        return Err(Report::OutShort);
    }
    Ok((f, count, names as u32))
}

// Lists the names of a directory into a buffer.
pub fn ls(store: &Lent, name: &[u8], buffer: &mut [u8]) -> Result<u32, Report>
    ensures { KeepsInto (Call.Ls name.now (length buffer.old)) (tables_of store.now) (tables_of store.now) buffer.old buffer.new (counted result) }
{
    let (f, count, names) = decide_ls(store, name, buffer.len())?;
    lay_names(store, f, count, buffer);
    Ok(names)
}
