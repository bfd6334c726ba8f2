// A file's blocks: places taken and let go, and bytes moved in runs, each within one block.
// Tables that are changed are taken one by one; `channels` says why.
#![tactic(auto)]

ghost use Rattle.std.specs.Prelude.{◌≡◌, ◌+◌, ◌≤◌, ◌<◌, length, take, replicate};
ghost use Rattle.std.proofs.lemmas.List.Edits.{sets};
ghost use Rattle.records.specs.Rows.{tally};
ghost use Rattle.meaning.specs.Tables.{block_count, released, taken_from};
ghost use Rattle.blocks.specs.Places.{released_at, WholeRecords, Took};
ghost use Rattle.blocks.specs.Runs.{in_block, laid_run, run_of, Housed, Moving};

use meaning::{BLOCK_SIZE, BlockNo, FileNo, Lent};
use tables::{BlockRecord, block_record, place_start, places, put_block_record};

// Block b let go, if it is a place of file f from n on.
fn release_block(block_records: &mut [u8], b: BlockNo, f: FileNo, n: u16)
    requires { b.0 < block_count block_records.old }
    ensures { block_records.new ≡ released_at block_records.old f.0 n b.0 }
{
    let record = block_record(block_records, b);
    if record.owner == f && n <= record.place {
        put_block_record(block_records, b, BlockRecord::FREE);
    }
}

// The places of file f from n on let go.
pub fn release_from(block_records: &mut [u8], f: FileNo, n: u16)
    requires { WholeRecords block_records.old }
    ensures { block_records.new ≡ released block_records.old f.0 n }
{
    for b in 0..block_records.len() / 4 {
        release_block(block_records, BlockNo(b as u16), f, n);
    }
}

// Block b as place i of file f, if it is free. It answers whether it was.
fn take_block(block_records: &mut [u8], b: BlockNo, f: FileNo, i: u16) -> bool
    requires { b.0 < block_count block_records.old }
    ensures { Took block_records.old block_records.new f.0 i b.0 (tally result) }
{
    let is_free = block_record(block_records, b) == BlockRecord::FREE;
    if is_free {
        put_block_record(block_records, b, BlockRecord { owner: f, place: i });
    }
    is_free
}

// n places of file f taken, from place i on in rising place, each the lowest free block: one pass over the blocks.
pub fn take_blocks(block_records: &mut [u8], f: FileNo, i: u16, n: u16)
    requires whole_records { WholeRecords block_records.old }
    requires f_nonzero { (0 < f.0) × (i + n < 65536) }
    ensures { block_records.new ≡ taken_from block_records.old f.0 i n }
{
    let count = block_records.len() / 4;
    let mut done: u16 = 0;
    for b in 0..count {
        if done == n {
            return;
        }
        if take_block(block_records, BlockNo(b as u16), f, i + done) {
            done += 1;
        }
    }
}

// A run of bytes laid over `to` from byte `at` on.
pub fn copy_run(run: &[u8], to: &mut [u8], at: usize)
    requires { at + length run.now ≤ length to.old }
    ensures { to.new ≡ sets to.old at run.now }
{
    to[at..at + run.len()].copy_from_slice(run);
}

// How many of n bytes of a file, from byte k on, lie in one block.
fn in_block(k: usize, n: usize) -> usize
    ensures { result ≡ in_block k n }
{
    n.min(BLOCK_SIZE - k % BLOCK_SIZE)
}

// Bytes laid into the block of byte k of file f, from that byte on: as many as lie there. Out of line, since the loop over the blocks
// is a tenth slower with it inside.
#[inline(never)]
fn lay_in_block(blocks: &mut [u8], block_records: &[u8], f: FileNo, k: usize, bytes: &[u8])
    requires { Moving blocks.old block_records.now f.0 k (length bytes.now) bytes.now 0 }
    ensures { blocks.new ≡ laid_run blocks.old block_records.now f.0 k (take (in_block k (length bytes.now)) bytes.now) }
{
    let m = in_block(k, bytes.len());
    let at = place_start(block_records, f, (k / BLOCK_SIZE) as u16) + k % BLOCK_SIZE;
    copy_run(&bytes[..m], blocks, at);
}

// Bytes laid into the places of file f, from byte `at` of the file on.
pub fn lay_run(blocks: &mut [u8], block_records: &[u8], f: FileNo, at: usize, data: &[u8])
    requires { Housed blocks.old block_records.now f.0 at (length «data».now) }
    ensures { blocks.new ≡ laid_run blocks.old block_records.now f.0 at «data».now }
{
    if data.is_empty() {
        return;
    }
    for i in at / BLOCK_SIZE..places(at + data.len()) {
        let k = at.max(BLOCK_SIZE * i);
        lay_in_block(blocks, block_records, f, k, &data[k - at..]);
    }
}

// n zeros laid into the block of byte k of file f, from that byte on: as many as lie there.
fn blank_in_block(blocks: &mut [u8], block_records: &[u8], f: FileNo, k: usize, n: usize)
    requires { Moving blocks.old block_records.now f.0 k n (replicate n 0) 0 }
    ensures { blocks.new ≡ laid_run blocks.old block_records.now f.0 k (take (in_block k n) (replicate n 0)) }
{
    let m = in_block(k, n);
    let start = place_start(block_records, f, (k / BLOCK_SIZE) as u16) + k % BLOCK_SIZE;
    blocks[start..start + m].fill(0);
}

// n zeros laid into the places of file f, from byte `at` of the file on. This is the loop of lay_run: one function for both would take a
// closure that changes the blocks, and more clauses about it than these are lines.
pub fn fill_gap(blocks: &mut [u8], block_records: &[u8], f: FileNo, at: usize, n: usize)
    requires { Housed blocks.old block_records.now f.0 at n }
    ensures { blocks.new ≡ laid_run blocks.old block_records.now f.0 at (replicate n 0) }
{
    if n == 0 {
        return;
    }
    for i in at / BLOCK_SIZE..places(at + n) {
        let k = at.max(BLOCK_SIZE * i);
        blank_in_block(blocks, block_records, f, k, at + n - k);
    }
}

// The bytes of file f in the block of byte k, from that byte on, laid at the head of `out`: as many as lie there and it holds. Out of
// line, as lay_in_block is.
#[inline(never)]
fn read_in_block(store: &Lent, f: FileNo, k: usize, out: &mut [u8])
    requires { Moving store.now.blocks.now store.now.block_records.now f.0 k (length out.old) out.old 0 }
    ensures { out.new ≡ sets out.old 0 (run_of store.now.blocks.now store.now.block_records.now f.0 k (in_block k (length out.old))) }
{
    let m = in_block(k, out.len());
    let start = place_start(store.block_records, f, (k / BLOCK_SIZE) as u16) + k % BLOCK_SIZE;
    copy_run(&store.blocks[start..start + m], out, 0);
}

// Bytes of file f, from byte `at` on, as many as `out` holds.
pub fn read_run(store: &Lent, f: FileNo, at: usize, out: &mut [u8])
    requires { Housed store.now.blocks.now store.now.block_records.now f.0 at (length out.old) }
    ensures { out.new ≡ run_of store.now.blocks.now store.now.block_records.now f.0 at (length out.old) }
{
    if out.is_empty() {
        return;
    }
    for i in at / BLOCK_SIZE..places(at + out.len()) {
        let k = at.max(BLOCK_SIZE * i);
        read_in_block(store, f, k, &mut out[k - at..]);
    }
}
