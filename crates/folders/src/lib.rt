// The calls that make and remove directories.
// Tables that are changed are taken one by one; `channels` says why.
#![tactic(auto)]

ghost use Rattle.meaning.specs.Tables.{tables};
ghost use Rattle.meaning.specs.Types.{tables_of};
ghost use Rattle.meaning.specs.Run.{Keeps, Call};
ghost use Rattle.meaning.specs.Answers.{reported};
ghost use Rattle.folders.specs.Remove.{Removed};
ghost use Rattle.folders.specs.Make.{NewName, Made};

use files::clear_file;
use listing::count_names;
use lookup::record_count;
use meaning::{FileNo, Kind, Lent, MOST_SYLLABLES, Report};
use naming::{Located, judge_name, locate, new_record, own_record};
use recording::{give_name, record_fits, take_name};
use soundness::is_directory;
use tables::{file_record, find_file, is_held};

// The refusals of rmdir in their order; or the record that is made blank, by its directory and its place, and the directory that goes.
fn decide_rmdir(store: &Lent, name: &[u8]) -> Result<(FileNo, usize, FileNo), Report>
    ensures { Removed (tables_of store.now) name.now result }
{
    let k = judge_name(store, name)?;
    let Located::Old(d, f) = locate(store, name, k) else {
        return Err(Report::NoSuchName);
    };
    if !is_directory(store.file_records, f) {
        return Err(Report::NotDirectory);
    }
    if f == FileNo::ROOT || is_held(store.channel_records, f) {
        return Err(Report::InUse);
    }
    let count = record_count(store.file_records, f);
    if count_names(store, f, count) != 0 {
        return Err(Report::NotEmpty);
    }
    let i = own_record(store, name, d);
    Ok((d, i, f))
}

// Removes a directory that has no names.
pub fn rmdir(
    blocks: &mut [u8],
    block_records: &mut [u8],
    file_records: &mut [u8],
    channel_records: &[u8],
    name: &[u8],
) -> Result<(), Report>
    ensures { Keeps (Call.Rmdir name.now) (tables blocks.old block_records.old file_records.old channel_records.now) (tables blocks.new block_records.new file_records.new channel_records.now) (reported result) }
{
    let store = Lent {
        blocks,
        block_records,
        file_records,
        channel_records,
    };
    let (d, i, f) = decide_rmdir(&store, name)?;
    take_name(blocks, block_records, file_records, d, i);
    clear_file(block_records, file_records, f, Kind::Free as u8, 0);
    Ok(())
}

// The refusals of mkdir for a name that is new in directory d, in their order; or that directory, the place of the name's record, the
// lowest free file and its depth as a directory.
fn decide_new(store: &Lent, name: &[u8], d: FileNo) -> Result<(FileNo, usize, FileNo, u8), Report>
    requires { NewName (tables_of store.now) name.now d }
    ensures { Made (tables_of store.now) name.now result }
{
    let new = find_file(store.file_records, Kind::Free as u8).ok_or(Report::NoFreeFids)?;
    let i = new_record(store, name, d);
    record_fits(store, d, i)?;
    let depth = file_record(store.file_records, d).depth;
    Ok((d, i, new, depth + 1))
}

// The refusals of mkdir in their order, or how it goes.
fn decide_mkdir(store: &Lent, name: &[u8]) -> Result<(FileNo, usize, FileNo, u8), Report>
    ensures { Made (tables_of store.now) name.now result }
{
    let k = judge_name(store, name)?;
    if k == MOST_SYLLABLES {
        return Err(Report::BadName);
    }
    match locate(store, name, k) {
        Located::Nowhere(_) => Err(Report::NoSuchName),
        Located::Old(_, _) => Err(Report::NameInUse),
        Located::New(d) => decide_new(store, name, d),
    }
}

// Makes an empty directory, one deeper than the directory that it lies in.
pub fn mkdir(
    blocks: &mut [u8],
    block_records: &mut [u8],
    file_records: &mut [u8],
    channel_records: &[u8],
    name: &[u8],
) -> Result<(), Report>
    ensures { Keeps (Call.Mkdir name.now) (tables blocks.old block_records.old file_records.old channel_records.now) (tables blocks.new block_records.new file_records.new channel_records.now) (reported result) }
{
    let store = Lent {
        blocks,
        block_records,
        file_records,
        channel_records,
    };
    let (d, i, f, depth) = decide_mkdir(&store, name)?;
    give_name(blocks, block_records, file_records, d, i, f, name);
    clear_file(block_records, file_records, f, Kind::Directory as u8, depth);
    Ok(())
}
