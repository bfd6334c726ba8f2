// The call that takes a name from its file.
// Tables that are changed are taken one by one; `channels` says why.
#![tactic(auto)]

ghost use Rattle.meaning.specs.Tables.{tables};
ghost use Rattle.meaning.specs.Types.{tables_of};
ghost use Rattle.meaning.specs.Run.{Keeps, Call};
ghost use Rattle.meaning.specs.Answers.{reported};
ghost use Rattle.unlinking.specs.Unlink.{Decided};

use counts::gone_with;
use files::clear_file;
use meaning::{FileNo, Kind, Lent, Report};
use naming::{Located, judge_name, locate, own_record};
use recording::take_name;
use soundness::is_directory;

// The refusals of unlink in their order, or the name's record, by its directory and its place, and the file that goes with it.
fn decide_unlink(store: &Lent, name: &[u8]) -> Result<(FileNo, usize, Option<FileNo>), Report>
    ensures { Decided (tables_of store.now) name.now result }
{
    let k = judge_name(store, name)?;
    let Located::Old(d, f) = locate(store, name, k) else {
        return Err(Report::NoSuchName);
    };
    if is_directory(store.file_records, f) {
        return Err(Report::IsDirectory);
    }
    let i = own_record(store, name, d);
    let gone = gone_with(store, f);
    Ok((d, i, gone))
}

// Takes a name from the file that it stands for. A file without name and channel goes.
pub fn unlink(
    blocks: &mut [u8],
    block_records: &mut [u8],
    file_records: &mut [u8],
    channel_records: &[u8],
    name: &[u8],
) -> Result<(), Report>
    ensures { Keeps (Call.Unlink name.now) (tables blocks.old block_records.old file_records.old channel_records.now) (tables blocks.new block_records.new file_records.new channel_records.now) (reported result) }
{
    let store = Lent {
        blocks,
        block_records,
        file_records,
        channel_records,
    };
    let (d, i, gone) = decide_unlink(&store, name)?;
    take_name(blocks, block_records, file_records, d, i);
    if let Some(f) = gone {
        clear_file(block_records, file_records, f, Kind::Free as u8, 0);
    }
    Ok(())
}
