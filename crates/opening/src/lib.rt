// The calls that open a channel by a name.
// Tables that are changed are taken one by one; `channels` says why.
#![tactic(auto)]

ghost use Rattle.std.specs.Prelude.{◌≡◌, ◌<◌};
ghost use Rattle.records.specs.Numbers.{with_record};
ghost use Rattle.meaning.specs.Tables.{tables, channel_count, channel_record};
ghost use Rattle.meaning.specs.Types.{tables_of};
ghost use Rattle.meaning.specs.Run.{left, Keeps, Call, entered};
ghost use Rattle.meaning.specs.Answers.{opened};
ghost use Rattle.opening.specs.Open.{Decided};
ghost use Rattle.opening.specs.Create.{NewName, Created};

use files::clear_file;
use meaning::{ChannelNo, FileNo, Kind, Lent, Report};
use naming::{Located, judge_name, locate, new_record};
use recording::{give_name, record_fits};
use soundness::is_directory;
use tables::{ChannelRecord, find_channel, find_file, put_channel_record};

// Channel c comes to hold file f, at its start.
fn open_channel(channel_records: &mut [u8], c: ChannelNo, f: FileNo)
    requires { c.0 < channel_count channel_records.old }
    ensures { channel_records.new ≡ with_record 8 channel_records.old c.0 (channel_record f.0 0) }
{
    put_channel_record(
        channel_records,
        c,
        ChannelRecord {
            file: f,
            position: 0,
        },
    );
}

// The refusals of open in their order, or the lowest free channel and the name's file.
fn decide_open(store: &Lent, name: &[u8]) -> Result<(ChannelNo, FileNo), Report>
    ensures { Decided (tables_of store.now) name.now result }
{
    let k = judge_name(store, name)?;
    let Located::Old(_, file) = locate(store, name, k) else {
        return Err(Report::NoSuchName);
    };
    let channel = find_channel(store.channel_records, FileNo::NONE).ok_or(Report::NoFreeCids)?;
    Ok((channel, file))
}

// Opens a channel to the file that a name stands for.
pub fn open(
    blocks: &[u8],
    block_records: &[u8],
    file_records: &[u8],
    channel_records: &mut [u8],
    name: &[u8],
) -> Result<ChannelNo, Report>
    ensures { Keeps (Call.Open name.now) (tables blocks.now block_records.now file_records.now channel_records.old) (tables blocks.now block_records.now file_records.now channel_records.new) (opened result) }
{
    let store = Lent {
        blocks,
        block_records,
        file_records,
        channel_records,
    };
    let (c, f) = decide_open(&store, name)?;
    open_channel(channel_records, c, f);
    Ok(c)
}

// How create goes: a channel for an existing file, which is to be emptied; or a channel for a new file, with the directory and the
// place of its name's record.
#[derive(Clone, Copy, Debug, PartialEq, Eq)]
pub enum Creation {
    Old(ChannelNo, FileNo),
    New(ChannelNo, FileNo, FileNo, usize),
}

// The refusals of create for a new name in directory d, or the lowest free channel and file and the name's record.
fn decide_new(store: &Lent, name: &[u8], d: FileNo) -> Result<Creation, Report>
    requires { NewName (tables_of store.now) name.now d }
    ensures { Created (tables_of store.now) name.now result }
{
    let c = find_channel(store.channel_records, FileNo::NONE).ok_or(Report::NoFreeCids)?;
    let f = find_file(store.file_records, Kind::Free as u8).ok_or(Report::NoFreeFids)?;
    let i = new_record(store, name, d);
    record_fits(store, d, i)?;
    Ok(Creation::New(c, f, d, i))
}

// The refusals of create in their order, or how it goes.
fn decide_create(store: &Lent, name: &[u8]) -> Result<Creation, Report>
    ensures { Created (tables_of store.now) name.now result }
{
    let k = judge_name(store, name)?;
    match locate(store, name, k) {
        Located::Nowhere(_) => Err(Report::NoSuchName),
        Located::New(d) => decide_new(store, name, d),
        Located::Old(_, f) => {
            if is_directory(store.file_records, f) {
                return Err(Report::IsDirectory);
            }
            let c = find_channel(store.channel_records, FileNo::NONE).ok_or(Report::NoFreeCids)?;
            Ok(Creation::Old(c, f))
        }
    }
}

// Opens a channel to an empty file of a name: an existing file is emptied, a new one made.
pub fn create(
    blocks: &mut [u8],
    block_records: &mut [u8],
    file_records: &mut [u8],
    channel_records: &mut [u8],
    name: &[u8],
) -> Result<ChannelNo, Report>
    ensures { Keeps (Call.Create name.now) (entered blocks block_records file_records channel_records) (left blocks block_records file_records channel_records) (opened result) }
{
    let store = Lent {
        blocks,
        block_records,
        file_records,
        channel_records,
    };
    match decide_create(&store, name)? {
        Creation::Old(c, f) => {
            clear_file(block_records, file_records, f, Kind::File as u8, 0);
            open_channel(channel_records, c, f);
            Ok(c)
        }
        Creation::New(c, new, d, i) => {
            give_name(blocks, block_records, file_records, d, i, new, name);
            clear_file(block_records, file_records, new, Kind::File as u8, 0);
            open_channel(channel_records, c, new);
            Ok(c)
        }
    }
}
