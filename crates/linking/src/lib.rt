// The calls on two names.
// Tables that are changed are taken one by one; `channels` says why.
#![tactic(auto)]

ghost use Rattle.std.specs.Prelude.{◌≡◌};
ghost use Rattle.meaning.specs.Tables.{tables};
ghost use Rattle.meaning.specs.Types.{tables_of};
ghost use Rattle.meaning.specs.Run.{Keeps, Call};
ghost use Rattle.meaning.specs.Answers.{reported};
ghost use Rattle.linking.specs.Names.{FindsNames, Here};
ghost use Rattle.linking.specs.NewName.{OnNewName};
ghost use Rattle.linking.specs.Link.{DecidesLink};
ghost use Rattle.linking.specs.Act.{goes, last_goes, MayGo, Linkable, Droppable, LetsGo, Links, Drops};
ghost use Rattle.linking.specs.Move.{DecidesMove};

use counts::gone_with;
use files::clear_file;
use meaning::{FileNo, Kind, Lent, Report};
use names::name_form;
use naming::{Located, judge_name, locate, new_record, own_record};
use recording::{give_name, record_fits, take_name};
use soundness::is_directory;

// Two names judged, the old one first, and located; or the refusal that comes before any other of a call on two names.
fn find_names(store: &Lent, old: &[u8], new: &[u8]) -> Result<(Located, Located), Report>
    ensures { FindsNames (tables_of store.now) old.now new.now result }
{
    let j = judge_name(store, old)?;
    let k = name_form(new).ok_or(Report::BadName)?;
    let from = locate(store, old, j);
    let to = locate(store, new, k);
    Ok((from, to))
}

// Of a name that is to be given: its directory, the place of its record there, and the file that goes with it, where it
// is the only name of a file with no channel; or why no file can get that name.
fn judge_new(
    store: &Lent,
    new: &[u8],
    at: Located,
) -> Result<(FileNo, usize, Option<FileNo>), Report>
    requires { Here (tables_of store.now) new.now at }
    ensures { OnNewName (tables_of store.now) new.now result }
{
    match at {
        Located::Nowhere(_) => Err(Report::NoSuchName),
        Located::New(d) => Ok((d, new_record(store, new, d), None)),
        Located::Old(d, g) => {
            if is_directory(store.file_records, g) {
                return Err(Report::IsDirectory);
            }
            Ok((d, own_record(store, new, d), gone_with(store, g)))
        }
    }
}

// How link goes: the old name's directory and file; the new name's directory and the place of its record there; and the
// file that the new name stood for, where it has no other name and no channel.
#[derive(Clone, Copy)]
struct Plan {
    from: FileNo,
    file: FileNo,
    to: FileNo,
    place: usize,
    gone: Option<FileNo>,
}

// The refusals of link in their order, or how it goes.
fn decide_link(store: &Lent, old: &[u8], new: &[u8]) -> Result<Plan, Report>
    ensures { DecidesLink (tables_of store.now) old.now new.now result }
{
    let (from, at) = find_names(store, old, new)?;
    let Located::Old(from, file) = from else {
        return Err(Report::NoSuchName);
    };
    if is_directory(store.file_records, file) {
        return Err(Report::IsDirectory);
    }
    let (to, place, gone) = judge_new(store, new, at)?;
    record_fits(store, to, place)?;
    Ok(Plan {
        from,
        file,
        to,
        place,
        gone,
    })
}

// What link lets go: the file that the new name stood for goes, where it is another file than the old name's.
fn replaced_goes(plan: Plan) -> Option<FileNo>
    ensures { result ≡ goes plan }
{
    let g = plan.gone?;
    if g == plan.file {
        return None;
    }
    Some(g)
}

// What a move lets go with the old name: its file, where the new name was its own too, and it had no other and no channel.
fn last_goes(plan: Plan) -> Option<FileNo>
    ensures { result ≡ last_goes plan }
{
    let g = plan.gone?;
    if g != plan.file {
        return None;
    }
    Some(plan.file)
}

// A file let go, or none.
fn let_go(block_records: &mut [u8], file_records: &mut [u8], gone: Option<FileNo>)
    requires { MayGo block_records.old file_records.old gone }
    ensures { LetsGo block_records file_records gone }
{
    if let Some(g) = gone {
        clear_file(block_records, file_records, g, Kind::Free as u8, 0);
    }
}

// The new name's record given to the old name's file, and the file that it stood for let go.
fn make_link(
    blocks: &mut [u8],
    block_records: &mut [u8],
    file_records: &mut [u8],
    new: &[u8],
    plan: Plan,
)
    requires { Linkable blocks.old block_records.old file_records.old new.now plan }
    ensures { Links blocks block_records file_records new.now plan }
{
    give_name(
        blocks,
        block_records,
        file_records,
        plan.to,
        plan.place,
        plan.file,
        new,
    );
    let_go(block_records, file_records, replaced_goes(plan));
}

// The old name's record, number i of its directory, made blank, and its file let go where that was its last name.
fn drop_name(
    blocks: &mut [u8],
    block_records: &mut [u8],
    file_records: &mut [u8],
    plan: Plan,
    i: usize,
)
    requires { Droppable blocks.old block_records.old file_records.old plan i }
    ensures { Drops blocks block_records file_records plan i }
{
    take_name(blocks, block_records, file_records, plan.from, i);
    let_go(block_records, file_records, last_goes(plan));
}

// A new name for the file that an old name stands for; what the new name stood for is replaced.
pub fn link(
    blocks: &mut [u8],
    block_records: &mut [u8],
    file_records: &mut [u8],
    channel_records: &[u8],
    old: &[u8],
    new: &[u8],
) -> Result<(), Report>
    ensures { Keeps (Call.Link old.now new.now) (tables blocks.old block_records.old file_records.old channel_records.now) (tables blocks.new block_records.new file_records.new channel_records.now) (reported result) }
{
    let store = Lent {
        blocks,
        block_records,
        file_records,
        channel_records,
    };
    let plan = decide_link(&store, old, new)?;
    make_link(blocks, block_records, file_records, new, plan);
    Ok(())
}

// The refusals of move, which are those of link; or how link goes, and the old name's record in its directory.
fn decide_move(store: &Lent, old: &[u8], new: &[u8]) -> Result<(Plan, usize), Report>
    ensures { DecidesMove (tables_of store.now) old.now new.now result }
{
    let plan = decide_link(store, old, new)?;
    let i = own_record(store, old, plan.from);
    Ok((plan, i))
}

// A new name for the file that an old name stands for, instead of the old one.
pub fn move_name(
    blocks: &mut [u8],
    block_records: &mut [u8],
    file_records: &mut [u8],
    channel_records: &[u8],
    old: &[u8],
    new: &[u8],
) -> Result<(), Report>
    ensures { Keeps (Call.Move old.now new.now) (tables blocks.old block_records.old file_records.old channel_records.now) (tables blocks.new block_records.new file_records.new channel_records.now) (reported result) }
{
    let store = Lent {
        blocks,
        block_records,
        file_records,
        channel_records,
    };
    let (plan, i) = decide_move(&store, old, new)?;
    make_link(blocks, block_records, file_records, new, plan);
    drop_name(blocks, block_records, file_records, plan, i);
    Ok(())
}
