// The lines of the input, served one after another. What they print waits in the output.
ghost use Rattle.std.specs.Prelude.{◌+◌, ◌≤◌};
ghost use Rattle.std.specs.Option.{option_copied};
ghost use Rattle.serving.specs.Serves.{line_room};
ghost use Rattle.filestore_text.specs.Parts.{tables_in, waiting, Steps, PrintsLast};

use crate::Store;
use crate::buffer::{OUTPUT, Output};
use serving::serve_line;
use text::lines::{Pending, begin, gather, has_line};

// To the end of the line, which is served, or of the piece. The answer is the rest of the piece where the line ends.
pub fn serve_next<'a>(
    store: &mut Store,
    line: &mut Pending,
    piece: &'a [u8],
    out: &mut Output,
) -> Option<&'a [u8]>
    requires { out.old.at + line_room ≤ OUTPUT }
    ensures { Steps piece.now line.old (tables_in store.old) (waiting out.old) line.new (tables_in store.new) (waiting out.new) (option_copied result) }
{
    let rest = gather(line, piece)?;
    out.at = serve_line(
        &mut store.blocks,
        &mut store.block_records,
        &mut store.file_records,
        &mut store.channel_records,
        line,
        &mut out.bytes,
        out.at,
    );
    begin(line);
    Some(rest)
}

// The line that the input's end ends, if there is one.
pub fn serve_last(store: &mut Store, line: &Pending, out: &mut Output)
    requires { out.old.at + line_room ≤ OUTPUT }
    ensures { PrintsLast line.now (tables_in store.old) (waiting out.old) (tables_in store.new) (waiting out.new) }
{
    let has = has_line(line);
    if has {
        out.at = serve_line(
            &mut store.blocks,
            &mut store.block_records,
            &mut store.file_records,
            &mut store.channel_records,
            line,
            &mut out.bytes,
            out.at,
        );
    }
}
