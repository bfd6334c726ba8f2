// What waits in the output, handed to write.
ghost use Rattle.std.specs.Prelude.{◌≡◌, ◌+◌, ◌≤◌, OnOk};
ghost use Rattle.std.specs.Io.KnownBytes.{Appends};
ghost use Rattle.serving.specs.Serves.{line_room};
ghost use Rattle.filestore_text.specs.Parts.{waiting, WritesSome};

use crate::buffer::{OUTPUT, Output};
use std::io;
use std::io::Write;

// No line prints more.
const LINE_ROOM: usize = 4200;

// All that waits is written. Nothing waits then.
pub fn write_out<W: Write>(output: &mut W, out: &mut Output) -> io::Result<()>
    ensures written { OnOk result (Appends (W.contents output.old) (W.contents output.new) (waiting out.old)) }
    ensures empty { out.new.at ≡ 0 }
{
    let written = output.write_all(&out.bytes[..out.at]);
    out.at = 0;
    written
}

// What waits is written where the output may lack room for another line.
pub fn make_room<W: Write>(output: &mut W, out: &mut Output) -> io::Result<()>
    ensures writes { OnOk result (WritesSome (W.contents output.old) (waiting out.old) (W.contents output.new) (waiting out.new)) }
    ensures room { out.new.at + line_room ≤ OUTPUT }
{
    if OUTPUT - out.at < LINE_ROOM {
        return write_out(output, out);
    }
    Ok(())
}
