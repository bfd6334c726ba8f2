// A row of bytes, cut where a byte stands first.
ghost use Rattle.std.specs.Prelude.{◌≡◌, take, length};
ghost use Rattle.std.specs.Option.{option_copied};
ghost use Rattle.records.specs.Rows.{found_below};
ghost use Rattle.text.specs.Commands.{first_of, behind};

use records::rows::lowest;

// Where a byte stands first, if it does.
fn find(bytes: &[u8], b: u8) -> Option<usize>
    ensures { result ≡ found_below (length bytes.now) (first_of b bytes.now) }
{
    lowest(bytes.len(), |i| bytes[i] == b)
}

// What stands before a byte, and what follows it, if it is there.
pub fn cut(bytes: &[u8], b: u8) -> (&[u8], Option<&[u8]>)
    ensures before { result.0.now ≡ take (first_of b bytes.now) bytes.now }
    ensures behind { option_copied result.1 ≡ behind b bytes.now }
{
    match find(bytes, b) {
        Some(i) => (&bytes[..i], Some(&bytes[i + 1..])),
        None => (bytes, None),
    }
}
