// Numbers in fixed-size records, low byte first. Definitions and laws, of rows of indices too, are in specs/.
#![tactic(auto)]

pub mod rows;

ghost use Rattle.std.specs.Prelude.{◌≡◌, [], ◌∷◌, ◌+◌, ◌*◌, ◌≤◌, ◌<◌, length};
ghost use Rattle.std.proofs.lemmas.List.Edits.{sets};
ghost use Rattle.records.specs.Numbers.{one, two, four, two_bytes, four_bytes, zeros};

// The number of one byte at a place.
pub fn one_at(table: &[u8], at: usize) -> u8
    requires { at < length table.now }
    ensures { result ≡ one table.now at }
{
    table[at]
}

// The number of two bytes at a place.
pub fn two_at(table: &[u8], at: usize) -> u16
    requires { at + 1 < length table.now }
    ensures { result ≡ two table.now at }
{
    let low = one_at(table, at);
    let high = one_at(table, at + 1);
    low as u16 + 256 * (high as u16)
}

// The number of four bytes at a place.
pub fn four_at(table: &[u8], at: usize) -> u32
    requires { at + 3 < length table.now }
    ensures { result ≡ four table.now at }
{
    let low = two_at(table, at);
    let high = two_at(table, at + 2);
    low as u32 + 65536 * (high as u32)
}

// Whether n numbers of four bytes from a place on are zero.
fn fours_zero(table: &[u8], at: usize, n: usize) -> bool
    requires { at + 4 * n ≤ length table.now }
    ensures { result ≡ zeros table.now at (4 * n) }
{
    for k in 0..n {
        if four_at(table, at + 4 * k) != 0 {
            return false;
        }
    }
    true
}

// Whether n bytes from a place on are zero: four at a time, and those left one by one.
pub fn zeros_at(table: &[u8], at: usize, n: usize) -> bool
    requires { at + n ≤ length table.now }
    ensures { result ≡ zeros table.now at n }
{
    let fours = n / 4;
    if !fours_zero(table, at, fours) {
        return false;
    }
    for i in 4 * fours..n {
        if one_at(table, at + i) != 0 {
            return false;
        }
    }
    true
}

// A number laid at a place, as one byte.
pub fn put_one(table: &mut [u8], at: usize, x: u8)
    requires { at < length table.old }
    ensures { table.new ≡ sets table.old at (x ∷ []) }
{
    table[at] = x;
}

// A number laid at a place, as two bytes.
pub fn put_two(table: &mut [u8], at: usize, x: u16)
    requires { at + 1 < length table.old }
    ensures { table.new ≡ sets table.old at (two_bytes x) }
{
    put_one(table, at, (x % 256) as u8);
    put_one(table, at + 1, (x / 256) as u8);
}

// A number laid at a place, as four bytes.
pub fn put_four(table: &mut [u8], at: usize, x: u32)
    requires { at + 3 < length table.old }
    ensures { table.new ≡ sets table.old at (four_bytes x) }
{
    put_two(table, at, (x % 65536) as u16);
    put_two(table, at + 2, (x / 65536) as u16);
}
