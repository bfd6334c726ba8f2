// Syllables are taken from the left, one at a time (01, "Names"). Whatever takes or makes the reader is thin; the work is in the functions that it calls.
#![tactic(auto)]

ghost use Rattle.std.specs.Prelude.{◌≡◌, ◌≤◌, length};
ghost use Rattle.paths.specs.Taking.{syllable_end, taken_at, end_taken, behind, reader_at, left_of};

// A name, and the place that the next syllable starts at.
#[derive(Clone, Copy)]
pub struct PathReader<'a> {
    pub name: &'a [u8],
    pub at: usize,
}

impl<'a> PathReader<'a> {
    // A reader set at a place of a name.
    pub fn new(name: &'a [u8], at: usize) -> PathReader<'a>
        ensures { result ≡ reader_at name.entry at }
    {
        PathReader { name, at }
    }

    // The next syllable: where it starts and where it ends. There is none where the name is at its end.
    pub fn next(self) -> Option<(usize, usize)>
        ensures { result ≡ taken_at self.entry.name.now self.entry.at }
    {
        syllable_at(self.name, self.at)
    }

    // What is left behind a syllable that ends at a place.
    pub fn left(self, end: usize) -> PathReader<'a>
        ensures { result ≡ left_of self.entry end }
    {
        PathReader::new(self.name, place_behind(self.name, end))
    }
}

// Where the syllable that starts at a place ends: at the first slash from there on, or at the end of the name.
fn syllable_end(name: &[u8], at: usize) -> usize
    requires { at ≤ length name.now }
    ensures { result ≡ syllable_end name.now at }
{
    match name[at..].iter().position(|b| *b == b'/') {
        Some(k) => at + k,
        None => name.len(),
    }
}

// The syllable that starts at a place; there is none where the name is at its end.
fn syllable_at(name: &[u8], at: usize) -> Option<(usize, usize)>
    ensures { result ≡ taken_at name.now at }
{
    if at < name.len() {
        return Some((at, syllable_end(name, at)));
    }
    None
}

// Where what was taken at a place ends.
fn end_taken(taken: Option<(usize, usize)>, at: usize) -> usize
    ensures { result ≡ end_taken taken at }
{
    match taken {
        Some((_, end)) => end,
        None => at,
    }
}

// The place behind a syllable's end: behind the slash, or the end of the name.
fn place_behind(name: &[u8], end: usize) -> usize
    ensures { result ≡ behind name.now end }
{
    if end < name.len() {
        return end + 1;
    }
    end
}

// Where a syllable ends, and where what is left starts: places and not slices, since whoever takes a syllable tells by its end
// whether the name ends there.
#[derive(Clone, Copy)]
pub struct Step {
    pub end: usize,
    pub next: usize,
}

// One syllable taken at a place of a name, for whoever has no reader.
pub fn take_syllable(name: &[u8], at: usize) -> Step
    ensures { (result.end ≡ syllable_end name.now at) × (result.next ≡ behind name.now (syllable_end name.now at)) }
{
    let r = PathReader::new(name, at);
    let end = end_taken(r.next(), at);
    Step {
        end,
        next: r.left(end).at,
    }
}
