// Searches, tests and counts over the indices below a number. What is asked of each index is a closure.
ghost use Rattle.std.specs.Prelude.{◌≡◌, ◌<◌, ℕ, Bool};
ghost use Rattle.records.specs.Rows.{every, how_many, lowest_below};

// Whether every index below n passes a test.
pub fn every<F: Fn(usize) -> bool>(n: usize, test: F) -> bool
    requires { (i : ℕ) → i < n → F.pre test i }
    ensures { (p : ℕ → Bool) → ((i : ℕ) (b : Bool) → i < n → F.post test i b → b ≡ p i) → result ≡ every n p }
{
    for i in 0..n {
        if !test(i) {
            return false;
        }
    }
    true
}

// How many indices below n pass a test.
pub fn how_many<F: Fn(usize) -> bool>(n: usize, test: F) -> usize
    requires { (i : ℕ) → i < n → F.pre test i }
    ensures { (p : ℕ → Bool) → ((i : ℕ) (b : Bool) → i < n → F.post test i b → b ≡ p i) → result ≡ how_many n p }
{
    let mut found: usize = 0;
    for i in 0..n {
        if test(i) {
            found += 1;
        }
    }
    found
}

// The lowest index below n that passes a test, if one does.
pub fn lowest<F: Fn(usize) -> bool>(n: usize, test: F) -> Option<usize>
    requires { (i : ℕ) → i < n → F.pre test i }
    ensures { (p : ℕ → Bool) → ((i : ℕ) (b : Bool) → i < n → F.post test i b → b ≡ p i) → result ≡ lowest_below n p }
{
    for i in 0..n {
        if test(i) {
            return Some(i);
        }
    }
    None
}
