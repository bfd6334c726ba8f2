// What an accepted call answers behind its report, as a row of numbers.
ghost use Rattle.std.specs.Prelude.{◌≡◌, List, ℕ, [], ◌∷◌};
ghost use Rattle.meaning.specs.Types.{kind_number};

use crate::{ChannelNo, Space, Stat};

// N numbers.
pub trait Values<const N: usize> {
    ghost numbers: { Self → List ℕ };

    fn numbers(self) -> [u32; N]
        ensures { result ≡ numbers self };
}

impl Values<0> for () {
    ghost numbers = { λ _. [] };

    fn numbers(self) -> [u32; 0] {
        []
    }
}

// A count, or a position.
impl Values<1> for u32 {
    ghost numbers = { λ n. n ∷ [] };

    fn numbers(self) -> [u32; 1] {
        [self]
    }
}

impl Values<1> for ChannelNo {
    ghost numbers = { λ c. c.0 ∷ [] };

    fn numbers(self) -> [u32; 1] {
        [self.0]
    }
}

// Length, file number, kind.
impl Values<3> for Stat {
    ghost numbers = { λ s. s.length ∷ s.file.0 ∷ kind_number s.kind ∷ [] };

    fn numbers(self) -> [u32; 3] {
        [self.length, self.file.0 as u32, u8::from(self.kind) as u32]
    }
}

// Free blocks, free file numbers, free channels.
impl Values<3> for Space {
    ghost numbers = { λ s. s.blocks ∷ s.files ∷ s.channels ∷ [] };

    fn numbers(self) -> [u32; 3] {
        [self.blocks, self.files, self.channels]
    }
}
