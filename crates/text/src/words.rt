// The words that a line can begin with.
ghost use Rattle.std.specs.Prelude.{◌≡◌, List, ℕ, Option};
ghost use Rattle.text.specs.Line.{formed, forms};
ghost use Rattle.text.specs.Words.{call_of};

#[derive(Clone, Copy)]
pub enum Word {
    Prepare,
    Create,
    Open,
    Close,
    Read,
    Write,
    Seek,
    Fstat,
    Link,
    Unlink,
    Move,
    Ls,
    Mkdir,
    Rmdir,
    Room,
}

// Which of the words it is, if it is one.
#[tactic(auto, unfolding(crate::specs::Line::forms, crate::specs::Line::formed, meaning::specs::Name::same, meaning::specs::Text::text, crate::specs::Words::to_read, crate::specs::Words::to_write, crate::specs::Words::to_seek), using(crate::proofs::WordLaws::other_six, crate::proofs::WordLaws::other_seven, crate::proofs::WordLaws::longer))]
pub fn word_of(word: &[u8]) -> Option<Word>
    ensures { (rest : Option (List ℕ)) → call_of result rest ≡ formed forms word.now rest }
{
    match word {
        b"prepare" => Some(Word::Prepare),
        b"create" => Some(Word::Create),
        b"open" => Some(Word::Open),
        b"close" => Some(Word::Close),
        b"read" => Some(Word::Read),
        b"write" => Some(Word::Write),
        b"seek" => Some(Word::Seek),
        b"fstat" => Some(Word::Fstat),
        b"link" => Some(Word::Link),
        b"unlink" => Some(Word::Unlink),
        b"move" => Some(Word::Move),
        b"ls" => Some(Word::Ls),
        b"mkdir" => Some(Word::Mkdir),
        b"rmdir" => Some(Word::Rmdir),
        b"room" => Some(Word::Room),
        _ => None,
    }
}
