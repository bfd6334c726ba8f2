// The types that calls speak in. Every definition of the store is in specs/.
#![tactic(auto)]

pub mod values;

ghost use Rattle.std.specs.Prelude.{◌≡◌, eqb};
ghost use Rattle.meaning.specs.Run.{number_of};
ghost use Rattle.meaning.specs.Types.{kind_number, file_numbered};

// What a call reports, in document 01's order: the first is 0, the last 15. A call's Err never holds Ok (refused_row), which
// stays among them since 01 numbers it with the others (number_of).
#[derive(Clone, Copy, Debug, PartialEq, Eq)]
pub enum Report {
    Ok,
    NotAStore,
    BadName,
    NoSuchCid,
    NoSuchName,
    NoFreeCids,
    IsDirectory,
    NotDirectory,
    NoFreeFids,
    NoRoom,
    TooBig,
    BadSeek,
    NameInUse,
    NotEmpty,
    OutShort,
    InUse,
}

// Document 01's number of a report.
impl From<Report> for u32 {
    ghost from_gives = { λ report n. n ≡ number_of report };

    fn from(report: Report) -> u32 {
        report as u32
    }
}

// No file and no directory is longer.
pub const LONGEST: u32 = 32768;

// The last position of a channel.
pub const LAST_POSITION: u32 = 16777215;

// How long a syllable of a name can be, and how many a name can have.
pub const LONGEST_SYLLABLE: usize = 14;

pub const MOST_SYLLABLES: usize = 8;

// How many blocks, files and channels a store can have, and how many bytes a block has.
pub const MOST_BLOCKS: usize = 128;

pub const MOST_FILES: usize = 64;

pub const MOST_CHANNELS: usize = 16;

pub const BLOCK_SIZE: usize = 512;

// Files are counted from 1; 0 means none.
#[derive(Clone, Copy, Debug, PartialEq, Eq)]
pub struct FileNo(pub u16);

impl FileNo {
    // Where a record has no file.
    pub const NONE: FileNo = FileNo(0);

    // The root directory.
    pub const ROOT: FileNo = FileNo(1);

    pub fn is_none(self) -> bool
        ensures { result ≡ eqb self.0 0 }
    {
        self.0 == 0
    }

    // A number that was read in a record: a file's, or none.
    pub fn or_none(self) -> Option<FileNo>
        ensures { result ≡ file_numbered self.0 }
    {
        if self.0 == 0 { None } else { Some(self) }
    }
}

// Channels are counted from 0.
#[derive(Clone, Copy, Debug, PartialEq, Eq)]
pub struct ChannelNo(pub u32);

// Blocks are counted from 0.
#[derive(Clone, Copy, Debug, PartialEq, Eq)]
pub struct BlockNo(pub u16);

// What a file record is used for.
#[derive(Clone, Copy, Debug, PartialEq, Eq)]
pub enum Kind {
    Free,
    File,
    Directory,
}

// Document 01's number of a kind.
impl From<Kind> for u8 {
    ghost from_gives = { λ kind n. n ≡ kind_number kind };

    fn from(kind: Kind) -> u8 {
        kind as u8
    }
}

// What fstat answers.
#[derive(Clone, Copy, Debug, PartialEq, Eq)]
pub struct Stat {
    pub length: u32,
    pub file: FileNo,
    pub kind: Kind,
}

// What room answers: how many blocks, file numbers and channels are free.
#[derive(Clone, Copy, Debug, PartialEq, Eq)]
pub struct Space {
    pub blocks: u32,
    pub files: u32,
    pub channels: u32,
}

// The four tables as the host lends them, to be read.
#[derive(Clone, Copy)]
pub struct Lent<'a> {
    pub blocks: &'a [u8],
    pub block_records: &'a [u8],
    pub file_records: &'a [u8],
    pub channel_records: &'a [u8],
}
