// Where what is printed waits to be written.
ghost use Rattle.std.specs.Prelude.{◌≤◌};
ghost use Rattle.filestore_text.specs.declared.buffer.TheConstants.{OUTPUT};

// How many bytes wait at most.
pub const OUTPUT: usize = 65536;

// The first bytes, up to a place, wait. Those behind it are never looked at.
#[derive(Drop)]
pub struct Output {
    pub bytes: [u8; OUTPUT],
    pub at: usize,
    ghost fits: { at ≤ OUTPUT },
}
