use ir_core::program::Module;
use ir_reader::ReadRefusal;
use ir_verify::refusal::VerifyRefusal;
use jit_calls::CallsRefusal;

/// Why the program stops before it writes its answers.
#[derive(Drop)]
pub enum Stop<'a> {
    /// The words are no command.
    Usage,
    /// A file of this name couldn't be read.
    CannotRead(&'a str),
    /// The text isn't that of a module.
    Unread(ReadRefusal),
    /// The module doesn't pass a row of the verifier.
    Unverified(Module, VerifyRefusal),
    /// The globals take so many bytes, and the data memory has so many, which are fewer.
    TooBig(u64, u64),
    /// The text isn't a list of calls of the module.
    Uncalled(CallsRefusal),
    /// The quick code takes so many code words, and there are so many, which are fewer.
    NoRoom(u64, u32),
    NoMemory,
}

impl Stop<'_> {
    ghost use Rattle.jit_main.specs.Ends.{status_of};
    ghost use Rattle.std.specs.Prelude.{◌≡◌};

    /// The status that the program ends with.
    pub fn status(&self) -> u8
        ensures { result ≡ status_of self.now }
    {
        match self {
            Stop::Usage => 3,
            Stop::CannotRead(_) => 4,
            Stop::Unread(_) | Stop::Unverified(..) | Stop::TooBig(..) | Stop::Uncalled(_) => 2,
            Stop::NoRoom(..) => 7,
            Stop::NoMemory => 6,
        }
    }
}
