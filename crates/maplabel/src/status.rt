//! How a run of the program ends.

/// What a run came to.
#[derive(Clone, Copy, Debug, PartialEq, Eq)]
pub enum Status {
    /// The command was done.
    Done,
    /// The slots that were checked are not the longest choice with its blockers.
    NotBest,
    /// The words are none of the forms.
    Usage,
    /// The style is refused.
    StyleRefused,
    /// The table, the slots or the map are refused.
    InputRefused,
    /// A file is missing, or its reading failed.
    FileFault,
    /// The input failed.
    ReadFault,
    /// Not all could be printed.
    WriteFault,
    /// The door failed.
    DoorFault,
    /// Out of memory.
    Memory,
    /// A file is longer than 67,108,864 bytes.
    TooLong,
    /// All states were offered, and not all of them adopted.
    NotAdopted,
}

impl Status {
    ghost use Rattle.std.specs.Prelude.{◌≡◌};
    ghost use Rattle.maplabel.specs.Codes.{code_of};

    /// The exit code of the program.
    pub fn code(&self) -> u8
        ensures { result ≡ code_of self.now }
    {
        match self {
            Status::Done => 0,
            Status::NotBest => 1,
            Status::Usage => 2,
            Status::StyleRefused => 3,
            Status::InputRefused => 4,
            Status::FileFault => 5,
            Status::ReadFault => 6,
            Status::WriteFault => 7,
            Status::DoorFault => 8,
            Status::Memory => 9,
            Status::TooLong => 10,
            Status::NotAdopted => 11,
        }
    }
}
