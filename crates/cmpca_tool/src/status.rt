//! How a run of the program ends.
ghost use Rattle.std.specs.Prelude.{◌≡◌};

/// By what an authority is known: the identifier and the root of each of its trees, in the first octets of an array.
#[derive(Clone, Copy, Debug, PartialEq, Eq)]
pub struct Identity {
    /// The octets, and zeros behind them.
    pub octets: [u8; 96],
    /// How many they are.
    pub length: u8,
}

/// How a run ends. Each cause has its number, which is the status of the process.
#[derive(Clone, Copy, Debug, PartialEq, Eq)]
pub enum Status {
    /// The result of the command was written whole.
    Done,
    /// The command's refusal was written.
    Refused,
    /// The words are of no form.
    Usage,
    /// The input failed, or the key file, or the entropy.
    ReadFault,
    /// The output failed.
    WriteFault,
    /// The disk failed.
    DiskFault,
    /// Memory ran out.
    NoMemory,
    /// The disk is founded, and no legal history recovers from it.
    Damaged {
        /// The offset in octets at which its log is damaged.
        at: u64,
    },
    /// The disk is not founded.
    NotFounded,
    /// The key file is that of another authority than the disk's.
    KeyMismatch {
        /// The identity of the key file.
        file: Identity,
        /// The identity that the journal was founded with.
        journal: Identity,
    },
    /// The key file is of no form.
    BadKeyFile,
}

impl Status {
    ghost use Rattle.cmpca_tool.specs.Status.{number_of};

    /// The status of the process.
    pub fn number(self) -> u8
        ensures { result ≡ number_of self }
    {
        match self {
            Status::Done => 0,
            Status::Refused => 1,
            Status::Usage => 2,
            Status::ReadFault => 3,
            Status::WriteFault => 4,
            Status::DiskFault => 5,
            Status::NoMemory => 6,
            Status::Damaged { .. } => 7,
            Status::NotFounded => 8,
            Status::KeyMismatch { .. } => 9,
            Status::BadKeyFile => 10,
        }
    }
}
