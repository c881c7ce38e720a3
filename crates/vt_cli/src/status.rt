//! How the program ends.
ghost use Rattle.std.specs.Prelude.{◌≡◌};
ghost use Rattle.vt_cli.specs.Ending.{code_of};

/// How a run ended. Its number is the exit status.
#[derive(Clone, Copy, PartialEq, Eq)]
pub enum Status {
    /// The answer was written.
    Fine = 0,
    /// The words are no command.
    Usage = 1,
    /// The input is longer than 1,048,576 bytes.
    TooLong = 2,
    /// The bytes are no session.
    BadSession = 3,
    /// A read failed.
    ReadFault = 5,
    /// A write failed.
    WriteFault = 6,
    /// Memory was wanting.
    NoMemory = 7,
    /// The answer was written, and holds a fault.
    Faulty = 8,
}

impl Status {
    /// The number of the status.
    pub fn code(&self) -> u8
        ensures { result ≡ code_of self.now }
    {
        *self as u8
    }
}
