//! The commands.
ghost use Rattle.std.specs.Prelude.{◌≡◌};
ghost use Rattle.vt_cli.specs.Outcome.{reads, wants_input};

/// What the program is asked to do.
#[derive(Clone, Copy, PartialEq, Eq)]
pub enum Command {
    /// Write the score of the piece in the input.
    Render,
    /// Tell of each text of the session in the input whether it can be read and is allowed.
    Check,
    /// Write a generated session.
    Gen { seed: u64, loops: u32, beats: u32 },
}

impl Command {
    /// Whether it reads the input.
    pub fn reads(self) -> bool
        ensures { result ≡ reads self }
    {
        match self {
            Command::Render => true,
            Command::Check => true,
            Command::Gen { .. } => false,
        }
    }
}

/// Whether the words ask for the input.
pub fn wants_input(command: Option<Command>) -> bool
    ensures { result ≡ wants_input command }
{
    match command {
        None => false,
        Some(command) => command.reads(),
    }
}
