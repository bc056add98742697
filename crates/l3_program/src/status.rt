/// How a run of the program ended. Its number is the exit status.
#[derive(Clone, Copy, Debug, PartialEq, Eq)]
pub enum Status {
    /// The command is done.
    Ok = 0,
    /// Memory ran out.
    Memory = 1,
    /// The words are no command.
    Usage = 2,
    /// The head is none of a WAV file.
    BadWav = 3,
    /// The WAV file is of a form that is never encoded.
    Unsupported = 4,
    /// A read failed.
    ReadFault = 5,
    /// A write failed, or took nothing.
    WriteFault = 6,
    /// The bytes are no stream of this encoder.
    BadStream = 7,
}

impl Status {
    ghost use Rattle.std.specs.Prelude.{◌≡◌};
    ghost use Rattle.l3_program.specs.Status.{exit_number};

    /// The exit status.
    pub fn number(self) -> u8
        ensures { result ≡ exit_number self }
    {
        self as u8
    }
}
