use l3_base::Rate;

/// What an encoding is told: its rate, and how it is to be shared among threads. Its bytes depend
/// on the rate alone.
#[derive(Clone, Copy, Debug, PartialEq, Eq)]
pub struct EncoderOptions {
    /// The rate of the stream.
    pub rate: Rate,
    /// How many threads analyse granules ahead, 0 to 16. With none the calling thread does all.
    pub workers: u8,
    /// How many granules may be analysed ahead, 1 to 64.
    pub ahead: u8,
    /// Which of the guessers guesses the reserve, counted from 1; 0 asks for all of them.
    pub guess: u8,
}

/// What the words behind `encode` say.
#[derive(Clone, Copy, Debug, PartialEq, Eq)]
pub struct EncodeWords {
    pub options: EncoderOptions,
    /// Whether statistics are told at the end.
    pub stats: bool,
}

/// What the words behind `demo` say.
#[derive(Clone, Copy, Debug, PartialEq, Eq)]
pub struct DemoWords {
    pub options: EncoderOptions,
    /// How many frames of 1152 samples the signal has, 1 to 100000.
    pub frames: u32,
    /// The number that its noise begins with.
    pub seed: u32,
}

/// What the words of the command line ask for.
#[derive(Clone, Copy, Debug, PartialEq, Eq)]
pub enum Command {
    /// To encode a WAV file.
    Encode(EncodeWords),
    /// To check a stream.
    Check,
    /// To encode a signal that is made of a number, and to tell the digest of its stream.
    Demo(DemoWords),
}

/// What a command is named by, the first word.
#[derive(Clone, Copy, Debug, PartialEq, Eq)]
pub enum CommandWord {
    Encode,
    Check,
    Demo,
}

/// Why there is no command.
#[derive(Clone, Copy, Debug, PartialEq, Eq)]
pub enum NoCommand {
    /// The words are refused.
    Usage,
    /// There was no memory to read them.
    Memory,
}
