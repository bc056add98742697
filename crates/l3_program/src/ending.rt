ghost use Rattle.std.specs.Prelude.{◌≡◌, ◌≤◌, length};
ghost use Rattle.l3_encoder.specs.Changes.{sink_change};
ghost use Rattle.l3_program.specs.Program.{AreTold};
ghost use Rattle.l3_program.specs.Status.{refusal_of, refusal_text, name_of, fault_place, deviation_text, reused_of, statistics_line, status_of};

use crate::status::Status;
use arrayvec::ArrayString;
use itoa::Buffer;
use l3_encoder::Report;
use l3_frames::StreamFault;
use l3_io::{Sink, write_all};
use l3_wav::WavFault;

/// How a run of the program ended, with the fault for which the input was refused.
#[derive(Clone, Copy, Debug, PartialEq, Eq)]
pub enum Ending {
    /// The command is done.
    Done,
    /// A file is encoded, and statistics are told.
    Counted(Report),
    /// The words are no command.
    Usage,
    /// The head of the WAV file is refused.
    Refused(WavFault),
    /// The stream is none of this encoder's, by its first deviation; neither a failed read nor want
    /// of memory.
    Deviates(StreamFault),
    /// A read failed.
    ReadFault,
    /// A write failed, or took nothing.
    WriteFault,
    /// Memory ran out, and nothing was written.
    Memory,
}

impl Ending {
    ghost use Rattle.std.specs.Prelude.{◌≡◌};
    ghost use Rattle.l3_program.specs.Status.{status_of, text_of};

    /// The status: a head is refused where it is no WAV file's, or of a form that is never encoded.
    pub fn status(self) -> Status
        ensures { result ≡ status_of self }
    {
        match self {
            Ending::Done | Ending::Counted(_) => Status::Ok,
            Ending::Usage => Status::Usage,
            Ending::Refused(fault) => refusal(fault),
            Ending::Deviates(_) => Status::BadStream,
            Ending::ReadFault => Status::ReadFault,
            Ending::WriteFault => Status::WriteFault,
            Ending::Memory => Status::Memory,
        }
    }

    /// The line that notes are told, empty at success where no statistics are.
    pub fn text(self) -> ArrayString<128>
        ensures { result.bytes ≡ text_of self }
    {
        match self {
            Ending::Done => ArrayString::new(),
            Ending::Counted(report) => statistics(report),
            Ending::Usage => text("mp3enc: usage: mp3enc encode, check or demo FRAMES SEED\n"),
            Ending::Refused(fault) => text(refusal_line(fault)),
            Ending::Deviates(fault) => deviation_line(fault),
            Ending::ReadFault => text("mp3enc: read fault\n"),
            Ending::WriteFault => text("mp3enc: write fault\n"),
            Ending::Memory => text("mp3enc: out of memory\n"),
        }
    }
}

/// Tells notes the text of an ending, and gives its status. What notes do not take is lost.
pub fn tell<N: Sink>(notes: &mut N, ending: Ending) -> Status
    ensures status { result ≡ status_of ending }
    ensures told { AreTold ending (sink_change N.taken N.faults notes.old notes.new) }
{
    // A fault of notes changes nothing: the clause says what they took.
    let _ = write_all(notes, ending.text().as_bytes());
    ending.status()
}

// A text of at most 128 bytes.
fn text(bytes: &str) -> ArrayString<128>
    requires { length bytes.now ≤ 128 }
    ensures { result.bytes ≡ bytes.now }
{
    let mut text = ArrayString::new();
    text.push_str(bytes);
    text
}

// The status of a head that is refused.
fn refusal(fault: WavFault) -> Status
    ensures { result ≡ refusal_of fault }
{
    match fault {
        WavFault::NotRiff
        | WavFault::HeaderEnds
        | WavFault::NoFmtBeforeData
        | WavFault::HeaderTooLong
        | WavFault::BadBlockAlign => Status::BadWav,
        WavFault::UnsupportedFormat
        | WavFault::UnsupportedChannels
        | WavFault::UnsupportedRate
        | WavFault::UnsupportedDepth => Status::Unsupported,
        WavFault::Read => Status::ReadFault,
    }
}

// The line of a head that is refused.
fn refusal_line(fault: WavFault) -> &'static str
    ensures value { result.now ≡ refusal_text fault }
    ensures limit { length result.now ≤ 64 }
{
    match fault {
        WavFault::NotRiff => "mp3enc: wav: NotRiff\n",
        WavFault::HeaderEnds => "mp3enc: wav: HeaderEnds\n",
        WavFault::NoFmtBeforeData => "mp3enc: wav: NoFmtBeforeData\n",
        WavFault::HeaderTooLong => "mp3enc: wav: HeaderTooLong\n",
        WavFault::UnsupportedFormat => "mp3enc: wav: UnsupportedFormat\n",
        WavFault::UnsupportedChannels => "mp3enc: wav: UnsupportedChannels\n",
        WavFault::UnsupportedRate => "mp3enc: wav: UnsupportedRate\n",
        WavFault::UnsupportedDepth => "mp3enc: wav: UnsupportedDepth\n",
        WavFault::BadBlockAlign => "mp3enc: wav: BadBlockAlign\n",
        WavFault::Read => "mp3enc: read fault\n",
    }
}

// The name of a stream's fault.
fn name(fault: StreamFault) -> &'static str
    ensures value { result.now ≡ name_of fault }
    ensures limit { length result.now ≤ 11 }
{
    match fault {
        StreamFault::BadHeader(_) => "BadHeader",
        StreamFault::ShortFrame(_) => "ShortFrame",
        StreamFault::BadSide(_) => "BadSide",
        StreamFault::BadBegin(_) => "BadBegin",
        StreamFault::BadCode(_) => "BadCode",
        StreamFault::WrongLength(_) => "WrongLength",
        StreamFault::NotZero(_) => "NotZero",
        StreamFault::Read => "Read",
        StreamFault::Memory => "Memory",
        StreamFault::TooLong(_) => "TooLong",
    }
}

// The byte of the file or the bit of the tape at which it is.
fn place(fault: StreamFault) -> u64
    ensures { result ≡ fault_place fault }
{
    match fault {
        StreamFault::BadHeader(at)
        | StreamFault::ShortFrame(at)
        | StreamFault::BadSide(at)
        | StreamFault::BadBegin(at)
        | StreamFault::BadCode(at)
        | StreamFault::WrongLength(at)
        | StreamFault::NotZero(at)
        | StreamFault::TooLong(at) => at,
        StreamFault::Read | StreamFault::Memory => 0,
    }
}

// The line of statistics.
fn statistics(report: Report) -> ArrayString<128>
    ensures { result.bytes ≡ statistics_line report.frames report.tried report.made (reused_of report) }
{
    let mut digits = Buffer::new();
    let mut line = ArrayString::new();
    line.push_str("frames ");
    line.push_str(digits.format(report.frames));
    line.push_str(" tried ");
    line.push_str(digits.format(report.tried));
    line.push_str(" made ");
    line.push_str(digits.format(report.made));
    line.push_str(" reused ");
    line.push_str(digits.format(report.tried.saturating_sub(report.made)));
    line.push_str("\n");
    line
}

// The line of a stream that deviates.
fn deviation_line(fault: StreamFault) -> ArrayString<128>
    ensures { result.bytes ≡ deviation_text fault }
{
    let mut digits = Buffer::new();
    let mut line = ArrayString::new();
    line.push_str("mp3enc: stream: ");
    line.push_str(name(fault));
    line.push_str(" at ");
    line.push_str(digits.format(place(fault)));
    line.push_str("\n");
    line
}
