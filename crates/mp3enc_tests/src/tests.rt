ghost use Rattle.std.specs.Prelude.{◌≡◌, ◌<◌};

use crate::impulse::middle;
use crate::sine::{period, stream};
use l3_base::Steps;
use l3_encoder::OpenGate;
use l3_guess::{Flat, Guesser, Last, Mean};
use l3_io::{MemSink, MemSource, read_full};
use l3_program::{NoWords, Status, run, run_alone, start};
use std::alloc::{AllocError, Global};
use std::marker::Brand;
use std::process::ExitCode;
use std::sync::Wait;
use std::sync::ledger::{Blank, Ledger};
use std::test::Fail;
use std::thread::Threads;

// The head of a file of one channel at 44100 Hz, with no samples.
const HEAD: [u8; 44] =
    *b"RIFF\x24\0\0\0WAVEfmt \x10\0\0\0\x01\0\x01\0\x44\xAC\0\0\x88\x58\x01\0\x02\0\x10\0data\0\0\0\0";

// The same with one sample of 0.
const ZERO_SAMPLE: [u8; 46] =
    *b"RIFF\x26\0\0\0WAVEfmt \x10\0\0\0\x01\0\x01\0\x44\xAC\0\0\x88\x58\x01\0\x02\0\x10\0data\x02\0\0\0\0\0";

// As ffmpeg writes to a pipe: sizes that say nothing, and a comment before the data.
const FROM_A_PIPE: &[u8] =
    b"RIFF\xFF\xFF\xFF\xFFWAVEfmt \x10\0\0\0\x01\0\x02\0\x44\xAC\0\0\x10\xB1\x02\0\x04\0\x10\0LIST\x1A\0\0\0INFOISFT\x0E\0\0\0Lavf59.27.100\0data\xFF\xFF\xFF\xFF";

// The same with another number of channels, other low bytes of the sampling frequency and so many
// bytes of samples.
fn head(channels: u8, hertz: [u8; 2], size: u32) -> [u8; 44] {
    let mut head = HEAD;
    head[22] = channels;
    head[24..26].copy_from_slice(&hertz);
    head[32] = channels.saturating_mul(2);
    head[40..44].copy_from_slice(&size.to_le_bytes());
    head
}

// The words of an encoding on one thread.
static ONE_THREAD: [&str; 3] = ["encode", "--workers", "0"];

// A file of so many zeros.
fn zeros(alloc: Global, channels: u8, hertz: [u8; 2], values: u16) -> Result<Vec<u8>, AllocError> {
    let mut bytes = Vec::new(alloc);
    bytes.extend_from_slice(&head(channels, hertz, u32::from(values) * 2))?;
    for _ in 0..values {
        bytes.extend_from_slice(&[0, 0])?;
    }
    Ok(bytes)
}

// The stream of one zero sample: one channel, 44100 Hz, 128 kbit/s; main_data_begin of the second
// frame is 396.
fn zero_sample() -> [u8; 835] {
    let mut stream = [0; 835];
    stream[..4].copy_from_slice(&[0xFF, 0xFB, 0x90, 0xC0]);
    stream[417..423].copy_from_slice(&[0xFF, 0xFB, 0x92, 0xC0, 0xC6, 0x00]);
    stream
}

// The source, the sink and the notes of a run.
#[derive(Drop)]
struct Streams {
    source: MemSource,
    sink: MemSink,
    notes: MemSink,
}

impl Streams {
    // A source of these bytes that fails at these reads, and a sink of so much room.
    fn new(alloc: Global, bytes: &[u8], room: usize, fails: &[u64]) -> Result<Streams, AllocError> {
        let source = MemSource::new(alloc, bytes, 100, fails)?;
        let sink = MemSink::new(alloc, room, 300, &[])?;
        let notes = MemSink::new(alloc, 100, 7, &[])?;
        Ok(Streams {
            source,
            sink,
            notes,
        })
    }

    // Whether just these bytes were written, and just these told.
    fn took(&self, written: &[u8], told: &[u8]) -> bool {
        self.sink.bytes() == written && self.notes.bytes() == told
    }

    // How many bytes a source of at most 5000 has left, if they can be read.
    fn left(&mut self) -> Option<usize> {
        let mut rest = [0; 5000];
        read_full(&mut self.source, &mut rest).ok()
    }
}

// How a run on one thread ended, what it wrote and told, and how many bytes of the source were left,
// if they can be read.
#[derive(Drop)]
struct Run {
    status: Option<Status>,
    streams: Streams,
    left: Option<usize>,
}

impl Run {
    // Whether it ended so, wrote just these bytes and told notes just these.
    fn ended(&self, status: Status, written: &[u8], told: &[u8]) -> bool {
        self.status == Some(status) && self.streams.took(written, told)
    }

    // Whether it ended well, wrote so many bytes, the first of them these, and told nothing.
    fn began(&self, count: usize, front: &[u8]) -> bool {
        self.status == Some(Status::Ok)
            && self.streams.sink.bytes().len() == count
            && self.streams.sink.bytes().starts_with(front)
            && self.streams.notes.bytes().is_empty()
    }

    // Whether these bytes stand at this place of what it wrote.
    fn has_at(&self, at: usize, bytes: &[u8]) -> bool {
        self.streams
            .sink
            .bytes()
            .get(at..)
            .unwrap_or(&[])
            .starts_with(bytes)
    }
}

// A run on one thread, of a source that fails at these reads and a sink of so much room.
fn alone(
    rt: &HostRuntime,
    words: &[&str],
    bytes: &[u8],
    room: usize,
    fails: &[u64],
) -> Result<Run, AllocError> {
    let alloc = rt.alloc();
    let mut streams = Streams::new(alloc, bytes, room, fails)?;
    let status = run_alone(
        alloc,
        words,
        &mut streams.source,
        &mut streams.sink,
        &mut streams.notes,
    );
    let left = streams.left();
    Ok(Run {
        status,
        streams,
        left,
    })
}

// Whether such a run ends so, writes just these bytes and tells notes just these.
fn ends(
    rt: &HostRuntime,
    words: &[&str],
    bytes: &[u8],
    room: usize,
    fails: &[u64],
    status: Status,
    written: &[u8],
    told: &[u8],
) -> bool {
    match alone(rt, words, bytes, room, fails) {
        Ok(run) => run.ended(status, written, told),
        Err(_) => false,
    }
}

// Whether an encoding on one thread, of a source that does not fail, ends well, writes just these bytes
// and tells nothing.
fn encodes(rt: &HostRuntime, bytes: &[u8], written: &[u8]) -> bool {
    ends(rt, &ONE_THREAD, bytes, 10000, &[], Status::Ok, written, b"")
}

// Whether such a run, of a source that does not fail, ends so and leaves so many bytes, with nothing
// written.
fn refuses(
    rt: &HostRuntime,
    words: &[&str],
    bytes: &[u8],
    status: Status,
    told: &[u8],
    left: usize,
) -> bool {
    match alone(rt, words, bytes, 10000, &[]) {
        Ok(run) => run.ended(status, b"", told) && run.left == Some(left),
        Err(_) => false,
    }
}

// An encoding at this rate on one thread, of a source that does not fail.
fn encoded(rt: &HostRuntime, rate: &str, bytes: &[u8]) -> Result<Run, AllocError> {
    let words = ["encode", "--rate", rate, "--workers", "0"];
    alone(rt, &words, bytes, 1000000, &[])
}

// The encoding of a file of so many zeros.
fn encoded_zeros(
    rt: &HostRuntime,
    rate: &str,
    channels: u8,
    hertz: [u8; 2],
    values: u16,
) -> Result<Run, AllocError> {
    let bytes = zeros(rt.alloc(), channels, hertz, values)?;
    encoded(rt, rate, bytes.as_slice())
}

// Whether a check of these bytes ends so, writes just this line and tells notes just this one.
fn checks(rt: &HostRuntime, bytes: &[u8], status: Status, line: &[u8], told: &[u8]) -> bool {
    ends(rt, &["check"], bytes, 100, &[], status, line, told)
}

// How a run with these guessers ends, and what a sink took of it, with a counter of its own.
fn counted<L: Ledger + Send, R: Threads + Wait + Sync>(
    rt: &R,
    alloc: Global,
    words: &[&str],
    bytes: &[u8],
    guessers: Vec<Box<dyn Guesser>>,
    blank: Blank,
) -> Result<(Status, MemSink), AllocError>
    requires name { blank.name ≡ L.name }
    requires parts { blank.parts ≡ L.parts }
    requires some { 0 < blank.parts }
{
    let mut steps: Steps<L> = Steps::start(blank);
    let mut streams = Streams::new(alloc, bytes, 10000, &[])?;
    let status = run(
        rt,
        alloc,
        words,
        &mut streams.source,
        &mut streams.sink,
        &mut streams.notes,
        guessers,
        &OpenGate,
        &mut steps,
    );
    Ok((status, streams.sink))
}

// Whether a run with these guessers ends so and writes just these bytes.
fn gives<R: Threads + Wait + Sync>(
    rt: &R,
    alloc: Global,
    words: &[&str],
    bytes: &[u8],
    guessers: Vec<Box<dyn Guesser>>,
    status: Status,
    written: &[u8],
) -> bool {
    match counted::<Brand, R>(rt, alloc, words, bytes, guessers, Blank::new(1)) {
        Ok((answer, sink)) => answer == status && sink.bytes() == written,
        Err(_) => false,
    }
}

// The guessers of the program.
fn three(alloc: Global) -> Result<Vec<Box<dyn Guesser>>, AllocError> {
    let mut guessers: Vec<Box<dyn Guesser>> = Vec::new(alloc);
    guessers.push(Box::new(alloc, Last::new())?)?;
    guessers.push(Box::new(alloc, Mean::new())?)?;
    guessers.push(Box::new(alloc, Flat::new(0))?)?;
    Ok(guessers)
}

// Whether a run with these ends so and writes just these bytes.
fn gives_by_three<R: Threads + Wait + Sync>(
    rt: &R,
    alloc: Global,
    words: &[&str],
    bytes: &[u8],
    status: Status,
    written: &[u8],
) -> bool {
    match three(alloc) {
        Ok(guessers) => gives(rt, alloc, words, bytes, guessers, status, written),
        Err(_) => false,
    }
}

#[test]
fn one_zero_sample(rt: HostRuntime) {
    let (stream, line) = (zero_sample(), b"frames 2 tried 4 made 4 reused 0\n");
    assert!(rt; encodes(&rt, &ZERO_SAMPLE, &stream));
    let words = ["encode", "--workers", "0", "--guess", "4", "--stats"];
    assert!(rt;
        ends(
            &rt,
            &words,
            &ZERO_SAMPLE,
            10000,
            &[],
            Status::Ok,
            &stream,
            line
        )
    );
}

#[test]
fn zeros_over_two_frames(rt: HostRuntime) -> Result<(), Fail> {
    let run = encoded_zeros(&rt, "128", 1, [0x44, 0xAC], 1153)?;
    assert!(rt; run.began(417 + 418 + 418, &[]));
    assert!(rt; run.has_at(835, &[0xFF, 0xFB, 0x92, 0xC0, 0xFF, 0x80]));
    Ok(())
}

#[test]
fn no_samples(rt: HostRuntime) {
    assert!(rt; encodes(&rt, &HEAD, b""));
}

#[test]
fn reservoir_fills_at_32_kbit(rt: HostRuntime) -> Result<(), Fail> {
    let run = encoded_zeros(&rt, "32", 2, [0x80, 0xBB], 23040)?;
    assert!(rt; run.began(11 * 96, &[]));
    // The nine bits of main_data_begin, with which a frame's side information begins.
    let begins = [0u16, 60, 120, 180, 240, 300, 360, 420, 480, 511, 511];
    for frame in 0..11 {
        let bits = begins[frame] * 128;
        assert!(rt; run.has_at(96 * frame + 4, &bits.to_be_bytes()));
    }
    Ok(())
}

#[test]
fn no_reservoir_at_320_kbit(rt: HostRuntime) -> Result<(), Fail> {
    let run = encoded(&rt, "0320", &ZERO_SAMPLE)?;
    assert!(rt; run.began(1044 + 1045, &[0xFF, 0xFB, 0xE0, 0xC0, 0x00, 0x00]));
    assert!(rt; run.has_at(1044, &[0xFF, 0xFB, 0xE2, 0xC0, 0x00, 0x00]));
    Ok(())
}

// The file of a sine wave of 3000 samples.
fn sine_file(alloc: Global) -> Result<Vec<u8>, AllocError> {
    let mut bytes = Vec::new(alloc);
    bytes.extend_from_slice(&head(1, [0x00, 0x7D], 6000))?;
    for n in 0..3000 {
        let sample = period().get(n % 400).copied().unwrap_or(0);
        bytes.extend_from_slice(&sample.to_le_bytes())?;
    }
    Ok(bytes)
}

#[test]
fn sine_at_32_kbit(rt: HostRuntime) -> Result<(), Fail> {
    let bytes = sine_file(rt.alloc())?;
    let words = ["encode", "--rate", "32", "--workers", "0"];
    assert!(rt;
        ends(
            &rt,
            &words,
            bytes.as_slice(),
            10000,
            &[],
            Status::Ok,
            stream(),
            b""
        )
    );
    assert!(rt; checks(&rt, stream(), Status::Ok, b"frames 4 bits 3616\n", b""));
    Ok(())
}

// The stream of an impulse at 128 kbit/s.
fn impulse_stream() -> [u8; 1253] {
    let mut stream = [0; 1253];
    stream[..4].copy_from_slice(&[0xFF, 0xFB, 0x90, 0xC0]);
    stream[835..840].copy_from_slice(&[0xFF, 0xFB, 0x92, 0xC0, 0x70]);
    for (place, byte) in stream[13..611].iter_mut().zip(middle()) {
        *place = *byte;
    }
    stream
}

#[test]
fn impulse_at_128_kbit(rt: HostRuntime) -> Result<(), Fail> {
    // 2304 samples, all 0 but sample 700, which is 32767.
    let mut bytes = zeros(rt.alloc(), 1, [0x44, 0xAC], 2304)?;
    if let Some(sample) = bytes.as_mut_slice().get_mut(1444..1446) {
        sample.copy_from_slice(&[0xFF, 0x7F]);
    }
    let stream = impulse_stream();
    assert!(rt; encodes(&rt, bytes.as_slice(), &stream));
    assert!(rt; checks(&rt, &stream, Status::Ok, b"frames 3 bits 4539\n", b""));
    Ok(())
}

#[test]
fn ten_seconds_from_a_pipe(rt: HostRuntime) -> Result<(), Fail> {
    // A head as ffmpeg writes it to a pipe, and 441000 samples of 0 in stereo.
    let mut bytes = Vec::new(rt.alloc());
    bytes.extend_from_slice(FROM_A_PIPE)?;
    for _ in 0..3528 {
        bytes.extend_from_slice(&[0; 500])?;
    }
    let run = encoded(&rt, "128", bytes.as_slice())?;
    assert!(rt; run.began(160496, &[0xFF, 0xFB, 0x90, 0x00]));
    assert!(rt;
        checks(
            &rt,
            run.streams.sink.bytes(),
            Status::Ok,
            b"frames 384 bits 0\n",
            b""
        )
    );
    Ok(())
}

#[test]
fn refused_heads(rt: HostRuntime) {
    // With this byte of the head changed to this one, the status, what notes are told and how many
    // bytes are left.
    let (bad, other) = (Status::BadWav, Status::Unsupported);
    for (at, byte, status, told, left) in [
        (3, b'X', bad, b"mp3enc: wav: NotRiff\n".as_slice(), 32),
        (12, b'x', bad, b"mp3enc: wav: NoFmtBeforeData\n", 0),
        (18, 0x10, bad, b"mp3enc: wav: HeaderTooLong\n", 24),
        (20, 2, other, b"mp3enc: wav: UnsupportedFormat\n", 8),
        (22, 3, other, b"mp3enc: wav: UnsupportedChannels\n", 8),
        (24, 0x45, other, b"mp3enc: wav: UnsupportedRate\n", 8),
        (34, 8, other, b"mp3enc: wav: UnsupportedDepth\n", 8),
        (32, 4, bad, b"mp3enc: wav: BadBlockAlign\n", 8),
    ] {
        let mut head = HEAD;
        head[at] = byte;
        assert!(rt; refuses(&rt, &ONE_THREAD, &head, status, told, left));
    }
}

#[test]
fn read_fails_in_the_data(rt: HostRuntime) -> Result<(), Fail> {
    let bytes = zeros(rt.alloc(), 2, [0x44, 0xAC], 2304)?;
    let run = alone(&rt, &ONE_THREAD, bytes.as_slice(), 10000, &[2])?;
    assert!(rt; run.ended(Status::ReadFault, b"", b"mp3enc: read fault\n"));
    // The third read is that of the 16 bytes of the format.
    assert!(rt; run.left == Some(4652 - 20));
    Ok(())
}

#[test]
fn sink_fills_up(rt: HostRuntime) {
    let stream = zero_sample();
    let (front, told) = (stream.get(..100).unwrap_or(&[]), b"mp3enc: write fault\n");
    assert!(rt;
        ends(
            &rt,
            &ONE_THREAD,
            &ZERO_SAMPLE,
            100,
            &[],
            Status::WriteFault,
            front,
            told
        )
    );
}

#[test]
fn check_of_fronts(rt: HostRuntime) {
    // Of so many bytes of the stream of one zero sample, the status, what is written and what notes
    // are told.
    let stream = zero_sample();
    for (length, status, line, told) in [
        (
            0,
            Status::Ok,
            b"frames 0 bits 0\n".as_slice(),
            b"".as_slice(),
        ),
        (
            1,
            Status::BadStream,
            b"",
            b"mp3enc: stream: ShortFrame at 0\n",
        ),
        (417, Status::Ok, b"frames 1 bits 0\n", b""),
        (
            834,
            Status::BadStream,
            b"",
            b"mp3enc: stream: ShortFrame at 417\n",
        ),
        (835, Status::Ok, b"frames 2 bits 0\n", b""),
    ] {
        let front = stream.get(..length).unwrap_or(&[]);
        assert!(rt; checks(&rt, front, status, line, told));
    }
}

#[test]
fn deviations_of_one_zero_sample(rt: HostRuntime) {
    // With this byte of the stream of one zero sample changed to this one, what notes are told and
    // how many bytes are left.
    for (at, byte, told, left) in [
        (
            834,
            0x01,
            b"mp3enc: stream: NotZero at 6343\n".as_slice(),
            0,
        ),
        (0, 0x00, b"mp3enc: stream: BadHeader at 0\n", 831),
        (422, 0x80, b"mp3enc: stream: BadBegin at 417\n", 0),
        (422, 0x40, b"mp3enc: stream: BadSide at 417\n", 0),
        (7, 0x04, b"mp3enc: stream: BadCode at 0\n", 418),
        (417, 0x00, b"mp3enc: stream: BadHeader at 417\n", 414),
    ] {
        let mut stream = zero_sample();
        stream[at] = byte;
        assert!(rt; refuses(&rt, &["check"], &stream, Status::BadStream, told, left));
    }
}

#[test]
fn check_with_faults(rt: HostRuntime) {
    let (stream, told) = (zero_sample(), b"mp3enc: read fault\n");
    assert!(rt;
        ends(
            &rt,
            &["check"],
            &stream,
            100,
            &[7],
            Status::ReadFault,
            b"",
            told
        )
    );
    let told = b"mp3enc: write fault\n";
    assert!(rt;
        ends(
            &rt,
            &["check"],
            &stream,
            8,
            &[],
            Status::WriteFault,
            b"frames 2",
            told
        )
    );
}

#[test]
fn demo_of_one_frame(rt: HostRuntime) -> Result<(), Fail> {
    let line =
        b"frames 2 bytes 835 sha256 239a087f9534db4f34903a8e9f223ee9f85300d56a5cd08516f4694c0959df17\n";
    let words = ["demo", "1", "0", "--workers", "0"];
    let run = alone(&rt, &words, &HEAD, 100, &[0])?;
    // The source's first read, which fails, is still to come.
    assert!(rt; run.ended(Status::Ok, line, b"") && run.left.is_none());
    let told = b"mp3enc: write fault\n";
    assert!(rt;
        ends(
            &rt,
            &words,
            &HEAD,
            8,
            &[],
            Status::WriteFault,
            b"frames 2",
            told
        )
    );
    Ok(())
}

// The line that tells how the program is used.
fn usage() -> &'static [u8] {
    b"mp3enc: usage: mp3enc encode, check or demo FRAMES SEED\n"
}

#[test]
fn words_refused(rt: HostRuntime) {
    assert!(rt; refuses(&rt, &[], &HEAD, Status::Usage, usage(), 44));
    assert!(rt;
        refuses(
            &rt,
            &["encode", "--rate", "100"],
            &HEAD,
            Status::Usage,
            usage(),
            44
        )
    );
    assert!(rt; refuses(&rt, &["demo", "0", "1"], &HEAD, Status::Usage, usage(), 44));
}

// Whether a start with these arguments, on these bytes and with no guesser, ends with this status,
// writes just this, tells notes just that and leaves so many bytes.
fn starts<R: Threads + Wait + Sync>(
    rt: &R,
    alloc: Global,
    arguments: Result<Vec<String>, NoWords>,
    bytes: &[u8],
    status: u8,
    written: &[u8],
    told: &[u8],
    rest: usize,
) -> Result<bool, AllocError> {
    let mut streams = Streams::new(alloc, bytes, 100, &[])?;
    let answer = start(
        rt,
        alloc,
        arguments,
        &mut streams.source,
        &mut streams.sink,
        &mut streams.notes,
        Vec::new(alloc),
        &OpenGate,
    );
    Ok(
        answer == ExitCode::from(status)
            && streams.took(written, told)
            && streams.left() == Some(rest),
    )
}

#[test]
fn arguments_that_are_no_words(rt: HostRuntime) -> Result<(), Fail> {
    let alloc = rt.alloc();
    let memory = b"mp3enc: out of memory\n";
    assert!(rt;
        starts(
            &rt,
            alloc,
            Err(NoWords::NotText),
            &HEAD,
            2,
            b"",
            usage(),
            44
        )?
    );
    assert!(rt; starts(&rt, alloc, Err(NoWords::Memory), &HEAD, 1, b"", memory, 44)?);
    Ok(())
}

#[test]
fn words_after_the_name(rt: HostRuntime) -> Result<(), Fail> {
    let alloc = rt.alloc();
    let mut arguments = Vec::new(alloc);
    arguments.push(String::from_str(alloc, "encode")?)?;
    arguments.push(String::from_str(alloc, "check")?)?;
    assert!(rt;
        starts(
            &rt,
            alloc,
            Ok(arguments),
            &zero_sample(),
            0,
            b"frames 2 bits 0\n",
            b"",
            0
        )?
    );
    Ok(())
}

#[test]
fn workers_change_no_byte(rt: HostRuntime) -> Result<(), Fail> {
    let (alloc, words) = (rt.alloc(), ["encode", "--workers", "2"]);
    assert!(rt; gives_by_three(&rt, alloc, &words, &ZERO_SAMPLE, Status::Ok, &zero_sample()));
    let (sine, words) = (
        sine_file(alloc)?,
        ["encode", "--rate", "32", "--workers", "2"],
    );
    assert!(rt; gives_by_three(&rt, alloc, &words, sine.as_slice(), Status::Ok, stream()));
    Ok(())
}

// The line of the demo of 100 frames with the number 7, from a program that shares nothing with
// this one.
fn demo_line() -> &'static [u8] {
    b"frames 101 bytes 42213 sha256 8bf9ad55658e05e7fd4910572a556ce335c01b37fe07d50666364a7b1491db47\n"
}

#[test]
fn guesses_change_no_byte(rt: HostRuntime) {
    for guess in ["0", "1", "2", "3"] {
        let words = [
            "demo",
            "100",
            "7",
            "--workers",
            "2",
            "--ahead",
            "2",
            "--guess",
            guess,
        ];
        assert!(rt; gives_by_three(&rt, rt.alloc(), &words, &[], Status::Ok, demo_line()));
    }
}

#[test]
fn a_wrong_guess_changes_no_byte(rt: HostRuntime) -> Result<(), Fail> {
    let alloc = rt.alloc();
    let mut guessers: Vec<Box<dyn Guesser>> = Vec::new(alloc);
    guessers.push(Box::new(alloc, Flat::new(u32::MAX))?)?;
    let words = ["demo", "100", "7", "--workers", "1", "--ahead", "2"];
    assert!(rt; gives(&rt, alloc, &words, &[], guessers, Status::Ok, demo_line()));
    Ok(())
}

#[test]
fn guesses_of_no_guesser(rt: HostRuntime) {
    let alloc = rt.alloc();
    let fourth = ["encode", "--guess", "4"];
    assert!(rt; gives_by_three(&rt, alloc, &fourth, &HEAD, Status::Usage, b""));
    let words = ["encode", "--workers", "0", "--guess", "4"];
    assert!(rt; gives_by_three(&rt, alloc, &words, &HEAD, Status::Ok, b""));
    let all = ["encode", "--guess", "0"];
    assert!(rt; gives(&rt, alloc, &all, &HEAD, Vec::new(alloc), Status::Usage, b""));
}

#[test]
fn words_for_workers_are_left_by_one_thread(rt: HostRuntime) -> Result<(), Fail> {
    let run = alone(&rt, &["encode", "--guess", "4"], &HEAD, 100, &[])?;
    assert!(rt;
        run.status.is_none()
            && run.streams.sink.bytes().is_empty()
            && run.streams.notes.bytes().is_empty()
    );
    assert!(rt; run.left == Some(44));
    Ok(())
}
