ghost use Rattle.std.specs.Prelude.{◌≡◌, ◌+◌, ◌^◌, ◌<◌, false};
ghost use Rattle.l3_base.specs.declared.rate.Channels.TheVariants.{Mono};
ghost use Rattle.l3_board.specs.Desk.{fresh_desk};
ghost use Rattle.l3_commit.specs.Tracks.{first_track};
ghost use Rattle.l3_board.specs.Offers.{no_offers};

use crate::boards::lock_board;
use l3_analysis::{OpenGate, PieceBox};
use l3_base::{Channels, Rate, SampleRate, Settings, Steps};
use l3_board::{LockBoard, LockDesk, LockSeat, fresh_desks};
use l3_commit::{Committer, Report};
use l3_encoder::{TurnFault, encode_on_board, encode_turns};
use l3_guess::Flat;
use l3_io::{MemSink, MemSource, read_full};
use l3_wav::{Samples, WavHead};
use std::alloc::Global;
use std::marker::Brand;
use std::sync::Wait;
use std::sync::ledger::{Blank, Ledger};

// 128 kbit/s, 44100 Hz, one channel.
const SETTINGS: Settings = Settings {
    rate: Rate::K128,
    sample_rate: SampleRate::Hz44100,
    channels: Channels::Mono,
};

// The samples of data of one channel of so many bytes.
fn samples(data_bytes: u32) -> Samples
    ensures { (result.channels ≡ Mono) × (result.failed ≡ false) × (result.remaining < 2 ^ 32) }
{
    Samples::new(&WavHead {
        channels: Channels::Mono,
        rate: SampleRate::Hz44100,
        data_bytes,
    })
}

// What the encoder answers for a source's data of so many bytes, alone.
fn encoded<L: Ledger + Send>(
    alloc: Global,
    data_bytes: u32,
    source: &mut MemSource,
    sink: &mut MemSink,
    steps: &mut Steps<L>,
) -> Option<Result<Report, TurnFault>> {
    let Ok(mut committer) = Committer::open(alloc, SETTINGS, 0, samples(data_bytes)) else {
        return None;
    };
    Some(encode_turns(SETTINGS, &mut committer, source, sink, steps))
}

// The same over a board that begins, of two cells, of which nobody claims anything.
fn encoded_over<R: Wait, L: Ledger + Send>(
    settings: Settings,
    committer: &mut Committer,
    made: (LockBoard<'_, PieceBox, R>, LockDesk, Vec<LockSeat>),
    source: &mut MemSource,
    sink: &mut MemSink,
    steps: &mut Steps<L>,
) -> Result<Report, TurnFault>
    requires cells { made.0 ≡ 2 }
    requires desk { made.1 ≡ fresh_desk 2 }
    requires start { (committer.old.track ≡ first_track settings) × (committer.old.windows.base ≡ 0) }
    requires ahead { 0 < committer.old.windows.ahead }
    requires offers { committer.old.offers ≡ no_offers 2 }
    requires sound { committer.old.windows.samples.failed ≡ false }
{
    let (board, mut desk, _) = made;
    fresh_desks();
    encode_on_board(
        settings,
        committer,
        &mut Flat::new(0),
        &board,
        &mut desk,
        &OpenGate,
        source,
        sink,
        steps,
    )
}

// The same where the board is made.
fn encoded_on_board<R: Wait, L: Ledger + Send>(
    rt: &R,
    alloc: Global,
    data_bytes: u32,
    source: &mut MemSource,
    sink: &mut MemSink,
    steps: &mut Steps<L>,
) -> Option<Result<Report, TurnFault>> {
    let Ok(mut committer) = Committer::open(alloc, SETTINGS, 2, samples(data_bytes)) else {
        return None;
    };
    match lock_board(rt, alloc, SETTINGS, 1, 2) {
        Some(made) => Some(encoded_over(SETTINGS, &mut committer, made, source, sink, steps)),
        None => None,
    }
}

// One of these two, by a counter of its own.
fn counted<R: Wait, L: Ledger + Send>(
    blank: Blank,
    rt: &R,
    alloc: Global,
    is_on_board: bool,
    data_bytes: u32,
    source: &mut MemSource,
    sink: &mut MemSink,
) -> Option<Result<Report, TurnFault>>
    requires name { blank.name ≡ L.name }
    requires parts { blank.parts ≡ L.parts }
    requires some { 0 < blank.parts }
{
    let mut steps: Steps<L> = Steps::start(blank);
    if is_on_board {
        encoded_on_board(rt, alloc, data_bytes, source, sink, &mut steps)
    } else {
        encoded(alloc, data_bytes, source, sink, &mut steps)
    }
}

// What is answered for data of so many bytes, where this read fails, and how many bytes are left of
// the source, 100 at most.
fn turned<R: Wait>(
    rt: &R,
    alloc: Global,
    is_on_board: bool,
    bytes: &[u8],
    data_bytes: u32,
    fails: u64,
    sink: &mut MemSink,
) -> Option<(Result<Report, TurnFault>, usize)> {
    let Ok(mut source) = MemSource::new(alloc, bytes, 2000, &[fails]) else {
        return None;
    };
    let blank = Blank::new(1);
    let Some(answer) = counted::<R, Brand>(
        blank,
        rt,
        alloc,
        is_on_board,
        data_bytes,
        &mut source,
        sink,
    ) else {
        return None;
    };
    let Ok(left) = read_full(&mut source, &mut [0; 100]) else {
        return None;
    };
    Some((answer, left))
}

// The stream of one sample of zero.
fn one_zero_stream() -> [u8; 835] {
    let mut stream = [0; 835];
    stream[..4].copy_from_slice(&[0xFF, 0xFB, 0x90, 0xC0]);
    stream[417..422].copy_from_slice(&[0xFF, 0xFB, 0x92, 0xC0, 0xC6]);
    stream
}

// Encodes one sample of zero with four bytes behind it, where this read fails, to a sink of so much
// room: what is answered, how many bytes are left, and how many of the stream's were written, if no
// others were.
fn one_zero_turned<R: Wait>(
    rt: &R,
    alloc: Global,
    is_on_board: bool,
    fails: u64,
    room: usize,
) -> Option<(Result<Report, TurnFault>, usize, usize)> {
    let Ok(mut sink) = MemSink::new(alloc, room, 300, &[]) else {
        return None;
    };
    let Some((answer, left)) = turned(rt, alloc, is_on_board, b"\0\0rest", 2, fails, &mut sink)
    else {
        return None;
    };
    if one_zero_stream().starts_with(sink.bytes()) {
        Some((answer, left, sink.bytes().len()))
    } else {
        None
    }
}

// Where nothing fails, what follows the data is left. Whether there is a board of which nobody
// claims anything changes nothing.
#[test]
fn one_zero_sample_and_faults(rt: HostRuntime) {
    let whole = Ok(Report {
        frames: 2,
        tried: 4,
        made: 4,
    });

    // The read that fails, room in the sink, the answer, how many bytes are left and how many were
    // written.
    for (fails, room, answer, left, written) in [
        (1000, 10000, whole, 4, 835),
        (0, 10000, Err(TurnFault::Read), 6, 0),
        (1000, 100, Err(TurnFault::Write), 4, 100),
    ] {
        for is_on_board in [false, true] {
            let found = one_zero_turned(&rt, rt.alloc(), is_on_board, fails, room);
            assert!(rt; found == Some((answer, left, written)));
        }
    }
}

// Encodes so many bytes of zeros where this read fails: what is answered, and how many bytes were
// written, if their first are those of the stream.
fn zeros_cut_short<R: Wait>(
    rt: &R,
    alloc: Global,
    is_on_board: bool,
    size: u32,
    fails: u64,
) -> Option<(Result<Report, TurnFault>, usize)> {
    let zeros = [0; 16000];
    let Some(bytes) = zeros.get(..size as usize) else {
        return None;
    };
    let Ok(mut sink) = MemSink::new(alloc, 10000, 300, &[]) else {
        return None;
    };
    let Some((answer, _)) = turned(rt, alloc, is_on_board, bytes, size, fails, &mut sink) else {
        return None;
    };
    if sink.bytes().starts_with(&[0xFF, 0xFB, 0x90, 0xC0, 0]) {
        Some((answer, sink.bytes().len()))
    } else {
        None
    }
}

// Three frames were pushed, and of them the first is given: no later one's main data can reach into
// its slot. On a board the read that fails is one ahead of the granules that are committed.
#[test]
fn failed_read_leaves_a_front(rt: HostRuntime) {
    for (is_on_board, size, fails) in [(false, 8000, 6), (true, 16000, 8)] {
        let found = zeros_cut_short(&rt, rt.alloc(), is_on_board, size, fails);
        assert!(rt; found == Some((Err(TurnFault::Read), 417)));
    }
}
