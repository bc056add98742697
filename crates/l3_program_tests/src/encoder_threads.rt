ghost use Rattle.std.specs.Prelude.{◌≡◌, ◌<◌, ◌≤◌, false};
ghost use Rattle.l3_commit.specs.Tracks.{first_track};
ghost use Rattle.l3_board.specs.Offers.{no_offers};

use crate::boards::lock_board;
use crate::encoder::{MONO, whole};
use l3_base::{GranuleNo, Rate, Settings, Steps};
use l3_commit::Committer;
use l3_encoder::{EncodeFault, Gate, Lanes, OpenGate, Report, TurnFault, encode_over, encode_with};
use l3_guess::Last;
use l3_io::{MemSink, MemSource};
use l3_wav::{Samples, open};
use std::alloc::Global;
use std::marker::Brand;
use std::sync::Wait;
use std::sync::atomic::{AtomicU64, Ordering};
use std::sync::ledger::{Blank, Ledger};
use std::thread::{Threads, yield_now};

// Two workers, four granules ahead.
const TWO: Lanes = Lanes {
    workers: 2,
    ahead: 4,
};

// Encodes a committer's samples over a board under a lock that begins.
fn over_lock<T: Gate + Sync, L: Ledger + Send, R: Threads + Wait + Sync>(
    rt: &R,
    alloc: Global,
    settings: Settings,
    committer: &mut Committer,
    workers: u8,
    cells: u8,
    gate: &T,
    source: &mut MemSource,
    sink: &mut MemSink,
    steps: &mut Steps<L>,
) -> Option<Result<Report, TurnFault>>
    requires workers { (0 < workers) × (workers ≤ 16) }
    requires cells { (0 < cells) × (cells ≤ 64) }
    requires start { (committer.old.track ≡ first_track settings) × (committer.old.windows.base ≡ 0) }
    requires ahead { 0 < committer.old.windows.ahead }
    requires offers { committer.old.offers ≡ no_offers cells }
    requires sound { committer.old.windows.samples.failed ≡ false }
{
    let Some((board, mut desk, seats)) = lock_board(rt, alloc, settings, workers, cells) else {
        return None;
    };
    Some(encode_over(
        rt,
        settings,
        committer,
        &mut Last::new(),
        &board,
        &mut desk,
        seats,
        gate,
        source,
        sink,
        steps,
    ))
}

// The same as `encode_with`, over a board under a lock.
fn encode_locked<T: Gate + Sync, L: Ledger + Send, R: Threads + Wait + Sync>(
    rt: &R,
    alloc: Global,
    lanes: Lanes,
    gate: &T,
    source: &mut MemSource,
    sink: &mut MemSink,
    steps: &mut Steps<L>,
) -> Option<Result<Report, TurnFault>>
    requires workers { (1 ≤ lanes.workers) × (lanes.workers ≤ 16) }
    requires ahead { (1 ≤ lanes.ahead) × (lanes.ahead ≤ 64) }
{
    let Ok(head) = open(source) else {
        return None;
    };
    let settings = Settings {
        rate: Rate::K128,
        sample_rate: head.rate,
        channels: head.channels,
    };
    let Ok(mut committer) = Committer::open(alloc, settings, lanes.ahead, Samples::new(&head))
    else {
        return None;
    };
    over_lock(
        rt,
        alloc,
        settings,
        &mut committer,
        lanes.workers,
        lanes.ahead,
        gate,
        source,
        sink,
        steps,
    )
}

// The answer of a file's encoding, by that of its samples'.
fn answer_of(turned: Result<Report, TurnFault>) -> Result<Report, EncodeFault> {
    match turned {
        Ok(report) => Ok(report),
        Err(TurnFault::Read) => Err(EncodeFault::Read),
        Err(TurnFault::Write) => Err(EncodeFault::Write),
    }
}

// What the encoder on several threads answers, over a board under a lock or one without, by a
// counter of its own.
fn counted_beside<T: Gate + Sync, L: Ledger + Send, R: Threads + Wait + Sync>(
    blank: Blank,
    rt: &R,
    alloc: Global,
    is_locked: bool,
    lanes: Lanes,
    gate: &T,
    source: &mut MemSource,
    sink: &mut MemSink,
) -> Option<Result<Report, EncodeFault>>
    requires name { blank.name ≡ L.name }
    requires parts { blank.parts ≡ L.parts }
    requires some { 0 < blank.parts }
    requires workers { (1 ≤ lanes.workers) × (lanes.workers ≤ 16) }
    requires ahead { (1 ≤ lanes.ahead) × (lanes.ahead ≤ 64) }
{
    let mut steps: Steps<L> = Steps::start(blank);
    if is_locked {
        let Some(turned) = encode_locked(rt, alloc, lanes, gate, source, sink, &mut steps) else {
            return None;
        };
        return Some(answer_of(turned));
    }
    Some(encode_with(
        rt,
        alloc,
        Rate::K128,
        lanes,
        &mut Last::new(),
        gate,
        source,
        sink,
        &mut steps,
    ))
}

// The same for a file, with a sink of so much room: the answer, and how many bytes of this stream
// were written, if no others were. This read fails.
fn encoded_beside<T: Gate + Sync, R: Threads + Wait + Sync>(
    rt: &R,
    alloc: Global,
    is_locked: bool,
    lanes: Lanes,
    gate: &T,
    bytes: &[u8],
    fails: u64,
    room: usize,
    stream: &[u8],
) -> Option<(Result<Report, EncodeFault>, usize)>
    requires workers { (1 ≤ lanes.workers) × (lanes.workers ≤ 16) }
    requires ahead { (1 ≤ lanes.ahead) × (lanes.ahead ≤ 64) }
{
    let Ok(mut sink) = MemSink::new(alloc, room, 300, &[]) else {
        return None;
    };
    let Ok(mut source) = MemSource::new(alloc, bytes, 2000, &[fails]) else {
        return None;
    };
    let Some(answer) = counted_beside::<T, Brand, R>(
        Blank::new(1),
        rt,
        alloc,
        is_locked,
        lanes,
        gate,
        &mut source,
        &mut sink,
    ) else {
        return None;
    };
    if stream.starts_with(sink.bytes()) {
        Some((answer, sink.bytes().len()))
    } else {
        None
    }
}

// A file with data of so many samples, 3000 at most: a tooth of 64 samples, again and again.
fn teeth(samples: u16) -> [u8; 6044] {
    let mut file = [0; 6044];
    file[..40].copy_from_slice(&MONO);
    file[40..44].copy_from_slice(&(2 * u32::from(samples)).to_le_bytes());
    for n in 0..3000_u16 {
        let at = 44 + 2 * usize::from(n);
        file[at..at + 2].copy_from_slice(&(n % 64 * 300).to_le_bytes());
    }
    file
}

// Counts the jobs of granules 0 to 3, and holds the committer before granule 0 until there were
// four, or for so many looks.
#[derive(Drop)]
struct AwaitsFour {
    jobs: AtomicU64,
    seen: AtomicU64,
}

impl Gate for AwaitsFour {
    fn between(&self, number: GranuleNo) {
        if number.get() < 4 {
            self.jobs.fetch_add(1, Ordering::SeqCst);
        }
    }

    fn before_take(&self, number: GranuleNo) {
        if number.get() > 0 {
            return;
        }
        for _ in 0..20_000_000_u64 {
            if self.jobs.load(Ordering::SeqCst) >= 4 {
                self.seen.store(1, Ordering::SeqCst);
                return;
            }
            yield_now();
        }
    }
}

// Encodes a file with two workers, and the committer held before its first granule until they have
// claimed the first four: the report, and how many bytes were written.
fn held<R: Threads + Wait + Sync>(
    rt: &R,
    alloc: Global,
    is_locked: bool,
    bytes: &[u8],
    stream: &[u8],
) -> Option<(Report, usize)> {
    let gate = AwaitsFour {
        jobs: AtomicU64::new(0),
        seen: AtomicU64::new(0),
    };
    let found = encoded_beside(rt, alloc, is_locked, TWO, &gate, bytes, 1000, 10000, stream);
    match found {
        Some((Ok(report), written)) if gate.seen.load(Ordering::SeqCst) == 1 => {
            Some((report, written))
        }
        _ => None,
    }
}

// While the committer is held, two workers claim the first four granules. A worker hands in what it
// has before its next claim, so two of them at least come counted.
#[test]
fn workers_count_beside_the_committer(rt: HostRuntime) {
    let file = teeth(1);
    let bytes = file.get(..46).unwrap_or(&[]);
    let (_, stream) = whole(rt.alloc(), bytes, Rate::K128).expect(&rt, "encoded alone");
    for is_locked in [false, true] {
        let found = held(&rt, rt.alloc(), is_locked, bytes, stream.bytes());
        let (report, written) = found.expect(&rt, "encoded beside workers");
        assert!(rt; (report.frames, report.tried, written) == (2, 4, 835));
        assert!(rt; report.made <= 2);
    }
}

// The board, the number of workers and how far they are ahead.
const BOARDS: [(bool, u8, u8); 5] = [
    (false, 1, 1),
    (false, 2, 4),
    (false, 4, 4),
    (true, 2, 1),
    (true, 4, 4),
];

// How many frames a file gives beside workers, how many gains are tried, and how many bytes of this
// stream are written, if no others are.
fn given_beside<R: Threads + Wait + Sync>(
    rt: &R,
    alloc: Global,
    is_locked: bool,
    lanes: Lanes,
    bytes: &[u8],
    stream: &[u8],
) -> Option<(u32, u64, usize)>
    requires workers { (1 ≤ lanes.workers) × (lanes.workers ≤ 16) }
    requires ahead { (1 ≤ lanes.ahead) × (lanes.ahead ≤ 64) }
{
    match encoded_beside(
        rt, alloc, is_locked, lanes, &OpenGate, bytes, 1000, 10000, stream,
    ) {
        Some((Ok(report), written)) => Some((report.frames, report.tried, written)),
        _ => None,
    }
}

// Whatever the board, the number of workers and how far they are ahead, the bytes are those of one
// thread.
#[test]
fn bytes_are_those_of_one_thread(rt: HostRuntime) {
    let file = teeth(3000);
    let (alone, stream) = whole(rt.alloc(), &file, Rate::K128).expect(&rt, "encoded alone");
    let wanted = Some((alone.frames, alone.tried, stream.bytes().len()));
    for (is_locked, workers, ahead) in BOARDS {
        let lanes = Lanes { workers, ahead };
        let found = given_beside(&rt, rt.alloc(), is_locked, lanes, &file, stream.bytes());
        assert!(rt; found == wanted);
    }
}

// The board, the read that fails, room in the sink and the answer.
const FAULTS: [(bool, u64, usize, EncodeFault); 4] = [
    (false, 7, 10000, EncodeFault::Read),
    (true, 7, 10000, EncodeFault::Read),
    (false, 1000, 500, EncodeFault::Write),
    (true, 1000, 500, EncodeFault::Write),
];

// The fault that is told, if a front of this stream was written.
fn fault_beside<R: Threads + Wait + Sync>(
    rt: &R,
    alloc: Global,
    is_locked: bool,
    bytes: &[u8],
    fails: u64,
    room: usize,
    stream: &[u8],
) -> Option<EncodeFault> {
    match encoded_beside(
        rt, alloc, is_locked, TWO, &OpenGate, bytes, fails, room, stream,
    ) {
        Some((Err(fault), _)) => Some(fault),
        _ => None,
    }
}

// The workers end where a read or a write fails, and a front of the stream was written.
#[test]
fn workers_end_at_a_fault(rt: HostRuntime) {
    let file = teeth(3000);
    let (_, stream) = whole(rt.alloc(), &file, Rate::K128).expect(&rt, "encoded alone");
    for (is_locked, fails, room, wanted) in FAULTS {
        let found = fault_beside(
            &rt,
            rt.alloc(),
            is_locked,
            &file,
            fails,
            room,
            stream.bytes(),
        );
        assert!(rt; found == Some(wanted));
    }
}
