ghost use Rattle.std.specs.Prelude.{◌≡◌, ◌+◌, ◌*◌, ◌<◌, ◌≤◌, ◌⊎◌, [], All, IfSome, None, length, true, false};
ghost use Rattle.l3_base.specs.declared.rate.Channels.TheVariants.{Mono};
ghost use Rattle.l3_board.specs.Desk.{fresh_desk};
ghost use Rattle.l3_commit.specs.Tracks.{next_of};
ghost use Rattle.l3_board.specs.Offers.{GoesWith, no_offers};

use crate::boards::lock_board;
use l3_analysis::{Piece, PieceBox, Stage};
use l3_base::{Channels, Rate, SampleRate, Settings, Steps};
use l3_board::{Board, Claim, Deposit, LockBoard, LockDesk, LockSeat, fresh_desks};
use l3_commit::{Committer, GranuleDone};
use l3_guess::Flat;
use l3_io::MemSource;
use l3_wav::{Samples, WavHead};
use std::alloc::Global;
use std::marker::Brand;
use std::sync::Wait;
use std::sync::ledger::{Blank, Ledger};

// 128 kbit/s, 44100 Hz, one channel.
fn settings() -> Settings
    ensures { result.channels ≡ Mono }
{
    Settings {
        rate: Rate::K128,
        sample_rate: SampleRate::Hz44100,
        channels: Channels::Mono,
    }
}

// One sample of one channel.
fn one_sample() -> Samples
    ensures { (result.channels ≡ Mono) × (result.failed ≡ false) × (result.remaining ≡ 2) }
{
    Samples::new(&WavHead {
        channels: Channels::Mono,
        rate: SampleRate::Hz44100,
        data_bytes: 2,
    })
}

// The last of some seats that have claimed nothing.
fn last_of(seats: Vec<LockSeat>) -> Option<LockSeat>
    requires { All (λ seat. seat ≡ None) seats.items }
    ensures { IfSome result (λ seat. seat ≡ None) }
{
    let mut seats = seats;
    seats.pop()
}

// Whether a piece is that of granule 0 of this one sample: 1056 samples are before it.
fn is_first_of(piece: &Piece, sample: i16) -> bool {
    let window = piece.window();
    for n in 0..1632_usize {
        let left = if n == 1056 { sample } else { 0 };
        if window.left[n] != left || window.right[n] != 0 {
            return false;
        }
    }
    piece.number().get() == 0
}

// What a worker does to a piece that is loaded: is it one?
fn work<L: Ledger + Send>(piece: &mut Piece, steps: &mut Steps<L>) -> bool
    ensures { piece.new.number ≡ piece.old.number }
{
    match piece.stage() {
        Stage::Loaded => {
            piece.transform();
            piece.presume(steps);
            true
        }
        _ => false,
    }
}

// A committer of this one sample, all of which it has read.
fn committer_of(alloc: Global, sample: i16) -> Option<Committer>
    ensures track { IfSome result (λ c. (c.track.frame ≡ 0) × (c.track.granules ≡ [])) }
    ensures offers { IfSome result (λ c. c.offers ≡ no_offers 2) }
    ensures base { IfSome result (λ c. c.windows.base ≡ next_of c.track) }
    ensures there { IfSome result (λ c. (c.windows.ended ≡ true) ⊎ (576 * (next_of c.track + c.windows.ahead) ≤ c.windows.read)) }
    ensures ahead { IfSome result (λ c. 0 < c.windows.ahead) }
{
    let Ok(mut committer) = Committer::open(alloc, settings(), 2, one_sample()) else {
        return None;
    };
    let Ok(mut source) = MemSource::new(alloc, &sample.to_le_bytes(), 1, &[]) else {
        return None;
    };
    match committer.read_ahead(&mut source) {
        Ok(()) => Some(committer),
        Err(_) => None,
    }
}

// Claims a piece, works on it and hands it in: whether it was loaded with this one sample.
fn handed_in<B: Board<Item = PieceBox>, L: Ledger + Send>(
    board: &B,
    seat: &mut B::Seat,
    steps: &mut Steps<L>,
    sample: i16,
) -> Option<bool>
    requires seat { B.has_seat board.now seat.old }
    requires free { B.claimed seat.old ≡ None }
{
    let Claim::Job(mut job) = board.claim(seat) else {
        return None;
    };
    let is_right = is_first_of(job.piece(), sample);
    if !work(job.piece_mut(), steps) {
        return None;
    }
    match board.deposit(seat, job) {
        Deposit::Kept => Some(is_right),
        _ => None,
    }
}

// Has granule 0 made by a worker under this guess, and commits it: whether its piece was loaded with
// this one sample, and what it took.
fn handed_on<B: Board<Item = PieceBox>, L: Ledger + Send>(
    committer: &mut Committer,
    board: &B,
    desk: &mut B::Desk,
    seat: &mut B::Seat,
    steps: &mut Steps<L>,
    sample: i16,
    guess: u32,
) -> Option<(bool, GranuleDone)>
    requires made { B.has_desk board.now desk.old }
    requires seat { B.has_seat board.now seat.old }
    requires free { B.claimed seat.old ≡ None }
    requires cells { length committer.old.offers.placed ≡ B.cells board.now }
    requires goes { GoesWith (B.last desk.old) committer.old.offers }
    requires some { 0 < length committer.old.offers.placed }
    requires frame { committer.old.track.frame ≡ 0 }
    requires granules { committer.old.track.granules ≡ [] }
    requires next { committer.old.offers.next ≡ 0 }
    requires base { committer.old.windows.base ≡ next_of committer.old.track }
    requires there { (committer.old.windows.ended ≡ true) ⊎ (576 * (next_of committer.old.track + committer.old.windows.ahead) ≤ committer.old.windows.read) }
    requires ahead { 0 < committer.old.windows.ahead }
{
    let mut guesser = Flat::new(guess);
    committer.fill(&guesser, board, desk);
    let Some(is_right) = handed_in(board, seat, steps, sample) else {
        return None;
    };
    committer.gather(board, desk);
    // For the proof alone: that there is a next granule.
    let Some(_number) = committer.next() else {
        return None;
    };
    committer.prepare();
    Some((is_right, committer.commit_granule(&mut guesser, steps)))
}

// The same over a board that begins, of two cells.
fn over_board<R: Wait, L: Ledger + Send>(
    committer: &mut Committer,
    made: (LockBoard<'_, PieceBox, R>, LockDesk, Vec<LockSeat>),
    steps: &mut Steps<L>,
    sample: i16,
    guess: u32,
) -> Option<(bool, GranuleDone)>
    requires cells { made.0 ≡ 2 }
    requires desk { made.1 ≡ fresh_desk 2 }
    requires seats { All (λ seat. seat ≡ None) made.2.items }
    requires frame { committer.old.track.frame ≡ 0 }
    requires granules { committer.old.track.granules ≡ [] }
    requires offers { committer.old.offers ≡ no_offers 2 }
    requires base { committer.old.windows.base ≡ next_of committer.old.track }
    requires there { (committer.old.windows.ended ≡ true) ⊎ (576 * (next_of committer.old.track + committer.old.windows.ahead) ≤ committer.old.windows.read) }
    requires ahead { 0 < committer.old.windows.ahead }
{
    let (board, mut desk, seats) = made;
    fresh_desks();
    match last_of(seats) {
        Some(mut seat) => handed_on(
            committer, &board, &mut desk, &mut seat, steps, sample, guess,
        ),
        None => None,
    }
}

// The same by a counter of its own.
fn first_of<R: Wait, L: Ledger + Send>(
    rt: &R,
    alloc: Global,
    blank: Blank,
    sample: i16,
    guess: u32,
) -> Option<(bool, GranuleDone)>
    requires name { blank.name ≡ L.name }
    requires parts { blank.parts ≡ L.parts }
    requires some { 0 < blank.parts }
{
    let mut steps: Steps<L> = Steps::start(blank);
    let Some(mut committer) = committer_of(alloc, sample) else {
        return None;
    };
    match lock_board(rt, alloc, settings(), 1, 2) {
        Some(made) => over_board(&mut committer, made, &mut steps, sample, guess),
        None => None,
    }
}

#[test]
fn gathered_piece_is_used(rt: HostRuntime) {
    let found = first_of::<_, Brand>(&rt, rt.alloc(), Blank::new(1), 0, 0);
    // The worker has counted the one gain that is tried.
    assert!(rt; found == Some((true, GranuleDone { made: 0, tried: 1 })));
}

// Whether a worker has counted all gains that were tried, of a piece that was loaded right.
fn is_all_counted(found: Option<(bool, GranuleDone)>) -> Option<bool> {
    match found {
        Some((true, done)) => Some(done.made == 0),
        _ => None,
    }
}

#[test]
fn offered_window_and_guess(rt: HostRuntime) {
    // Granule 0 begins with no reserve. Under this guess the worker counts all gains that are tried;
    // under a greater one it stops sooner, at a lesser gain, and the committer counts the rest.
    for (guess, wanted) in [(0, true), (4000, false)] {
        let found = first_of::<_, Brand>(&rt, rt.alloc(), Blank::new(1), 16384, guess);
        assert!(rt; is_all_counted(found) == Some(wanted));
    }
}
