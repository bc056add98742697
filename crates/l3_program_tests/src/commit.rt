ghost use Rattle.std.specs.Prelude.{[], ◌≡◌, ◌+◌, ◌*◌, ◌<◌, ◌≤◌, length};
ghost use Rattle.l3_analysis.specs.declared.stage.Stage.TheVariants.{Transformed};

use l3_analysis::Piece;
use l3_base::{Channels, GranuleNo, Rate, SampleRate, Settings, Steps, Window};
use l3_commit::{GranuleDone, Track};
use l3_stream::{QuadTable, Unit};
use std::marker::Brand;
use std::sync::ledger::{Blank, Ledger};

// global_gain, part2_3_length, big_values, quadruples, region0_count, region1_count, table_select of
// the three regions, and count1table_select.
type Numbers = [u16; 10];

// main_data_begin, the units of the first granule and of the second, gains tried
type Frame = (u16, Numbers, Numbers, Numbers, Numbers, u32);

const STEPS: [i16; 7] = [-27000, -18000, -9000, 0, 9000, 18000, 27000];

const ABSENT: Numbers = [0; 10];

fn numbers(unit: &Unit) -> Numbers {
    let [first, second, third] = unit.tables;
    [
        u16::from(unit.gain),
        unit.length,
        unit.big,
        unit.quads,
        u16::from(unit.region0),
        u16::from(unit.region1),
        u16::from(first),
        u16::from(second),
        u16::from(third),
        match unit.quad {
            QuadTable::A => 0,
            QuadTable::B => 1,
        },
    ]
}

// The sample so many places behind the one 1056 before the first, 0 where there is none.
fn sample(samples: &[i16; 2304], place: u64) -> i16 {
    match samples.get(place.saturating_sub(1056) as usize) {
        Some(&value) if place >= 1056 => value,
        _ => 0,
    }
}

// A granule's piece of these samples, transformed.
fn piece_of(settings: Settings, number: GranuleNo, left: &[i16; 2304], right: &[i16; 2304]) -> Piece
    ensures number { result.number ≡ number }
    ensures stage { result.stage ≡ Transformed }
    ensures settings { result.settings ≡ settings }
{
    let mut window = Window {
        left: [0; 1632],
        right: [0; 1632],
    };
    for n in 0..1632_usize {
        let place = 576 * number.get() + n as u64;
        window.left[n] = sample(left, place);
        window.right[n] = sample(right, place);
    }
    let mut piece = Piece::blank(settings);
    piece.load(number, &window, 0);
    piece.transform();
    piece
}

// Commits the next granule of these samples, which has this number.
fn commit_next<L: Ledger + Send>(
    track: &mut Track,
    settings: Settings,
    number: u64,
    left: &[i16; 2304],
    right: &[i16; 2304],
    steps: &mut Steps<L>,
) -> GranuleDone
    requires settings { settings ≡ track.old.settings }
    requires limit { track.old.frame < 1000 }
    requires turn { length track.old.granules < 2 }
    requires number { number ≡ 2 * track.old.frame + length track.old.granules }
    ensures settings { track.new.settings ≡ track.old.settings }
    ensures frame { track.new.frame ≡ track.old.frame }
    ensures turn { length track.new.granules ≡ length track.old.granules + 1 }
    ensures few { result.tried ≤ 512 }
{
    let Some(number) = GranuleNo::new(number) else {
        unreachable!()
    };
    let mut piece = piece_of(settings, number, left, right);
    track.commit_granule(&mut piece, steps)
}

// The next frame of these samples, whose first granule has this number.
fn next_frame<L: Ledger + Send>(
    track: &mut Track,
    settings: Settings,
    number: u64,
    left: &[i16; 2304],
    right: &[i16; 2304],
    steps: &mut Steps<L>,
) -> Frame
    requires settings { settings ≡ track.old.settings }
    requires limit { track.old.frame < 1000 }
    requires start { track.old.granules ≡ [] }
    requires number { number ≡ 2 * track.old.frame }
    ensures settings { track.new.settings ≡ track.old.settings }
    ensures frame { track.new.frame ≡ track.old.frame + 1 }
    ensures start { track.new.granules ≡ [] }
{
    let first = commit_next(track, settings, number, left, right, steps);
    let second = commit_next(track, settings, number + 1, left, right, steps);
    let tried = first.tried + second.tried;
    let frame = track.commit_frame();
    let [[a, b], [c, d]] = &frame.units;
    (
        frame.begin,
        numbers(a),
        numbers(b),
        numbers(c),
        numbers(d),
        tried,
    )
}

// The three frames of these samples, counted by a counter of their own.
fn counted<L: Ledger + Send>(
    blank: Blank,
    settings: Settings,
    left: &[i16; 2304],
    right: &[i16; 2304],
) -> [Frame; 3]
    requires name { blank.name ≡ L.name }
    requires parts { blank.parts ≡ L.parts }
    requires some { 0 < blank.parts }
{
    let mut steps: Steps<L> = Steps::start(blank);
    let mut track = Track::new(settings);
    let first = next_frame(&mut track, settings, 0, left, right, &mut steps);
    let second = next_frame(&mut track, settings, 2, left, right, &mut steps);
    let third = next_frame(&mut track, settings, 4, left, right, &mut steps);
    [first, second, third]
}

// All 0 but sample 700, in mono at 128 kbit/s and 44100 Hz.
fn frames_of_impulse() -> [Frame; 3] {
    let mut left = [0; 2304];
    left[700] = 32767;
    counted::<Brand>(
        Blank::new(1),
        settings_of(Channels::Mono),
        &left,
        &[0; 2304],
    )
}

#[test]
fn units_of_an_impulse(rt: HostRuntime) {
    const WANTED: [Frame; 3] = [
        (
            0,
            ABSENT,
            ABSENT,
            [169, 1513, 288, 0, 0, 0, 3, 6, 6, 0],
            ABSENT,
            65,
        ),
        (
            206,
            [172, 1449, 288, 0, 0, 0, 6, 1, 6, 0],
            ABSENT,
            [103, 1577, 280, 0, 3, 0, 0, 9, 7, 0],
            ABSENT,
            124,
        ),
        (224, ABSENT, ABSENT, ABSENT, ABSENT, 2),
    ];
    assert!(rt; frames_of_impulse() == WANTED);
}

// Seven steps of 97 samples each, again and again, and to the right half as high.
fn steps_of_97() -> ([i16; 2304], [i16; 2304]) {
    let mut left = [0; 2304];
    let mut right = [0; 2304];
    for n in 0..2304 {
        let step = STEPS[n / 97 % 7];
        left[n] = step;
        right[n] = step / 2;
    }
    (left, right)
}

// The second frame of these steps at 192 kbit/s and 48000 Hz.
fn second_frame_of_steps() -> Frame {
    let settings = Settings {
        rate: Rate::K192,
        sample_rate: SampleRate::Hz48000,
        channels: Channels::Stereo,
    };
    let (left, right) = steps_of_97();
    let [_, second, _] = counted::<Brand>(Blank::new(1), settings, &left, &right);
    second
}

#[test]
fn units_of_steps(rt: HostRuntime) {
    const WANTED: Frame = (
        14,
        [179, 1073, 68, 110, 4, 3, 25, 12, 6, 1],
        [175, 1073, 68, 110, 4, 3, 25, 12, 6, 1],
        [179, 1136, 70, 109, 3, 5, 25, 12, 6, 1],
        [176, 1062, 62, 113, 3, 4, 24, 12, 6, 1],
        169,
    );
    assert!(rt; second_frame_of_steps() == WANTED);
}

// 128 kbit/s, 44100 Hz.
fn settings_of(channels: Channels) -> Settings {
    Settings {
        rate: Rate::K128,
        sample_rate: SampleRate::Hz44100,
        channels,
    }
}

// What the first two granules of silence take, the first of a piece that is presumed under the
// right reserve and the second of one that is only transformed; and where the next frame begins.
fn silent_frame<L: Ledger + Send>(blank: Blank, channels: Channels) -> ([GranuleDone; 2], u16)
    requires name { blank.name ≡ L.name }
    requires parts { blank.parts ≡ L.parts }
    requires some { 0 < blank.parts }
{
    let mut steps: Steps<L> = Steps::start(blank);
    let settings = settings_of(channels);
    let zeros = [0; 2304];
    let mut track = Track::new(settings);
    let Some(number) = GranuleNo::new(0) else {
        unreachable!()
    };
    let mut piece = piece_of(settings, number, &zeros, &zeros);
    piece.presume(&mut steps);
    let first = track.commit_granule(&mut piece, &mut steps);
    let second = commit_next(&mut track, settings, 1, &zeros, &zeros, &mut steps);
    let _frame = track.commit_frame();
    ([first, second], track.begin())
}

#[test]
fn counts_of_a_presumed_piece(rt: HostRuntime) {
    // A frame of 417 bytes: 21 of them are header and side information in mono, and 36 in stereo.
    for (channels, tried, begin) in [(Channels::Mono, 1, 396), (Channels::Stereo, 2, 381)] {
        let presumed = GranuleDone { made: 0, tried };
        let transformed = GranuleDone { made: tried, tried };
        let found = silent_frame::<Brand>(Blank::new(1), channels);
        assert!(rt; found == ([presumed, transformed], begin));
    }
}
