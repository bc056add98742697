ghost use Rattle.std.specs.Prelude.{◌≡◌, ◌≤◌, ◌<◌, ◌*◌, Ok, Some, List, ℕ, IsOk, drop, length, min, take};
ghost use Rattle.std.specs.Io.{ReadsAtMost};
ghost use Rattle.std.specs.Io.KnownBytes.{ReadConsumes};
ghost use Rattle.std.proofs.Common.{rules};
ghost use Rattle.l3_io.specs.Causes.{HasCause};
ghost use Rattle.l3_wav.specs.Demo.{demo_file, head_of, samples_for};

use crate::signal::{block, next};
use l3_base::Failed;
use l3_io::Source;
use std::marker::Model;

/// A WAV file of two channels at 44100 Hz that is made as it is read: a triangle wave under noise
/// that begins with a number. No read of it fails.
#[derive(Drop)]
pub struct DemoSource {
    // the bytes that are made and not yet read stand from `at` on
    made: [u8; 44],
    at: usize,
    // where the noise stands, the time of the next sample, and the time of the end
    state: u32,
    time: u32,
    end: u32,
}

impl Model for DemoSource {
    ghost use Rattle.std.specs.Prelude.{◌≤◌, ◌++◌, ◌-◌, List, ℕ, drop};
    ghost use Rattle.l3_wav.specs.Demo.{samples_after};

    ghost Value = { List ℕ };

    ghost view = { λ s. drop s.at s.made ++ samples_after s.state s.time (s.end - s.time) };

    ghost invariant = { λ s. (s.at ≤ 44) × (s.time ≤ s.end) };
}

// The 44 bytes before the samples of so many frames.
fn head(frames: u32) -> [u8; 44]
    requires { frames ≤ 100000 }
    ensures { result ≡ head_of frames }
{
    let data = 4 * (1152 * frames);
    let size = (36 + data).to_le_bytes();
    let data = data.to_le_bytes();
    [
        b'R', b'I', b'F', b'F', size[0], size[1], size[2], size[3], b'W', b'A', b'V', b'E', b'f',
        b'm', b't', b' ', 16, 0, 0, 0, 1, 0, 2, 0, 0x44, 0xAC, 0, 0, 0x10, 0xB1, 2, 0, 4, 0, 16, 0,
        b'd', b'a', b't', b'a', data[0], data[1], data[2], data[3],
    ]
}

// Four bytes as the last of 44.
fn as_last(block: [u8; 4]) -> [u8; 44]
    ensures { drop 40 result ≡ block }
{
    [
        0, 0, 0, 0, 0, 0, 0, 0, 0, 0, 0, 0, 0, 0, 0, 0, 0, 0, 0, 0, 0, 0, 0, 0, 0, 0, 0, 0, 0, 0,
        0, 0, 0, 0, 0, 0, 0, 0, 0, 0, block[0], block[1], block[2], block[3],
    ]
}

// Copies what there is room for to the front of a buffer.
fn give(made: &[u8], buf: &mut [u8]) -> usize
    ensures count { result ≡ min (length made.now) (length buf.old) }
    ensures bytes { take result buf.new ≡ take result made.now }
{
    let count = made.len().min(buf.len());
    buf[..count].copy_from_slice(&made[..count]);
    count
}

/// The WAV file of so many frames of 1152 samples, 1 to 100000, whose noise begins with this
/// number.
pub fn demo_source(frames: u32, seed: u32) -> DemoSource
    requires some { 1 ≤ frames }
    requires most { frames ≤ 100000 }
    ensures { result ≡ demo_file frames seed }
{
    DemoSource {
        made: head(frames),
        at: 0,
        state: seed,
        time: 0,
        end: 1152 * frames,
    }
}

impl Source for DemoSource {
    ghost left = { λ s. Some s };

    ghost faults = { λ _. 0 };

    fn read(&mut self, buf: &mut [u8]) -> Result<usize, Failed>
        ensures bound { ReadsAtMost result buf.new }
        ensures bytes { ReadConsumes (Some self.old) (Some self.new) result buf.new }
        ensures cause { HasCause 0 0 result }
        ensures no_room { length buf.old ≡ 0 → (result ≡ Ok 0) × (self.new ≡ self.old) }
        ensures served { IsOk result }
    {
        if buf.is_empty() {
            return Ok(0);
        }
        if self.at < 44 {
            let count = give(&self.made[self.at..], buf);
            self.at += count;
            return Ok(count);
        }
        if self.time == self.end {
            return Ok(0);
        }
        self.made = as_last(block(self.state, self.time));
        self.state = next(next(self.state));
        self.time += 1;
        let count = give(&self.made[40..], buf);
        self.at = 40 + count;
        Ok(count)
    }

    ghost possible = { λ s. Prim.search rules };
}
