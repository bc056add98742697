ghost use Rattle.std.specs.Prelude.{◌≡◌, ◌≤◌, IfOk, IfErr};
ghost use Rattle.l3_encoder.specs.Changes.{source_change};
ghost use Rattle.l3_encoder.specs.Encoded.{settings_with};
ghost use Rattle.l3_encoder.specs.Opening.{IsOpened, Refuses};

use l3_base::{Rate, Settings};
use l3_commit::EncodeFault;
use l3_io::Source;
use l3_wav::{WavFault, WavHead, open};

/// The settings of the stream of a file with this head, at a rate.
pub fn settings_of(rate: Rate, head: &WavHead) -> Settings
    ensures { result ≡ settings_with rate head.now }
{
    Settings {
        rate,
        sample_rate: head.rate,
        channels: head.channels,
    }
}

/// Reads the head of a source's WAV file, and no byte after it.
///
/// Errors: the head is refused, or a read failed; then nothing else is read.
pub fn open_file<S: Source>(source: &mut S) -> Result<WavHead, EncodeFault>
    ensures opened { IfOk result (λ head. IsOpened head (source_change S.left S.faults source.old source.new)) }
    ensures refused { IfErr result (λ fault. Refuses fault (source_change S.left S.faults source.old source.new)) }
    ensures later { S.faults source.old ≤ S.faults source.new }
{
    match open(source) {
        Ok(head) => Ok(head),
        Err(WavFault::Read) => Err(EncodeFault::Read),
        Err(fault) => Err(EncodeFault::Wav(fault)),
    }
}
