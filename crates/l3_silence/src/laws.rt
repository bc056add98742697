ghost use Rattle.l3_silence.specs.Silent.{ZerosEncodeToSilence};

/// Samples that are all 0, in the channels that are there, are
/// encoded to the stream of silence, however many they are.
pub fn zeros_encode_to_silence()
    ensures { ZerosEncodeToSilence }
{}
