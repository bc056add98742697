ghost use Rattle.std.specs.Prelude.{◌≡◌, ◌≤◌, List, ℕ, IfSome, IfErr, OnOk, OnErr, length, take};
ghost use Rattle.std.specs.Io.KnownBytes.{Consumes};
ghost use Rattle.l3_wav.specs.Steps.{HasPassed, EndsWithin};
ghost use Rattle.l3_wav.specs.Wav.{FaultCause};

use crate::WavFault;
use crate::block::{BLOCK, empty_block};
use l3_io::{Source, read_full};

/// Fills the buffer with the next bytes of a head.
pub fn fill<S: Source>(source: &mut S, buf: &mut [u8]) -> Result<(), WavFault>
    ensures front { OnOk result (IfSome (S.left source.old) (λ bytes. take (length buf.new) bytes ≡ buf.new)) }
    ensures passed { OnOk result (IfSome (S.left source.old) (λ bytes. HasPassed (length buf.new) bytes (S.left source.new))) }
    ensures ends { IfErr result (λ fault. IfSome (S.left source.old) (λ bytes. EndsWithin (length buf.new) fault bytes (S.left source.new))) }
    ensures some { OnErr result ((bytes : List ℕ) × (length bytes ≤ length buf.new) × Consumes (S.left source.old) (S.left source.new) bytes) }
    ensures later { S.faults source.old ≤ S.faults source.new }
    ensures served { OnOk result (S.faults source.new ≡ S.faults source.old) }
    ensures cause { IfErr result (FaultCause (S.faults source.old) (S.faults source.new)) }
{
    match read_full(source, buf) {
        Ok(count) if count == buf.len() => Ok(()),
        Ok(_) => Err(WavFault::HeaderEnds),
        Err(_) => Err(WavFault::Read),
    }
}

/// Passes over so many bytes of a head.
pub fn skip<S: Source>(source: &mut S, count: usize) -> Result<(), WavFault>
    ensures passed { OnOk result (IfSome (S.left source.old) (λ bytes. HasPassed count bytes (S.left source.new))) }
    ensures ends { IfErr result (λ fault. IfSome (S.left source.old) (λ bytes. EndsWithin count fault bytes (S.left source.new))) }
    ensures some { OnErr result ((bytes : List ℕ) × (length bytes ≤ count) × Consumes (S.left source.old) (S.left source.new) bytes) }
    ensures later { S.faults source.old ≤ S.faults source.new }
    ensures served { OnOk result (S.faults source.new ≡ S.faults source.old) }
    ensures cause { IfErr result (FaultCause (S.faults source.old) (S.faults source.new)) }
{
    let mut block = empty_block();
    let mut done = 0;
    while done < count {
        let want = (count - done).min(BLOCK);
        fill(source, &mut block[..want])?;
        done += want;
    }
    Ok(())
}
