ghost use Rattle.std.specs.Prelude.{◌≡◌};
ghost use Rattle.l3_encoder.specs.Turned.{answer_of};

use crate::encoding::TurnFault;
use l3_commit::{EncodeFault, Report};

/// The answer of a file's encoding, by that of its samples'.
pub fn answer_of(turned: Result<Report, TurnFault>) -> Result<Report, EncodeFault>
    ensures { result ≡ answer_of turned }
{
    match turned {
        Ok(report) => Ok(report),
        Err(TurnFault::Read) => Err(EncodeFault::Read),
        Err(TurnFault::Write) => Err(EncodeFault::Write),
    }
}
