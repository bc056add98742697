ghost use Rattle.std.specs.Prelude.{ℕ, ◌≤◌};
ghost use Rattle.l3_quant.specs.Gains.{GreatestIsReached, OneGainWithoutAmp, CodableIsTested, CodableAbove, ZeroAtTheTop, ZerosAtTheTop, FirstGainExists};
ghost use Rattle.l3_quant.specs.Reconstruction.{FourThirdsIsGreatest};
ghost use Rattle.l3_quant.specs.Thresholds.{IsThreshold, threshold_at};

/// The quantised value is the greatest that is reached, among whole numbers of any size.
pub fn greatest_value()
    ensures { GreatestIsReached }
{}

/// What it means that values are codable, that a spectrum's stay so as the gain rises, and that
/// they are 0 at the highest gain, so that each has a first gain.
pub fn codable_gains()
    ensures tested { CodableIsTested }
    ensures above { CodableAbove }
    ensures top { ZeroAtTheTop }
    ensures zeros { ZerosAtTheTop }
    ensures first { FirstGainExists }
{}

/// With no band amplified the values of a spectrum are those at one gain.
pub fn without_amplification()
    ensures { OneGainWithoutAmp }
{}

/// The power 4/3 of a value is the greatest within its bound, among whole numbers of any size.
pub fn greatest_power()
    ensures { FourThirdsIsGreatest }
{}

/// Each threshold of the table is the least number that reaches its place.
pub fn threshold_laws()
    ensures { (n : ℕ) → n ≤ 8192 → IsThreshold n (threshold_at n) }
{}
