//! The quantiser: 576 lines and a gain -> 576 whole numbers.
//!
//! The spectrum of one channel of one granule -> its quantised values at a `global_gain`, which for
//! each amplified band is lowered, its greatest line of each band, and the least gain at which all
//! can be coded; and a quantised value -> the line that it stands for.
//! Before: `l3_transform`, the spectrum. After: `l3_count`, which has the values at all gains. The
//! power law is that of Layer III (ISO/IEC 11172-3, 2.4, the requantisation turned round); the
//! whole-number form and the rounding constant 13/32 are this project's own.
#![tactic(auto)]

mod bands;
mod four_thirds_table;
mod gains;
mod laws;
mod peaks;
mod quantiser;
mod reached;
mod reconstruction;
mod scale;
mod thresholds;

pub use gains::{first_gain, first_gain_amp, first_gain_with};
pub use laws::{
    codable_gains, greatest_power, greatest_value, threshold_laws, without_amplification,
};
pub use peaks::line_peaks;
pub use quantiser::{all, all_amp, line};
pub use reconstruction::reconstruct;
