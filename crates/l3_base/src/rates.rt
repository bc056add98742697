ghost use Rattle.std.specs.Prelude.{pos};
ghost use Rattle.l3_base.specs.Sums.{AddsUpTo};
ghost use Rattle.l3_base.specs.Bands.{numbers};
ghost use Rattle.l3_base.specs.RateTables.{RatesAreThose};

/// The rates in kbit/s of `bitrate_index` 1 to 14 (ISO/IEC 11172-3, Annex B; index 1 stands first).
#[rattlefmt::skip]
pub static RATES: [u32; 14] = [
    32, 40, 48, 56, 64, 80, 96, 112, 128, 160, 192, 224, 256, 320,
];

/// What the rates add up to, and that they are those of [`crate::rate::Rate`], in its order.
pub fn rate_sums()
    ensures sums { AddsUpTo 14 (numbers RATES) (pos 1808) 1808 (pos 18208) }
    ensures same { RatesAreThose }
{}
