ghost use Rattle.std.specs.Prelude.{ℕ};
ghost use Rattle.l3_transform.specs.Spectrum.{SlotsOfGranule, SpectrumIsBounded, SpectrumIsComposed};
ghost use Rattle.l3_transform.specs.Demand.{HasDigits, binary_digits};

/// What the spectrum of a granule of 16-bit samples is made of, and how great its lines are.
pub fn spectrum_laws()
    ensures composed { SpectrumIsComposed }
    ensures slots { SlotsOfGranule }
    ensures bound { SpectrumIsBounded }
{}

/// The binary digits of a number are what their name says, for numbers of any size.
pub fn demand_laws()
    ensures { (n : ℕ) → HasDigits n (binary_digits n) }
{}
