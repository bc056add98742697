ghost use Rattle.std.specs.Prelude.{◌≡◌, ◌+◌, ◌-◌, ◌*◌, ◌<◌, ◌≤◌, ◌^◌, length, All};
ghost use Rattle.std.specs.List.{sum_by};
ghost use Rattle.l3_base.specs.Spectrum.{IsLine, IsSpectrum};
ghost use Rattle.l3_base.specs.Bands.{band_width};
ghost use Rattle.l3_transform.specs.Demand.{energy_of_line, lines_of_band, energy_of, eighths_of, binary_digits};

use l3_base::edge;

// What a line counts for.
#[inline(always)]
fn line_energy(x: i32) -> u64
    requires { IsLine x }
    ensures value { result ≡ energy_of_line x }
    ensures bound { result < 2 ^ 42 }
{
    let size = u64::from(x.unsigned_abs() / 256);
    size * size
}

// What the lines of a band count for.
fn sum_of_energies(lines: &[i32]) -> u64
    requires small { All IsLine lines.now }
    requires long { length lines.now ≤ 576 }
    ensures value { result ≡ sum_by energy_of_line lines.now }
    ensures bound { result ≤ length lines.now * (2 ^ 42 - 1) }
{
    let mut sum = 0u64;
    for &x in lines {
        sum += line_energy(x);
    }
    sum
}

// The lines of a band at a sampling frequency, numbered as `sampling_frequency`.
fn band_lines(lines: &[i32; 576], rate: usize, band: usize) -> &[i32]
    requires spectrum { IsSpectrum lines.now }
    requires rate { rate < 3 }
    requires band { band < 22 }
    ensures value { result.now ≡ lines_of_band rate lines.now band }
    ensures small { All IsLine result.now }
    ensures width { length result.now ≡ band_width rate band }
    ensures some { 0 < band_width rate band }
    ensures within { band_width rate band ≤ 576 }
{
    let start = usize::from(edge(rate, band));
    let end = usize::from(edge(rate, band + 1));
    &lines[start..end]
}

// The energy of a band.
pub(crate) fn band_energy(lines: &[i32; 576], rate: usize, band: usize) -> u64
    requires spectrum { IsSpectrum lines.now }
    requires rate { rate < 3 }
    requires band { band < 22 }
    ensures { result ≡ energy_of rate lines.now band }
{
    sum_of_energies(band_lines(lines, rate, band))
}

// How many binary digits a number has.
fn digits(n: u64) -> u32
    ensures value { result ≡ binary_digits n }
    ensures bound { n < 2 ^ 42 → result ≤ 42 }
{
    64 - n.leading_zeros()
}

// What a band demands, in eighths of a bit.
pub(crate) fn band_eighths(lines: &[i32; 576], rate: usize, band: usize) -> u32
    requires spectrum { IsSpectrum lines.now }
    requires rate { rate < 3 }
    requires band { band < 22 }
    ensures value { result ≡ eighths_of rate lines.now band }
    ensures bound { result ≤ 42 * band_width rate band }
{
    let lines = band_lines(lines, rate, band);
    let width = lines.len();
    let mean = sum_of_energies(lines) / width as u64;
    width as u32 * digits(mean)
}
