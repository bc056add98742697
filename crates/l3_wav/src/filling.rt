ghost use Rattle.std.specs.Prelude.{◌≡◌, ◌+◌, ◌*◌, ◌<◌, ◌≤◌, ℕ, drop, length};
ghost use Rattle.l3_base.specs.Lists.{entry};
ghost use Rattle.l3_wav.specs.Windows.{window_in};

// 1632 samples from this place on, 0 past the end.
fn fill(window: &mut [i16; 1632], kept: &[i16], first: usize)
    requires { first ≤ 65536 }
    ensures each { (n : ℕ) → n < 1632 → entry window.new n ≡ entry kept.now (first + n) }
    ensures long { length window.new ≡ 1632 }
{
    for n in 0..1632 {
        window[n] = match kept.get(first + n) {
            Some(&x) => x,
            None => 0,
        };
    }
}

/// Fills in the window of the granule that stands so many after the base. The samples of so many
/// granules in front are forgotten.
pub fn fill_window(window: &mut [i16; 1632], kept: &[i16], stale: usize, after: u64)
    requires stale { stale ≤ 7 }
    requires after { after < 64 }
    ensures { window.new ≡ window_in (drop (576 * stale) kept.now) after }
{
    fill(window, kept, 576 * (stale + after as usize));
}
