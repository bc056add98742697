ghost use Rattle.std.specs.Prelude.{◌≡◌, ◌≢◌, ◌<◌, ◌≤◌, ◌^◌, ℕ, All, pos, length};
ghost use Rattle.l3_base.specs.Slots.{slot_in};
ghost use Rattle.l3_base.specs.Lists.{entry, tabulate};
ghost use Rattle.l3_base.specs.Sums.{IsWithin};
ghost use Rattle.l3_base.specs.Filterbank.{slot_sum, slots_of, turned, turned_slot};
ghost use Rattle.l3_transform.specs.Samples.{HasShape, before_newest};

use crate::rows::make_rows;
use crate::subbands::subbands;
use l3_base::Slots36;

/// The slots of the 32 subbands of 512 samples, the newest first.
///
/// Units: 2^-24 of full scale.
pub fn slot(window: &[i16; 512], out: &mut [i32; 32])
    ensures value { out.new ≡ tabulate 32 (slot_sum (entry window.now)) }
    ensures bound { All (IsWithin 44598016) out.new }
{
    let mut rows = [[0i16; 64]; 15];
    make_rows(&in_time(window), 0, &mut rows);
    subbands(&rows, 0, out);
}

// 512 samples, the newest first, in order of time.
fn in_time(window: &[i16; 512]) -> [i16; 512]
    ensures value { (n : ℕ) → n < 512 → before_newest result n ≡ entry window.now n }
    ensures long { length result ≡ 512 }
{
    let mut samples = [0i16; 512];
    for n in 0..512 {
        samples[n] = window[511 - n];
    }
    samples
}

/// The 36 slots of the 32 subbands of a granule's window, in order of time.
///
/// Odd slots of odd subbands are negated. Units: 2^-24 of full scale.
pub fn slots36(window: &[i16; 1632], out: &mut Slots36)
    ensures value { out.new ≡ slots_of window.now }
    ensures bound { All (All (IsWithin 44598016)) out.new }
{
    *out = Slots36::zero();
    fill_from(window, 0, out);
}

// Rows of zeros.
fn no_rows() -> [[i16; 64]; 50]
    ensures { length result ≡ 50 }
{
    [[0; 64]; 50]
}

// Fills in the slots of a window from slot `from` on, those before being there already.
pub(crate) fn fill_from(window: &[i16; 1632], from: usize, out: &mut Slots36)
    requires from { from ≤ 36 }
    requires shape { HasShape out.old }
    requires value { (i k : ℕ) → i < 32 → k < from → slot_in out.old i k ≡ turned_slot window.now i k }
    requires small { (i k : ℕ) → i < 32 → k < from → IsWithin 44598016 (slot_in out.old i k) }
    ensures value { out.new ≡ slots_of window.now }
    ensures bound { All (All (IsWithin 44598016)) out.new }
{
    let mut slots = [0i32; 32];
    let mut rows = no_rows();
    make_rows(window, from, &mut rows);
    for k in from..36 {
        subbands(&rows, k, &mut slots);
        set_slots(out, k, &slots);
    }
}

// Sets slot `k` of each subband.
fn set_slots(out: &mut Slots36, k: usize, slots: &[i32; 32])
    requires slot { k < 36 }
    requires shape { HasShape out.old }
    requires small { All (IsWithin 44598016) slots.now }
    ensures shape { HasShape out.new }
    ensures set { (i : ℕ) → i < 32 → slot_in out.new i k ≡ turned i k (entry slots.now i) }
    ensures others { (i m : ℕ) → i < 32 → m ≢ k → slot_in out.new i m ≡ slot_in out.old i m }
{
    for i in 0..32 {
        out.set(i, k, turned_at(i, k, slots[i]));
    }
}

// A slot with the other sign where its number and its subband are odd.
#[inline(always)]
fn turned_at(i: usize, k: usize, slot: i32) -> i32
    requires { IsWithin 44598016 slot }
    ensures value { result ≡ turned i k slot }
    ensures bound { IsWithin 44598016 result }
{
    if i % 2 == 1 && k % 2 == 1 {
        -slot
    } else {
        slot
    }
}
