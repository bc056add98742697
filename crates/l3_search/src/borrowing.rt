ghost use Rattle.std.specs.Prelude.{◌≡◌, ◌*◌, ◌/◌, ◌≤◌};
ghost use Rattle.l3_search.specs.Budget.{excess_of, borrowed};

// A demand that is above the mean by so many bits or fewer borrows nothing (this project's own).
const EXCESS_LIMIT: u32 = 100;

// What a demand is above the mean, where that is worth borrowing for.
fn excess(mean: u32, demand: u32) -> u32
    ensures { result ≡ excess_of mean demand }
{
    let more = demand.saturating_sub(mean);
    if more <= EXCESS_LIMIT { 0 } else { more }
}

// Six tenths, without a product that passes 64 bits.
fn six_tenths(bits: u64) -> u64
    ensures { result ≡ 6 * bits / 10 }
{
    bits / 5 * 3 + bits % 5 * 3 / 5
}

// Eight tenths of the bits of the greatest main_data_begin, which is in bytes.
fn surplus_line(begin_limit: u32) -> u64
    ensures { result ≡ 64 * begin_limit / 10 }
{
    64 * u64::from(begin_limit) / 10
}

/// The bits that a unit has of the reserve beyond its mean share.
pub fn borrow(reserve: u64, mean: u32, begin_limit: u32, demand: u32) -> u64
    ensures value { result ≡ borrowed reserve mean begin_limit demand }
    ensures within { result ≤ reserve }
{
    let wanted = u64::from(excess(mean, demand)).min(six_tenths(reserve));
    wanted.max(reserve.saturating_sub(surplus_line(begin_limit)))
}
