//! Units and frames, and which lines of a unit are pairs, quadruples and zeros.

ghost use Rattle.std.specs.Prelude.{◌≡◌, ◌≤◌, ◌<◌, ◌+◌, ◌-◌, ◌*◌, ◌^◌, drop, length};
ghost use Rattle.l3_stream.specs.Units.{four_from, lengths, pairs_of, quads_of, two_from};
ghost use Rattle.l3_stream.specs.Frames.{blank, main_data_length};

use l3_huff::QuadTable;

/// One channel of one granule: the fields of its side information, and its lines.
///
/// The other fields of a unit's side information are 0 in the profile: `scalefac_compress`,
/// `window_switching_flag`, `preflag`, `scalefac_scale` (ISO/IEC 11172-3, clause 2.4).
#[derive(Clone, Copy, Debug)]
pub struct Unit {
    /// `part2_3_length`: the bits of its codes, at most 4095.
    pub length: u16,
    /// `big_values`: the pairs that come first, at most 288.
    pub big: u16,
    /// The quadruples after the pairs. The stream has no field for them: they go on until the code
    /// bits end.
    pub quads: u16,
    /// `global_gain`.
    pub gain: u8,
    /// `region0_count`: region 0 has one scale factor band more than this number, 0 to 15.
    pub region0: u8,
    /// `region1_count`: region 1 has one scale factor band more than this number, 0 to 7.
    pub region1: u8,
    /// `table_select` of the regions 0, 1 and 2.
    pub tables: [u8; 3],
    /// `count1table_select`: the table of the quadruples.
    pub quad: QuadTable,
    /// The quantised values of the 576 lines, lowest first.
    pub lines: [i16; 576],
}

impl Unit {
    /// The unit that is zero in every field, with table A: the second channel's in mono.
    pub fn blank() -> Unit
        ensures { result ≡ blank }
    {
        Unit {
            length: 0,
            big: 0,
            quads: 0,
            gain: 0,
            region0: 0,
            region1: 0,
            tables: [0; 3],
            quad: QuadTable::A,
            lines: [0; 576],
        }
    }

    /// The lines that are coded as pairs, from the lowest on.
    pub fn pair_lines(&self) -> &[i16]
        requires { 2 * self.now.big + 4 * self.now.quads ≤ 576 }
        ensures value { result.now ≡ pairs_of self.now }
        ensures count { length result.now ≡ 2 * self.now.big }
    {
        &self.lines[..2 * usize::from(self.big)]
    }

    /// The lines behind them that are coded as quadruples.
    pub fn quad_lines(&self) -> &[i16]
        requires { 2 * self.now.big + 4 * self.now.quads ≤ 576 }
        ensures value { result.now ≡ quads_of self.now }
        ensures count { length result.now ≡ 4 * self.now.quads }
    {
        let start = 2 * usize::from(self.big);
        &self.lines[start..start + 4 * usize::from(self.quads)]
    }

    /// The lines past pairs and quadruples, which have no code.
    pub fn past_lines(&self) -> &[i16]
        requires { 2 * self.now.big + 4 * self.now.quads ≤ 576 }
        ensures value { result.now ≡ drop (2 * self.now.big + 4 * self.now.quads) self.now.lines }
        ensures count { length result.now ≡ 576 - (2 * self.now.big + 4 * self.now.quads) }
        ensures lines { length self.now.lines ≡ 576 }
    {
        &self.lines[2 * usize::from(self.big) + 4 * usize::from(self.quads)..]
    }
}

/// What one frame holds: where its main data begins, and its units.
#[derive(Clone, Copy, Debug)]
pub struct ChosenFrame {
    /// `main_data_begin`: how many bytes of the tape before its own slot its main data begins, at
    /// most 511.
    pub begin: u16,
    /// By granule and channel. In mono the second channel's units are zero in every field, with
    /// table A.
    pub units: [[Unit; 2]; 2],
}

impl ChosenFrame {
    /// The bits of the frame's main data: the sum of `part2_3_length` of its units. The blank units
    /// of mono add nothing.
    pub fn main_data_length(&self) -> u64
        ensures value { result ≡ main_data_length self.now }
        ensures limit { result < 2 ^ 18 }
    {
        granule_length(&self.units[0]) + granule_length(&self.units[1])
    }
}

/// The sum of `part2_3_length` of a granule's units.
pub fn granule_length(units: &[Unit; 2]) -> u64
    ensures value { result ≡ lengths units.now }
    ensures limit { result < 2 ^ 17 }
{
    unit_length(&units[0]) + unit_length(&units[1])
}

/// Two lines from a place on: a pair.
#[inline(always)]
pub fn two_from(lines: &[i16], at: usize) -> [i16; 2]
    requires { at + 1 < length lines.now }
    ensures { result ≡ two_from lines.now at }
{
    [lines[at], lines[at + 1]]
}

/// Four lines from a place on: a quadruple.
#[inline(always)]
pub fn four_from(lines: &[i16], at: usize) -> [i16; 4]
    requires { at + 3 < length lines.now }
    ensures { result ≡ four_from lines.now at }
{
    [lines[at], lines[at + 1], lines[at + 2], lines[at + 3]]
}

// `part2_3_length` of a unit.
fn unit_length(unit: &Unit) -> u64
    ensures value { result ≡ unit.now.length }
    ensures limit { result < 2 ^ 16 }
{
    u64::from(unit.length)
}
