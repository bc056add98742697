//! Which table the pairs of a unit are coded with (ISO/IEC 11172-3, 2.4: region0_count,
//! region1_count, table_select).

ghost use Rattle.std.specs.Prelude.{◌≡◌, ◌≤◌};
ghost use Rattle.l3_huff.specs.Tables.{IsTable};
ghost use Rattle.l3_stream.specs.Units.{HasFields, edge, table_at, table_by};

use crate::unit::Unit;
use l3_base::Settings;
use std::marker::Model;

/// The regions of a unit's pairs, found once for the unit: their tables, and the lines at which
/// they begin.
#[derive(Drop)]
pub struct Regions {
    tables: [u8; 3],
    // The lines at which the second and the third region begin.
    second: usize,
    third: usize,
}

impl Model for Regions {
    ghost use Rattle.std.specs.Prelude.{slice_index};
    ghost use Rattle.l3_huff.specs.Tables.{IsTable};
    ghost use Rattle.l3_stream.specs.Units.{LineTables};

    ghost Value = { LineTables };

    ghost view = { λ r. record { tables = r.tables; second = r.second; third = r.third } };

    ghost invariant = { λ r. IsTable (slice_index r.tables 0) × IsTable (slice_index r.tables 1) × IsTable (slice_index r.tables 2) };
}

impl Regions {
    /// The regions that the fields of a unit tell.
    pub fn of(settings: &Settings, unit: &Unit) -> Regions
        requires { HasFields unit.now }
        ensures { table_by result ≡ table_at settings.now unit.now }
    {
        let band = usize::from(unit.region0) + 1;
        Regions {
            tables: unit.tables,
            second: first_line(settings, band),
            third: first_line(settings, band + usize::from(unit.region1) + 1),
        }
    }

    /// `table_select` of the pair that begins at a line.
    #[inline(always)]
    pub fn table(&self, line: usize) -> u8
        ensures value { result ≡ table_by self.now line }
        ensures table { IsTable result }
    {
        if line < self.second {
            self.tables[0]
        } else if line < self.third {
            self.tables[1]
        } else {
            self.tables[2]
        }
    }
}

/// The first line of a scale factor band; that of band 22 is 576.
pub fn first_line(settings: &Settings, band: usize) -> usize
    requires { band ≤ 22 }
    ensures { result ≡ edge settings.now band }
{
    usize::from(l3_base::edge(settings.sample_rate.index(), band))
}
