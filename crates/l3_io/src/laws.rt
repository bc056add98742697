ghost use Rattle.std.specs.Prelude.{◌≤◌};
ghost use Rattle.l3_io.specs.Causes.{last_count};
ghost use Rattle.l3_io.specs.Laws.{RoseInTheFirst, RoseInTheSecond, SteadyInBoth, RoseOrSteady, NeverBoth, RoseIsGreater, OneMoreRose, StoodIsSteady};

use crate::{Sink, Source};

/// How counts of faults compose over calls in turn, and what "rose" says of counts that can be.
pub fn counts_of_faults()
    ensures first { RoseInTheFirst }
    ensures second { RoseInTheSecond }
    ensures both { SteadyInBoth }
    ensures either { RoseOrSteady }
    ensures never_both { NeverBoth }
    ensures greater { RoseIsGreater }
    ensures one_more { OneMoreRose }
    ensures stood { StoodIsSteady }
{}

/// The counts of a source and of a sink of any type can be: none is above 2^64 - 1.
pub fn possible_counts<S: Source, K: Sink>()
    ensures source { (source : S) → S.faults source ≤ last_count }
    ensures sink { (sink : K) → K.faults sink ≤ last_count }
{}
