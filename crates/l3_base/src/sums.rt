ghost use Rattle.l3_base.specs.Sums.{FloorIsGreatest};

/// Floor division is what its name says.
pub fn sum_laws()
    ensures { FloorIsGreatest }
{}
