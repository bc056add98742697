ghost use Rattle.l3_base.specs.Laws.{FirstLeastIsFirst, LeastPassingIsLeast, GreatestPassingIsGreatest, PlainHeader, PaddedHeader, JointHeader, MiddleSideHeader, MonoHeader};

/// The words for choosing are what their names say.
pub fn choosing<T>()
    ensures first { FirstLeastIsFirst T }
    ensures least { LeastPassingIsLeast }
    ensures greatest { GreatestPassingIsGreatest }
{}

/// Headers at 128 kbit/s and 44100 Hz.
///
/// FF FB 90 C0 of one channel, and FF FB 92 C0 where padded. In joint settings FF FB 90 40, and
/// FF FB 90 60 of a frame that is coded as middle and side; of one channel these change nothing.
pub fn header_bytes()
    ensures plain { PlainHeader }
    ensures padded { PaddedHeader }
    ensures joint { JointHeader }
    ensures middle_side { MiddleSideHeader }
    ensures mono { MonoHeader }
{}
