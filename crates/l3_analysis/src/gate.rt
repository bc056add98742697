use l3_base::GranuleNo;

/// Is told of the turns of an encoding, and may hold the thread that tells it.
///
/// It learns numbers alone, so whatever it does, no sample and no count is another.
pub trait Gate {
    /// A worker calls it after it has claimed that granule, before its work on it.
    fn between(&self, number: GranuleNo);

    /// The committer calls it before it takes that granule off the board.
    fn before_take(&self, number: GranuleNo);
}

/// Holds nobody.
#[derive(Drop)]
pub struct OpenGate;

impl Gate for OpenGate {
    fn between(&self, _number: GranuleNo) {}

    fn before_take(&self, _number: GranuleNo) {}
}
