ghost use Rattle.l3_stream.specs.Laws.{TapeByPositions, CodesHaveLengths, HeaderIsThere, HeaderIsFound, SideIsThere, SideIsFound, SideIsByRule};
ghost use Rattle.l3_stream.specs.Cases.{ReadingsOfZeroSample, ReadingsOfOnePair, ReadingsInOrder};
ghost use Rattle.l3_stream.specs.StreamLaws.{OneReading, DeviationIsExact, ReadingIsLocal};

/// The tape, laid frame by frame, by positions: where frames fit, each bit is the bit of the codes
/// that stand there, or 0.
pub fn tape_by_positions()
    ensures { TapeByPositions }
{}

/// The main data of a coded frame is as long as its units say.
pub fn code_lengths()
    ensures { CodesHaveLengths }
{}

/// Headers and side information are read exactly where they are spelled, and where the rule of
/// reading allows their fields.
pub fn reading_rules()
    ensures header_there { HeaderIsThere }
    ensures header_found { HeaderIsFound }
    ensures side_there { SideIsThere }
    ensures side_found { SideIsFound }
    ensures side_rule { SideIsByRule }
{}

/// Bytes are spelled by frames in at most one way.
pub fn one_reading()
    ensures { OneReading }
{}

/// A stream has no deviation exactly where some frames spell its bytes, and then these frames and
/// their settings are read.
pub fn deviation_is_exact()
    ensures { DeviationIsExact }
{}

/// A frame is read from its own bytes, whatever follows them, so a stream can be read frame by
/// frame.
pub fn reading_is_local()
    ensures { ReadingIsLocal }
{}

/// The readings of the stream of one zero sample and of a few others, each with one thing wrong,
/// computed from the definition.
pub fn worked_readings()
    ensures zero_sample { ReadingsOfZeroSample }
    ensures one_pair { ReadingsOfOnePair }
    ensures order { ReadingsInOrder }
{}
