ghost use Rattle.l3_encoder.specs.FileLaws.{FilesAreEncoded};

/// The stream that a file is encoded to is spelled by the chosen frames of the file's samples, and
/// by nothing else; read again it gives just these frames, so it has no deviation; and each frame's
/// main data begins within the tape.
pub fn files_are_encoded()
    ensures { FilesAreEncoded }
{}
