ghost use Rattle.l3_wav.specs.Laws.{ChunksNeverRunOut, FilesHaveChannels16};
ghost use Rattle.l3_wav.specs.Windows.{WindowsOfSamples, WindowsOfFronts};
ghost use Rattle.l3_wav.specs.DemoLaws.{DemoFilesAreWav};

/// How many chunks a head can have: never more than its definition looks at.
pub fn chunks_in_a_head()
    ensures { ChunksNeverRunOut }
{}

/// What the samples of an accepted file are, by its bytes alone.
pub fn samples_of_a_file()
    ensures { FilesHaveChannels16 }
{}

/// The windows of the samples that are kept are those of all samples, and so are those of a front
/// of the samples, where it reaches.
pub fn windows_of_samples()
    ensures kept { WindowsOfSamples }
    ensures front { WindowsOfFronts }
{}

/// The file that a source stands for is a WAV file of two channels at 44100 Hz, whose data is all
/// that follows its head: the samples of the signal, which are numbers of 16 bits.
pub fn demo_files_are_wav()
    ensures { DemoFilesAreWav }
{}
