//! Laws of reading and writing.
ghost use Rattle.vol_records.specs.Records.{ReadsBack, ReadsExactly, FaultsAreFirst};
ghost use Rattle.vol_records.specs.Keeping.{DataIsAccepted};
ghost use Rattle.vol_records.specs.Streams.{ShowsStreams};
ghost use Rattle.vol_records.specs.Texts.{PrintsBack};

/// A law: the records of what is spelt are the lines.
pub fn read_back()
    ensures { ReadsBack }
{}

/// A law: a stream reads as lines exactly where it is their records, one behind the other, whatever the bytes of padding.
pub fn reading_is_exact()
    ensures { ReadsExactly }
{}

/// A law: a stream has a fault exactly where what stands before it is records, and the fault says what is wrong at its byte.
pub fn faults_are_first()
    ensures { FaultsAreFirst }
{}

/// A law: the catalogue that blocks tell shows the stream of each file but 1, 2 and 10, by its number and its sequence.
pub fn streams_are_shown()
    ensures { ShowsStreams }
{}

/// A law: a volume is accepted still once the data of one of its files, which is no directory, have changed alone.
pub fn data_is_accepted()
    ensures { DataIsAccepted }
{}

/// A law: of the records of a text's lines the same text is printed, and behind it their count, if its bytes are printable characters
/// and line feeds, and its last line ends with one. So what is stored is got back.
pub fn texts_print_back()
    ensures { PrintsBack }
{}
