// Laws of streams. The functions do nothing: their clauses are what is proved.
ghost use Rattle.stream_spec.specs.Lawful.{LawfulStreamsLaw};
ghost use Rattle.stream_spec.specs.More.{MoreBytesLaw};
ghost use Rattle.stream_spec.specs.Outcome.{OneOutcomeLaw};
ghost use Rattle.dsdiff_spec.specs.Streams.{StreamLaw};

/// A file that is accepted for decoding is a stream: in front of its frames stand its `FVER`, its `PROP` and its frame count, its frames are
/// those that the walk finds, in order, and it ends behind the last of them.
pub fn accepted_files_stream()
    ensures { StreamLaw }
{}

/// What stands in front of a stream's frames keeps its rules, no frame is longer than frames may be, no more come than the
/// frame count, and a stream that ends behind its last frame has as many as that says.
pub fn streams_are_lawful()
    ensures { LawfulStreamsLaw }
{}

/// What is decided by some bytes of a stream stays, whatever bytes follow: a stream that has ended or broken a rule is the same, and of one that was
/// cut off the front and the frames are those that the longer one begins with.
pub fn more_bytes()
    ensures { MoreBytesLaw }
{}

/// A stream has one outcome.
pub fn one_outcome()
    ensures { OneOutcomeLaw }
{}
