// Laws of files. The functions do nothing: their clauses are what is proved.
ghost use Rattle.dsdiff_spec.specs.Laws.{AcceptanceLaw, RestoringLaw, PiecesLaw, CuttingLaw, LevelPicksLaw, HeadlineLaw};

/// What encoding writes of an accepted plain file is accepted for decoding, checking and listing, and each of its frames for
/// writing its sound, by the walk and by the index. Its frames are the stored ones in order, none of them longer than its
/// plain form of one byte more than its sound, and its one index is its walk.
pub fn acceptance()
    ensures { AcceptanceLaw }
{}

/// What encoding writes of an accepted plain file is decoded to that file, byte for byte, and to no other.
pub fn restoring()
    ensures { RestoringLaw }
{}

/// A sound that is cut into pieces of so many bytes, the last one filled up, comes back where the pieces are joined and cut
/// to its size.
pub fn pieces()
    ensures { PiecesLaw }
{}

/// What cutting writes of an accepted coded file, frames `first` to `last` of it, is accepted for decoding, checking and listing,
/// and each of its frames for writing its sound, by the walk and by the index. Its frames are those frames byte for byte, and its
/// one index is its walk. It is decoded to their sounds, one after the other: the sound ends where it ended in the file that was
/// cut, with the same pad byte, if the last frame is among them, and else behind the last of them.
pub fn cutting()
    ensures { CuttingLaw }
{}

/// What a level picks for a frame's sound is what encoding asks of an encoder: at most eleven parameters, each lawful for the
/// channels.
pub fn level_picks()
    ensures { LevelPicksLaw }
{}

/// The promise of the whole: of an accepted plain file and a level, encoding writes the file that the definitions name, no frame
/// longer than its plain form; decoding it gives back every bit, and any one frame is written alone, found by its chunk or by
/// the index. None of these has another outcome.
pub fn headline()
    ensures { HeadlineLaw }
{}
