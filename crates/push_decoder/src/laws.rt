// Laws of decoders that are fed. The functions do nothing: their clauses are what is proved.
ghost use Rattle.push_decoder.specs.Laws.{EventsLaw, PiecesLaw};

/// What was answered is what the stream begins with: its front, and of its frames the first ones in order, whatever bytes follow.
pub fn events_are_of_the_stream()
    ensures { EventsLaw }
{}

/// However the same bytes were cut into pieces, the same was answered where nothing is due: the front where it came, and all frames that came.
pub fn pieces_make_no_difference()
    ensures { PiecesLaw }
{}
