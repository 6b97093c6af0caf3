// Laws of frames. The functions do nothing: their clauses are what is proved.
ghost use Rattle.dst_spec.specs.Laws.{HeaderLaw, ReadingLaw, OneListOfSymbols, SpellingLaw, StoringLaw, DecodingLaw, TailLaw, CodeLengthLaw};

/// No header begins another one's bits, and one list of bits has one Params.
pub fn header_law()
    ensures { HeaderLaw }
{}

/// What spells a header is read as its parameters, and what is read as parameters spells them.
pub fn reading_law()
    ensures { ReadingLaw }
{}

/// For each list of probabilities one list of symbols has an interval with the code.
pub fn one_list_of_symbols()
    ensures { OneListOfSymbols }
{}

/// A frame offends in one way and means no sound, or doesn't offend and means one sound.
pub fn decoding_law()
    ensures { DecodingLaw }
{}

/// A frame that means a sound has one tail, and one sound.
pub fn tail_law()
    ensures { TailLaw }
{}

/// A spelling means the sound that it was made for.
pub fn spelling_law()
    ensures { SpellingLaw }
{}

/// A stored frame means the sound that it was made for, and is never longer than the plain form.
pub fn storing_law()
    ensures { StoringLaw }
{}

/// How many bits a code has depends on ranges and probabilities alone, so it is known without the code's bits.
pub fn code_length_law()
    ensures { CodeLengthLaw }
{}
