// Laws of files. The functions do nothing: their clauses are what is proved.
ghost use Rattle.dsdiff_spec.specs.Laws.{OneSoundLaw, SameByIndexLaw};

/// Where the index of a coded file is its walk, a frame that is found by the index has the outcome of the walk.
pub fn same_by_index()
    ensures { SameByIndexLaw }
{}

/// A coded form of a file has one sound, also where frames of it mean none.
pub fn one_sound()
    ensures { OneSoundLaw }
{}
