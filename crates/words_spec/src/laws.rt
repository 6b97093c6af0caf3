// Laws of words. The functions do nothing: their clauses are what is proved.
ghost use Rattle.words_spec.specs.Laws.{OneOutcomeLaw, OneRowLaw};

/// No words have two rows.
pub fn one_row()
    ensures { OneRowLaw }
{}

/// Words and a file have one outcome.
pub fn one_outcome()
    ensures { OneOutcomeLaw }
{}
