// Laws of decoded codes. The functions do nothing: their clauses are what is proved.
ghost use Rattle.std.specs.Prelude.{ℕ, Bool, List};
ghost use Rattle.dst_spec.specs.Bits.{bits};
ghost use Rattle.dst_spec.specs.Interval.{IsCodeOf};
ghost use Rattle.dst_spec.specs.Laws.{OneListOfSymbols};
ghost use Rattle.arith_decoder.specs.Decoding.{Decoding, StandsFor};

/// For each list of probabilities one list of symbols has an interval with the code, unless its first twelve bits are all 1.
pub fn one_list_of_symbols()
    ensures { OneListOfSymbols }
{}

/// The interval of the symbols that a decoder has decoded has the code.
pub fn decoded_code()
    ensures { (d : Decoding) (pairs : List (Bool × ℕ)) → StandsFor d pairs → IsCodeOf (bits d.bytes) d.first pairs }
{}
