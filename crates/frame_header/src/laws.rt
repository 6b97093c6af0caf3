// Laws of headers. The functions do nothing: their clauses are what is proved.
ghost use Rattle.dst_spec.specs.Laws.{HeaderLaw};

/// No header begins another one's bits, and one list of bits has one Params.
pub fn header_law()
    ensures { HeaderLaw }
{
    dst_spec::laws::header_law();
}
