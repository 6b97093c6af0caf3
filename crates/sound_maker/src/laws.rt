// Laws of made sound. The functions do nothing: their clauses are what is proved.
ghost use Rattle.std.specs.Prelude.{◌≡◌, ℕ, ◌+◌, ◌++◌, []};
ghost use Rattle.dst_spec.specs.Sample.{Shape};
ghost use Rattle.dsdiff_spec.specs.Made.{made_sound};
ghost use Rattle.sound_maker.specs.Making.{frame_of, after_frame, maker_after};

/// The frames that a maker makes one after another are the made sound.
pub fn in_order()
    ensures none { (start : ℕ) (f : Shape) → made_sound start 0 f ≡ [] }
    ensures next { (start n : ℕ) (f : Shape) → made_sound start (n + 1) f ≡ made_sound start n f ++ frame_of (maker_after start n f) }
    ensures later { (start n : ℕ) (f : Shape) → after_frame (maker_after start n f) ≡ maker_after start (n + 1) f }
{}
