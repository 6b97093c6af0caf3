// Parts of a sound, frame by frame.
ghost use Rattle.std.specs.Prelude.{◌≡◌, ◌+◌, ◌-◌, ◌*◌, ◌/◌, ◌<◌, ◌≤◌, ◌^◌, ◌++◌, ℕ, length, take, min, max};
ghost use Rattle.std.specs.List.{range_with_len};
ghost use Rattle.dsdiff_spec.specs.Bytes.{between};
ghost use Rattle.dsdiff_spec.specs.Ranges.{touched};

/// The frame behind the last one that bytes from a place on touch, each frame having so many bytes of sound.
pub(crate) fn end_of_touched(bytes: u64, from: u64, count: u64) -> u64
    requires some { 0 < bytes }
    requires fits { from + count < 2 ^ 63 }
    ensures least { from / bytes ≤ result }
    ensures touched { touched bytes from (from + count) ≡ range_with_len (from / bytes) (result - from / bytes) }
    ensures each { (k : ℕ) → from / bytes ≤ k → k < result → (k * bytes < from + count) × (from < k * bytes + bytes) }
    ensures whole { count ≡ 0 → result ≡ from / bytes }
    ensures reached { 0 < count → from + count ≤ result * bytes }
{
    if count == 0 {
        return from / bytes;
    }
    (from + count - 1) / bytes + 1
}

/// Copies what of a frame's sound belongs into `out`, whose first byte is byte `from` of the whole sound. The frame's sound begins at
/// byte `place`.
pub(crate) fn copy_part(sound: &[u8], place: u64, from: u64, out: &mut [u8])
    requires begins { place < from + length out.old }
    requires ends { from < place + length sound.now }
    requires fits { from + length out.old < 2 ^ 63 }
    requires sound_fits { place + length sound.now < 2 ^ 63 }
    ensures { let first = max from place in let end = min (from + length out.old) (place + length sound.now) in
        take (end - from) out.new ≡ take (first - from) out.old ++ between sound.now (first - place) (end - place) }
{
    let first = from.max(place);
    let end = (from + out.len() as u64).min(place + sound.len() as u64);
    let part = &sound[(first - place) as usize..(end - place) as usize];
    out[(first - from) as usize..(end - from) as usize].copy_from_slice(part);
}
