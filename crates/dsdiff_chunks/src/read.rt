// Reading a range of a source whole.
ghost use Rattle.std.specs.Prelude.{◌≡◌, ◌+◌, ◌^◌, ◌<◌, ◌≤◌, ℕ, List, length, Some, OnOk};
ghost use Rattle.dst_streams.specs.Causes.{HasCause};
ghost use Rattle.dst_streams.specs.Told.{counted};
ghost use Rattle.dsdiff_spec.specs.Bytes.{bytes_at};

use dst_streams::{Failed, Source};

/// Fills `out` with the source's bytes from a place on. Where the source fails, the front of `out` may be filled.
pub fn read_range<S: Source>(source: &mut S, from: u64, out: &mut [u8]) -> Result<(), Failed>
    requires fits { from + length out.old < 2 ^ 64 }
    requires inside { (n : ℕ) × (S.known source.old ≡ Some n) × (from + length out.old ≤ n) }
    ensures bytes { S.bytes source.new ≡ S.bytes source.old }
    ensures loan { S.loan source.new ≡ S.loan source.old }
    ensures size_stays { S.known source.new ≡ S.known source.old }
    ensures read { OnOk result ((xs : List ℕ) → S.bytes source.old ≡ Some xs → out.new ≡ bytes_at xs from (length out.old)) }
    ensures given { S.given source.new ≤ S.given source.old + length out.old }
    ensures given_whole { OnOk result (S.given source.old < 2 ^ 64 → S.given source.new ≡ counted (S.given source.old) (length out.old)) }
    ensures cause { HasCause (S.faults source.old) (S.faults source.new) result }
    ensures quiet { OnOk result (S.faults source.new ≡ S.faults source.old) }
{
    let mut place = 0;
    while place < out.len() {
        let count = source.read_at(from + place as u64, &mut out[place..])?;
        place += count;
    }
    Ok(())
}
