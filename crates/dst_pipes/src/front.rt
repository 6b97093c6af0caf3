// What stands in front of the sound of the plain file.
ghost use Rattle.std.specs.Prelude.{◌≡◌, ◌+◌, ◌≤◌, length, MatchResult};
ghost use Rattle.dst_streams.specs.Causes.{HasCause};
ghost use Rattle.dsdiff_spec.specs.Written.{cmpr_plain};
ghost use Rattle.dsdiff_chunks.specs.Lawful.{IsPropBody};
ghost use Rattle.dst_commands.specs.Writing.{Adds, Stops};
ghost use Rattle.dst_pipes.specs.Fronts.{version_bytes, front_with};

use dsdiff_chunks::{prop_length, write_head, write_prop};
use dst_commands::write_opening;
use dst_streams::{Failed, Sink};

/// `CMPR` of plain sound, with its pad byte.
const PLAIN_CMPR: &[u8; 32] = b"CMPR\0\0\0\0\0\0\0\x13DSD \x0enot compressed\0";

fn plain_cmpr() -> &'static [u8]
    ensures { result.now ≡ cmpr_plain }
{
    PLAIN_CMPR
}

/// Writes what stands in front of a sound of so many bytes.
pub(crate) fn write_front<K: Sink>(
    sink: &mut K,
    version: &[u8],
    prop: &[u8],
    sound: u64,
) -> Result<(), Failed>
    requires version { length version.now ≡ 4 }
    requires prop { IsPropBody prop.now }
    requires most { sound ≤ 112896000000 }
    ensures cause { HasCause (K.faults sink.old) (K.faults sink.new) result }
    ensures written { MatchResult result
        (λ _. Adds (front_with version.now prop.now sound) (K.written sink.old) (K.written sink.new) (K.room sink.old) (K.room sink.new))
        (λ _. Stops (Unit {0}) (front_with version.now prop.now sound) (K.written sink.old) (K.written sink.new) (K.room sink.old)) }
{
    let cmpr = plain_cmpr();
    let size = 4 + 16 + prop_length(prop, cmpr) + 12 + sound;
    let Ok(()) = write_opening(sink, size) else {
        return Err(Failed);
    };
    let Ok(()) = write_version(sink, version) else {
        return Err(Failed);
    };
    let Ok(()) = write_prop(sink, prop, cmpr) else {
        return Err(Failed);
    };
    write_head(sink, *b"DSD ", sound)
}

// Writes `FVER`.
fn write_version<K: Sink>(sink: &mut K, version: &[u8]) -> Result<(), Failed>
    ensures cause { HasCause (K.faults sink.old) (K.faults sink.new) result }
    ensures written { MatchResult result
        (λ _. Adds (version_bytes version.now) (K.written sink.old) (K.written sink.new) (K.room sink.old) (K.room sink.new))
        (λ _. Stops (Unit {0}) (version_bytes version.now) (K.written sink.old) (K.written sink.new) (K.room sink.old)) }
{
    let Ok(()) = write_head(sink, *b"FVER", 4) else {
        return Err(Failed);
    };
    sink.append(version)
}
