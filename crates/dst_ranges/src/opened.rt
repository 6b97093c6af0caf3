// Opening a coded file for parts of its sound.
ghost use Rattle.std.specs.Prelude.{◌≡◌, ◌+◌, ◌≤◌, ℕ, List, Some, IfOk, IfErr};
ghost use Rattle.dsdiff_spec.specs.Faults.{first_some};
ghost use Rattle.dsdiff_spec.specs.Form.{size_of_sound};
ghost use Rattle.dsdiff_spec.specs.Words as words;
ghost use Rattle.dsdiff_spec.specs.Refusal.{past_fault, refusal};
ghost use Rattle.dsdiff_chunks.specs.Forms.{coded_seen};
ghost use Rattle.dsdiff_chunks.specs.Opening as opening;
ghost use Rattle.dst_ranges.specs.Opened.{IsOpened, IsReady};

use dsdiff_chunks::{CodedForm, FileFault, OpenFault};
use dst_commands::{AllFrames, WalkedForm, open_file, sound_size};
use dst_num::Channels;
use dst_streams::Source;
use frame_cache::RangeReader;
use std::alloc::Global;

/// How many sounds of frames are held.
const KEPT_FRAMES: u32 = 16;

/// The reader of a file's sound, with a buffer for that of one frame.
#[derive(Drop)]
pub(crate) struct OpenedParts {
    pub(crate) channels: Channels,
    pub(crate) reader: RangeReader,
    pub(crate) buffer: Vec<u8>,
}

/// Opens a coded file in whose sound all pairs lie, and takes all memory.
pub(crate) fn open_parts<S: Source>(
    alloc: Global,
    source: &mut S,
    pairs: &[(u32, u32)],
) -> Result<OpenedParts, OpenFault>
    ensures bytes { S.bytes source.new ≡ S.bytes source.old }
    ensures later { S.faults source.old ≤ S.faults source.new }
    ensures given { S.given source.new ≤ S.given source.old + 48208948 }
    ensures size { IfOk result (λ o. (n : ℕ) × (S.known source.new ≡ Some n) × (o.reader.end ≤ n)) }
    ensures ready { IfOk result (λ o. IsReady pairs.now o) }
    ensures opened { IfOk result (λ o. (file : List ℕ) → S.bytes source.old ≡ Some file → IsOpened pairs.now file o) }
    ensures stops { IfErr result (opening.HasOpenCause (refusal (words.range pairs.now)) (S.bytes source.old) (S.faults source.old) (S.faults source.new)) }
{
    let WalkedForm { form, index } = match open_file(alloc, source, &AllFrames) {
        Ok(walked) => walked,
        Err(fault) => return Err(fault),
    };
    if let Some(fault) = past_fault(&form, pairs) {
        return Err(OpenFault::File(fault));
    }
    let channels = form.channels;
    let reader = match RangeReader::new(alloc, &form, index, KEPT_FRAMES) {
        Ok(reader) => reader,
        Err(refused) => return Err(OpenFault::Memory(refused)),
    };
    let buffer = match vec![in alloc; 0; channels.sound_bytes()] {
        Ok(buffer) => buffer,
        Err(refused) => return Err(OpenFault::Memory(refused)),
    };
    Ok(OpenedParts {
        channels,
        reader,
        buffer,
    })
}

// The fault of the first pair that asks past the last group of a form.
fn past_fault(form: &CodedForm, pairs: &[(u32, u32)]) -> Option<FileFault>
    ensures first { result ≡ first_some (past_fault (coded_seen form.now)) pairs.now }
    ensures most { size_of_sound (coded_seen form.now) ≤ 112896000000 }
{
    let groups = sound_size(form) / form.channels.count() as u64;
    for (first, count) in pairs {
        let end = u64::from(*first) + u64::from(*count);
        if end > groups {
            return Some(FileFault::RangePast { end, groups });
        }
    }
    None
}
