// The header of a DSF file.
ghost use Rattle.std.specs.Prelude.{◌≡◌, ◌+◌, ◌*◌, ◌^◌, ◌<◌, ◌≤◌, MatchResult, OnOk};
ghost use Rattle.dst_streams.specs.Causes.{HasCause};
ghost use Rattle.dst_streams.specs.Told.{IsCutShort, IsSure, and_then};
ghost use Rattle.dsdiff_spec.specs.Dsf.{dsf_header, rows, octets, bytes_of_blocks};
ghost use Rattle.dsf_files.specs.Forms.{dsf_seen};

use crate::form::DsfForm;
use dsdiff_chunks::append_all;
use dst_streams::{Failed, Sink};

/// Bytes of the header of a DSF file, with the head of its blocks.
pub(crate) const HEADER_SIZE: usize = 92;

// What stands between the numbers of a header.
const BEGINNING: [u8; 12] = *b"DSD \x1c\0\0\0\0\0\0\0";

const FORMAT: [u8; 28] = *b"\0\0\0\0\0\0\0\0fmt \x34\0\0\0\0\0\0\0\x01\0\0\0\0\0\0\0";

const BLOCKS: [u8; 12] = *b"\0\x10\0\0\0\0\0\0data";

/// How many blocks each channel has: one for each 32,768 samples begun.
pub(crate) fn row_count(form: &DsfForm) -> u64
    ensures rows { result ≡ rows (dsf_seen form.now) }
    ensures most { result ≤ 2 ^ 49 }
{
    form.samples.div_ceil(32_768)
}

/// How many bytes of sound each channel has: one for each 8 samples begun.
pub(crate) fn octet_count(form: &DsfForm) -> u64
    ensures octets { result ≡ octets (dsf_seen form.now) }
    ensures most { result ≤ 2 ^ 61 }
{
    form.samples.div_ceil(8)
}

/// The size of all blocks in bytes.
pub(crate) fn block_bytes(form: &DsfForm) -> u64
    ensures bytes { result ≡ bytes_of_blocks (dsf_seen form.now) }
    ensures most { result ≤ 6 * 2 ^ 61 }
{
    row_count(form) * (4096 * form.channels.count() as u64)
}

/// Appends the 92 bytes of the header of a DSF file without metadata, behind which its blocks stand.
pub fn write_dsf_head<K: Sink>(sink: &mut K, form: &DsfForm) -> Result<(), Failed>
    ensures written { MatchResult result (λ _. K.written sink.new ≡ and_then (K.written sink.old) (dsf_header (dsf_seen form.now))) (λ _. IsCutShort (K.written sink.old) (dsf_header (dsf_seen form.now)) (K.written sink.new)) }
    ensures appended { OnOk result (K.appended sink.new ≡ K.appended sink.old + 92) }
    ensures grows { K.appended sink.old ≤ K.appended sink.new }
    ensures sure { IsSure (K.room sink.old) (K.room sink.new) 92 result }
    ensures cause { HasCause (K.faults sink.old) (K.faults sink.new) result }
{
    let size = block_bytes(form);
    let channels = form.channels.count() as u32;
    let rate = 2_822_400 * form.channels.multiple() as u32;
    append_all(
        sink,
        &[
            &BEGINNING,
            &(92 + size).to_le_bytes(),
            &FORMAT,
            &form.kind.to_le_bytes(),
            &channels.to_le_bytes(),
            &rate.to_le_bytes(),
            &u32::from(form.bits).to_le_bytes(),
            &form.samples.to_le_bytes(),
            &BLOCKS,
            &(12 + size).to_le_bytes(),
        ],
    )
}
