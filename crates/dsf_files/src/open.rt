// Opening a DSF file: the rules in order, by its size and its header.
ghost use Rattle.std.specs.Prelude.{◌≡◌, ◌+◌, ◌*◌, ◌/◌, ◌≤◌, ℕ, List, true, Some, None, Err, IfOk, IfErr, OnOk};
ghost use Rattle.std.specs.declared.alloc.AllocError.{AllocError};
ghost use Rattle.dst_num.specs.Channels.{shape_of};
ghost use Rattle.dst_streams.specs.Causes.{Rose};
ghost use Rattle.dsdiff_spec.specs.declared.faults.FileFault.{FileFault};
ghost use Rattle.dsdiff_spec.specs.Dsf.{little_at, dsf_of, dsf_fault, octets};
ghost use Rattle.dsdiff_spec.specs.Form.{frames_for};
ghost use Rattle.dsf_files.specs.Forms.{dsf_seen, has_blocks, is_order, IsFormOf};
ghost use Rattle.dsf_files.specs.Opening.{has_ids, are_sizes, is_format, layout_fault, channels_fault, size_fault, header_fault};

use crate::form::DsfForm;
use crate::header::{HEADER_SIZE, block_bytes, octet_count};
use byteorder::{ByteOrder, LittleEndian};
use dsdiff_chunks::{FileFault, OpenFault, read_range};
use dst_num::Channels;
use dst_streams::Source;

/// Opens a DSF file: what its header says, or the fault of the first rule that the file breaks. It takes no memory.
///
/// The blocks aren't read. Metadata, the size that the header says of the file, and its reserved field aren't looked at.
pub fn open_dsf<S: Source>(source: &mut S) -> Result<DsfForm, OpenFault>
    ensures bytes { S.bytes source.new ≡ S.bytes source.old }
    ensures size_stays { (n : ℕ) → S.known source.old ≡ Some n → S.known source.new ≡ Some n }
    ensures has_blocks { IfOk result (λ f. has_blocks (S.known source.new) f ≡ true) }
    ensures order { IfOk result (λ f. is_order f.bits ≡ true) }
    ensures form { IfOk result (λ f. (xs : List ℕ) → S.bytes source.old ≡ Some xs → IsFormOf xs f) }
    ensures fault { (fault : FileFault) → result ≡ Err (OpenFault.File fault) → (xs : List ℕ) → S.bytes source.old ≡ Some xs → dsf_fault xs ≡ Some fault }
    ensures read { result ≡ Err OpenFault.Read → Rose (S.faults source.old) (S.faults source.new) }
    ensures never_memory { (refused : AllocError) → result ≡ Err (OpenFault.Memory refused) → ⊥ }
    ensures later { S.faults source.old ≤ S.faults source.new }
    ensures given { S.given source.new ≤ S.given source.old + 92 }
{
    let Ok(size) = source.size() else {
        return Err(OpenFault::Read);
    };
    if size < HEADER_SIZE as u64 {
        return Err(OpenFault::File(FileFault::DsfForm));
    }
    let mut header = [0; HEADER_SIZE];
    let Ok(()) = read_range(source, 0, &mut header) else {
        return Err(OpenFault::Read);
    };
    match form_of(size, &header) {
        Ok(form) => Ok(form),
        Err(fault) => Err(OpenFault::File(fault)),
    }
}

// What the header of a file of some size says, or the fault of the first rule.
fn form_of(size: u64, header: &[u8; 92]) -> Result<DsfForm, FileFault>
    ensures accepted { OnOk result (header_fault size header.now ≡ None) }
    ensures says { IfOk result (λ f. dsf_of header.now ≡ dsf_seen f) }
    ensures blocks { IfOk result (λ f. has_blocks (Some size) f ≡ true) }
    ensures order { IfOk result (λ f. is_order f.bits ≡ true) }
    ensures refused { IfErr result (λ fault. header_fault size header.now ≡ Some fault) }
{
    let order = match order_of(header) {
        Ok(order) => order,
        Err(fault) => return Err(fault),
    };
    let count = number_of_4(header, 52);
    let rate = number_of_4(header, 56);
    let channels = match channels_for(count, rate) {
        Ok(channels) => channels,
        Err(fault) => return Err(fault),
    };
    let form = DsfForm {
        channels,
        samples: number_of_8(header, 64),
        kind: number_of_4(header, 48),
        bits: order,
    };
    match check_size(size, number_of_8(header, 84), &form) {
        Some(fault) => Err(fault),
        None => Ok(form),
    }
}

// The number of four bytes at a place of a header, and of eight.
fn number_of_4(header: &[u8; 92], place: usize) -> u32
    requires { place ≤ 88 }
    ensures { result ≡ little_at header.now place 4 }
{
    LittleEndian::read_u32(&header[place..])
}

fn number_of_8(header: &[u8; 92], place: usize) -> u64
    requires { place ≤ 84 }
    ensures { result ≡ little_at header.now place 8 }
{
    LittleEndian::read_u64(&header[place..])
}

// The order of bits, where ids, sizes and the format are those of the layout.
fn order_of(header: &[u8; 92]) -> Result<u8, FileFault>
    ensures accepted { OnOk result (layout_fault header.now ≡ None) }
    ensures says { IfOk result (λ bits. little_at header.now 60 4 ≡ bits) }
    ensures order { IfOk result (λ bits. is_order bits ≡ true) }
    ensures refused { IfErr result (λ fault. layout_fault header.now ≡ Some fault) }
{
    if !has_ids(header) || !are_sizes(number_of_8(header, 4), number_of_8(header, 32)) {
        return Err(FileFault::DsfForm);
    }
    let version = number_of_4(header, 40);
    let format = number_of_4(header, 44);
    let bits = number_of_4(header, 60);
    let block = number_of_4(header, 72);
    if !is_format(version, format, bits, block) {
        return Err(FileFault::DsfFormat);
    }
    if bits == 1 { Ok(1) } else { Ok(8) }
}

// Whether the ids are those of the layout, and sizes and format.
fn has_ids(header: &[u8; 92]) -> bool
    ensures { result ≡ has_ids header.now }
{
    header[..4] == b"DSD "[..] && header[28..32] == b"fmt "[..] && header[80..84] == b"data"[..]
}

fn are_sizes(first: u64, second: u64) -> bool
    ensures { result ≡ are_sizes first second }
{
    first == 28 && second == 52
}

fn is_format(version: u32, format: u32, bits: u32, block: u32) -> bool
    ensures { result ≡ is_format version format bits block }
{
    version == 1 && format == 0 && block == 4096 && (bits == 1 || bits == 8)
}

// The channels of a count and a rate.
fn channels_for(count: u32, rate: u32) -> Result<Channels, FileFault>
    ensures accepted { OnOk result (channels_fault count rate ≡ None) }
    ensures channels { IfOk result (λ c. c ≡ shape_of count (rate / 2822400)) }
    ensures refused { IfErr result (λ fault. channels_fault count rate ≡ Some fault) }
{
    if count < 1 || count > 6 {
        return Err(FileFault::Channels);
    }
    if rate != 2_822_400 && rate != 5_644_800 && rate != 11_289_600 {
        return Err(FileFault::Rate);
    }
    let Some(channels) = Channels::at(count, rate / 2_822_400) else {
        unreachable!()
    };
    Ok(channels)
}

// Whether the samples of a form are too many, or their blocks pass what the file says of their size, or the file.
fn check_size(size: u64, data_size: u64, form: &DsfForm) -> Option<FileFault>
    ensures fault { result ≡ size_fault size data_size (dsf_seen form.now) }
    ensures blocks { result ≡ None → has_blocks (Some size) form.now ≡ true }
{
    if frame_count(form) > 1_000_000 {
        return Some(FileFault::TooManyFrames);
    }
    let blocks = block_bytes(form);
    if data_size < 12 + blocks {
        return Some(FileFault::DsfCount {
            samples: form.samples,
            size: data_size,
        });
    }
    if 92 + blocks > size {
        return Some(FileFault::Overrun { place: 80 });
    }
    None
}

// How many frames the samples need.
fn frame_count(form: &DsfForm) -> u64
    ensures { result ≡ frames_for (4704 * (dsf_seen form.now).multiple) (octets (dsf_seen form.now)) }
{
    let frame = 4704 * form.channels.multiple() as u64;
    (octet_count(form) + frame - 1) / frame
}
