//! The samples of a file, as bytes.

ghost use Rattle.std.specs.Prelude.{◌≡◌, ◌<◌, ◌≤◌, ◌+◌, ◌*◌, ◌^◌, length, All};
ghost use Rattle.std.specs.List.{flat_map};
ghost use Rattle.cdma_io.specs.SampleFile.{HasBits, ReadsSamples, sample_len, sample_spelling};

use crate::file_fault::FileFault;
use crate::filling::fill;
use crate::source::Source;
use crate::width::bytes_for;
use byteorder::{BigEndian, ByteOrder};
use chip_core::{Sample, Width};

/// The most samples that are read at once.
const MOST_AT_ONCE: usize = 1024;

/// Returns the sample that four bytes spell.
fn parse_wide(bytes: &[u8]) -> Sample
    requires { length bytes.now ≡ 4 }
    ensures spelled { bytes.now ≡ sample_spelling Width.Sixteen result }
    ensures in_range { HasBits Width.Sixteen result }
{
    Sample {
        i: BigEndian::read_i16(bytes),
        q: BigEndian::read_i16(&bytes[2..]),
    }
}

/// Returns the sample that two bytes spell.
fn parse_narrow(bytes: &[u8]) -> Sample
    requires { length bytes.now ≡ 2 }
    ensures spelled { bytes.now ≡ sample_spelling Width.Eight result }
    ensures in_range { HasBits Width.Eight result }
{
    Sample {
        i: i16::from(bytes[0].cast_signed()),
        q: i16::from(bytes[1].cast_signed()),
    }
}

/// Returns the sample that the bytes spell.
fn parse_sample(width: Width, bytes: &[u8]) -> Sample
    requires { length bytes.now ≡ sample_len width }
    ensures spelled { bytes.now ≡ sample_spelling width result }
    ensures in_range { HasBits width result }
{
    match width {
        Width::Sixteen => parse_wide(bytes),
        Width::Eight => parse_narrow(bytes),
    }
}

/// Fills `out` with the samples that the bytes spell.
fn parse_samples(width: Width, bytes: &[u8], out: &mut [Sample])
    requires few { length out.old ≤ MOST_AT_ONCE }
    requires bytes { length bytes.now ≡ sample_len width * length out.old }
    ensures spelled { bytes.now ≡ flat_map (sample_spelling width) out.new }
    ensures in_range { All (HasBits width) out.new }
{
    for k in 0..out.len() {
        let from = bytes_for(width, k as u64) as usize;
        let end = bytes_for(width, k as u64 + 1) as usize;
        out[k] = parse_sample(width, &bytes[from..end]);
    }
}

/// Reads one piece of the samples, from offset `place` of the file.
fn read_piece<S: Source>(
    source: &mut S,
    width: Width,
    place: u64,
    out: &mut [Sample],
) -> Result<(), FileFault>
    requires few { length out.old ≤ MOST_AT_ONCE }
    requires place_fits { place + 4 * length out.old < 2 ^ 64 }
    ensures { ReadsSamples width place (length out.old) (S.rest source.old) (S.rest source.new)
        (S.faults source.old) (S.faults source.new) out.new result }
{
    let mut buffer = [0; 4 * MOST_AT_ONCE];
    let wanted = bytes_for(width, out.len() as u64) as usize;
    let bytes = &mut buffer[..wanted];
    let count = fill(source, bytes)?;
    if count < wanted {
        return Err(FileFault::Short {
            at: place + count as u64,
        });
    }
    parse_samples(width, bytes, out);
    Ok(())
}

/// Fills `out` with samples, from offset `place` of the file.
pub fn read_samples<S: Source>(
    source: &mut S,
    width: Width,
    place: u64,
    out: &mut [Sample],
) -> Result<(), FileFault>
    requires { place + 4 * length out.old < 2 ^ 64 }
    ensures { ReadsSamples width place (length out.old) (S.rest source.old) (S.rest source.new)
        (S.faults source.old) (S.faults source.new) out.new result }
{
    let mut done = 0;
    while done < out.len() {
        let count = MOST_AT_ONCE.min(out.len() - done);
        let from = place + bytes_for(width, done as u64);
        read_piece(source, width, from, &mut out[done..done + count])?;
        done += count;
    }
    Ok(())
}
