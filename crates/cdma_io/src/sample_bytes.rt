//! Samples as the bytes of a file.

ghost use Rattle.std.specs.Prelude.{◌≡◌, ◌*◌, length, All, FitsSigned};
ghost use Rattle.std.specs.Int.{cast_unsigned, w8};
ghost use Rattle.std.specs.List.{flat_map};
ghost use Rattle.cdma_io.specs.SampleFile.{HasBits, sample_len, sample_spelling};

use crate::width::bytes_for;
use byteorder::{BigEndian, ByteOrder};
use chip_core::{Sample, Width};

/// Returns the four bytes of a sample.
fn wide_bytes(sample: Sample) -> [u8; 4]
    ensures { result ≡ sample_spelling Width.Sixteen sample }
{
    let mut bytes = [0; 4];
    BigEndian::write_i16(&mut bytes, sample.i);
    BigEndian::write_i16(&mut bytes[2..], sample.q);
    bytes
}

/// Returns the byte of a part.
fn part_byte(part: i16) -> u8
    requires { FitsSigned w8 part }
    ensures { result ≡ cast_unsigned w8 part }
{
    (part as i8).cast_unsigned()
}

/// Returns the two bytes of a sample.
fn narrow_bytes(sample: Sample) -> [u8; 2]
    requires { HasBits Width.Eight sample }
    ensures { result ≡ sample_spelling Width.Eight sample }
{
    [part_byte(sample.i), part_byte(sample.q)]
}

/// Spells a sample in the bytes of its width.
fn spell_sample(width: Width, sample: Sample, bytes: &mut [u8])
    requires fits { HasBits width sample }
    requires bytes { length bytes.old ≡ sample_len width }
    ensures { bytes.new ≡ sample_spelling width sample }
{
    match width {
        Width::Sixteen => bytes.copy_from_slice(&wide_bytes(sample)),
        Width::Eight => bytes.copy_from_slice(&narrow_bytes(sample)),
    }
}

/// Spells samples as in a file of this width: each part in two's complement, high byte first, `i`
/// before `q`.
///
/// `bytes` has exactly the length of the samples: four bytes per sample with 16 bits, two with 8
/// bits.
pub fn sample_bytes_into(width: Width, samples: &[Sample], bytes: &mut [u8])
    requires fit { All (HasBits width) samples.now }
    requires room { length bytes.old ≡ sample_len width * length samples.now }
    ensures spelled { bytes.new ≡ flat_map (sample_spelling width) samples.now }
{
    for k in 0..samples.len() {
        let from = bytes_for(width, k as u64) as usize;
        let end = bytes_for(width, k as u64 + 1) as usize;
        spell_sample(width, samples[k], &mut bytes[from..end]);
    }
}
