//! The width of the parts of samples.

ghost use Rattle.std.specs.Prelude.{◌≡◌, ◌≤◌, ◌<◌, ◌*◌, ◌^◌};
ghost use Rattle.cdma_io.specs.SampleFile.{is_version, most_samples, sample_len, width_in};

use chip_core::Width;

/// Whether a file may have this version.
pub fn is_known(version: u16) -> bool
    ensures { result ≡ is_version version }
{
    version == 1 || version == 2
}

/// Returns the sample width of a file of this version.
pub fn width_for(version: u16) -> Width
    ensures { result ≡ width_in version }
{
    if version == 2 {
        Width::Eight
    } else {
        Width::Sixteen
    }
}

/// Returns the largest number of samples in a file of this width.
pub fn most_for(width: Width) -> u64
    ensures value { result ≡ most_samples width }
{
    match width {
        Width::Sixteen => 33_554_432,
        Width::Eight => 67_108_864,
    }
}

/// Returns how many bytes `count` samples take.
pub fn bytes_for(width: Width, count: u64) -> u64
    requires { count < 2 ^ 62 }
    ensures value { result ≡ sample_len width * count }
    ensures most { result ≤ 4 * count }
{
    match width {
        Width::Sixteen => 4 * count,
        Width::Eight => 2 * count,
    }
}
