//! The header of a sample file.

ghost use Rattle.std.specs.Prelude.{◌≡◌, ◌≢◌, ◌≤◌, length, Err, IfOk};
ghost use Rattle.cdma_io.specs.SampleFile.{IsLawfulHeader, flags_of, form_flag, check_form_of};
ghost use Rattle.cdma_io.specs.SampleFile.{header_spelling, opening, width_of};

use crate::file_fault::FileFault;
use crate::width::{is_known, most_for, width_for};
use byteorder::{BigEndian, ByteOrder};
use chip_core::{CheckForm, Width};

/// The length of a header, in bytes.
pub const HEADER_LEN: usize = 16;

/// The first bytes of a file.
const MAGIC: [u8; 4] = [b'I', b'S', b'9', b'5'];

/// The header of a sample file.
#[derive(Clone, Copy, PartialEq, Eq, Debug)]
pub struct Header {
    /// The version of the format, 1 or 2.
    pub version: u16,
    /// The form of the 30-bit checks of messages.
    pub check30: CheckForm,
    /// The form of the 16-bit checks of messages.
    pub check16: CheckForm,
    /// The number of samples that follow: at most 33,554,432 in version 1, 67,108,864 in version 2.
    pub count: u64,
}

impl Header {
    /// Returns the width of each part of a sample: 8 bits in version 2, otherwise 16.
    pub fn width(&self) -> Width
        ensures { result ≡ width_of self.now }
    {
        width_for(self.version)
    }
}

/// Returns the 16 bytes of a header.
pub fn header_bytes(header: &Header) -> [u8; 16]
    ensures { result ≡ header_spelling header.now }
{
    let mut bytes = [0; HEADER_LEN];
    bytes[..4].copy_from_slice(&MAGIC);
    BigEndian::write_u16(&mut bytes[4..], header.version);
    BigEndian::write_u16(&mut bytes[6..], flags_for(header));
    BigEndian::write_u64(&mut bytes[8..], header.count);
    bytes
}

/// Returns the flags of a header.
fn flags_for(header: &Header) -> u16
    ensures { result ≡ flags_of header.now }
{
    flag_for(header.check30) + 2 * flag_for(header.check16)
}

/// Returns 1 if check bits are complemented, otherwise 0.
fn flag_for(form: CheckForm) -> u16
    ensures value { result ≡ form_flag form }
    ensures most { result ≤ 1 }
{
    match form {
        CheckForm::Plain => 0,
        CheckForm::Complemented => 1,
    }
}

/// Returns the header that 16 bytes spell, or the first fault in them.
pub fn parse_header(bytes: &[u8]) -> Result<Header, FileFault>
    requires { length bytes.now ≡ HEADER_LEN }
    ensures value { result ≡ opening bytes.now }
    ensures bytes_alone { result ≢ Err FileFault.ReadFault }
    ensures lawful { IfOk result IsLawfulHeader }
    ensures spelled { IfOk result (λ header. bytes.now ≡ header_spelling header) }
{
    if !bytes.starts_with(&MAGIC) {
        return Err(FileFault::Magic);
    }
    let version = BigEndian::read_u16(&bytes[4..]);
    if !is_known(version) {
        return Err(FileFault::Version);
    }
    let flags = BigEndian::read_u16(&bytes[6..]);
    if flags >= 4 {
        return Err(FileFault::Flags);
    }
    let count = BigEndian::read_u64(&bytes[8..]);
    if count > most_for(width_for(version)) {
        return Err(FileFault::Count);
    }
    Ok(Header {
        version,
        check30: check_form(flags % 2 == 1),
        check16: check_form(flags / 2 % 2 == 1),
        count,
    })
}

/// Returns the complemented form if the flag is set.
fn check_form(flag: bool) -> CheckForm
    ensures { result ≡ check_form_of flag }
{
    if flag {
        CheckForm::Complemented
    } else {
        CheckForm::Plain
    }
}
