//! The options of the commands, as data.

ghost use Rattle.std.specs.Prelude.{◌≡◌, IfSome};
ghost use Rattle.command_line.specs.Args.{IsAdmitted, form_admits, eight_digits_in, value_in};
ghost use Rattle.command_line.specs.Args.{argument_number_in, value_spelled_in};

use chip_core::digits_in;
use hex::FromHex;

/// The form of an option's values.
#[derive(Clone, Copy)]
pub enum ValueForm {
    /// Numbers from `least` to `most`, in decimal.
    Between {
        /// The smallest value.
        least: u128,
        /// The largest value.
        most: u128,
    },
    /// Exactly these two numbers, in decimal.
    Either {
        /// The first.
        one: u128,
        /// The second.
        other: u128,
    },
    /// Numbers of 32 bits, as eight hex digits of either case.
    EightDigits,
}

impl ValueForm {
    /// Returns the number of a text if it is a value of this form.
    pub fn value_in(self, text: &str) -> Option<u128>
        ensures value { result ≡ value_in self text.now }
        ensures admitted { IfSome result (IsAdmitted self) }
    {
        let number = self.spelled_in(text)?;
        if self.admits(number) {
            Some(number)
        } else {
            None
        }
    }

    /// Returns the number that the text spells in the notation of this form.
    fn spelled_in(self, text: &str) -> Option<u128>
        ensures { result ≡ value_spelled_in self text.now }
    {
        match self {
            ValueForm::Between { .. } | ValueForm::Either { .. } => number_in(text),
            ValueForm::EightDigits => eight_digits_in(text),
        }
    }

    /// Whether the form admits the number.
    fn admits(self, number: u128) -> bool
        ensures { result ≡ form_admits self number }
    {
        match self {
            ValueForm::Between { least, most } => least <= number && number <= most,
            ValueForm::Either { one, other } => number == one || number == other,
            ValueForm::EightDigits => number <= 4294967295,
        }
    }
}

/// An option of a command.
#[derive(Clone, Copy)]
pub struct OptionRule {
    /// Its name, without the hyphens.
    pub name: &'static str,
    /// The form of its values.
    pub form: ValueForm,
    /// The default, if there is one.
    pub default: Option<u128>,
}

/// Makes an option from its name, its smallest and largest value, and its default.
macro_rules! numbered {
    ($name:literal, $least:literal, $most:literal, $default:expr) => {
        OptionRule {
            name: $name,
            form: ValueForm::Between {
                least: $least,
                most: $most,
            },
            default: $default,
        }
    };
}

/// `--span`: how many of the first samples the pilot search uses.
pub const SPAN: OptionRule = numbered!("span", 64, 32768, Some(2048));

/// `--workers`: how many workers search the pilot.
pub const WORKERS: OptionRule = numbered!("workers", 1, 64, Some(4));

/// `--fingers`: how many paths of the signal are followed.
pub const FINGERS: OptionRule = numbered!("fingers", 1, 3, Some(1));

/// `--paging`: which paging channel is followed.
pub const PAGING: OptionRule = numbered!("paging", 1, 7, Some(1));

/// `--key`: the key from which a handset's slots are computed.
pub const KEY: OptionRule = OptionRule {
    name: "key",
    form: ValueForm::EightDigits,
    default: None,
};

/// `--cycle`: the index of its slot cycle.
pub const CYCLE: OptionRule = numbered!("cycle", 0, 7, Some(0));

/// `--esn`: the handset's electronic serial number.
pub const SERIAL_NUMBER: OptionRule = OptionRule {
    name: "esn",
    form: ValueForm::EightDigits,
    default: None,
};

/// `--row`: the Walsh row of its traffic channel.
pub const ROW: OptionRule = numbered!("row", 1, 63, None);

/// `--offset`: FRAME_OFFSET of that channel.
pub const OFFSET: OptionRule = numbered!("offset", 0, 15, None);

/// `--k`: how many of the best codewords of a rate are listed.
pub const LIST_LENGTH: OptionRule = numbered!("k", 1, 16, None);

/// `--pilots`: how many pilot lines are written.
pub const PILOTS: OptionRule = numbered!("pilots", 0, 4294967295, Some(4294967295));

/// `--messages`: how many message lines are written.
pub const MESSAGES: OptionRule = numbered!("messages", 0, 4294967295, Some(4294967295));

/// `--frames`: how many frame lines are written.
pub const FRAMES: OptionRule = numbered!("frames", 0, 4294967295, Some(4294967295));

/// `--raw`: how many lines of raw capsules are written.
pub const RAW: OptionRule = numbered!("raw", 0, 4294967295, Some(0));

/// `--base`: the phase of the pilot of offset 0.
pub const BASE: OptionRule = numbered!("base", 0, 32767, Some(0));

/// `--width`: how many chips on each side of its phase a pilot is measured.
pub const WIDTH: OptionRule = numbered!("width", 0, 31, Some(10));

/// `--top`: how many ranks are written.
pub const TOP: OptionRule = numbered!("top", 1, 512, Some(512));

/// `--bits`: the width of each part of a sample, in bits.
pub const BITS: OptionRule = OptionRule {
    name: "bits",
    form: ValueForm::Either { one: 8, other: 16 },
    default: Some(16),
};

/// `--number`: the number of the link that a trial makes.
pub const NUMBER: OptionRule = numbered!("number", 0, 18446744073709551615, None);

/// Returns the number that 1 to 20 decimal digits spell; leading zeros are allowed.
fn number_in(text: &str) -> Option<u128>
    ensures { result ≡ argument_number_in text.now }
{
    if text.is_empty() || text.len() > 20 {
        return None;
    }
    digits_in(text.as_bytes())
}

/// Returns the number that eight hex digits of either case spell.
#[tactic(auto, unfolding(crate::specs::Args::eight_digits_in))]
fn eight_digits_in(text: &str) -> Option<u128>
    ensures { result ≡ eight_digits_in text.now }
{
    let octets = <[u8; 4] as FromHex>::from_hex(text).ok()?;
    Some(u128::from(u32::from_be_bytes(octets)))
}
