//! The check at the end of a list.

ghost use Rattle.std.specs.Prelude.{◌≡◌, ◌<◌, ◌≤◌, ◌+◌, ◌*◌, ◌-◌, ◌^◌, ◌↔◌, ◌++◌, IsTrue, length};
ghost use Rattle.std.specs.Prelude.{take, drop};
ghost use Rattle.chip_core.specs.Bits.{number};
ghost use Rattle.quality_bits.specs.Kinds.{generator_of, Checks, sent_check, IsChecked};
ghost use Rattle.quality_bits.specs.declared.kind.Kind.{Kind as TheKind};

use crate::kind::Kind;
use crate::register::Register;
use chip_core::{Bits, CheckForm};

/// Whether the last bits of a list are the check of those before them, in this form, the highest
/// coefficient first.
///
/// The quality indicators of frames are always plain.
pub fn check(kind: Kind, form: CheckForm, bits: &Bits) -> bool
    requires { (generator_of kind).degree < length bits.now }
    ensures { IsTrue result ↔ IsChecked kind form bits.now }
{
    let body = bits.len() - kind.divisor().degree as u16;
    number_from(bits, body) == sent_after(kind, form, bits, body)
}

/// Appends its check to a list, in this form, the highest coefficient first.
///
/// The quality indicators of frames are always plain (TIA/EIA-95-B, 7.1.3.5).
pub fn append_check(kind: Kind, form: CheckForm, bits: &mut Bits)
    requires { length bits.old + (generator_of kind).degree ≤ 1184 }
    ensures { bits.new ≡ bits.old ++ sent_check kind form bits.old }
{
    let sent = sent_after(kind, form, bits, bits.len());
    bits.append_number(kind.divisor().degree as u8, u64::from(sent));
}

/// Returns the check of the first `count` bits, as transmitted, as a number.
fn sent_after(kind: Kind, form: CheckForm, bits: &Bits, count: u16) -> u32
    requires { count ≤ length bits.now }
    ensures { result ≡ number (sent_check kind form (take count bits.now)) }
{
    let plain = taken(kind, bits, count).value();
    match form {
        CheckForm::Plain => plain,
        CheckForm::Complemented => (1 << kind.divisor().degree) - 1 - plain,
    }
}

/// Returns a register that has taken the first `count` bits.
fn taken(kind: Kind, bits: &Bits, count: u16) -> Register
    requires { count ≤ length bits.now }
    ensures { Checks result kind (take count bits.now) }
{
    let octets = count / 8;
    let mut register = octets_taken(kind, bits, octets);
    for i in 8 * octets..count {
        register.push(bits.get(i));
    }
    register
}

/// Returns a register that has taken the first `count` octets.
fn octets_taken(kind: Kind, bits: &Bits, count: u16) -> Register
    requires { 8 * count ≤ length bits.now }
    ensures { Checks result kind (take (8 * count) bits.now) }
{
    let _most = bits.len();
    let mut register = Register::new(kind);
    for k in 0..count {
        take_octet(&mut register, bits, 8 * k);
    }
    register
}

/// Takes the eight bits from place `from` on into a register that has taken all bits before them.
///
/// If `from` is a multiple of 8, they are in one word of the list, which is fetched once.
fn take_octet(register: &mut Register, bits: &Bits, from: u16)
    requires { from + 8 ≤ length bits.now }
    ensures { (kind : TheKind) → Checks register.old kind (take from bits.now) →
        Checks register.new kind (take (from + 8) bits.now) }
{
    let _most = bits.len();
    for j in 0..8 {
        register.push(bits.get(from + j));
    }
}

/// The number that the bits from place `from` on, at most 31, represent, the highest first.
fn number_from(bits: &Bits, from: u16) -> u32
    requires { length bits.now < from + 32 }
    ensures { result ≡ number (drop from bits.now) }
{
    let mut number = 0;
    for i in from..bits.len() {
        number = 2 * number + u32::from(bits.get(i));
    }
    number
}
