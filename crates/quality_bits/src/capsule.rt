//! Capsules of messages: MSG_LENGTH in 8 bits, the body, and the check of both (TIA/EIA-95-B,
//! 7.7.1, 7.7.2 and 7.7.3).
//!
//! MSG_LENGTH counts octets, including its own and the check's: 5 to 148.

ghost use Rattle.std.specs.Prelude.{◌≡◌, ◌↔◌, ◌≤◌, ◌<◌, ◌+◌, Bool, List, length, IfOk, SomeIff};
ghost use Rattle.std.specs.Prelude.{take, drop, IsTrue};
ghost use Rattle.quality_bits.specs.Kinds.{IsChecked, generator_of};
ghost use Rattle.quality_bits.specs.Capsules.{FillsCapsule, capsule, IsWhole, is_stated};
ghost use Rattle.quality_bits.specs.Capsules.{stated_bits};

use crate::checking::{append_check, check};
use crate::kind::Kind;
use chip_core::{BitReader, Bits, CheckForm};
use thiserror::Error;

/// The reason why a list of bits is not a capsule.
#[derive(Clone, Copy, PartialEq, Eq, Debug, Error)]
pub enum CapsuleFault {
    /// Its number of bits differs from its MSG_LENGTH, or MSG_LENGTH is outside 5 to 148 octets.
    #[error("bad length")]
    BadLength,
    /// It doesn't end with its check.
    #[error("bad check")]
    BadCheck,
}

/// The capsule of a body that, with the length and the check, fills 5 to 148 whole octets.
pub fn capsule_of(kind: Kind, form: CheckForm, body: &Bits) -> Bits
    requires { FillsCapsule kind body.now }
    ensures { result ≡ capsule kind form body.now }
{
    let degree = kind.divisor().degree;
    let octets = (8 + body.len() + degree as u16) / 8;
    let mut bits = Bits::empty();
    bits.append_number(8, u64::from(octets));
    bits.append_all(body);
    append_check(kind, form, &mut bits);
    bits
}

/// Whether a body of `count` bits fits a capsule: with the length and the check, it fills 5 to 148
/// whole octets.
pub fn fills_capsule(kind: Kind, count: u16) -> bool
    ensures { (body : List Bool) → length body ≡ count → (IsTrue result ↔ FillsCapsule kind body) }
{
    let bits = 8 + u32::from(count) + kind.divisor().degree;
    bits % 8 == 0 && 40 <= bits && bits <= 1184
}

/// The body of a capsule.
///
/// Returns `BadLength` exactly if MSG_LENGTH isn't lawful or isn't the list's length; otherwise
/// `BadCheck` exactly if the last bits are not the check of those before them.
pub fn body_of(kind: Kind, form: CheckForm, bits: &Bits) -> Result<Bits, CapsuleFault>
    ensures bad_length { (result ≡ Err CapsuleFault.BadLength) ↔ ¬ (IsWhole bits.now) }
    ensures bad_check { (result ≡ Err CapsuleFault.BadCheck) ↔
        (IsWhole bits.now × ¬ (IsChecked kind form bits.now)) }
    ensures found { IfOk result (λ body. FillsCapsule kind body × (bits.now ≡ capsule kind form
        body)) }
    ensures only { (body : List Bool) → FillsCapsule kind body → bits.now ≡ capsule kind form body →
        result ≡ Ok body }
{
    let count = body_count(kind, form, bits)?;
    Ok(bits.part(8, count))
}

/// Returns the number of bits of a capsule's body, which follows the 8 bits of the length.
///
/// Returns `BadLength` exactly if MSG_LENGTH isn't lawful or isn't the list's length; otherwise
/// `BadCheck` exactly if the last bits are not the check of those before them.
pub fn body_count(kind: Kind, form: CheckForm, bits: &Bits) -> Result<u16, CapsuleFault>
    ensures bad_length { (result ≡ Err CapsuleFault.BadLength) ↔ ¬ (IsWhole bits.now) }
    ensures bad_check { (result ≡ Err CapsuleFault.BadCheck) ↔
        (IsWhole bits.now × ¬ (IsChecked kind form bits.now)) }
    ensures found { IfOk result (λ n. FillsCapsule kind (take n (drop 8 bits.now))
        × (bits.now ≡ capsule kind form (take n (drop 8 bits.now)))) }
    ensures within { IfOk result (λ n. 8 + n ≤ length bits.now) }
    ensures only { (body : List Bool) → FillsCapsule kind body → bits.now ≡ capsule kind form body →
        result ≡ Ok (length body) }
{
    if !is_whole(bits) {
        return Err(CapsuleFault::BadLength);
    }
    if !check(kind, form, bits) {
        return Err(CapsuleFault::BadCheck);
    }
    let degree = kind.divisor().degree as u16;
    Ok(bits.len() - 8 - degree)
}

/// Whether a list has the length that its first 8 bits state, and that length is lawful.
fn is_whole(bits: &Bits) -> bool
    ensures { IsTrue result ↔ IsWhole bits.now }
{
    match stated_length(bits) {
        Some(stated) => bits.len() == stated,
        None => false,
    }
}

/// Returns the number of bits of the capsule that begins with these; `None` exactly if there are
/// fewer than 8, or if they state a length outside 5 to 148 octets.
pub fn stated_length(bits: &Bits) -> Option<u16>
    ensures { SomeIff result (IsTrue (is_stated bits.now)) (stated_bits bits.now) }
{
    match BitReader::new(bits).take(8) {
        Ok(octets) if 5 <= octets && octets <= 148 => Some(8 * octets as u16),
        _ => None,
    }
}
