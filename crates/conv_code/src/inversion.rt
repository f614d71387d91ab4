//! Recovers bits from symbols without errors.

ghost use Rattle.std.specs.Prelude.{◌≡◌, ◌<◌, ◌≤◌, ◌+◌, ◌*◌, ◌%◌, ℕ, Bool, false, List, [], ◌∷◌};
ghost use Rattle.std.specs.Prelude.{◌++◌, length, map, get_or, All, IfSome, IfNone};
ghost use Rattle.chip_core.specs.Bits.{binary, parity};
ghost use Rattle.conv_code.specs.ConvCode.{code_symbols, IsBitFor, IsOnlyStart, IsNoCodewordFrom};
ghost use Rattle.conv_code.specs.ConvCode.{IsNoCodeword};

use crate::encoding::Register;
use chip_core::Bits;

/// Returns the start state and the bits whose symbols these are; `None` exactly if no start state
/// and bits have these symbols.
///
/// Eight or more pairs of symbols determine the start state and every bit. Each bit of the start
/// state is a sum of some of the first sixteen symbols. Then each bit follows from its first
/// symbol, and its second symbol must agree. Bit 0 of the start state is its newest bit.
///
/// For tools that have symbols and no soft values, such as a test bench that checks a transmitter;
/// a handset finds the best codeword instead.
pub fn invert(symbols: &Bits) -> Option<(u8, Bits)>
    requires even { length symbols.now % 2 ≡ 0 }
    requires enough { 16 ≤ length symbols.now }
    ensures found { IfSome result (λ codeword. code_symbols (binary 8 codeword.0) codeword.1
        ≡ symbols.now) }
    ensures half { IfSome result (λ codeword. 2 * length codeword.1 ≡ length symbols.now) }
    ensures none { IfNone result (IsNoCodeword symbols.now) }
{
    let start = start_of(symbols);
    let bits = bits_from(start, symbols)?;
    Some((start, bits))
}

/// Returns the bits that have these symbols after a start state; `None` if no bits have them.
fn bits_from(start: u8, symbols: &Bits) -> Option<Bits>
    requires { length symbols.now % 2 ≡ 0 }
    ensures found { IfSome result (λ bits. code_symbols (binary 8 start) bits ≡ symbols.now) }
    ensures half { IfSome result (λ bits. 2 * length bits ≡ length symbols.now) }
    ensures none { IfNone result (IsNoCodewordFrom (binary 8 start) symbols.now) }
{
    let mut register = Register::new(start);
    let mut bits = Bits::empty();
    for i in 0..symbols.len() / 2 {
        let first = symbols.get(2 * i);
        let second = symbols.get(2 * i + 1);
        let bit = bit_for(register, first);
        if register.push(bit) != (first, second) {
            return None;
        }
        bits.append(bit);
    }
    Some(bits)
}

/// Returns the bit whose first symbol, after the register's bits, is `first`.
fn bit_for(mut register: Register, first: bool) -> bool
    ensures { IsBitFor (binary 8 register) first result }
{
    let (first_of_zero, _) = register.push(false);
    first_of_zero != first
}

/// Returns the only start state that can have produced the symbols.
///
/// The generators have no common factor, so for each k up to 15 there are polynomials a and b of
/// degree below 8 with a g0 + b g1 = D^k. So each of the sixteen bits after the first eight pairs
/// of symbols is a sum of some of these sixteen symbols, and the start is the oldest eight bits.
fn start_of(symbols: &Bits) -> u8
    requires { 16 ≤ length symbols.now }
    ensures { IsOnlyStart symbols.now (binary 8 result) }
{
    let mut register = Register::new(0);
    register.push(sum_at(symbols, &[0, 2, 5, 6, 11, 12, 13]));
    register.push(sum_at(symbols, &[2, 4, 7, 8, 13, 14, 15]));
    register.push(sum_at(symbols, &[0, 1, 3, 4, 6, 7, 8, 9, 11, 12, 13]));
    register.push(sum_at(symbols, &[2, 3, 5, 6, 8, 9, 10, 11, 13, 14, 15]));
    register.push(sum_at(symbols, &[0, 1, 3, 4, 5]));
    register.push(sum_at(symbols, &[2, 3, 5, 6, 7]));
    register.push(sum_at(symbols, &[4, 5, 7, 8, 9]));
    register.push(sum_at(symbols, &[6, 7, 9, 10, 11]));
    register.state()
}

/// Returns the sum modulo 2 of the symbols at these places.
fn sum_at(symbols: &Bits, places: &[u16]) -> bool
    requires { All (λ place. place < length symbols.now) places.now }
    ensures { result ≡ parity (map (λ place. get_or symbols.now place false) places.now) }
{
    let mut sum = false;
    for place in places {
        sum = sum != symbols.get(*place);
    }
    sum
}
