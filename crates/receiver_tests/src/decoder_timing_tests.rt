//! The work of the decoders that `tools/bench` times: finding the best codeword of what was sent,
//! and the first four codewords of any soft values. Only the decoders' contracts state the results.

ghost use Rattle.std.specs.Prelude.{◌≡◌, ◌<◌, ◌≤◌, ◌^◌, IsTrue, sum_by, unsigned_abs};

use chip_core::Bits;
use conv_code::encode_into;
use list_viterbi::{Codewords, ListDecoder};
use std::process::Abort;
use std::test::Fail;
use viterbi::{Codeword, Decoder, Ends};

/// A linear congruential generator.
#[derive(Drop)]
struct Generator(u64);

impl Generator {
    /// The next number, below 2 to the 40.
    fn next(&mut self) -> u64
        ensures { result < 2 ^ 40 }
    {
        self.0 = self
            .0
            .wrapping_mul(6_364_136_223_846_793_005)
            .wrapping_add(1_442_695_040_888_963_407);
        (self.0 >> 24) % (1 << 40)
    }

    /// The next number, from -2 to 2.
    fn next_soft(&mut self) -> i64 {
        (self.next() >> 16) as i64 % 5 - 2
    }
}

/// Whether the absolute values add up to at most 2 to the 62.
fn is_bounded(softs: &[i64]) -> bool
    ensures { IsTrue result → sum_by unsigned_abs softs.now ≤ 2 ^ 62 }
{
    let mut left = 1u64 << 62;
    for soft in softs {
        let size = soft.unsigned_abs();
        if size > left {
            return false;
        }
        left -= size;
    }
    true
}

/// A codeword that was sent, and its received soft values.
#[derive(Drop)]
struct Sending {
    softs: [i64; 1152],
    /// The number of soft values that are received.
    count: usize,
    ends: Ends,
    codeword: Codeword,
}

/// Returns a codeword to be sent, and fills `softs` with its symbols' signs times 1 to 2,047. The
/// codeword's score is the sum of the absolute values, so it is the best.
fn sent_into(rt: &impl Abort, count: u16, ends: Ends, softs: &mut [i64]) -> Codeword {
    let mut generator = Generator(8);
    let mut bits = Bits::empty();
    for i in 0..count {
        let is_tail = ends == Ends::Zero && i.saturating_add(8) >= count;
        let _ = bits.push(!is_tail && generator.next() % 2 == 1);
    }
    let start = match ends {
        Ends::Zero => 0,
        Ends::Free => 0o266,
    };
    let mut symbols = Bits::empty();
    assert!(rt; bits.len() <= 576);
    encode_into(start, &bits, &mut symbols);
    assert_eq!(rt; usize::from(symbols.len()), softs.len());
    for (i, soft) in softs.iter_mut().enumerate() {
        let size = 1 + (generator.next() % 2_047) as i64;
        let is_one = i < 1_152 && (i as u16) < symbols.len() && symbols.get(i as u16);
        *soft = if is_one { -size } else { size };
    }
    Codeword { start, bits }
}

/// A codeword of `bits` bits that was sent.
fn sent(rt: &impl Abort, bits: u16, ends: Ends) -> Sending {
    let mut softs = [0; 1152];
    let count = 2 * usize::from(bits);
    assert!(rt; count <= 1152);
    let codeword = sent_into(rt, bits, ends, &mut softs[..count]);
    Sending {
        softs,
        count,
        ends,
        codeword,
    }
}

/// Decodes what was sent `turns` times, and checks that the decoder finds the sent codeword.
fn decode(rt: &impl Abort, decoder: &mut Decoder, sent: &Sending, turns: u16)
    requires { decoder.old ≡ 576 }
{
    assert!(rt; sent.count <= 1152);
    let softs = &sent.softs[..sent.count];
    assert!(rt; is_bounded(softs));
    assert!(rt; softs.len() % 2 == 0);
    assert!(rt; softs.len() >= 16);
    let mut codeword = Codeword {
        start: 0,
        bits: Bits::empty(),
    };
    for _turn in 0..turns {
        decoder.best_into(softs, sent.ends, &mut codeword);
    }
    assert!(rt; codeword == sent.codeword);
}

// `tools/bench` times these tests, and knows how often each decodes; it subtracts the time of the
// first, which decodes almost nothing.
#[test]
fn decodes_nine_bits(rt: HostRuntime) -> Result<(), Fail> {
    let mut decoder = Decoder::new(rt.alloc(), 576)?;
    decode(&rt, &mut decoder, &sent(&rt, 9, Ends::Zero), 1);
    Ok(())
}

#[test]
fn decodes_576_free_bits_100_times(rt: HostRuntime) -> Result<(), Fail> {
    let mut decoder = Decoder::new(rt.alloc(), 576)?;
    decode(&rt, &mut decoder, &sent(&rt, 576, Ends::Free), 100);
    Ok(())
}

#[test]
fn decodes_192_bits_between_zeros_300_times(rt: HostRuntime) -> Result<(), Fail> {
    let mut decoder = Decoder::new(rt.alloc(), 576)?;
    decode(&rt, &mut decoder, &sent(&rt, 192, Ends::Zero), 300);
    Ok(())
}

/// Lists the first four codewords of 192 bits `turns` times.
fn list_four(rt: &impl Abort, decoder: &mut ListDecoder, softs: &[i64], turns: u16)
    requires { decoder.old ≡ 576 }
{
    assert!(rt; is_bounded(softs));
    assert!(rt; softs.len() == 384);
    let mut codewords = Codewords::empty();
    for _turn in 0..turns {
        decoder.list_into(softs, Ends::Zero, 4, &mut codewords);
    }
    assert!(rt; codewords.len() == 4);
}

/// Soft values of 192 bits.
fn some_softs() -> [i64; 384] {
    let mut generator = Generator(5);
    let mut softs = [0; 384];
    for soft in softs.iter_mut() {
        *soft = generator.next_soft();
    }
    softs
}

#[test]
fn lists_4_of_192_bits_100_times(rt: HostRuntime) -> Result<(), Fail> {
    let mut decoder = ListDecoder::new(rt.alloc(), 576)?;
    list_four(&rt, &mut decoder, &some_softs(), 100);
    Ok(())
}
