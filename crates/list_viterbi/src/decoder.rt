//! The decoder and its memory.

ghost use Rattle.std.specs.Prelude.{◌≡◌, ◌≤◌, IfOk};
ghost use Rattle.viterbi.specs.Best.{AreDecodable};
ghost use Rattle.list_viterbi.specs.First.{AreListed};

use crate::codewords::Codewords;
use crate::column::Column;
use crate::picking::Choices;
use crate::tracing::all_traced;
use chip_core::OutOfMemory;
use std::alloc::Global;
use std::marker::Model;
use viterbi::{Ends, MOST_BITS};

/// Finds the first codewords for a list of soft values, in memory that `new` allocates: two columns
/// of scores and a column of choices for each of 576 bits, less than 650 KiB.
///
/// Contracts see the largest number of bits of a codeword.
#[derive(Drop)]
pub struct ListDecoder {
    max_bits: u16,
    /// The scores of the first codewords into each state after the bits so far.
    column: Column,
    /// The choices of each bit.
    columns: Vec<Choices>,
}

impl Model for ListDecoder {
    ghost use Rattle.std.specs.Prelude.{ℕ, ◌≡◌, ◌≤◌, vec_len};

    ghost Value = { ℕ };

    ghost view = { λ d. d.max_bits };

    ghost invariant = { λ d. (d.max_bits ≤ 576) × (vec_len d.columns ≡ 576) };
}

impl ListDecoder {
    /// Returns a decoder for codewords of at most `max_bits` bits, 8 to 576, with all the memory
    /// that it needs. Returns `OutOfMemory` if allocation fails.
    pub fn new(alloc: Global, max_bits: u16) -> Result<ListDecoder, OutOfMemory>
        requires least { 8 ≤ max_bits }
        requires most { max_bits ≤ 576 }
        ensures { IfOk result (λ decoder. decoder ≡ max_bits) }
    {
        let column = Column::new(alloc)?;
        let columns = vec![in alloc; [0u32; 256]; MOST_BITS]?;
        Ok(ListDecoder {
            max_bits,
            column,
            columns,
        })
    }

    /// Finds the first `k` of all allowed codewords for these soft values, or all if there are
    /// fewer: `out` becomes their list with their scores, replacing its content. Returns the length
    /// of the list.
    ///
    /// `softs` has two values for each bit, first that of the symbol of 753 (octal), then that of
    /// 561 (octal) (TIA/EIA-95-B, 7.1.3.1.3.1). Soft values, scores and the order of codewords are
    /// those of `viterbi::Decoder::best_into`. There are 2^(bits - 8) allowed codewords if `ends`
    /// is `Zero`, otherwise 2^(bits + 8), which is never fewer than 16.
    pub fn list_into(&mut self, softs: &[i64], ends: Ends, k: u8, out: &mut Codewords) -> u8
        requires some { 1 ≤ k }
        requires few { k ≤ 16 }
        requires softs { AreDecodable self.old softs.now }
        ensures { AreListed softs.now ends k self.old self.new out.new result }
    {
        let count = softs.len() / 2;
        self.column.start(ends, k);
        for bit in 0..count {
            self.column
                .step(softs[2 * bit], softs[2 * bit + 1], &mut self.columns[bit]);
        }
        let finds = self.column.first_ends(ends);
        *out = all_traced(&self.columns[..count], &finds);
        out.len()
    }
}
