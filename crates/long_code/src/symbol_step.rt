//! Advances the generator by one symbol, with a table.

ghost use Rattle.std.specs.Prelude.{◌≡◌, ◌<◌, ◌^◌};
ghost use Rattle.long_code.specs.LongCode.{after};

/// The contribution of each pair of a state's bits to the state 64 chips later. Row k is for bits
/// 2k and 2k + 1; its entry n is the product of n x^(2k) with x^64, where n = 0, 1, 2, 3 represents
/// 0, 1, x and x + 1.
const PRODUCTS: [[u64; 4]; 21] = [
    [0, 0x1fb_7e89_7f03, 0x3f6_fd12_fe06, 0x20d_839b_8105],
    [0, 0x3e7_744a_f8e3, 0x3c4_66fa_f529, 0x023_12b0_0dca],
    [0, 0x382_439a_eebd, 0x30e_095a_d995, 0x08c_4ac0_3728],
    [0, 0x216_9cda_b7c5, 0x027_b7da_6b65, 0x231_2b00_dca0],
    [0, 0x04f_6fb4_d6ca, 0x09e_df69_ad94, 0x0d1_b0dd_7b5e],
    [0, 0x13d_bed3_5b28, 0x27b_7da6_b650, 0x346_c375_ed78],
    [0, 0x0fc_7522_684f, 0x1f8_ea44_d09e, 0x104_9f66_b8d1],
    [0, 0x3f1_d489_a13c, 0x3e9_277c_4697, 0x018_f3f5_e7ab],
    [0, 0x3d8_c097_89c1, 0x3bb_0f40_176d, 0x063_cfd7_9eac],
    [0, 0x37c_90ef_2a35, 0x2f3_afb1_5085, 0x18f_3f5e_7ab0],
    [0, 0x1ed_d10d_a5e5, 0x3db_a21b_4bca, 0x236_7316_ee2f],
    [0, 0x3bd_ca59_937b, 0x371_1adc_2219, 0x0cc_d085_b162],
    [0, 0x2e8_bbd7_40dd, 0x1db_f9c1_8555, 0x333_4216_c588],
    [0, 0x3b7_f383_0aaa, 0x365_6969_11bb, 0x0d2_9aea_1b11],
    [0, 0x2c0_5cbd_2799, 0x18a_3715_4bdd, 0x34a_6ba8_6c44],
    [0, 0x314_6e2a_97ba, 0x222_523a_2b9b, 0x136_3c10_bc21],
    [0, 0x04e_2a1b_53d9, 0x09c_5436_a7b2, 0x0d2_7e2d_f46b],
    [0, 0x138_a86d_4f64, 0x271_50da_9ec8, 0x349_f8b7_d1ac],
    [0, 0x0e8_2fda_397f, 0x1d0_5fb4_72fe, 0x138_706e_4b81],
    [0, 0x3a0_bf68_e5fc, 0x34b_f0be_cf17, 0x0eb_4fd6_2aeb],
    [0, 0x29d_6f12_9ac1, 0x130_504a_316d, 0x3ad_3f58_abac],
];

/// Returns the product with x^64: the sum of the table's entries for each pair of bits.
pub fn times_x64(value: u64) -> u64
    requires { value < 2 ^ 42 }
    ensures value { result ≡ after value 64 }
    ensures below { result < 2 ^ 42 }
{
    let mut sum = 0;
    let mut left = value;
    for row in &PRODUCTS {
        sum ^= row[(left & 3) as usize];
        left >>= 2;
    }
    sum
}
