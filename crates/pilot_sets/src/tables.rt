//! The standard's tables of search windows and drop timers, and the ratios of half decibels.

ghost use Rattle.std.specs.Prelude.{◌≡◌, ◌≤◌};
ghost use Rattle.pilot_sets.specs.Tables.{drop_timer_ms as drop_timer_of, ratio as ratio_of};
ghost use Rattle.pilot_sets.specs.Tables.{search_window_chips as window_of};

/// The drop timers in milliseconds.
const DROP_TIMERS: [u32; 16] = [
    100, 1_000, 2_000, 4_000, 6_000, 9_000, 13_000, 19_000, 27_000, 39_000, 55_000, 79_000,
    112_000, 159_000, 225_000, 319_000,
];

/// The widths of the search windows in chips.
const WINDOWS: [u16; 16] = [
    4, 6, 8, 10, 14, 20, 28, 40, 60, 80, 100, 130, 160, 226, 320, 452,
];

/// The ratios 0 to 63 half decibels below 0 dB, in millionths.
const RATIOS: [u32; 64] = [
    1_000_000, 891_251, 794_328, 707_946, 630_957, 562_341, 501_187, 446_684, 398_107, 354_813,
    316_228, 281_838, 251_189, 223_872, 199_526, 177_828, 158_489, 141_254, 125_893, 112_202,
    100_000, 89_125, 79_433, 70_795, 63_096, 56_234, 50_119, 44_668, 39_811, 35_481, 31_623,
    28_184, 25_119, 22_387, 19_953, 17_783, 15_849, 14_125, 12_589, 11_220, 10_000, 8_913, 7_943,
    7_079, 6_310, 5_623, 5_012, 4_467, 3_981, 3_548, 3_162, 2_818, 2_512, 2_239, 1_995, 1_778,
    1_585, 1_413, 1_259, 1_122, 1_000, 891, 794, 708,
];

/// Drop timer number `k` (T_TDROP), in milliseconds; 0 if there is none.
pub(crate) fn drop_timer_ms(k: u8) -> u32
    ensures { result ≡ drop_timer_of k }
{
    if k < 16 {
        DROP_TIMERS[usize::from(k)]
    } else {
        0
    }
}

/// The width of search window number `k` (SRCH_WIN_A, SRCH_WIN_N), in chips; 0 if there is none.
pub(crate) fn window_chips(k: u8) -> u16
    ensures { result ≡ window_of k }
{
    if k < 16 { WINDOWS[usize::from(k)] } else { 0 }
}

/// The ratio `k` half decibels below 0 dB, in millionths; 0 if the table has none.
pub(crate) fn ratio(k: u8) -> u32
    ensures value { result ≡ ratio_of k }
    ensures most { result ≤ 1000000 }
{
    if k < 64 { RATIOS[usize::from(k)] } else { 0 }
}
