//! Tests of the pilot's codes: how many ones they have, and how they end.

use short_code::Codes;
use std::test::Fail;

#[test]
fn each_code_has_as_many_ones_as_zeros(rt: HostRuntime) -> Result<(), Fail> {
    let codes = Codes::new(rt.alloc())?;
    let mut i_ones = 0u32;
    let mut q_ones = 0u32;
    for n in 0..32768u16 {
        let (i, q) = codes.chip(n);
        i_ones = i_ones.saturating_add(u32::from(i));
        q_ones = q_ones.saturating_add(u32::from(q));
    }
    assert_eq!(rt; i_ones, 16384);
    assert_eq!(rt; q_ones, 16384);
    Ok(())
}

#[test]
fn ends_in_fifteen_zeros(rt: HostRuntime) -> Result<(), Fail> {
    let codes = Codes::new(rt.alloc())?;
    assert_eq!(rt; codes.table().len(), 32768);
    assert_eq!(rt; codes.signs(0), (-1, -1));
    for n in 32753..32768u16 {
        assert_eq!(rt; codes.chip(n), (false, false));
        assert_eq!(rt; codes.signs(n), (1, 1));
    }
    Ok(())
}
