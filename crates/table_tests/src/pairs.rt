// Tests of tables of terms with the tables of their values.
use crate::checks::Checks;
use std::test::Fail;

// Terms, and their values.
const PAIRS: [(&[i64], &[i64]); 6] = [
    (&[-9], &[-9]),
    (&[4, -7], &[4, -3]),
    (&[0, 0, 0, 5], &[0, 0, 0, 5]),
    (&[5, 0, 0, 0], &[5, 5, 5, 5]),
    (&[-5, 2, 5, -2, 5, 6, -5, 0], &[-5, -3, 0, 0, 0, 8, 0, 6]),
    (&[1, -1, -1, 1, -1, 1, 1, -1], &[1, 0, 0, 0, 0, 0, 0, 0]),
];

#[test]
fn terms_have_their_values(rt: HostRuntime) -> Result<(), Fail> {
    let checks = Checks {
        rt: &rt,
        heap: rt.alloc(),
    };
    for (terms, values) in PAIRS {
        checks.belong(terms, values)?;
    }
    Ok(())
}

#[test]
fn a_table_is_restored_both_ways(rt: HostRuntime) -> Result<(), Fail> {
    let mixed = [
        7,
        -1_000_000,
        0,
        31_415_926_535,
        -2,
        999_999_999_999,
        -27_182_818_284,
        1,
        0,
        -8,
        64,
        -512,
        4_096,
        -32_768,
        -999_999_999_999,
        6,
    ];
    let checks = Checks {
        rt: &rt,
        heap: rt.alloc(),
    };
    checks.restored(&mixed)
}
