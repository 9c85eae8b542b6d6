// The table was computed apart from this program. It has rows shorter and longer than a vector, and values at the
// end of the range, where sums wrap and saturate.
use crate::{minplus, mul, scan, stencil};
use kt_law::LENGTH;
use std::test::Fail;

const MAX: u64 = u64::MAX;

#[derive(Drop)]
struct Tiles<'a> {
    shape: (usize, usize, usize),
    a: &'a [u64],
    b: &'a [u64],
    product: &'a [u64],
    least_sums: &'a [u64],
}

#[test]
fn tiles_are_multiplied(rt: HostRuntime) -> Result<(), Fail> {
    let table = [
        Tiles {
            shape: (2, 2, 2),
            a: &[1, 2, 3, 4],
            b: &[5, 6, 7, 8],
            product: &[19, 22, 43, 50],
            least_sums: &[6, 7, 8, 9],
        },
        Tiles {
            shape: (1, 0, 2),
            a: &[],
            b: &[],
            product: &[0, 0],
            least_sums: &[MAX, MAX],
        },
        Tiles {
            shape: (0, 3, 2),
            a: &[],
            b: &[1, 2, 3, 4, 5, 6],
            product: &[],
            least_sums: &[],
        },
        Tiles {
            shape: (2, 3, 0),
            a: &[1, 2, 3, 4, 5, 6],
            b: &[],
            product: &[],
            least_sums: &[],
        },
        Tiles {
            shape: (1, 2, 1),
            a: &[MAX, 2],
            b: &[MAX - 1, MAX],
            product: &[0],
            least_sums: &[MAX],
        },
        Tiles {
            shape: (2, 3, 11),
            a: &[1, MAX, 4_294_967_297, 7, 9_223_372_036_854_775_808, 0],
            b: &[
                1,
                2,
                3,
                4,
                5,
                6,
                7,
                8,
                9,
                10,
                11,
                MAX,
                MAX - 1,
                MAX - 2,
                0,
                1,
                2,
                3,
                4,
                5,
                6,
                7,
                4_294_967_296,
                8_589_934_592,
                4_294_967_295,
                9,
                8,
                7,
                6,
                5,
                4,
                MAX,
                2,
            ],
            product: &[
                4_294_967_298,
                8_589_934_596,
                5,
                38_654_705_677,
                34_359_738_380,
                30_064_771_083,
                25_769_803_786,
                21_474_836_489,
                17_179_869_192,
                18_446_744_069_414_584_323,
                8_589_934_598,
                9_223_372_036_854_775_815,
                14,
                9_223_372_036_854_775_829,
                28,
                9_223_372_036_854_775_843,
                42,
                9_223_372_036_854_775_857,
                56,
                9_223_372_036_854_775_871,
                70,
                9_223_372_036_854_775_885,
            ],
            least_sums: &[
                2, 3, 4, 5, 6, 7, 8, 9, 10, 11, 12, 8, 9, 10, 9, 8, 7, 6, 5, 4, 17, 2,
            ],
        },
    ];
    for tiles in &table {
        let (n, p, q) = tiles.shape;
        let limit = LENGTH as usize;
        assert!(rt; n <= limit && p <= limit && q <= limit);
        assert_eq!(rt; tiles.a.len(), n * p);
        assert_eq!(rt; tiles.b.len(), p * q);
        let mut out = vec![in rt.alloc(); 1; n * q]?;
        mul(n, p, q, tiles.a, tiles.b, &mut out);
        assert_eq!(rt; out.as_slice(), tiles.product);
        minplus(n, p, q, tiles.a, tiles.b, &mut out);
        assert_eq!(rt; out.as_slice(), tiles.least_sums);
    }
    Ok(())
}

#[derive(Drop)]
struct Row<'a> {
    left: u64,
    row: &'a [u64],
    right: u64,
    weighted: &'a [u64],
    sums: &'a [u64],
}

#[test]
fn rows_are_weighted_and_summed(rt: HostRuntime) -> Result<(), Fail> {
    let table = [
        Row {
            left: 5,
            row: &[],
            right: 7,
            weighted: &[],
            sums: &[],
        },
        Row {
            left: MAX,
            row: &[1],
            right: 2,
            weighted: &[3],
            sums: &[0],
        },
        Row {
            left: 1,
            row: &[MAX, MAX],
            right: 3,
            weighted: &[MAX - 1, 0],
            sums: &[0, MAX],
        },
        Row {
            left: 3,
            row: &[10, 20, 30, 40, 50, 60, 70, 80, 90, 100, 110],
            right: 4,
            weighted: &[43, 80, 120, 160, 200, 240, 280, 320, 360, 400, 324],
            sums: &[13, 33, 63, 103, 153, 213, 283, 363, 453, 553, 663],
        },
        Row {
            left: MAX,
            row: &[
                MAX,
                1,
                2,
                3,
                5,
                8,
                13,
                9_223_372_036_854_775_808,
                9_223_372_036_854_775_807,
                34,
                55,
                89,
                144,
                233,
                377,
                610,
                MAX - 1,
                987,
                1_597,
            ],
            right: 9_223_372_036_854_775_808,
            weighted: &[
                MAX - 1,
                3,
                8,
                13,
                21,
                34,
                9_223_372_036_854_775_842,
                9_223_372_036_854_775_820,
                9_223_372_036_854_775_840,
                9_223_372_036_854_775_930,
                233,
                377,
                610,
                987,
                1_597,
                1_595,
                1_593,
                3_569,
                9_223_372_036_854_779_989,
            ],
            sums: &[
                MAX - 1,
                MAX,
                1,
                4,
                9,
                17,
                30,
                9_223_372_036_854_775_838,
                29,
                63,
                118,
                207,
                351,
                584,
                961,
                1_571,
                1_569,
                2_556,
                4_153,
            ],
        },
    ];
    for case in &table {
        let mut out = vec![in rt.alloc(); 1; case.row.len()]?;
        stencil(case.left, case.row, case.right, &mut out);
        assert_eq!(rt; out.as_slice(), case.weighted);
        let mut row = case.row.to_vec(rt.alloc())?;
        scan(case.left, &mut row);
        assert_eq!(rt; row.as_slice(), case.sums);
    }
    Ok(())
}
