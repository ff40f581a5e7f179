//! Edge values from outside: what Java 17 answers for the same operands.

use model::instructions::{Comparison, LookupSwitch, Operator, TableSwitch};
use std::alloc::{AllocError, Global};
use std::process::Abort;
use values::{
    IntType, compare_ints, compare_longs, int_to_long, iop, long_to_int, lookup_target, lop,
    negate_int, negate_long, table_target, truncate,
};

const INTS: &[(Operator, i32, i32, Option<i32>)] = &[
    (Operator::Add, i32::MAX, 1, Some(i32::MIN)),
    (Operator::Sub, i32::MIN, 1, Some(i32::MAX)),
    (Operator::Mul, 65536, 65537, Some(65536)),
    (Operator::Div, i32::MIN, -1, Some(i32::MIN)),
    (Operator::Div, -7, 2, Some(-3)),
    (Operator::Div, 7, 0, None),
    (Operator::Rem, i32::MIN, -1, Some(0)),
    (Operator::Rem, -7, 3, Some(-1)),
    (Operator::Rem, 7, 0, None),
    (Operator::Shl, 1, 33, Some(2)),
    (Operator::Shr, -5, 33, Some(-3)),
    (Operator::Ushr, -1, 33, Some(2147483647)),
    (Operator::And, -2, 7, Some(6)),
    (Operator::Or, i32::MIN, 5, Some(-2147483643)),
    (Operator::Xor, -1, 5, Some(-6)),
];

const LONGS: &[(Operator, i64, i64, Option<i64>)] = &[
    (Operator::Add, i64::MAX, 1, Some(i64::MIN)),
    (Operator::Sub, i64::MIN, 1, Some(i64::MAX)),
    (Operator::Mul, 4294967296, 4294967297, Some(4294967296)),
    (Operator::Div, i64::MIN, -1, Some(i64::MIN)),
    (Operator::Div, -7, 0, None),
    (Operator::Rem, i64::MIN, -1, Some(0)),
    (Operator::Rem, -7, 3, Some(-1)),
    (Operator::Shl, 1, 65, Some(2)),
    (Operator::Shl, 1, 33, Some(8589934592)),
    (Operator::Shr, -5, 65, Some(-3)),
    (Operator::Ushr, -1, 65, Some(9223372036854775807)),
    (Operator::And, -2, 7, Some(6)),
    (Operator::Or, i64::MIN, 5, Some(-9223372036854775803)),
    (Operator::Xor, -1, 5, Some(-6)),
];

/// Ints that are kept as a smaller type, and what they are then.
const KEPT: &[(IntType, i32, i32)] = &[
    (IntType::Byte, 200, -56),
    (IntType::Byte, -129, 127),
    (IntType::Char, -1, 65535),
    (IntType::Char, 65536, 0),
    (IntType::Short, 32768, -32768),
    (IntType::Short, -32769, 32767),
    (IntType::Int, -32769, -32769),
];

/// What -1 and 1, 1 and 1, 1 and -1 answer.
const COMPARISONS: &[(Comparison, bool, bool, bool)] = &[
    (Comparison::Equal, false, true, false),
    (Comparison::NotEqual, true, false, true),
    (Comparison::Less, true, false, false),
    (Comparison::GreaterOrEqual, false, true, true),
    (Comparison::Greater, false, false, true),
    (Comparison::LessOrEqual, true, true, false),
];

fn compare_operators(rt: &impl Abort) {
    for (op, a, b, wanted) in INTS {
        assert!(rt; iop(*op, *a, *b) == *wanted, "{a} {b}");
    }
    for (op, a, b, wanted) in LONGS {
        assert!(rt; lop(*op, *a, *b) == *wanted, "{a} {b}");
    }
}

fn is_answered(comparison: Comparison, less: bool, equal: bool, greater: bool) -> bool {
    compare_ints(comparison, -1, 1) == less
        && compare_ints(comparison, 1, 1) == equal
        && compare_ints(comparison, 1, -1) == greater
}

fn converts() -> bool {
    negate_int(i32::MIN) == i32::MIN
        && negate_long(i64::MIN) == i64::MIN
        && int_to_long(-5) == -5
        && long_to_int(4294967295) == -1
        && long_to_int(-2147483649) == 2147483647
}

fn compares_longs() -> bool {
    compare_longs(i64::MIN, i64::MAX) == -1
        && compare_longs(5, 5) == 0
        && compare_longs(4294967296, 1) == 1
}

/// Whether a table from 2147483646 on leads to 3 and 4, else to 9: past its ends, where a distance has more than 32 bits.
fn table_leads(alloc: Global) -> Result<bool, AllocError> {
    let table = TableSwitch {
        low: 2147483646,
        targets: [3u16, 4].to_vec(alloc)?,
        default: 9,
    };
    Ok(
        table_target(&table, 2147483646) == 3
            && table_target(&table, i32::MAX) == 4
            && table_target(&table, 2147483645) == 9
            && table_target(&table, i32::MIN) == 9,
    )
}

/// Whether -5 and 0 lead to 3 and 4, and another key to 9.
fn lookup_leads(alloc: Global) -> Result<bool, AllocError> {
    let lookup = LookupSwitch {
        pairs: [(-5, 3u16), (0, 4)].to_vec(alloc)?,
        default: 9,
    };
    Ok(
        lookup_target(&lookup, -5) == 3
            && lookup_target(&lookup, 0) == 4
            && lookup_target(&lookup, 5) == 9,
    )
}

#[test]
fn numbers(rt: HostRuntime) {
    compare_operators(&rt);
    assert!(rt; converts() && compares_longs());
    assert!(rt; table_leads(rt.alloc()) == Ok(true) && lookup_leads(rt.alloc()) == Ok(true));
    for (letter, a, wanted) in KEPT {
        assert!(rt; truncate(*letter, *a) == *wanted, "{a}");
    }
    for (comparison, less, equal, greater) in COMPARISONS {
        assert!(rt; is_answered(*comparison, *less, *equal, *greater));
    }
}
