//! How numbers compare, with their signs.
ghost use Rattle.std.specs.Prelude.{◌≡◌};
ghost use Rattle.model.specs.Arithmetic.{order_of, comparison_holds};

use model::instructions::Comparison;
use std::cmp::Ordering;

/// -1, 0 or 1, as `a` is below, at or above `b`. (JVMS 6.5: lcmp)
pub fn compare_longs(a: i64, b: i64) -> i32
    ensures { result ≡ order_of a b }
{
    match a.cmp(&b) {
        Ordering::Less => -1,
        Ordering::Equal => 0,
        Ordering::Greater => 1,
    }
}

/// Whether `a` compares to `b` as the branch asks. (JVMS 6.5: if<cond>, if_icmp<cond>)
pub fn compare_ints(comparison: Comparison, a: i32, b: i32) -> bool
    ensures { result ≡ comparison_holds comparison a b }
{
    match comparison {
        Comparison::Equal => a == b,
        Comparison::NotEqual => a != b,
        Comparison::Less => a < b,
        Comparison::GreaterOrEqual => a >= b,
        Comparison::Greater => a > b,
        Comparison::LessOrEqual => a <= b,
    }
}
