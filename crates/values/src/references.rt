//! Comparisons of references (JVMS 6.5).
ghost use Rattle.std.specs.Prelude.{◌≡◌};
ghost use Rattle.model.specs.Table.Branches.{identity_holds, same_reference};

use model::instructions::Identity;

/// Whether two references are one, or differ, as a branch asks.
#[inline(always)]
pub fn compare_references(identity: Identity, left: Option<u32>, right: Option<u32>) -> bool
    ensures { result ≡ identity_holds identity left right }
{
    match identity {
        Identity::Same => are_one(left, right),
        Identity::Different => !are_one(left, right),
    }
}

/// Whether two references are one; null is one with null.
#[inline(always)]
fn are_one(left: Option<u32>, right: Option<u32>) -> bool
    ensures { result ≡ same_reference left right }
{
    match (left, right) {
        (None, None) => true,
        (Some(a), Some(b)) => a == b,
        (None, Some(_)) | (Some(_), None) => false,
    }
}
