//! Where a switch leads.
ghost use Rattle.std.specs.Prelude.{◌≡◌};
ghost use Rattle.model.specs.Table.Switches.{table_target, lookup_target};

use model::instructions::{LookupSwitch, TableSwitch};

/// The target of an int in a table, which begins at its low one; the default past its ends. (JVMS 6.5: tableswitch)
pub fn table_target(table: &TableSwitch<u16>, key: i32) -> u16
    ensures { result ≡ table_target table.now key }
{
    let distance = i64::from(key) - i64::from(table.low);
    if distance < 0 {
        return table.default;
    }
    match table.targets.get(distance as usize) {
        Some(target) => *target,
        None => table.default,
    }
}

/// The target of the first pair of this key; the default where there is none. (JVMS 6.5: lookupswitch)
#[tactic(auto, using(crate::proofs::KeyLemmas::keys))]
pub fn lookup_target(lookup: &LookupSwitch<u16>, key: i32) -> u16
    ensures { result ≡ lookup_target lookup.now key }
{
    for (wanted, target) in &lookup.pairs {
        if *wanted == key {
            return *target;
        }
    }
    lookup.default
}
