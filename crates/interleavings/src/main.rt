//! Runs small programs of two threads in every order of a few turns of the threads and the collector, each world beside
//! the ideal run of its program, and prints how much was run and compared.
#![tactic(auto)]

mod errors;
mod lists;
mod orders;
mod races;
mod sides;

fn main(rt: HostRuntime) -> anyhow::Result<()> {
    for race in races::RACES {
        let counts = orders::all_orders(&rt, rt.alloc(), &race)?;
        println!(rt; "{}: {counts}", race.name)?;
    }
    Ok(())
}
