//! The pieces of states: all but the first are fields, objects and threads.
ghost use Rattle.std.specs.Prelude.{◌≡◌, OnOk, map};
ghost use Rattle.exploring.specs.Chains.{chained};
ghost use Rattle.exploring.specs.Keys.{field, object, thread};
ghost use Rattle.exploring.specs.States.{with_state};

use crate::chains::Chains;
use crate::keys::Key;
use crate::names::Names;
use ideal_run::worlds::{Thread, World};
use model::views::{FieldView, ObjectView};
use std::alloc::{AllocError, Global};

/// The chain goes on with a piece for each field. `AllocError` where memory runs out or a number has no room, here and
/// below.
fn add_fields(
    chains: &mut Chains,
    alloc: Global,
    names: &Names,
    added: &[FieldView],
) -> Result<(), AllocError>
    ensures { OnOk result (chains.new ≡ chained chains.old (map (field names.now) added.now)) }
{
    let mut piece = Key::new(alloc)?;
    for one in added {
        piece.clear();
        piece.add_field(names, one)?;
        chains.add(alloc, &piece)?;
    }
    Ok(())
}

fn add_objects(
    chains: &mut Chains,
    alloc: Global,
    names: &Names,
    added: &[ObjectView],
) -> Result<(), AllocError>
    ensures { OnOk result (chains.new ≡ chained chains.old (map (object names.now) added.now)) }
{
    let mut piece = Key::new(alloc)?;
    for one in added {
        piece.clear();
        piece.add_object(names, one)?;
        chains.add(alloc, &piece)?;
    }
    Ok(())
}

fn add_threads(
    chains: &mut Chains,
    alloc: Global,
    names: &Names,
    added: &[Thread],
) -> Result<(), AllocError>
    ensures { OnOk result (chains.new ≡ chained chains.old (map (thread names.now) added.now)) }
{
    let mut piece = Key::new(alloc)?;
    for one in added {
        piece.clear();
        piece.add_thread(names, one)?;
        chains.add(alloc, &piece)?;
    }
    Ok(())
}

/// The chain of a state is made.
#[tactic(auto, using(crate::proofs::ChainLemmas::chains))]
pub fn add_state(
    chains: &mut Chains,
    alloc: Global,
    names: &Names,
    state: &World,
) -> Result<(), AllocError>
    ensures { OnOk result (chains.new ≡ with_state names.now chains.old state.now) }
{
    let mut head = Key::new(alloc)?;
    head.add_head(state)?;
    chains.begin(alloc, &head)?;
    add_fields(chains, alloc, names, state.statics())?;
    add_objects(chains, alloc, names, state.objects())?;
    add_threads(chains, alloc, names, state.threads())
}
