//! Each test says where its call begins, and fails with the call's error where a request is refused.
ghost use Rattle.std.specs.Prelude.{◌≡◌, [], IfOk, length};

use board::Board;
use hall::{Hall, HallError, Role};
use launcher::launching::launch;
use launcher::sources::assembled;
use model::journals::{HeapShape, Limits, Outcome, Row};
use model::turns::Actor;
use model::watching::Unwatched;
use scheduler::worlds::World;
use std::alloc::Global;
use std::marker::Brand;
use std::sync::ledger::{Blank, Ledger};
use std::test::Fail;

/// A main that makes an object of its own class.
const MAKES: &[u8] =
    b".class A\n.super B\n.method static main()V\n.limit stack 1\n.limit locals 0\nnew A\npop\nreturn\n.end method\n";

/// The class above it.
const ABOVE: &[u8] = b".class B\n.super java/lang/Object\n.field a I\n";

const SHAPE: HeapShape = HeapShape {
    small: 4,
    medium: 0,
    large: 0,
};

const LIMITS: Limits = Limits {
    steps: 10,
    output: 10,
};

/// A text, and a class file of the class above its own.
fn sources(alloc: Global) -> Result<Vec<Vec<u8>>, Fail> {
    let made = assembled(alloc, ABOVE, &mut Unwatched)?;
    let file = classfile::write(alloc, &made.file)?;
    Ok(vec![in alloc; Vec::from_slice(alloc, MAKES)?, file]?)
}

/// Whether main has made its object, and the collector a turn after it.
fn has_two_rows(world: &World) -> bool {
    let made = Row {
        actor: Actor::Thread(0),
        outcome: Outcome::Object,
        worker: 0,
    };
    let collected = Row {
        actor: Actor::Collector,
        outcome: Outcome::Done,
        worker: 0,
    };
    let mut rows = world.journal().rows();
    rows.next() == Some(made) && rows.next() == Some(collected) && rows.next().is_none()
}

#[test]
fn launch_alone(rt: HostRuntime) -> Result<(), Fail> {
    let sources = sources(rt.alloc())?;
    let actors = [Actor::Thread(0), Actor::Collector];
    println!(rt; "begun")?;
    let world = launch(rt.alloc(), sources, SHAPE, LIMITS, actors.as_slice())?;
    assert!(rt; has_two_rows(&world));
    Ok(())
}

#[test]
fn board_alone(rt: HostRuntime) -> Result<(), Fail> {
    println!(rt; "begun")?;
    let (board, seats) = Board::new(rt.alloc(), 9)?;
    assert_eq!(rt; (board.workers(), seats.len()), (9, 9));
    Ok(())
}

/// A world that has made no turn.
fn unmoved_world(alloc: Global) -> Result<World, Fail>
    ensures { IfOk result (λ world. world.journal.rows ≡ []) }
{
    Ok(launch(alloc, sources(alloc)?, SHAPE, LIMITS, &[])?)
}

/// How many shares a hall for these roles has.
fn shares_for<L: Ledger>(
    alloc: Global,
    blank: Blank,
    world: World,
    roles: &[Role],
) -> Result<usize, HallError>
    requires name { blank.name ≡ L.name }
    requires parts { (blank.parts ≡ L.parts) × (blank.parts ≡ length roles.now) }
    requires empty { world.journal.rows ≡ [] }
{
    let (_hall, shares) = Hall::<L>::new(alloc, blank, world, roles)?;
    Ok(shares.len())
}

#[test]
fn hall_alone(rt: HostRuntime) -> Result<(), Fail> {
    let world = unmoved_world(rt.alloc())?;
    let roles = [Role::Carrier; 9];
    let blank = Blank::new(9);
    println!(rt; "begun")?;
    let shares = shares_for::<Brand>(rt.alloc(), blank, world, roles.as_slice())?;
    assert_eq!(rt; shares, 9);
    Ok(())
}
