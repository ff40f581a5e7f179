//! The instruction table: what the instruction of a live thread comes to (JVMS 6.5).
ghost use Rattle.std.specs.Prelude.{◌≡◌, IfOk, Some};
ghost use Rattle.std.specs.Option.{option_copied};
ghost use Rattle.model.specs.Classes.Resolution.{resolved_field};
ghost use Rattle.model.specs.Completions.{completes};
ghost use Rattle.model.specs.Frames.{running};
ghost use Rattle.model.specs.Table.Branches.{branched};
ghost use Rattle.model.specs.Table.Numbers.{number};
ghost use Rattle.model.specs.Programs.{instruction_of};
ghost use Rattle.model.specs.Table.Initialisation.{declarer};
ghost use Rattle.model.specs.Worlds.{frames_at};
ghost use Rattle.model.specs.Table.Next.{by_family, class_of_operation, class_of_call, class_used, at_site};
ghost use Rattle.model.specs.Table.Next.{at_instruction, completion};
ghost use Rattle.ideal_run.specs.Completed.{reported, plainly};

use crate::arithmetic::number;
use crate::arrays::array_operated;
use crate::branches::branched;
use crate::claims::before_initialised;
use crate::completions::{Completion, Site, raises};
use crate::constants::constant;
use crate::fields::field_accessed;
use crate::frames::{Frame, moved};
use crate::invokes::invoked;
use crate::locals::local;
use crate::monitors::monitor_operated;
use crate::objects::class_operated;
use crate::programs::Program;
use crate::returns::returned;
use crate::stacks::rearranged;
use crate::statics::static_accessed;
use crate::switches::{lookup_switched, table_switched};
use crate::throws::threw;
use crate::worlds::{World, running};
use model::instructions::{ClassOperation, Instruction, Invocation, NumberOperation, Test};
use model::listings::Listed;
use model::names::{Member, Name};
use model::turns::{Exception, Fault, Mark};
use std::alloc::{AllocError, Global};

fn number_at(site: &Site<'_, '_>, operation: NumberOperation) -> Result<Completion, AllocError>
    ensures { IfOk result (λ c. reported site.now.world site.now.thread c
        ≡ plainly (completes site.now (number site.now.next operation site.now.frame))) }
{
    let moved = number(site.alloc(), site.next(), operation, site.frame())?;
    Ok(site.completes(moved))
}

fn branched_at(site: &Site<'_, '_>, test: Test, target: u16) -> Result<Completion, AllocError>
    ensures { IfOk result (λ c. reported site.now.world site.now.thread c
        ≡ plainly (completes site.now (branched site.now.next test target site.now.frame))) }
{
    let moved = branched(site.alloc(), site.next(), test, target, site.frame())?;
    Ok(site.completes(moved))
}

/// Each family's case.
#[tactic(auto, using(crate::proofs::PlainLemmas::plain))]
fn by_family(site: &Site<'_, '_>, instruction: &Listed) -> Result<Completion, AllocError>
    ensures { IfOk result (λ c. reported site.now.world site.now.thread c
        ≡ plainly (by_family site.now instruction.now)) }
{
    let alloc = site.alloc();
    let next = site.next();
    let frame = site.frame();
    match instruction {
        Instruction::Nop => Ok(site.completes(moved(alloc, next, frame, 0, &[])?)),
        Instruction::Constant(operand) => Ok(site.completes(constant(
            alloc, next, *operand, frame,
        )?)),
        Instruction::Local(access) => Ok(site.completes(local(alloc, next, *access, frame)?)),
        Instruction::Stack(operation) => {
            Ok(site.completes(rearranged(alloc, next, *operation, frame)?))
        }
        Instruction::Number(operation) => { number_at(site, *operation) }
        Instruction::Branch(test, target) => { branched_at(site, *test, *target) }
        Instruction::TableSwitch(table) => Ok(site.completes(table_switched(alloc, table, frame)?)),
        Instruction::LookupSwitch(lookup) => {
            Ok(site.completes(lookup_switched(alloc, lookup, frame)?))
        }
        Instruction::Return(kind) => returned(site, *kind),
        Instruction::Static(access, member) => static_accessed(site, *access, member),
        Instruction::Field(access, member) => field_accessed(site, *access, member),
        Instruction::Array(operation) => array_operated(site, operation),
        Instruction::Class(operation, name) => class_operated(site, *operation, name),
        Instruction::Invoke(invocation, member) => invoked(site, *invocation, member),
        Instruction::Throw => threw(site),
        Instruction::Monitor(operation) => monitor_operated(site, *operation),
    }
}

/// The class of which an object is made.
fn class_of_operation<'c>(operation: ClassOperation, name: &'c Name) -> Option<&'c [u8]>
    ensures { option_copied result ≡ class_of_operation operation name.now }
{
    match operation {
        ClassOperation::New => Some(name.as_bytes()),
        ClassOperation::CheckCast | ClassOperation::InstanceOf => None,
    }
}

/// The class that declares the static method that is called.
fn class_of_call<'c>(
    program: &'c Program<'_>,
    invocation: Invocation,
    member: &Member,
) -> Option<&'c [u8]>
    ensures { option_copied result ≡ class_of_call program.now invocation member.now }
{
    match invocation {
        Invocation::Static => {
            let found = program.classes().method(member)?;
            let class = found.class;
            Some(class.name.as_bytes())
        }
        Invocation::Virtual | Invocation::Special | Invocation::Interface(_) => None,
    }
}

/// The class that declares a static field.
fn class_of_field<'c>(program: &'c Program<'_>, member: &Member) -> Option<&'c [u8]>
    ensures { option_copied result ≡ declarer (resolved_field program.now member.now) }
{
    let found = program.classes().field(member)?;
    let class = found.class;
    Some(class.name.as_bytes())
}

/// The class that an instruction uses, so that it is initialised first.
fn class_used<'c>(program: &'c Program<'_>, instruction: &'c Listed) -> Option<&'c [u8]>
    ensures { option_copied result ≡ class_used program.now instruction.now }
{
    match instruction {
        Instruction::Static(_, member) => class_of_field(program, member),
        Instruction::Class(operation, name) => class_of_operation(*operation, name),
        Instruction::Invoke(invocation, member) => class_of_call(program, *invocation, member),
        Instruction::Nop
        | Instruction::Constant(_)
        | Instruction::Local(_)
        | Instruction::Stack(_)
        | Instruction::Number(_)
        | Instruction::Branch(_, _) => None,
        Instruction::TableSwitch(_)
        | Instruction::LookupSwitch(_)
        | Instruction::Return(_)
        | Instruction::Field(_, _)
        | Instruction::Array(_) => None,
        Instruction::Throw | Instruction::Monitor(_) => None,
    }
}

#[tactic(auto, using(crate::proofs::PlainLemmas::plain))]
fn at_site(site: &Site<'_, '_>, instruction: &Listed) -> Result<Completion, AllocError>
    ensures { IfOk result (λ c. reported site.now.world site.now.thread c
        ≡ plainly (at_site site.now instruction.now)) }
{
    let class = class_used(site.program(), instruction);
    match before_initialised(site, class)? {
        Some(before) => Ok(before),
        None => by_family(site, instruction),
    }
}

/// The instruction at which a frame stands; past the last one F5.
fn at_instruction(
    alloc: Global,
    program: &Program<'_>,
    world: &World,
    thread: u8,
    frame: &Frame,
) -> Result<Completion, AllocError>
    requires { running (frames_at world.now thread) ≡ Some frame.now }
    ensures { IfOk result (λ c. reported world.now thread c
        ≡ plainly (at_instruction program.now world.now thread frame.now (instruction_of program.now frame.now))) }
{
    match program.instruction_of(frame) {
        None => Ok(Completion::Faults(Fault::NoInstruction)),
        Some(placed) => {
            let site = Site {
                alloc,
                program,
                world,
                thread,
                frame,
                next: placed.next,
            };
            at_site(&site, &placed.instruction)
        }
    }
}

/// What the instruction of a live thread comes to; an initializer that failed gives up with an error of its own.
/// `AllocError` where memory runs out.
#[tactic(auto, unfolding(model::specs::Table::Next::completion))]
pub fn completion(
    alloc: Global,
    program: &Program<'_>,
    world: &World,
    thread: u8,
) -> Result<Completion, AllocError>
    ensures { IfOk result (λ c. reported world.now thread c ≡ plainly (completion program.now world.now thread)) }
{
    match running(world.frames_at(thread)) {
        None => Ok(Completion::Faults(Fault::NoInstruction)),
        Some(frame) => match frame.mark {
            Mark::Unmarked => at_instruction(alloc, program, world, thread, frame),
            Mark::Waiting => Ok(Completion::Waits),
            Mark::Failing => Ok(raises(Exception::ExceptionInInitializer)),
        },
    }
}
