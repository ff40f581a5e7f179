//! The rules in their order, and the first that a list of listings breaks.
ghost use Rattle.std.specs.Prelude.{◌≡◌, None, Some, IfOk, IfErr, OnOk};
ghost use Rattle.std.specs.Option.{option_copied};
ghost use Rattle.std.specs.List.{find, list_any};
ghost use Rattle.model.specs.Programs.{is_main};
ghost use Rattle.model.specs.Accepted.BuiltinNames.{has_builtin_name};
ghost use Rattle.model.specs.Accepted.Superclasses.{is_class_twice, has_missing_parent, has_wrong_parent};
ghost use Rattle.model.specs.Accepted.Cycles.{is_on_cycle};
ghost use Rattle.model.specs.Accepted.MembersTwice.{has_member_twice};
ghost use Rattle.model.specs.Accepted.RefusedMembers.{has_refused_member};
ghost use Rattle.model.specs.Accepted.References.{has_unresolved};
ghost use Rattle.model.specs.Accepted.ExceptionRows.{has_bad_row};
ghost use Rattle.model.specs.Accepted.Refusals.{refused_by, refused_main, refusal_of};
ghost use Rattle.resolve.specs.Hierarchies.{IsHierarchy};
ghost use Rattle.acceptance.specs.declared.rules.Stop.TheVariants.{Refused, Memory};
ghost use Rattle.acceptance.specs.Reported.{refusal_in, refusal_value, StopsAt, StopsFor, parents_refused};

use crate::exception_rows::has_bad_row;
use crate::limits::first_past_limits;
use crate::members::{has_member_twice, has_refused_member};
use crate::references::has_unresolved;
use crate::superclasses::{first_class_twice, has_wrong_parent};
use linking::named_methods::is_main;
use model::listings::{Listing, Method};
use model::refusals::LoadRule;
use resolve::builtins::is_builtin;
use resolve::classes::Classes;
use resolve::index::Index;
use resolve::parents::{first_on_cycle, first_with_missing_parent};
use std::alloc::{AllocError, Global};

/// A rule that is broken, and the first class in order that breaks it. Only the rule on main can be broken by none.
#[derive(Clone, Copy)]
pub struct Refusal<'a> {
    pub rule: LoadRule,
    pub class: Option<&'a Listing>,
}

/// What stops the trial of the rules: a rule that is broken, or want of memory.
pub enum Stop<'a> {
    Refused(Refusal<'a>),
    Memory(AllocError),
}

impl<'a> From<Refusal<'a>> for Stop<'a> {
    ghost from_gives = { λ refusal stop. stop ≡ Refused refusal };

    fn from(refusal: Refusal<'a>) -> Stop<'a> {
        Stop::Refused(refusal)
    }
}

impl<'a> From<AllocError> for Stop<'a> {
    ghost from_gives = { λ error stop. stop ≡ Memory error };

    fn from(error: AllocError) -> Stop<'a> {
        Stop::Memory(error)
    }
}

#[tactic(auto, unfolding(model::specs::Accepted::BuiltinNames::has_builtin_name))]
fn has_builtin_name(class: &Listing) -> bool
    ensures { result ≡ has_builtin_name class.now }
{
    is_builtin(class.name.as_bytes())
}

fn first_with_builtin_name(program: &[Listing]) -> Option<&Listing>
    ensures { option_copied result ≡ find has_builtin_name program.now }
{
    program.iter().find(|class| has_builtin_name(class))
}

fn first_with_wrong_parent<'a>(classes: &Classes<'a>) -> Option<&'a Listing>
    ensures { option_copied result ≡ find (has_wrong_parent classes.now) classes.now }
{
    classes
        .program()
        .iter()
        .find(|class| has_wrong_parent(classes, class))
}

/// The first class with a member twice. `AllocError` where memory runs out.
fn first_with_member_twice(
    alloc: Global,
    program: &[Listing],
) -> Result<Option<&Listing>, AllocError>
    ensures { IfOk result (λ found. option_copied found ≡ find has_member_twice program.now) }
{
    for class in program {
        if has_member_twice(alloc, class)? {
            return Ok(Some(class));
        }
    }
    Ok(None)
}

fn first_with_refused_member<'a>(classes: &Classes<'a>) -> Option<&'a Listing>
    ensures { option_copied result ≡ find (has_refused_member classes.now) classes.now }
{
    classes
        .program()
        .iter()
        .find(|class| has_refused_member(classes, class))
}

fn first_with_unresolved<'a>(classes: &Classes<'a>) -> Option<&'a Listing>
    ensures { option_copied result ≡ find (has_unresolved classes.now) classes.now }
{
    classes
        .program()
        .iter()
        .find(|class| has_unresolved(classes, class))
}

/// The first class with a bad exception row. `AllocError` where memory runs out.
fn first_with_bad_row<'a>(
    alloc: Global,
    classes: &Classes<'a>,
) -> Result<Option<&'a Listing>, AllocError>
    ensures { IfOk result (λ found. option_copied found ≡ find (has_bad_row classes.now) classes.now) }
{
    for class in classes.program() {
        if has_bad_row(alloc, classes, class)? {
            return Ok(Some(class));
        }
    }
    Ok(None)
}

fn has_main(methods: &[Method]) -> bool
    ensures { result ≡ list_any is_main methods.now }
{
    methods.iter().any(|method| is_main(method))
}

/// `Err` with the rule and the class that breaks it, where one does.
fn keeps(rule: LoadRule, found: Option<&Listing>) -> Result<(), Refusal<'_>>
    ensures { refusal_in result ≡ refused_by rule (option_copied found.entry) }
{
    match found {
        Some(class) => Err(Refusal {
            rule,
            class: Some(class),
        }),
        None => Ok(()),
    }
}

/// `Err` where the first class declares no static `main()V`, or there is none.
fn begins_with_main(program: &[Listing]) -> Result<(), Refusal<'_>>
    ensures { refusal_in result ≡ refused_main program.now }
{
    match program.first() {
        None => Err(Refusal {
            rule: LoadRule::NoMain,
            class: None,
        }),
        Some(class) => {
            if has_main(&class.methods) {
                Ok(())
            } else {
                keeps(LoadRule::NoMain, Some(class))
            }
        }
    }
}

/// The classes of a program by their names. `Err` with the first class that has a parent that isn't there, or else with
/// the first on a cycle, or where memory runs out.
fn known_classes(alloc: Global, program: &[Listing]) -> Result<Classes<'_>, Stop<'_>>
    ensures classes { IfOk result (λ classes. classes ≡ program.now) }
    ensures parents { OnOk result (IsHierarchy program.now) }
    ensures stops { IfErr result (StopsFor (parents_refused program.now)) }
{
    match Classes::new(alloc, program)? {
        Some(classes) => Ok(classes),
        None => Err(Stop::Refused(refused_parents(alloc, program)?)),
    }
}

/// Why a program is no hierarchy: the first class that has a parent that isn't there, or else the first on a cycle.
/// `AllocError` where memory runs out.
fn refused_parents(alloc: Global, program: &[Listing]) -> Result<Refusal<'_>, AllocError>
    requires { IsHierarchy program.now → ⊥ }
    ensures { IfOk result (λ refusal. parents_refused program.now ≡ Some (refusal_value refusal)) }
{
    let index = Index::new(alloc, program)?;
    match first_with_missing_parent(&index, program) {
        Some(class) => Ok(Refusal {
            rule: LoadRule::MissingSuperclass,
            class: Some(class),
        }),
        None => Ok(Refusal {
            rule: LoadRule::Cycle,
            class: first_on_cycle(alloc, &index, program)?,
        }),
    }
}

/// The rules after those on names and parents: `Err` with the first that some class breaks, and the first class that
/// does, or where memory runs out.
#[tactic(auto, unfolding(model::specs::Accepted::Refusals::refusal_of))]
fn obeys_class_rules<'a>(alloc: Global, classes: &Classes<'a>) -> Result<(), Stop<'a>>
    requires own { find has_builtin_name classes.now ≡ None }
    requires once { find (is_class_twice classes.now) classes.now ≡ None }
    requires parents { IsHierarchy classes.now }
    ensures { StopsAt (refusal_of classes.now) result }
{
    let program = classes.program();
    keeps(LoadRule::WrongSuperclass, first_with_wrong_parent(classes))?;
    keeps(
        LoadRule::MemberTwice,
        first_with_member_twice(alloc, program)?,
    )?;
    keeps(LoadRule::RefusedMember, first_with_refused_member(classes))?;
    keeps(
        LoadRule::UnresolvedReference,
        first_with_unresolved(classes),
    )?;
    keeps(
        LoadRule::BadExceptionRow,
        first_with_bad_row(alloc, classes)?,
    )?;
    keeps(LoadRule::LimitPassed, first_past_limits(classes))?;
    begins_with_main(program)?;
    Ok(())
}

/// `Err` with the first rule, in order, that some class breaks, and the first class that does, or where memory runs
/// out; else `Ok`.
#[tactic(auto, unfolding(model::specs::Accepted::Refusals::refusal_of))]
pub fn obeys_rules(alloc: Global, program: &[Listing]) -> Result<(), Stop<'_>>
    ensures { StopsAt (refusal_of program.now) result }
{
    keeps(LoadRule::BuiltinName, first_with_builtin_name(program))?;
    keeps(LoadRule::ClassTwice, first_class_twice(alloc, program)?)?;
    let classes = known_classes(alloc, program)?;
    obeys_class_rules(alloc, &classes)
}
