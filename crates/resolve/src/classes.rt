//! The classes of a program by their names, the machine's own among them (JVMS 5.3, 5.4.3).
ghost use Rattle.std.specs.Prelude.{◌≡◌, ◌↔◌, ◌<◌, length, slice_get, true, IfOk, IfSome, None, Some};
ghost use Rattle.std.specs.Option.{option_and_then, option_copied, option_map};
ghost use Rattle.std.specs.List.{find};
ghost use Rattle.model.specs.Classes.Named.{is_named, class_named, listed};
ghost use Rattle.model.specs.Classes.Subclass.{Subclass};
ghost use Rattle.model.specs.Classes.Subclasses.{enough_steps, is_subclass};
ghost use Rattle.model.specs.Classes.Builtin.{builtin_classes};
ghost use Rattle.resolve.specs.Above.{AreAbove};
ghost use Rattle.resolve.specs.Hierarchies.{AreMade, IsHierarchy};
ghost use Rattle.resolve.specs.Interfaces.{interfaces_once, lists_in};
ghost use Rattle.resolve.specs.Settled.{AreSettled};
ghost use Rattle.resolve.specs.Numbers.{all_classes, class_number};

use crate::above::{above_all_interfaces, is_subclass};
use crate::builtins::{builtin_classes, builtin_number};
use crate::cycles::has_cycle;
use crate::index::Index;
use crate::interfaces::Interfaces;
use crate::members::{Members, members_of_all};
use crate::parents::first_with_missing_parent;
use crate::reached::Reached;
use model::listings::Listing;
use std::alloc::{AllocError, Global};
use std::marker::Model;

/// The classes of a program by their names, the machine's own among them. Each has its parents, and none is above
/// itself. A contract sees the program.
#[derive(Drop)]
pub struct Classes<'a> {
    index: Index<'a>,
    own: Vec<Listing>,
    members: Vec<Members<'a>>,
    interfaces: Interfaces<'a>,
    above: Vec<Reached<'a>>,
}

impl<'a> Model for Classes<'a> {
    ghost use Rattle.std.specs.Prelude.{List};
    ghost use Rattle.model.specs.ClassListings.{ClassListing};
    ghost use Rattle.resolve.specs.Interfaces.{lists_in};
    ghost use Rattle.resolve.specs.Tables.{AreTables};

    ghost Value = { List ClassListing };

    ghost view = { λ a. a.index };

    ghost invariant = { λ a. AreTables a.index a.own.items a.members.items
        (lists_in a.interfaces.lists.entries) a.above.items };
}

fn is_named(class: &Listing, name: &[u8]) -> bool
    ensures { result ≡ is_named name.now class.now }
{
    class.name.as_bytes() == name
}

#[tactic(auto, using(crate::proofs::NamedLemmas::named))]
fn first_named<'a>(classes: &'a [Listing], name: &[u8]) -> Option<&'a Listing>
    ensures class { option_copied result ≡ find (is_named name.now) classes.now }
    ensures named { IfSome result (λ class. class.now.name ≡ name.now) }
{
    classes.iter().find(|class| is_named(class, name))
}

/// The superinterfaces of each class of a program; `None` where a superclass or superinterface isn't there, or a class
/// is above itself. `AllocError` where memory runs out.
fn checked_interfaces<'a>(
    alloc: Global,
    index: &Index<'a>,
) -> Result<Option<Interfaces<'a>>, AllocError>
    ensures none { IfOk result (λ found. found ≡ None → IsHierarchy index.now → ⊥) }
    ensures some { IfOk result (λ found. IfSome found (λ interfaces. IsHierarchy index.now
        × AreSettled index.now (lists_in interfaces.lists.entries))) }
{
    if first_with_missing_parent(index, index.program()).is_some() {
        return Ok(None);
    }
    let interfaces = Interfaces::new(alloc, index)?;
    if has_cycle(alloc, index, &interfaces)? {
        return Ok(None);
    }
    Ok(Some(interfaces))
}

/// What is made of each class of a program that has its parents.
#[derive(Drop)]
struct Tables<'a> {
    own: Vec<Listing>,
    members: Vec<Members<'a>>,
    above: Vec<Reached<'a>>,
}

impl<'a> Tables<'a> {
    /// The tables of a program. `AllocError` where memory runs out.
    fn new(alloc: Global, index: &Index<'a>) -> Result<Tables<'a>, AllocError>
        ensures own { IfOk result (λ tables. tables.own.items ≡ builtin_classes) }
        ensures members { IfOk result (λ tables. tables.members.items ≡ index.now) }
        ensures above { IfOk result (λ tables. AreAbove index.now index.now tables.above.items) }
    {
        let own = builtin_classes(alloc)?;
        let members = members_of_all(alloc, index.program())?;
        let above = above_all_interfaces(alloc, index)?;
        Ok(Tables {
            own,
            members,
            above,
        })
    }
}

impl<'a> Classes<'a> {
    /// The classes of a program; `None` where a superclass or superinterface isn't there, or a class is above itself.
    /// `AllocError` where memory runs out.
    pub fn new(alloc: Global, program: &'a [Listing]) -> Result<Option<Classes<'a>>, AllocError>
        ensures { IfOk result (λ classes. AreMade program.now classes) }
    {
        let index = Index::new(alloc, program)?;
        match checked_interfaces(alloc, &index)? {
            Some(interfaces) => {
                let tables = Tables::new(alloc, &index)?;
                Ok(Some(Classes {
                    index,
                    own: tables.own,
                    members: tables.members,
                    interfaces,
                    above: tables.above,
                }))
            }
            None => Ok(None),
        }
    }

    /// The classes of the program, in order.
    pub fn program(&self) -> &'a [Listing]
        ensures { result.now ≡ self.now }
    {
        self.index.program()
    }

    /// The class of a name: the program's, or the machine's own.
    #[tactic(auto, using(crate::proofs::NamedLemmas::named))]
    pub fn class_named(&self, name: &[u8]) -> Option<&Listing>
        ensures class { option_copied result ≡ class_named self.now name.now }
        ensures named { IfSome result (λ class. class.now.name ≡ name.now) }
    {
        match self.index.listed(name) {
            Some(class) => Some(class),
            None => first_named(&self.own, name),
        }
    }

    /// The first class of the program with this name.
    pub fn listed(&self, name: &[u8]) -> Option<&'a Listing>
        ensures { option_copied result ≡ listed self.now name.now }
    {
        self.index.listed(name)
    }

    /// The program's class of a name, with its members.
    pub fn members(&self, name: &[u8]) -> Option<&Members<'a>>
        ensures { option_copied result ≡ listed self.now name.now }
    {
        self.members.get(self.index.number(name)?)
    }

    fn place(&self, name: &[u8]) -> Option<usize>
        ensures { result ≡ class_number self.now name.now }
    {
        match self.index.number(name) {
            Some(number) => Some(number),
            None => Some(self.program().len() + builtin_number(name)?),
        }
    }

    /// How many classes there are, the machine's own among them.
    pub fn len(&self) -> usize
        ensures { result ≡ length (all_classes self.now) }
    {
        self.index.program().len() + self.own.len()
    }

    /// The class of a number.
    pub fn class(&self, number: usize) -> &Listing
        requires { number < length (all_classes self.now) }
        ensures { slice_get (all_classes self.now) number ≡ Some result.now }
    {
        let program = self.index.program();
        if number < program.len() {
            &program[number]
        } else {
            &self.own[number - program.len()]
        }
    }

    /// The number of the class of a name: its place in the program, or, of the machine's own, its place among these
    /// with the program's classes before it. `None` where there is none.
    #[tactic(auto, using(crate::proofs::ClassAtNumber::class_at_number, crate::proofs::ClassAtNumber::number_inside))]
    pub fn number(&self, name: &[u8]) -> Option<usize>
        ensures number { result ≡ class_number self.now name.now }
        ensures class { option_and_then (slice_get (all_classes self.now)) result ≡ class_named self.now name.now }
        ensures inside { IfSome result (λ number. number < length (all_classes self.now)) }
    {
        self.place(name)
    }

    /// The list of superinterfaces of the program's class of a name, in the order of the search, each once.
    pub fn interfaces(&self, name: &[u8]) -> Option<&Reached<'a>>
        ensures { option_copied result ≡ option_map (interfaces_once (enough_steps self.now) self.now)
            (listed self.now name.now) }
    {
        self.interfaces.get(name)
    }

    /// So many steps upwards pass every class once, the machine's own too.
    pub fn enough_steps(&self) -> usize
        ensures { result ≡ enough_steps self.now }
    {
        self.index.enough_steps()
    }

    /// Whether a class is another's subclass: the same, or below it through superclasses and superinterfaces.
    pub fn is_subclass(&self, name: &[u8], above: &[u8]) -> bool
        ensures test { result ≡ is_subclass self.now name.now above.now }
        // That is the least reflexive and transitive relation with these pairs.
        ensures least { (result ≡ true) ↔ Subclass self.now name.now above.now }
    {
        is_subclass(&self.index, &self.above, name, above)
    }
}
