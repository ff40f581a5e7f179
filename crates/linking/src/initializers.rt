//! The initializers of classes, and which classes want initialising (JVMS 2.9, 5.5).
ghost use Rattle.std.specs.Prelude.{◌≡◌, position, IfOk};
ghost use Rattle.std.specs.List.{list_any, position_or_len};
ghost use Rattle.model.specs.Classes.Search.{superclasses};
ghost use Rattle.model.specs.Initialisation.{declares_initializer, wants_initialising};
ghost use Rattle.model.specs.Programs.{is_class_initializer};
ghost use Rattle.linking.specs.Initializers.{declares_named, initializers, is_wanted_in, place_in};

use crate::named_methods::is_class_initializer;
use bitflags::Flags;
use indexmap::IndexSet;
use model::flags::ClassFlags;
use model::listings::{Listing, Method};
use model::places::MethodPlace;
use resolve::classes::Classes;
use resolve::keys::NameKey;
use std::alloc::{AllocError, Global};
use std::marker::Model;

/// The initializer of a class by its place there, after the last method where the class declares none; and whether the
/// class wants initialising.
#[derive(Clone, Copy, PartialEq, Eq)]
pub struct ClassInitializer {
    method: usize,
    is_wanted: bool,
}

/// The initializers of a program's classes, in order. A contract sees the list.
#[derive(Drop)]
pub struct Initializers {
    classes: Vec<ClassInitializer>,
}

impl Model for Initializers {
    ghost use Rattle.std.specs.Prelude.{List};
    ghost use Rattle.linking.specs.declared.initializers.ClassInitializer.{ClassInitializer};

    ghost Value = { List ClassInitializer };

    ghost view = { λ a. a.classes.items };
}

/// The names of the classes of a program that declare an initializer. A contract sees the program.
#[derive(Drop)]
struct Declarers<'a> {
    program: &'a [Listing],
    names: IndexSet<NameKey<'a>>,
}

impl<'a> Model for Declarers<'a> {
    ghost use Rattle.std.specs.Prelude.{List};
    ghost use Rattle.model.specs.ClassListings.{ClassListing};
    ghost use Rattle.linking.specs.Initializers.{AreDeclarers};

    ghost Value = { List ClassListing };

    ghost view = { λ a. a.program.now };

    ghost invariant = { λ a. AreDeclarers a.program.now a.names.keys };
}

fn declares_initializer(class: &Listing) -> bool
    ensures { result ≡ declares_initializer class.now }
{
    class
        .methods
        .iter()
        .any(|method| is_class_initializer(method))
}

fn first_initializer(methods: &[Method]) -> Option<usize>
    ensures { result ≡ position is_class_initializer methods.now }
{
    methods
        .iter()
        .position(|method| is_class_initializer(method))
}

/// The place of the first initializer among some methods, or how many they are.
fn initializer_among(methods: &[Method]) -> usize
    ensures { result ≡ position_or_len is_class_initializer methods.now }
{
    first_initializer(methods).unwrap_or(methods.len())
}

impl<'a> Declarers<'a> {
    /// The names in a program. `AllocError` where memory runs out.
    fn new(alloc: Global, program: &'a [Listing]) -> Result<Declarers<'a>, AllocError>
        ensures { IfOk result (λ declarers. declarers ≡ program.now) }
    {
        let mut names = IndexSet::new(alloc);
        for class in program {
            if declares_initializer(class) {
                names.insert(NameKey {
                    bytes: class.name.as_bytes(),
                })?;
            }
        }
        Ok(Declarers { program, names })
    }

    /// Whether a class of this name declares an initializer.
    fn has(&self, name: &[u8]) -> bool
        ensures { result ≡ declares_named self.now name.now }
    {
        self.names.contains(&NameKey { bytes: name })
    }
}

/// Whether the class of a name or one of its superclasses declares an initializer.
fn is_declared_upwards(classes: &Classes<'_>, declarers: &Declarers<'_>, name: &[u8]) -> bool
    ensures { result ≡ list_any (declares_named declarers.now) (superclasses classes.now name.now) }
{
    let mut next = name;
    for _ in 0..classes.enough_steps() {
        match classes.class_named(next) {
            Some(class) => {
                if declarers.has(next) {
                    return true;
                }
                next = class.superclass.as_bytes();
            }
            None => return false,
        }
    }
    false
}

/// Whether a class, no interface, or one of its superclasses declares an initializer.
fn wants_initialising(classes: &Classes<'_>, declarers: &Declarers<'_>, class: &Listing) -> bool
    ensures { declarers.now ≡ classes.now → result ≡ wants_initialising classes.now class.now }
{
    let declared = is_declared_upwards(classes, declarers, class.name.as_bytes());
    declared && !class.flags.contains(ClassFlags::INTERFACE)
}

impl Initializers {
    /// The initializers of a program. `AllocError` where memory runs out.
    pub fn new(alloc: Global, classes: &Classes<'_>) -> Result<Initializers, AllocError>
        ensures { IfOk result (λ all. all ≡ initializers classes.now) }
    {
        let program = classes.program();
        let declarers = Declarers::new(alloc, program)?;
        let mut all = Vec::new(alloc);
        for class in program {
            all.push(ClassInitializer {
                method: initializer_among(&class.methods),
                is_wanted: wants_initialising(classes, &declarers, class),
            })?;
        }
        Ok(Initializers { classes: all })
    }

    /// The place of the initializer of a class of the program.
    pub fn initializer(&self, class: usize) -> MethodPlace
        ensures { result ≡ place_in self.now class }
    {
        let method = match self.classes.get(class) {
            Some(initializer) => initializer.method,
            None => 0,
        };
        MethodPlace { class, method }
    }

    /// Whether a class of the program wants initialising. No of the machine's own, which are initialised.
    pub fn wants_initialising(&self, class: usize) -> bool
        ensures { result ≡ is_wanted_in self.now class }
    {
        match self.classes.get(class) {
            Some(initializer) => initializer.is_wanted,
            None => false,
        }
    }
}
