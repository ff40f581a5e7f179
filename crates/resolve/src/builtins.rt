//! The machine's own classes, as listings.
ghost use Rattle.std.specs.Prelude.{◌≡◌, is_some, map, IfOk};
ghost use Rattle.std.specs.List.{position};
ghost use Rattle.std.specs.Option.{option_copied, option_map};
ghost use Rattle.std.specs.Str.{bytes_eq};
ghost use Rattle.model.specs.ClassListings.{ClassListing};
ghost use Rattle.model.specs.Classes.Builtin.{builtin_classes};
ghost use Rattle.model.specs.Classes.Named.{builtin};
ghost use Rattle.resolve.specs.Builtins.{method_among, superclass_among, native_listing, own_listing};
ghost use Rattle.resolve.specs.Numbers.{name_of};

use bitflags::Flags;
use model::flags::{ClassFlags, MethodFlags};
use model::listings::{Listing, Method};
use model::names::Name;
use std::alloc::{AllocError, Global};

/// A method of one of the machine's own classes: public and native, and static where that is said.
#[derive(Clone, Copy)]
pub struct Native {
    pub is_static: bool,
    pub name: &'static [u8],
    pub descriptor: &'static [u8],
}

/// A class of the machine itself, with its superclass and its methods.
#[derive(Clone, Copy)]
pub struct Builtin {
    pub name: &'static [u8],
    pub superclass: &'static [u8],
    pub methods: &'static [Native],
}

macro_rules! method {
    ($name:literal $descriptor:literal) => {
        Native {
            is_static: false,
            name: $name,
            descriptor: $descriptor,
        }
    };
}

macro_rules! function {
    ($name:literal $descriptor:literal) => {
        Native {
            is_static: true,
            name: $name,
            descriptor: $descriptor,
        }
    };
}

macro_rules! class {
    ($name:literal over $superclass:literal with $methods:expr) => {
        Builtin {
            name: $name,
            superclass: $superclass,
            methods: $methods,
        }
    };
    ($name:literal over $superclass:literal) => {
        class!($name over $superclass with &INITIALIZER)
    };
}

const INITIALIZER: [Native; 1] = [method!(b"<init>" b"()V")];

const THREAD_METHODS: [Native; 4] = [
    method!(b"<init>" b"()V"),
    method!(b"run" b"()V"),
    method!(b"start" b"()V"),
    method!(b"join" b"()V"),
];

const PRINT_METHODS: [Native; 3] = [
    function!(b"print" b"(I)V"),
    function!(b"printl" b"(J)V"),
    function!(b"putc" b"(I)V"),
];

/// The machine's own classes, in order.
pub const BUILTINS: [Builtin; 23] = [
    class!(b"java/lang/Object" over b""),
    class!(b"java/lang/Throwable" over b"java/lang/Object"),
    class!(b"java/lang/Exception" over b"java/lang/Throwable"),
    class!(b"java/lang/Error" over b"java/lang/Throwable"),
    class!(b"java/lang/RuntimeException" over b"java/lang/Exception"),
    class!(b"java/lang/ArithmeticException" over b"java/lang/RuntimeException"),
    class!(b"java/lang/NullPointerException" over b"java/lang/RuntimeException"),
    class!(b"java/lang/ClassCastException" over b"java/lang/RuntimeException"),
    class!(b"java/lang/NegativeArraySizeException" over b"java/lang/RuntimeException"),
    class!(b"java/lang/ArrayStoreException" over b"java/lang/RuntimeException"),
    class!(b"java/lang/IllegalMonitorStateException" over b"java/lang/RuntimeException"),
    class!(b"java/lang/IndexOutOfBoundsException" over b"java/lang/RuntimeException"),
    class!(b"java/lang/ArrayIndexOutOfBoundsException" over b"java/lang/IndexOutOfBoundsException"),
    class!(b"java/lang/IllegalArgumentException" over b"java/lang/RuntimeException"),
    class!(b"java/lang/IllegalThreadStateException" over b"java/lang/IllegalArgumentException"),
    class!(b"java/lang/VirtualMachineError" over b"java/lang/Error"),
    class!(b"java/lang/OutOfMemoryError" over b"java/lang/VirtualMachineError"),
    class!(b"java/lang/StackOverflowError" over b"java/lang/VirtualMachineError"),
    class!(b"java/lang/LinkageError" over b"java/lang/Error"),
    class!(b"java/lang/ExceptionInInitializerError" over b"java/lang/LinkageError"),
    class!(b"java/lang/NoClassDefFoundError" over b"java/lang/LinkageError"),
    class!(b"java/lang/Thread" over b"java/lang/Object" with &THREAD_METHODS),
    class!(b"vm/Sys" over b"java/lang/Object" with &PRINT_METHODS),
];

fn superclass_among(classes: &[Builtin], name: &[u8]) -> Option<&'static [u8]>
    ensures { option_copied result ≡ superclass_among classes.now name.now }
{
    for class in classes {
        if class.name == name {
            return Some(class.superclass);
        }
    }
    None
}

/// The name of the superclass of the machine's own class of this name; empty at `java/lang/Object`.
pub fn builtin_superclass(name: &[u8]) -> Option<&'static [u8]>
    ensures { option_copied result ≡ option_map (λ (c : ClassListing). c.superclass) (builtin name.now) }
{
    superclass_among(&BUILTINS, name)
}

/// Whether one of the machine's own classes has this name.
pub fn is_builtin(name: &[u8]) -> bool
    ensures { result ≡ is_some (builtin name.now) }
{
    builtin_superclass(name).is_some()
}

fn place_among(classes: &[Builtin], name: &[u8]) -> Option<usize>
    ensures { result ≡ position (bytes_eq name.now) (map (λ b. b.name.now) classes.now) }
{
    for (place, class) in classes.iter().enumerate() {
        if name == class.name {
            return Some(place);
        }
    }
    None
}

/// The place among the machine's own classes of the one of this name.
#[tactic(auto, unfolding(model::specs::Classes::Builtin::builtin_classes))]
pub fn builtin_number(name: &[u8]) -> Option<usize>
    ensures { result ≡ position (bytes_eq name.now) (map name_of builtin_classes) }
{
    place_among(&BUILTINS, name)
}

fn method_among(classes: &'static [Builtin], class: usize, method: usize) -> Option<&'static Native>
    ensures { option_map native_listing (option_copied result)
        ≡ method_among (map own_listing classes.now) class method }
{
    match classes.get(class) {
        Some(class) => class.methods.get(method),
        None => None,
    }
}

/// The method at a place of the machine's own class at another, by its name and descriptor; `None` where there is none.
#[tactic(auto, unfolding(model::specs::Classes::Builtin::builtin_classes))]
pub fn builtin_method(class: usize, method: usize) -> Option<&'static Native>
    ensures { option_map native_listing (option_copied result) ≡ method_among builtin_classes class method }
{
    method_among(&BUILTINS, class, method)
}

fn native_listing(alloc: Global, native: &Native) -> Result<Method, AllocError>
    ensures { IfOk result (λ method. method ≡ native_listing native.now) }
{
    let flags = if native.is_static { 0x0109 } else { 0x0101 };
    Ok(Method {
        flags: MethodFlags::from_bits_retain(flags),
        name: Name::copy_of(alloc, native.name)?,
        descriptor: Name::copy_of(alloc, native.descriptor)?,
        code: None,
    })
}

fn native_listings(alloc: Global, natives: &[Native]) -> Result<Vec<Method>, AllocError>
    ensures { IfOk result (λ methods. methods.items ≡ map native_listing natives.now) }
{
    let mut methods = Vec::new(alloc);
    for native in natives {
        methods.push(native_listing(alloc, native)?)?;
    }
    Ok(methods)
}

fn own_listing(alloc: Global, class: &Builtin) -> Result<Listing, AllocError>
    ensures { IfOk result (λ listing. listing ≡ own_listing class.now) }
{
    Ok(Listing {
        name: Name::copy_of(alloc, class.name)?,
        flags: ClassFlags::PUBLIC,
        superclass: Name::copy_of(alloc, class.superclass)?,
        interfaces: Vec::new(alloc),
        fields: Vec::new(alloc),
        methods: native_listings(alloc, class.methods)?,
    })
}

fn own_listings(alloc: Global, classes: &[Builtin]) -> Result<Vec<Listing>, AllocError>
    ensures { IfOk result (λ listings. listings.items ≡ map own_listing classes.now) }
{
    let mut listings = Vec::new(alloc);
    for class in classes {
        listings.push(own_listing(alloc, class)?)?;
    }
    Ok(listings)
}

/// The listings of the machine's own classes, in order. `AllocError` where memory runs out.
#[tactic(auto, unfolding(model::specs::Classes::Builtin::builtin_classes))]
pub fn builtin_classes(alloc: Global) -> Result<Vec<Listing>, AllocError>
    ensures { IfOk result (λ listings. listings.items ≡ builtin_classes) }
{
    own_listings(alloc, &BUILTINS)
}
