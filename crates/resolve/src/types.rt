//! Types that instructions name: a class by its name, an array by its descriptor (JVMS 4.4.1).
ghost use Rattle.std.specs.Prelude.{◌≡◌, ◌↔◌, ℕ, List, Bool, true, Some, codes};
ghost use Rattle.std.specs.Str.{bytes_eq};
ghost use Rattle.model.specs.Classes.Subclasses.{is_subclass};
ghost use Rattle.model.specs.Classes.Types.{described, element_of, is_type, is_subtype, types_compare};
ghost use Rattle.resolve.specs.Elements.{shown, reported};
ghost use Rattle.resolve.specs.Subtypes.{Subtype};

use crate::classes::Classes;

/// What an array holds: numbers of a kind, by its letter, or references to a class or an array.
#[derive(Clone, Copy)]
pub enum Element<'t> {
    Number(u8),
    Reference(&'t [u8]),
}

/// What a descriptor says; `None` where it is empty.
pub fn described(descriptor: &[u8]) -> Option<Element<'_>>
    ensures { shown result ≡ described descriptor.now }
{
    let (letter, rest) = descriptor.split_first()?;
    Some(match *letter {
        b'L' => Element::Reference(&rest[..rest.len().saturating_sub(1)]),
        b'[' => Element::Reference(descriptor),
        letter => Element::Number(letter),
    })
}

/// What an array of a type holds; `None` where the type is no array.
fn element_of(name: &[u8]) -> Option<Element<'_>>
    ensures { shown result ≡ element_of name.now }
{
    let (first, rest) = name.split_first()?;
    if *first == b'[' {
        described(rest)
    } else {
        None
    }
}

/// What is known of two types before their elements are looked at: the answer, or it is that of their elements.
#[derive(Clone, Copy)]
enum Compared<'t> {
    Reported(bool),
    Elements(&'t [u8], &'t [u8]),
}

/// Compares what two arrays hold.
fn compare_elements<'t>(element: Element<'t>, other: Element<'t>) -> Compared<'t>
    ensures { (class object : Bool) (elements : List ℕ → List ℕ → Bool)
        → reported elements result ≡ types_compare class object elements (shown (Some element.entry))
        (shown (Some other.entry)) }
{
    match element {
        Element::Number(letter) => match other {
            Element::Number(other) => Compared::Reported(letter == other),
            Element::Reference(_) => Compared::Reported(false),
        },
        Element::Reference(name) => match other {
            Element::Number(_) => Compared::Reported(false),
            Element::Reference(other) => Compared::Elements(name, other),
        },
    }
}

impl<'a> Classes<'a> {
    /// Whether a type is there: a class that is, numbers, or an array of what is there.
    pub fn is_type(&self, name: &[u8]) -> bool
        ensures { result ≡ is_type self.now name.now }
    {
        let mut next = name;
        for _ in 0..name.len() + 1 {
            match element_of(next) {
                None => return self.class_named(next).is_some(),
                Some(Element::Number(_)) => return true,
                Some(Element::Reference(element)) => next = element,
            }
        }
        false
    }

    /// Compares two types, but for the elements of arrays.
    fn compare_types<'t>(&self, name: &'t [u8], above: &'t [u8]) -> Compared<'t>
        ensures { (elements : List ℕ → List ℕ → Bool)
            → reported elements result ≡ types_compare (is_subclass self.now name.now above.now)
            (bytes_eq above.now (codes "java/lang/Object")) elements (element_of name.now) (element_of above.now) }
    {
        match element_of(name) {
            None => Compared::Reported(self.is_subclass(name, above)),
            Some(element) => match element_of(above) {
                None => Compared::Reported(above == b"java/lang/Object".as_slice()),
                Some(other) => compare_elements(element, other),
            },
        }
    }

    /// Whether a type is another's subclass (JVMS 6.5, instanceof): a class by what is above it; an array is one of
    /// Object, of arrays of the same numbers, and of arrays of what its elements are subclasses of.
    pub fn is_subtype(&self, name: &[u8], above: &[u8]) -> bool
        ensures test { result ≡ is_subtype self.now name.now above.now }
        // That is the least relation with these pairs.
        ensures least { (result ≡ true) ↔ Subtype self.now name.now above.now }
    {
        self.is_below(name, above)
    }

    /// The same, element by element.
    fn is_below(&self, name: &[u8], above: &[u8]) -> bool
        ensures { result ≡ is_subtype self.now name.now above.now }
    {
        let mut lower = name;
        let mut upper = above;
        for _ in 0..name.len() + 1 {
            match self.compare_types(lower, upper) {
                Compared::Reported(answer) => return answer,
                Compared::Elements(element, other) => {
                    lower = element;
                    upper = other;
                }
            }
        }
        false
    }
}
