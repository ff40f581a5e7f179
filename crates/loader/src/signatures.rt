//! The names and descriptors of the methods that selection tables tell (JVMS 6.5, invokevirtual).
ghost use Rattle.std.specs.Prelude.{◌≡◌};
ghost use Rattle.std.specs.Option.{option_map};
ghost use Rattle.model.specs.Classes.Builtin.{builtin_classes};
ghost use Rattle.resolve.specs.Builtins.{method_among};
ghost use Rattle.std.specs.Prelude.{slice_get};
ghost use Rattle.loader.specs.Signatures.{lent, signature_at, signature_of};

use linking::selection_rows::SelectionRow;
use model::listings::Listing;
use resolve::builtins::builtin_method;

/// A method's name and its descriptor (JVMS 4.3.3), lent.
#[derive(Clone, Copy)]
pub struct Signature<'a> {
    pub name: &'a [u8],
    pub descriptor: &'a [u8],
}

/// That of the method at a place of a class.
fn listed_signature(class: &Listing, method: usize) -> Option<Signature<'_>>
    ensures { option_map lent result ≡ option_map signature_of (slice_get class.now.methods method) }
{
    match class.methods.get(method) {
        Some(method) => Some(Signature {
            name: method.name.as_bytes(),
            descriptor: method.descriptor.as_bytes(),
        }),
        None => None,
    }
}

/// That of the method at a place of one of the machine's own classes.
fn own_signature(class: usize, method: usize) -> Option<Signature<'static>>
    ensures { option_map lent result ≡ option_map signature_of (method_among builtin_classes class method) }
{
    match builtin_method(class, method) {
        Some(native) => Some(Signature {
            name: native.name,
            descriptor: native.descriptor,
        }),
        None => None,
    }
}

/// That of the method which a row tells; `None` where it tells none, which no row of a table does.
pub(crate) fn signature_at(listings: &[Listing], row: SelectionRow) -> Option<Signature<'_>>
    ensures { option_map lent result ≡ signature_at listings.now row }
{
    match listings.get(row.class) {
        Some(class) => listed_signature(class, row.method),
        None => own_signature(row.class - listings.len(), row.method),
    }
}
