//! Resolution and selection (JVMS 5.4.3, 6.5).
ghost use Rattle.std.specs.Prelude.{◌≡◌, ◌∷◌, []};
ghost use Rattle.model.specs.Classes.Resolution.{is_initializer, resolved_field, resolved_method};
ghost use Rattle.model.specs.Classes.Selection.{selected};

use crate::classes::Classes;
use crate::found::Found;
use crate::sought::{SoughtField, SoughtMethod, SoughtVirtual};
use model::listings::{Field, Method};
use model::names::Member;

/// Whether a name is that of an instance or class initializer (JVMS 2.9).
pub fn is_initializer(name: &[u8]) -> bool
    ensures { result ≡ is_initializer name.now }
{
    name == b"<init>".as_slice() || name == b"<clinit>".as_slice()
}

impl<'a> Classes<'a> {
    /// The field to which a reference is resolved (JVMS 5.4.3.2): of the class that is named, else of its
    /// superinterfaces, else in the same way from its superclass on. `None` where there is none.
    pub fn field(&self, member: &Member) -> Option<Found<'_, Field>>
        ensures { result ≡ resolved_field self.now member.now }
    {
        let sought = SoughtField {
            name: member.name.as_bytes(),
            descriptor: member.descriptor.as_bytes(),
        };
        self.in_either(member.class.as_bytes(), &sought)
    }

    /// The method to which a reference is resolved (JVMS 5.4.3.3): of the class that is named and its superclasses,
    /// else of the superinterfaces of each. An initializer is found only in the class that is named. `None` where there
    /// is none.
    pub fn method(&self, member: &Member) -> Option<Found<'_, Method>>
        ensures { result ≡ resolved_method self.now member.now }
    {
        let class = member.class.as_bytes();
        let sought = SoughtMethod {
            name: member.name.as_bytes(),
            descriptor: member.descriptor.as_bytes(),
        };
        if is_initializer(sought.name) {
            self.declared_by(class, &sought)
        } else {
            self.in_method_order(class, &sought)
        }
    }

    /// The method that is selected for an object of a class (JVMS 6.5, invokevirtual): that of the nearest class
    /// upwards that declares one of this name and descriptor that is neither static nor private. `None` where there is
    /// none.
    pub fn select(&self, class: &[u8], name: &[u8], descriptor: &[u8]) -> Option<Found<'_, Method>>
        ensures { result ≡ selected self.now class.now name.now descriptor.now }
    {
        self.in_superclasses(class, &SoughtVirtual { name, descriptor })
    }
}
