//! The method that `invokespecial` calls (JVMS 6.5).
ghost use Rattle.std.specs.Prelude.{◌≡◌};
ghost use Rattle.std.specs.List.{list_any};
ghost use Rattle.std.specs.Str.{bytes_eq};
ghost use Rattle.model.specs.Classes.Search.{superclasses};
ghost use Rattle.model.specs.Classes.Special.{special_method};

use crate::classes::Classes;
use crate::found::Found;
use crate::resolution::is_initializer;
use model::listings::Method;
use model::names::Member;

impl<'a> Classes<'a> {
    /// Whether a class is the class of a name or one of its superclasses.
    fn is_upwards(&self, name: &[u8], above: &[u8]) -> bool
        ensures { result ≡ list_any (bytes_eq above.now) (superclasses self.now name.now) }
    {
        let mut next = name;
        for _ in 0..self.enough_steps() {
            match self.class_named(next) {
                Some(class) => {
                    if above == next {
                        return true;
                    }
                    next = class.superclass.as_bytes();
                }
                None => return false,
            }
        }
        false
    }

    /// The method that `invokespecial` calls in code of a class that has this superclass (JVMS 6.5): a method of a
    /// proper superclass is looked up from the direct superclass on; any other, and an initializer, is taken as it is
    /// resolved. `None` where there is none.
    pub fn special(&self, superclass: &[u8], member: &Member) -> Option<Found<'_, Method>>
        ensures { result ≡ special_method self.now superclass.now member.now }
    {
        let found = self.method(member)?;
        let name = member.name.as_bytes();
        let class = found.class;
        if !is_initializer(name) && self.is_upwards(superclass, class.name.as_bytes()) {
            self.select(superclass, name, member.descriptor.as_bytes())
        } else {
            Some(found)
        }
    }
}
