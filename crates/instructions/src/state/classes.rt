//! The states of classes (JVMS 5.5), by their names.
ghost use Rattle.std.specs.Prelude.{◌≡◌, position, slice_get};
ghost use Rattle.std.specs.Option.{option_map};
ghost use Rattle.model.specs.ClassListings.{ClassListing};
ghost use Rattle.model.specs.Classes.Named.{class_named, is_named};
ghost use Rattle.model.specs.Observers.{state_named};

use super::State;
use model::listings::Listing;
use model::turns::ClassState;
use resolve::builtins::is_builtin;

/// The place of the class of a name.
fn place_named(classes: &[Listing], name: &[u8]) -> Option<usize>
    ensures { result ≡ position (is_named name.now) classes.now }
{
    classes
        .iter()
        .position(|class| class.name.as_bytes() == name)
}

fn state_of(states: &[ClassState], class: usize) -> Option<ClassState>
    ensures { result ≡ slice_get states.now class }
{
    states.get(class).copied()
}

impl State {
    /// The state of the class of a name: one of the machine's own is initialised. `None` where there is no such class.
    pub fn class_state(&self, name: &[u8]) -> Option<ClassState>
        ensures { result ≡ option_map
            (λ (class : ClassListing). state_named self.now.program self.now.machine.world name.now)
            (class_named self.now.program name.now) }
    {
        match place_named(self.program.listings(), name) {
            Some(class) => state_of(self.machine.states.as_slice(), class),
            None => {
                if is_builtin(name) {
                    Some(ClassState::Done)
                } else {
                    None
                }
            }
        }
    }
}
