//! Searching classes in an order (JVMS 5.4.3).
ghost use Rattle.std.specs.Prelude.{◌≡◌, [], ◌∷◌, map, Some};
ghost use Rattle.std.specs.List.{flat_map};
ghost use Rattle.model.specs.Classes.Search.{declared_in, first_declared, field_order, method_order, superclasses};
ghost use Rattle.model.specs.Classes.Search.{superinterfaces};

use crate::classes::Classes;
use crate::found::Found;
use crate::keys::NameKey;
use crate::members::Members;
use crate::sought::Sought;
use model::listings::Listing;

/// What a class declares.
fn declared<'c, S: Sought>(class: &'c Listing, sought: &S) -> Option<Found<'c, S::Member>>
    ensures { result ≡ declared_in (S.of sought.now) class.now.name (Some class.now) }
{
    let member = sought.of(class)?;
    Some(Found { class, member })
}

/// What a class of the program declares.
fn declared_in<'c, S: Sought>(members: &'c Members<'_>, sought: &S) -> Option<Found<'c, S::Member>>
    ensures { result ≡ declared_in (S.of sought.now) members.now.name (Some members.now) }
{
    let member = sought.find_in(members)?;
    Some(Found {
        class: members.class(),
        member,
    })
}

impl<'a> Classes<'a> {
    /// What the class of a name declares.
    pub fn declared_by<S: Sought>(&self, name: &[u8], sought: &S) -> Option<Found<'_, S::Member>>
        ensures { result ≡ first_declared self.now (S.of sought.now) (name.now ∷ []) }
    {
        match self.members(name) {
            Some(members) => declared_in(members, sought),
            None => declared(self.class_named(name)?, sought),
        }
    }

    /// What the first of these classes declares that declares what is sought.
    fn declared_among<S: Sought>(
        &self,
        names: &[NameKey<'_>],
        sought: &S,
    ) -> Option<Found<'_, S::Member>>
        ensures { result ≡ first_declared self.now (S.of sought.now) (map (λ n. n.bytes.now) names.now) }
    {
        for name in names {
            if let Some(found) = self.declared_by(name.bytes, sought) {
                return Some(found);
            }
        }
        None
    }

    /// What the superinterfaces of the class of a name declare, but for those of its superclasses.
    fn declared_by_interfaces<S: Sought>(
        &self,
        name: &[u8],
        sought: &S,
    ) -> Option<Found<'_, S::Member>>
        ensures { result ≡ first_declared self.now (S.of sought.now) (superinterfaces self.now name.now) }
    {
        let interfaces = self.interfaces(name)?;
        self.declared_among(interfaces.as_slice(), sought)
    }

    /// What the class of a name declares, or else its superinterfaces.
    fn declared_by_either<S: Sought>(&self, name: &[u8], sought: &S) -> Option<Found<'_, S::Member>>
        ensures { result ≡ first_declared self.now (S.of sought.now) (name.now ∷ superinterfaces self.now name.now) }
    {
        match self.declared_by(name, sought) {
            Some(found) => Some(found),
            None => self.declared_by_interfaces(name, sought),
        }
    }

    /// What the nearest class declares, from the class of a name upwards.
    pub fn in_superclasses<S: Sought>(
        &self,
        name: &[u8],
        sought: &S,
    ) -> Option<Found<'_, S::Member>>
        ensures { result ≡ first_declared self.now (S.of sought.now) (superclasses self.now name.now) }
    {
        let mut next = name;
        for _ in 0..self.enough_steps() {
            let class = self.class_named(next)?;
            if let Some(found) = self.declared_by(next, sought) {
                return Some(found);
            }
            next = class.superclass.as_bytes();
        }
        None
    }

    /// What the superinterfaces declare of the nearest class, from the class of a name upwards.
    pub fn in_superinterfaces<S: Sought>(
        &self,
        name: &[u8],
        sought: &S,
    ) -> Option<Found<'_, S::Member>>
        ensures { result ≡ first_declared self.now (S.of sought.now)
            (flat_map (superinterfaces self.now) (superclasses self.now name.now)) }
    {
        let mut next = name;
        for _ in 0..self.enough_steps() {
            let class = self.class_named(next)?;
            if let Some(found) = self.declared_by_interfaces(next, sought) {
                return Some(found);
            }
            next = class.superclass.as_bytes();
        }
        None
    }

    /// What the nearest class declares or its superinterfaces, from the class of a name upwards.
    pub fn in_either<S: Sought>(&self, name: &[u8], sought: &S) -> Option<Found<'_, S::Member>>
        ensures { result ≡ first_declared self.now (S.of sought.now) (field_order self.now name.now) }
    {
        let mut next = name;
        for _ in 0..self.enough_steps() {
            let class = self.class_named(next)?;
            if let Some(found) = self.declared_by_either(next, sought) {
                return Some(found);
            }
            next = class.superclass.as_bytes();
        }
        None
    }

    /// What the nearest class declares, from the class of a name upwards, or else the superinterfaces of the nearest.
    #[tactic(auto, using(crate::proofs::SearchLemmas::first_append))]
    pub fn in_method_order<S: Sought>(
        &self,
        name: &[u8],
        sought: &S,
    ) -> Option<Found<'_, S::Member>>
        ensures { result ≡ first_declared self.now (S.of sought.now) (method_order self.now name.now) }
    {
        match self.in_superclasses(name, sought) {
            Some(found) => Some(found),
            None => self.in_superinterfaces(name, sought),
        }
    }
}
