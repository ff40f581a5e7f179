//! The superinterfaces of classes, in the order in which members are sought (JVMS 5.4.3).
ghost use Rattle.std.specs.Prelude.{◌≡◌, ◌<◌, [], ℕ, List, cond, true, is_none, is_some, IfOk, OnOk, Some};
ghost use Rattle.std.specs.List.{find, flat_map, list_all};
ghost use Rattle.std.specs.Option.{option_copied};
ghost use Rattle.std.specs.Str.{bytes_eq};
ghost use Rattle.model.specs.ClassListings.{ClassListing};
ghost use Rattle.resolve.specs.Interfaces.{AreFull, AreLists, all_following};
ghost use Rattle.resolve.specs.Interfaces.{first_ready, is_ready, is_settled, lists_in};
ghost use Rattle.resolve.specs.Interfaces.{missing, with_list};
ghost use Rattle.resolve.specs.Reached.{with_names};

use crate::index::Index;
use crate::keys::NameKey;
use crate::order::parents_first;
use crate::reached::Reached;
use indexmap::IndexMap;
use model::listings::Listing;
use model::names::Name;
use std::alloc::{AllocError, Global};

/// Under the names of classes, the superinterfaces of each, in the order of the search, each once.
#[derive(Drop)]
pub struct Interfaces<'a> {
    lists: IndexMap<NameKey<'a>, Reached<'a>>,
}

impl<'a> Interfaces<'a> {
    /// The list under a name.
    pub fn get(&self, name: &[u8]) -> Option<&Reached<'a>>
        ensures { option_copied result ≡ lists_in self.now.lists.entries name.now }
    {
        let place = self.lists.get_index_of(&NameKey { bytes: name })?;
        let (_, list) = self.lists.get_index(place)?;
        Some(list)
    }

    /// Adds an interface, and after it what its list has.
    fn add_with_list(&self, name: &'a [u8], found: &mut Reached<'a>) -> Result<(), AllocError>
        ensures { OnOk result (found.new ≡ with_names found.old
            (with_list name.now (lists_in self.now.lists.entries name.now))) }
    {
        found.add(name)?;
        match self.get(name) {
            Some(list) => found.add_all(list),
            None => Ok(()),
        }
    }

    /// These names, after each what its list has, each name once.
    fn following(&self, alloc: Global, names: &Reached<'a>) -> Result<Reached<'a>, AllocError>
        ensures { IfOk result (λ found. found ≡ with_names []
            (all_following (lists_in self.now.lists.entries) names.now)) }
    {
        let mut found = Reached::new(alloc);
        for name in names.as_slice() {
            self.add_with_list(name.bytes, &mut found)?;
        }
        Ok(found)
    }

    /// These interfaces, after each what its list has, each name once. A class may name an interface 65,535 times: its
    /// list is added once.
    fn listed_after(&self, alloc: Global, interfaces: &'a [Name]) -> Result<Reached<'a>, AllocError>
        ensures { IfOk result (λ found. found ≡ with_names []
            (all_following (lists_in self.now.lists.entries) interfaces.now)) }
    {
        let mut names = Reached::new(alloc);
        names.add_interfaces(interfaces)?;
        match self.following(alloc, &names) {
            Ok(found) => Ok(found),
            Err(error) => Err(error),
        }
    }

    /// Whether a name has its list, or is no class of the program.
    fn is_settled(&self, index: &Index<'_>, name: &[u8]) -> bool
        ensures { result ≡ is_settled index.now (lists_in self.now.lists.entries) name.now }
    {
        self.get(name).is_some() || index.listed(name).is_none()
    }

    fn are_settled(&self, index: &Index<'_>, names: &[Name]) -> bool
        ensures { result ≡ list_all (is_settled index.now (lists_in self.now.lists.entries)) names.now }
    {
        names
            .iter()
            .all(|name| self.is_settled(index, name.as_bytes()))
    }

    /// Whether the class of a name has no list, while its parents have theirs.
    fn is_ready(&self, index: &Index<'_>, name: &[u8]) -> bool
        ensures { result ≡ is_ready index.now (lists_in self.now.lists.entries) name.now }
    {
        match index.listed(name) {
            Some(class) => {
                self.get(name).is_none()
                    && self.is_settled(index, class.superclass.as_bytes())
                    && self.are_settled(index, &class.interfaces)
            }
            None => false,
        }
    }

    /// The first class that is ready.
    fn first_ready(&self, index: &Index<'a>) -> Option<&'a Listing>
        ensures { option_copied result ≡ first_ready index.now (lists_in self.now.lists.entries) }
    {
        index
            .program()
            .iter()
            .find(|class| self.is_ready(index, class.name.as_bytes()))
    }

    /// Adds the list of the class of a name.
    fn add(&mut self, alloc: Global, index: &Index<'a>, name: &'a [u8]) -> Result<(), AllocError>
        requires ready { is_ready index.now (lists_in self.old.lists.entries) name.now ≡ true }
        requires lists { AreLists index.now (lists_in self.old.lists.entries) }
        ensures lists { OnOk result (AreLists index.now (lists_in self.new.lists.entries)) }
        ensures fewer { OnOk result (missing index.now (lists_in self.new.lists.entries)
            < missing index.now (lists_in self.old.lists.entries)) }
    {
        if let Some(class) = index.listed(name) {
            let list = self.listed_after(alloc, &class.interfaces)?;
            self.lists.insert(NameKey { bytes: name }, list)?;
        }
        Ok(())
    }

    /// Adds the lists of these classes, of each that is ready when its turn comes.
    fn add_ready(
        &mut self,
        alloc: Global,
        index: &Index<'a>,
        names: &Reached<'a>,
    ) -> Result<(), AllocError>
        requires { AreLists index.now (lists_in self.old.lists.entries) }
        ensures { OnOk result (AreLists index.now (lists_in self.new.lists.entries)) }
    {
        for name in names.as_slice() {
            if self.is_ready(index, name.bytes) {
                self.add(alloc, index, name.bytes)?;
            }
        }
        Ok(())
    }

    /// Adds lists until no class is ready.
    fn add_rest(&mut self, alloc: Global, index: &Index<'a>) -> Result<(), AllocError>
        requires { AreLists index.now (lists_in self.old.lists.entries) }
        ensures lists { OnOk result (AreLists index.now (lists_in self.new.lists.entries)) }
        ensures full { OnOk result (AreFull index.now (lists_in self.new.lists.entries)) }
    {
        while let Some(class) = self.first_ready(index) {
            self.add(alloc, index, class.name.as_bytes())?;
        }
        Ok(())
    }

    /// Adds the lists of a program's classes, of all where none is above itself. Each is made once, from those of its
    /// parents, as long as each class stands after its parents in the order that is tried first.
    fn add_all(&mut self, alloc: Global, index: &Index<'a>) -> Result<(), AllocError>
        requires { AreLists index.now (lists_in self.old.lists.entries) }
        ensures lists { OnOk result (AreLists index.now (lists_in self.new.lists.entries)) }
        ensures full { OnOk result (AreFull index.now (lists_in self.new.lists.entries)) }
    {
        let names = parents_first(alloc, index)?;
        self.add_ready(alloc, index, &names)?;
        self.add_rest(alloc, index)
    }

    /// The lists of a program's classes, of all where none is above itself. `AllocError` where memory runs out.
    pub fn new(alloc: Global, index: &Index<'a>) -> Result<Interfaces<'a>, AllocError>
        ensures lists { IfOk result (λ found. AreLists index.now (lists_in found.lists.entries)) }
        ensures full { IfOk result (λ found. AreFull index.now (lists_in found.lists.entries)) }
    {
        let mut interfaces = Interfaces {
            lists: IndexMap::new(alloc),
        };
        interfaces.add_all(alloc, index)?;
        Ok(interfaces)
    }

    /// Whether each class of the program has its list.
    pub fn has_all(&self, index: &Index<'_>) -> bool
        ensures { result ≡ list_all (λ (c : ClassListing). is_some (lists_in self.now.lists.entries c.name)) index.now }
    {
        index
            .program()
            .iter()
            .all(|class| self.get(class.name.as_bytes()).is_some())
    }
}
