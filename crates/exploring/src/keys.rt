//! Rows of bytes by which pieces of states, and outcomes, are told apart.
ghost use Rattle.std.specs.Prelude.{◌≡◌, ◌<◌, ◌∷◌, [], ◌++◌, ℕ, List, IfOk, OnOk};
ghost use Rattle.std.specs.List.{flat_map};
ghost use Rattle.std.specs.Str.{bytes_eq};
ghost use Rattle.std.specs.Hash as fed;
ghost use Rattle.std.specs.Cmp.{partial_equiv_from_equiv};
ghost use Rattle.std.specs.Cmp.Rules.{hashing};
ghost use Rattle.std.proofs.Common.{rules};
ghost use Rattle.std.proofs.lemmas.Cmp.{nat_list_eq_equiv};
ghost use Rattle.model.specs.Views.{contents_in};
ghost use Rattle.exploring.specs.Keys.{two, four, eight, large_number, wide_number, number, folded, integer, perhaps, each};
ghost use Rattle.exploring.specs.Keys.{bytes, name_at};
ghost use Rattle.exploring.specs.Keys.{value, entry, mark, frame, state, fault, name, field, contents, object, thread, head};
ghost use Rattle.exploring.specs.Keys.{end, status, outcome};

use crate::explored::Outcome;
use crate::names::Names;
use exploration::ends::End;
use ideal_run::frames::Frame;
use ideal_run::worlds::{Thread, ThreadState, World};
use model::names::Name;
use model::turns::{ClassState, Fault, Mark, Status};
use model::values::{Entry, Value};
use model::views::{ContentsView, FieldView, ObjectView};
use std::alloc::{AllocError, Global};
use std::hash::{Hash, Hasher};
use std::marker::Model;

/// A row of bytes. A contract sees the list of the bytes.
#[derive(Debug, Drop)]
pub struct Key {
    bytes: Vec<u8>,
}

impl Model for Key {
    ghost Value = { List ℕ };

    ghost view = { λ a. a.bytes.items };
}

/// How many bytes most pieces have at most.
const USUAL: usize = 64;

/// Keys are equal where their bytes are.
impl PartialEq for Key {
    ghost eq = { bytes_eq };

    ghost laws = { partial_equiv_from_equiv nat_list_eq_equiv };

    fn eq(&self, other: &Key) -> bool {
        self.as_bytes() == other.as_bytes()
    }
}

impl Eq for Key {
    ghost laws = { nat_list_eq_equiv };
}

impl Hash for Key {
    ghost hash_input = { fed.slice fed.u8 };

    ghost respects_eq = { Prim.search (hashing, rules) };

    fn hash<H: Hasher>(&self, state: &mut H) {
        self.as_bytes().hash(state);
    }
}

/// An int or a long as a number: 0, -1, 1, -2, 2 and so on.
fn folded(integer: i64) -> u64
    ensures { result ≡ folded integer }
{
    let size = integer.unsigned_abs();
    if integer < 0 {
        size - 1 + size
    } else {
        size + size
    }
}

impl Key {
    /// The bytes, in order.
    pub fn as_bytes(&self) -> &[u8]
        ensures { result.now ≡ self.now }
    {
        self.bytes.as_slice()
    }

    /// No bytes, with room for those of most pieces. `AllocError` where memory runs out, here and below.
    pub fn new(alloc: Global) -> Result<Key, AllocError>
        ensures { IfOk result (λ made. made ≡ []) }
    {
        let bytes = Vec::with_capacity(alloc, USUAL)?;
        Ok(Key { bytes })
    }

    /// The same bytes, with room for no more.
    pub fn copy(&self, alloc: Global) -> Result<Key, AllocError>
        ensures { IfOk result (λ made. made ≡ self.now) }
    {
        let bytes = Vec::from_slice(alloc, self.as_bytes())?;
        Ok(Key { bytes })
    }

    /// No bytes again.
    pub fn clear(&mut self)
        ensures { self.new ≡ [] }
    {
        self.bytes.clear();
    }

    /// One byte more.
    fn add(&mut self, byte: u8) -> Result<(), AllocError>
        ensures { OnOk result (self.new ≡ self.old ++ byte ∷ []) }
    {
        self.bytes.push(byte)?;
        Ok(())
    }

    // ---- numbers

    fn add_two(&mut self, n: u16) -> Result<(), AllocError>
        ensures { OnOk result (self.new ≡ self.old ++ two n) }
    {
        self.add((n % 256) as u8)?;
        self.add((n / 256) as u8)
    }

    fn add_four(&mut self, n: u32) -> Result<(), AllocError>
        ensures { OnOk result (self.new ≡ self.old ++ four n) }
    {
        self.add_two((n % 65_536) as u16)?;
        self.add_two((n / 65_536) as u16)
    }

    fn add_eight(&mut self, n: u64) -> Result<(), AllocError>
        ensures { OnOk result (self.new ≡ self.old ++ eight n) }
    {
        self.add_four((n % 4_294_967_296) as u32)?;
        self.add_four((n / 4_294_967_296) as u32)
    }

    fn add_large_number(&mut self, n: u64) -> Result<(), AllocError>
        ensures { OnOk result (self.new ≡ self.old ++ large_number n) }
    {
        if n < 4_294_967_296 {
            self.add(254)?;
            self.add_four(n as u32)
        } else {
            self.add(255)?;
            self.add_eight(n)
        }
    }

    fn add_wide_number(&mut self, n: u64) -> Result<(), AllocError>
        ensures { OnOk result (self.new ≡ self.old ++ wide_number n) }
    {
        if n < 65_536 {
            self.add(253)?;
            self.add_two(n as u16)
        } else {
            self.add_large_number(n)
        }
    }

    #[tactic(auto, unfolding(crate::specs::Keys::number))]
    fn add_number(&mut self, n: u64) -> Result<(), AllocError>
        ensures { OnOk result (self.new ≡ self.old ++ number n) }
    {
        if n < 253 {
            self.add(n as u8)
        } else {
            self.add_wide_number(n)
        }
    }

    fn add_integer(&mut self, added: i64) -> Result<(), AllocError>
        ensures { OnOk result (self.new ≡ self.old ++ integer added) }
    {
        self.add_number(folded(added))
    }

    fn add_perhaps(&mut self, n: Option<u32>) -> Result<(), AllocError>
        ensures { OnOk result (self.new ≡ self.old ++ perhaps n) }
    {
        match n {
            None => self.add(0),
            Some(n) => {
                self.add(1)?;
                self.add_number(u64::from(n))
            }
        }
    }

    fn add_bytes(&mut self, added: &[u8]) -> Result<(), AllocError>
        ensures { OnOk result (self.new ≡ self.old ++ bytes added.now) }
    {
        self.add_number(added.len() as u64)?;
        self.bytes.extend_from_slice(added)
    }

    // ---- values, frames and threads

    fn add_value(&mut self, added: Value) -> Result<(), AllocError>
        ensures { OnOk result (self.new ≡ self.old ++ value added) }
    {
        match added {
            Value::Int(int) => {
                self.add(0)?;
                self.add_integer(i64::from(int))
            }
            Value::Long(long) => {
                self.add(1)?;
                self.add_integer(long)
            }
            Value::Ref(None) => self.add(2),
            Value::Ref(Some(birth)) => {
                self.add(3)?;
                self.add_number(u64::from(birth))
            }
        }
    }

    fn add_values(&mut self, added: &[Value]) -> Result<(), AllocError>
        ensures { OnOk result (self.new ≡ self.old ++ each value added.now) }
    {
        self.add_number(added.len() as u64)?;
        for one in added {
            self.add_value(*one)?;
        }
        Ok(())
    }

    fn add_entry(&mut self, added: Entry) -> Result<(), AllocError>
        ensures { OnOk result (self.new ≡ self.old ++ entry added) }
    {
        match added {
            Entry::Unset => self.add(4),
            Entry::Holds(value) => self.add_value(value),
            Entry::UpperHalf => self.add(5),
        }
    }

    fn add_entries(&mut self, added: &[Entry]) -> Result<(), AllocError>
        ensures { OnOk result (self.new ≡ self.old ++ each entry added.now) }
    {
        self.add_number(added.len() as u64)?;
        for one in added {
            self.add_entry(*one)?;
        }
        Ok(())
    }

    fn add_mark(&mut self, added: Mark) -> Result<(), AllocError>
        ensures { OnOk result (self.new ≡ self.old ++ mark added) }
    {
        match added {
            Mark::Unmarked => self.add(0),
            Mark::Waiting => self.add(1),
            Mark::Failing => self.add(2),
        }
    }

    fn add_frame(&mut self, added: &Frame) -> Result<(), AllocError>
        ensures { OnOk result (self.new ≡ self.old ++ frame added.now) }
    {
        self.add_number(added.method.class as u64)?;
        self.add_number(added.method.method as u64)?;
        self.add_number(u64::from(added.pc))?;
        self.add_entries(&added.locals)?;
        self.add_values(&added.stack)?;
        self.add_number(added.room as u64)?;
        self.add_perhaps(added.monitor)?;
        self.add_mark(added.mark)
    }

    fn add_frames(&mut self, added: &[Frame]) -> Result<(), AllocError>
        ensures { OnOk result (self.new ≡ self.old ++ each frame added.now) }
    {
        self.add_number(added.len() as u64)?;
        for one in added {
            self.add_frame(one)?;
        }
        Ok(())
    }

    fn add_state(&mut self, added: ClassState) -> Result<(), AllocError>
        ensures { OnOk result (self.new ≡ self.old ++ state added) }
    {
        match added {
            ClassState::Unused => self.add(0),
            ClassState::Running(thread) => {
                self.add(1)?;
                self.add_number(u64::from(thread))
            }
            ClassState::Done => self.add(2),
            ClassState::Failed => self.add(3),
        }
    }

    fn add_states(&mut self, added: &[ClassState]) -> Result<(), AllocError>
        ensures { OnOk result (self.new ≡ self.old ++ each state added.now) }
    {
        self.add_number(added.len() as u64)?;
        for one in added {
            self.add_state(*one)?;
        }
        Ok(())
    }

    fn add_fault(&mut self, added: Option<(Fault, u8)>) -> Result<(), AllocError>
        ensures { OnOk result (self.new ≡ self.old ++ fault added) }
    {
        match added {
            None => self.add(0),
            Some((fault, thread)) => {
                self.add(fault.number())?;
                self.add_number(u64::from(thread))
            }
        }
    }

    // ---- what has names

    fn add_name(&mut self, names: &Names, added: &Name) -> Result<(), AllocError>
        ensures { OnOk result (self.new ≡ self.old ++ name names.now added.now) }
    {
        match names.place_of(added) {
            None => {
                self.add(0)?;
                self.add_bytes(added.as_bytes())
            }
            Some(place) => {
                self.add(1)?;
                self.add_number(place as u64)
            }
        }
    }

    pub fn add_field(&mut self, names: &Names, added: &FieldView) -> Result<(), AllocError>
        ensures { OnOk result (self.new ≡ self.old ++ field names.now added.now) }
    {
        self.add_name(names, &added.class)?;
        self.add_name(names, &added.name)?;
        self.add_name(names, &added.descriptor)?;
        self.add_value(added.value)
    }

    fn add_fields(&mut self, names: &Names, added: &[FieldView]) -> Result<(), AllocError>
        ensures { OnOk result (self.new ≡ self.old ++ each (field names.now) added.now) }
    {
        self.add_number(added.len() as u64)?;
        for one in added {
            self.add_field(names, one)?;
        }
        Ok(())
    }

    fn add_contents(&mut self, names: &Names, added: &ContentsView) -> Result<(), AllocError>
        ensures { OnOk result (self.new ≡ self.old ++ contents names.now (contents_in added.now)) }
    {
        match added {
            ContentsView::Instance { class, fields } => {
                self.add(0)?;
                self.add_name(names, class)?;
                self.add_fields(names, fields)
            }
            ContentsView::Array { element, values } => {
                self.add(1)?;
                self.add_name(names, element)?;
                self.add_values(values)
            }
        }
    }

    pub fn add_object(&mut self, names: &Names, added: &ObjectView) -> Result<(), AllocError>
        ensures { OnOk result (self.new ≡ self.old ++ object names.now added.now) }
    {
        self.add_contents(names, &added.contents)?;
        self.add_perhaps(added.owner)?;
        self.add_number(u64::from(added.entries))?;
        self.add_perhaps(added.thread)
    }

    pub fn add_thread(&mut self, names: &Names, added: &Thread) -> Result<(), AllocError>
        ensures { OnOk result (self.new ≡ self.old ++ thread names.now added.now) }
    {
        match &added.state {
            ThreadState::Live(frames) => {
                self.add(0)?;
                self.add_frames(frames)
            }
            ThreadState::Ended(None) => self.add(1),
            ThreadState::Ended(Some(class)) => {
                self.add(2)?;
                self.add_name(names, class)
            }
        }
    }

    /// The first piece of a state: what isn't a field, an object or a thread.
    pub fn add_head(&mut self, added: &World) -> Result<(), AllocError>
        ensures { OnOk result (self.new ≡ self.old ++ head added.now) }
    {
        self.add_number(added.statics().len() as u64)?;
        self.add_number(added.objects().len() as u64)?;
        self.add_states(added.states())?;
        self.add_bytes(added.output())?;
        self.add_fault(added.fault())?;
        self.add_number(u64::from(added.rows()))
    }

    // ---- outcomes

    fn add_end(&mut self, added: &End) -> Result<(), AllocError>
        ensures { OnOk result (self.new ≡ self.old ++ end added.now) }
    {
        match added {
            End::Lives => self.add(0),
            End::Ended(None) => self.add(1),
            End::Ended(Some(class)) => {
                self.add(2)?;
                self.add_bytes(class.as_bytes())
            }
        }
    }

    fn add_ends(&mut self, added: &[End]) -> Result<(), AllocError>
        ensures { OnOk result (self.new ≡ self.old ++ each end added.now) }
    {
        self.add_number(added.len() as u64)?;
        for one in added {
            self.add_end(one)?;
        }
        Ok(())
    }

    fn add_status(&mut self, added: Status) -> Result<(), AllocError>
        ensures { OnOk result (self.new ≡ self.old ++ status added) }
    {
        match added {
            Status::Running => self.add(0),
            Status::Finished => self.add(1),
            Status::Stuck => self.add(2),
            Status::Faulted => self.add(3),
        }
    }

    fn add_outcome(&mut self, added: &Outcome) -> Result<(), AllocError>
        ensures { OnOk result (self.new ≡ self.old ++ outcome added.now) }
    {
        self.add_bytes(&added.output)?;
        self.add_fault(added.fault)?;
        self.add_ends(&added.ends)?;
        self.add_status(added.status)
    }

    /// The key of an outcome: outcomes whose keys are equal are equal. `AllocError` where memory runs out.
    pub fn of_outcome(alloc: Global, added: &Outcome) -> Result<Key, AllocError>
        ensures { IfOk result (λ made. made ≡ outcome added.now) }
    {
        let mut made = Key::new(alloc)?;
        made.add_outcome(added)?;
        Ok(made)
    }
}
