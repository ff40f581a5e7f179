//! All that a world shows, for those who compare it with another one.
ghost use Rattle.std.specs.Prelude.{◌≡◌, IfOk, length, map};
ghost use Rattle.model.specs.Machines.{machine_of};
ghost use Rattle.model.specs.Observers.{ideal};
ghost use Rattle.instructions.specs.HeldOnCells.{helds_from};
ghost use Rattle.instructions.specs.ListsShown.{lists_of};
ghost use Rattle.scheduler.specs.OnCells.{cells_of};
ghost use Rattle.scheduler.specs.Showing.{shown_in};

use super::World;
use instructions::held::HeldView;
use instructions::lists::ListsView;
use model::turns::ClassState;
use model::views::FieldView;
use std::alloc::AllocError;

impl World {
    /// How many turns were done or at fault.
    pub fn rows(&self) -> u32
        ensures { result ≡ (ideal self.now).rows }
    {
        self.state.rows()
    }

    /// How many threads were started.
    pub fn thread_count(&self) -> u8
        ensures { result ≡ length (ideal self.now).threads }
    {
        self.state.thread_count()
    }

    /// The states of the program's classes, in order.
    pub fn class_states(&self) -> &[ClassState]
        ensures { result.now ≡ (ideal self.now).statics.states }
    {
        self.state.class_states()
    }

    /// A copy of the static fields, in class and field order. `AllocError` where memory runs out.
    pub fn static_fields(&self) -> Result<Vec<FieldView>, AllocError>
        ensures { IfOk result (λ views. views.items ≡ (ideal self.now).statics.fields) }
    {
        self.state.static_fields()
    }

    /// A copy of what each cell holds, in order: birth, kind, words, monitor and thread, with births in place of
    /// references, as it is read of the cells; none where no path leads to its birth. `AllocError` where memory runs
    /// out.
    pub fn helds(&self) -> Result<Vec<Option<HeldView>>, AllocError>
        ensures on_cells { IfOk result (λ views. views.items
            ≡ helds_from (cells_of self.now) 0 (cells_of self.now).account.cells) }
        ensures shown { IfOk result (λ views. views.items
            ≡ map (shown_in (machine_of self.now)) (machine_of self.now).account.cells) }
    {
        self.state.helds()
    }

    /// The births of the grey list, the next to be blackened first, and the numbers of the free cells of each size, the
    /// next to be taken first (CACM 21(11)). `AllocError` where memory runs out.
    pub fn lists(&self) -> Result<ListsView, AllocError>
        ensures { IfOk result (λ lists. lists ≡ lists_of (machine_of self.now).account) }
    {
        self.state.lists()
    }
}
