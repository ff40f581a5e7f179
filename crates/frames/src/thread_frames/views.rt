//! Frames as plain data.
ghost use Rattle.std.specs.Prelude.{◌≡◌, ◌+◌, ◌≤◌, length, IfOk};
ghost use Rattle.frames.specs.Layout.{frame_of};

use super::Frames;
use crate::activations::Activation;
use crate::units::Units;
use model::views::FrameView;
use std::alloc::AllocError;

impl Frames {
    /// A copy of each frame, outermost first. `AllocError` where memory runs out.
    pub fn views(&self) -> Result<Vec<FrameView>, AllocError>
        ensures { IfOk result (λ views. views.items ≡ self.now) }
    {
        let parts = &*self.parts;
        let alloc = parts.activations.allocator();
        let mut views = Vec::with_capacity(alloc, parts.activations.len())?;
        for depth in 0..parts.activations.len() {
            views.push(view_of(&parts.units, parts.activations.at(depth))?)?;
        }
        Ok(views)
    }
}

/// A copy of the frame that an activation of these units stands for.
fn view_of(units: &Units, activation: Activation) -> Result<FrameView, AllocError>
    requires fits { activation.base + activation.locals + activation.values ≤ length units.now }
    requires few { length units.now ≤ 4096 }
    ensures { IfOk result (λ view. view ≡ frame_of units.now activation) }
{
    Ok(FrameView {
        method: activation.method,
        pc: activation.pc,
        locals: units.entries(activation.base, activation.locals)?,
        stack: units.values(activation.base + activation.locals, activation.values)?,
        room: activation.room,
        monitor: activation.monitor,
        mark: activation.mark,
    })
}
