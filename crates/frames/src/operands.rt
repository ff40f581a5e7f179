//! What an instruction finds on the running frame's stack: each operand is tested when it is popped (JVMS 2.6.2).
ghost use Rattle.std.specs.Prelude.{◌≡◌, ℕ, ◌<◌, ◌≤◌, length, take, drop, IsOk};
ghost use Rattle.model.specs.Frames.{running_frame, int_on, long_on, two_ints_on, two_longs_on, count_and_long_on};
ghost use Rattle.model.specs.Frames.{ref_on, two_refs_on};
ghost use Rattle.model.specs.Values.{units_of_all};

use crate::thread_frames::Frames;
use model::turns::Fault;
use values::slots::{int_in, long_in, reference_in};

#[tactic(auto, using(crate::proofs::OperandLemmas::operands))]
impl Frames {
    /// The int below so many values; F1 where there is no value, F3 where it is no int.
    #[inline(always)]
    pub fn int_below(&self, above: usize) -> Result<i32, Fault>
        requires { 0 < length self.now }
        ensures { result ≡ int_on (drop above (running_frame self.now).stack) }
    {
        int_in(self.slot(above)?)
    }

    /// The long below so many values; F1 where there is no value, F3 where it is no long.
    #[inline(always)]
    pub fn long_below(&self, above: usize) -> Result<i64, Fault>
        requires { 0 < length self.now }
        ensures { result ≡ long_on (drop above (running_frame self.now).stack) }
    {
        long_in(self.slot(above)?)
    }

    /// The reference below so many values; F1 where there is no value, F3 where it is no reference.
    #[inline(always)]
    pub fn reference_below(&self, above: usize) -> Result<Option<u32>, Fault>
        requires { 0 < length self.now }
        ensures { result ≡ ref_on (drop above (running_frame self.now).stack) }
    {
        reference_in(self.slot(above)?)
    }

    /// The int at the top; F1, F3.
    #[inline(always)]
    pub fn int(&self) -> Result<i32, Fault>
        requires { 0 < length self.now }
        ensures value { result ≡ int_on (running_frame self.now).stack }
        ensures deep { IsOk result → 1 ≤ length (running_frame self.now).stack }
        ensures wide { IsOk result → units_of_all (take 1 (running_frame self.now).stack) ≡ 1 }
    {
        self.int_below(0)
    }

    /// The long at the top; F1, F3.
    #[inline(always)]
    pub fn long(&self) -> Result<i64, Fault>
        requires { 0 < length self.now }
        ensures value { result ≡ long_on (running_frame self.now).stack }
        ensures deep { IsOk result → 1 ≤ length (running_frame self.now).stack }
        ensures wide { IsOk result → units_of_all (take 1 (running_frame self.now).stack) ≡ 2 }
    {
        self.long_below(0)
    }

    /// The reference at the top; F1, F3.
    #[inline(always)]
    pub fn reference(&self) -> Result<Option<u32>, Fault>
        requires { 0 < length self.now }
        ensures value { result ≡ ref_on (running_frame self.now).stack }
        ensures deep { IsOk result → 1 ≤ length (running_frame self.now).stack }
        ensures wide { IsOk result → units_of_all (take 1 (running_frame self.now).stack) ≡ 1 }
    {
        self.reference_below(0)
    }

    /// The two references at the top, the upper one first; F1, F3 of the upper, then of the lower.
    #[inline(always)]
    pub fn two_references(&self) -> Result<(Option<u32>, Option<u32>), Fault>
        requires { 0 < length self.now }
        ensures value { result ≡ two_refs_on (running_frame self.now).stack }
        ensures deep { IsOk result → 2 ≤ length (running_frame self.now).stack }
        ensures wide { IsOk result → units_of_all (take 2 (running_frame self.now).stack) ≡ 2 }
    {
        let upper = self.reference()?;
        let lower = self.reference_below(1)?;
        Ok((upper, lower))
    }

    /// The two ints at the top, the upper one first; F1, F3 of the upper, then of the lower.
    #[inline(always)]
    pub fn two_ints(&self) -> Result<(i32, i32), Fault>
        requires { 0 < length self.now }
        ensures value { result ≡ two_ints_on (running_frame self.now).stack }
        ensures deep { IsOk result → 2 ≤ length (running_frame self.now).stack }
        ensures wide { IsOk result → units_of_all (take 2 (running_frame self.now).stack) ≡ 2 }
    {
        let upper = self.int()?;
        let lower = self.int_below(1)?;
        Ok((upper, lower))
    }

    /// The two longs at the top, the upper one first; F1, F3 of the upper, then of the lower.
    #[inline(always)]
    pub fn two_longs(&self) -> Result<(i64, i64), Fault>
        requires { 0 < length self.now }
        ensures value { result ≡ two_longs_on (running_frame self.now).stack }
        ensures deep { IsOk result → 2 ≤ length (running_frame self.now).stack }
        ensures wide { IsOk result → units_of_all (take 2 (running_frame self.now).stack) ≡ 4 }
    {
        let upper = self.long()?;
        let lower = self.long_below(1)?;
        Ok((upper, lower))
    }

    /// The int at the top and the long below it; F1, F3 of the int, then of the long.
    #[inline(always)]
    pub fn count_and_long(&self) -> Result<(i32, i64), Fault>
        requires { 0 < length self.now }
        ensures value { result ≡ count_and_long_on (running_frame self.now).stack }
        ensures deep { IsOk result → 2 ≤ length (running_frame self.now).stack }
        ensures wide { IsOk result → units_of_all (take 2 (running_frame self.now).stack) ≡ 3 }
    {
        let count = self.int()?;
        let long = self.long_below(1)?;
        Ok((count, long))
    }
}
