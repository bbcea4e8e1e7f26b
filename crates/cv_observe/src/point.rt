ghost use Rattle.std.specs.Prelude.{◌≡◌, ◌++◌, ◌∷◌, [], ◌<◌, ◌≤◌, ◌||◌, ℕ, List, Bool, true, false, IfOk, length, slice_index_or};
ghost use Rattle.std.specs.List.{All};
ghost use Rattle.cv_base.specs.declared.entries.Observation.{Observation};
ghost use Rattle.cv_base.specs.Registers.{register};
ghost use Rattle.cv_isa.specs.Uses.{has};
ghost use Rattle.cv_runs.specs.Arithmetic.{minus32};
ghost use Rattle.cv_observe.specs.Kept.{IsFew};
ghost use Rattle.cv_observe.specs.AtPoint.{IsPoint, IsRegister, Joins, Sees, numbers_of};
ghost use Rattle.cv_observe.specs.declared.register.Register.{Register as Kept};

use crate::few::Few;
use crate::register::Register;
use cv_base::{NoMemory, Regs};
use cv_isa::RegSet;
use std::alloc::Global;

/// What was seen before turns at a point.
#[derive(Drop)]
pub(crate) struct Point {
    /// Of each register that the instruction reads, ascending.
    pub(crate) registers: Vec<Register>,
    /// The offset of sp from the frame's sp.
    pub(crate) offsets: Few<1>,
    /// Whether the point was seen at all.
    pub(crate) seen: bool,
}

impl Point {
    /// Of a point of which nothing was seen, by the registers that it reads and those of its window.
    pub(crate) fn unseen(alloc: Global, reads: &[u8], window: RegSet) -> Result<Point, NoMemory>
        ensures numbers { IfOk result (λ k. numbers_of k.registers.items ≡ reads.now) }
        ensures kept { IfOk result (λ k. IsPoint (has window) k []) }
    {
        let mut registers = Vec::with_capacity(alloc, reads.len())?;
        for r in reads {
            registers.push(Register::unseen(*r, window))?;
        }
        Ok(Point {
            registers,
            offsets: Few::none(),
            seen: false,
        })
    }

    /// Adds what stands before a turn.
    pub(crate) fn see(&mut self, regs: &Regs, frame_sp: u32)
        requires { All (λ r. r.number < 32) self.old.registers.items }
        ensures numbers { numbers_of self.new.registers.items ≡ numbers_of self.old.registers.items }
        ensures seen { self.new.seen ≡ true }
        ensures kept { (window : ℕ → Bool) (here : List Observation) (o : Observation) → o.regs ≡ regs.now → o.frame_sp ≡ frame_sp → IsPoint window self.old here → IsPoint window self.new (here ++ o ∷ []) }
    {
        self.seen = true;
        let offset = offset(regs, frame_sp);
        see_all(
            self.registers.as_mut_slice(),
            &mut self.offsets,
            regs,
            offset,
        );
    }

    /// Adds what was seen at the same point by another one.
    pub(crate) fn join(&mut self, other: &Point)
        requires { numbers_of other.now.registers.items ≡ numbers_of self.old.registers.items }
        ensures numbers { numbers_of self.new.registers.items ≡ numbers_of self.old.registers.items }
        ensures seen { self.new.seen ≡ (self.old.seen || other.now.seen) }
        ensures kept { (window : ℕ → Bool) (xs ys : List Observation) → IsPoint window self.old xs → IsPoint window other.now ys → IsPoint window self.new (xs ++ ys) }
    {
        join_each(self.registers.as_mut_slice(), other.registers.as_slice());
        self.offsets.join(&other.offsets);
        self.seen |= other.seen;
    }

    /// The same, which takes no time where the other one has seen nothing.
    pub(crate) fn join_seen(&mut self, other: &Point)
        requires { numbers_of other.now.registers.items ≡ numbers_of self.old.registers.items }
        ensures numbers { numbers_of self.new.registers.items ≡ numbers_of self.old.registers.items }
        ensures unseen { self.new.seen ≡ false → self.new ≡ self.old }
        ensures kept { (window : ℕ → Bool) (xs ys : List Observation) → IsPoint window self.old xs → IsPoint window other.now ys → IsPoint window self.new (xs ++ ys) }
    {
        if other.seen {
            self.join(other);
        }
    }

    /// Forgets what was seen, if anything was.
    pub(crate) fn clear_seen(&mut self, window: RegSet)
        ensures numbers { numbers_of self.new.registers.items ≡ numbers_of self.old.registers.items }
        ensures kept { (self.old.seen ≡ false → IsPoint (has window) self.old []) → IsPoint (has window) self.new [] }
    {
        if self.seen {
            self.clear(window);
        }
    }

    /// Forgets what was seen.
    fn clear(&mut self, window: RegSet)
        ensures numbers { numbers_of self.new.registers.items ≡ numbers_of self.old.registers.items }
        ensures kept { IsPoint (has window) self.new [] }
    {
        clear_each(self.registers.as_mut_slice(), window);
        self.offsets = Few::none();
        self.seen = false;
    }
}

/// The offset of sp from the frame's sp.
fn offset(regs: &Regs, frame_sp: u32) -> u32
    ensures { result ≡ minus32 (register regs.now 2) frame_sp }
{
    regs.get(2).wrapping_sub(frame_sp)
}

/// Adds what the registers hold to each, and an offset. Mostly that changes next to nothing, so a
/// quick pass without a call comes first.
#[inline]
fn see_all(list: &mut [Register], offsets: &mut Few<1>, regs: &Regs, offset: u32)
    requires { All (λ r. r.number < 32) list.old }
    ensures length { length list.new ≡ length list.old }
    ensures each { (x : ℕ) (d : Kept) → x < length list.old → Sees (slice_index_or list.old x d) (slice_index_or list.new x d) regs.now }
    ensures offsets { (numbers : List ℕ) → IsFew 1 offsets.old.numbers.items offsets.old.more numbers → IsFew 1 offsets.new.numbers.items offsets.new.more (numbers ++ offset ∷ []) }
{
    let done = see_quick(list, regs);
    if done < list.len() || !offsets.has_seen(offset) {
        see_whole(list, offsets, done, regs, offset);
    }
}

/// Adds what the registers hold to each from a place on, and an offset.
#[cold]
#[inline(never)]
fn see_whole(list: &mut [Register], offsets: &mut Few<1>, from: usize, regs: &Regs, offset: u32)
    requires numbers { All (λ r. r.number < 32) list.old }
    requires within { from ≤ length list.old }
    ensures length { length list.new ≡ length list.old }
    ensures before { (x : ℕ) (d : Kept) → x < from → slice_index_or list.new x d ≡ slice_index_or list.old x d }
    ensures each { (x : ℕ) (d : Kept) → from ≤ x → x < length list.old → Sees (slice_index_or list.old x d) (slice_index_or list.new x d) regs.now }
    ensures offsets { (numbers : List ℕ) → IsFew 1 offsets.old.numbers.items offsets.old.more numbers → IsFew 1 offsets.new.numbers.items offsets.new.more (numbers ++ offset ∷ []) }
{
    see_rest(list, from, regs);
    offsets.add(offset);
}

/// Adds what the registers hold to the first ones for which that changes at most the least value,
/// and answers how many they are.
#[inline]
fn see_quick(list: &mut [Register], regs: &Regs) -> usize
    requires { All (λ r. r.number < 32) list.old }
    ensures length { length list.new ≡ length list.old }
    ensures within { result ≤ length list.old }
    ensures numbers { All (λ r. r.number < 32) list.new }
    ensures done { (x : ℕ) (d : Kept) → x < result → Sees (slice_index_or list.old x d) (slice_index_or list.new x d) regs.now }
    ensures left { (x : ℕ) (d : Kept) → result ≤ x → slice_index_or list.new x d ≡ slice_index_or list.old x d }
{
    for (x, register) in list.iter_mut().enumerate() {
        if !register.see_quick(regs) {
            return x;
        }
    }
    list.len()
}

/// Adds what the registers hold to each from a place on.
fn see_rest(list: &mut [Register], from: usize, regs: &Regs)
    requires numbers { All (λ r. r.number < 32) list.old }
    requires within { from ≤ length list.old }
    ensures length { length list.new ≡ length list.old }
    ensures before { (x : ℕ) (d : Kept) → x < from → slice_index_or list.new x d ≡ slice_index_or list.old x d }
    ensures each { (x : ℕ) (d : Kept) → from ≤ x → x < length list.old → Sees (slice_index_or list.old x d) (slice_index_or list.new x d) regs.now }
{
    for x in from..list.len() {
        list[x].see(regs);
    }
}

/// Adds to each what the other one at its place has seen.
fn join_each(list: &mut [Register], others: &[Register])
    requires { numbers_of others.now ≡ numbers_of list.old }
    ensures length { length list.new ≡ length list.old }
    ensures each { (x : ℕ) (d : Kept) → x < length list.old → Joins (slice_index_or list.old x d) (slice_index_or others.now x d) (slice_index_or list.new x d) }
{
    for (x, register) in list.iter_mut().enumerate() {
        register.join(&others[x]);
    }
}

/// Forgets what was seen of each.
fn clear_each(list: &mut [Register], window: RegSet)
    ensures numbers { numbers_of list.new ≡ numbers_of list.old }
    ensures kept { All (λ r. IsRegister (has window) r []) list.new }
{
    for (x, register) in list.iter_mut().enumerate() {
        *register = Register::unseen(register.number, window);
    }
}
