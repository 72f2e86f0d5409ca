//! A packet's pieces go through its body.

ghost use Rattle.std.specs.Prelude.{◌≡◌, ◌+◌, ◌≤◌, ◌<◌, ◌↔◌, true, [], ◌++◌, length, vec_len, vec_capacity};
ghost use Rattle.std.specs.Prelude.{IsOk, IfOk, OnOk, IfErr};
ghost use Rattle.hq_kernels.specs.Bodies.{Failed, LoadedAll, Performs, pieces_of};
ghost use Rattle.hq_kernels.specs.Kits.{IsStock, seen, value_of};
ghost use Rattle.hq_kernels.specs.Rooms.{HasRoom, IsSuited};

use crate::fault::KernelFault;
use crate::kit::Body;
use hq_ledger::Piece;

impl Body {
    /// Hands the body the pieces, from the first to the last.
    fn load_all(&mut self, pieces: &mut Vec<Piece>) -> Result<(), KernelFault>
        ensures loaded { LoadedAll (value_of (λ b. kernel b) (λ b. service b) self.old) pieces.old.items result
            (value_of (λ b. kernel b) (λ b. service b) self.new) }
        ensures sort { (seen (λ b. kernel b) (λ b. service b) self.new).sort ≡ (seen (λ b. kernel b)
            (λ b. service b) self.old).sort }
        ensures stock { let old = seen (λ b. kernel b) (λ b. service b) self.old in
            IsStock old → (IsOk result ↔ HasRoom old.value pieces.old.items) }
        ensures left { OnOk result (vec_len pieces.new ≡ 0) }
        ensures room { vec_capacity pieces.new ≡ vec_capacity pieces.old }
    {
        while !pieces.is_empty() {
            let piece = pieces.remove(0);
            if self.load(piece).is_err() {
                return Err(KernelFault::Refused);
            }
        }
        Ok(())
    }

    /// Takes the first piece from the body.
    fn unload_one(&mut self, pieces: &mut Vec<Piece>)
        requires some { 0 < length (value_of (λ b. kernel b) (λ b. service b) self.old).held }
        requires room { vec_len pieces.old < vec_capacity pieces.old }
        ensures task { (value_of (λ b. kernel b) (λ b. service b) self.new).task ≡ (value_of (λ b. kernel b)
            (λ b. service b) self.old).task }
        ensures ran { (value_of (λ b. kernel b) (λ b. service b) self.new).ran ≡ (value_of (λ b. kernel b)
            (λ b. service b) self.old).ran }
        ensures sort { (seen (λ b. kernel b) (λ b. service b) self.new).sort ≡ (seen (λ b. kernel b)
            (λ b. service b) self.old).sort }
        ensures held { pieces.new.items ++ (value_of (λ b. kernel b)
            (λ b. service b) self.new).held ≡ pieces.old.items ++ (value_of (λ b. kernel b)
            (λ b. service b) self.old).held }
        ensures count { vec_len pieces.new ≡ vec_len pieces.old + 1 }
        ensures room { vec_capacity pieces.old ≤ vec_capacity pieces.new }
    {
        let Some(piece) = self.give_back() else {
            unreachable!()
        };
        if pieces.push(piece).is_err() {
            unreachable!()
        }
    }

    /// Takes so many pieces from the body, from the first on.
    fn unload(&mut self, count: usize, pieces: &mut Vec<Piece>)
        requires count { count ≤ length (value_of (λ b. kernel b) (λ b. service b) self.old).held }
        requires room { vec_len pieces.old + count ≤ vec_capacity pieces.old }
        ensures task { (value_of (λ b. kernel b) (λ b. service b) self.new).task ≡ (value_of (λ b. kernel b)
            (λ b. service b) self.old).task }
        ensures ran { (value_of (λ b. kernel b) (λ b. service b) self.new).ran ≡ (value_of (λ b. kernel b)
            (λ b. service b) self.old).ran }
        ensures sort { (seen (λ b. kernel b) (λ b. service b) self.new).sort ≡ (seen (λ b. kernel b)
            (λ b. service b) self.old).sort }
        ensures held { pieces.new.items ++ (value_of (λ b. kernel b)
            (λ b. service b) self.new).held ≡ pieces.old.items ++ (value_of (λ b. kernel b)
            (λ b. service b) self.old).held }
        ensures count { vec_len pieces.new ≡ vec_len pieces.old + count }
    {
        for _ in 0..count {
            self.unload_one(pieces);
        }
    }

    /// Hands the body its packet's pieces, in their order, runs it, and takes them back. They come back in the
    /// vector that they came in, so it takes no memory. After an error the pieces have gone home, or the body holds
    /// them.
    ///
    /// # Errors
    ///
    /// `Refused` where the body doesn't take a piece (a stock body that holds none takes all); else what the body says
    /// when it runs. A stock body says `Missing` then, exactly where the lengths of the pieces don't fit its task.
    pub fn perform(&mut self, mut pieces: Vec<Piece>) -> Result<Vec<Piece>, KernelFault>
        requires { length pieces.items ≡ pieces_of (value_of (λ b. kernel b) (λ b. service b) self.old).task }
        ensures task { (value_of (λ b. kernel b) (λ b. service b) self.new).task ≡ (value_of (λ b. kernel b)
            (λ b. service b) self.old).task }
        ensures sort { (seen (λ b. kernel b) (λ b. service b) self.new).sort ≡ (seen (λ b. kernel b)
            (λ b. service b) self.old).sort }
        ensures performs { IfOk result
            (λ back. Performs (value_of (λ b. kernel b) (λ b. service b) self.old).task pieces.items back.items) }
        ensures ran { OnOk result ((value_of (λ b. kernel b) (λ b. service b) self.new).ran ≡ true) }
        ensures held { OnOk result ((value_of (λ b. kernel b) (λ b. service b) self.new).held ≡ []) }
        ensures failed { IfErr result
            (λ fault. Failed (value_of (λ b. kernel b) (λ b. service b) self.old) pieces.items fault
            (value_of (λ b. kernel b) (λ b. service b) self.new)) }
        ensures stock { let old = seen (λ b. kernel b) (λ b. service b) self.old in
            IsStock old → (IsOk result ↔ IsSuited old.value.task (old.value.held ++ pieces.items)) }
        ensures missing { let old = seen (λ b. kernel b) (λ b. service b) self.old in
            IsStock old → IfErr result (λ fault. (fault ≡ KernelFault.Missing) ↔ HasRoom old.value pieces.items) }
    {
        let count = pieces.len();
        self.load_all(&mut pieces)?;
        self.run()?;
        self.unload(count, &mut pieces);
        Ok(pieces)
    }
}
