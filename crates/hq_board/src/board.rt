//! The board and its calls.

ghost use Rattle.std.specs.Prelude.{◌≡◌, ◌↔◌, ◌<◌, length, false, IsTrue, MatchResult, IfOk, IfErr, OnOk, OnErr};
ghost use Rattle.std.specs.Prelude.{All};
ghost use Rattle.hq_board.specs.Calls.{AreInOrder, Closed, Completes, CompleteRefused, Enters, EnterRefused};
ghost use Rattle.hq_board.specs.Calls.{HasNoList, IsSeatOf, Launches, LaunchRefused, Observes, ObserveRefused, job_of};
ghost use Rattle.hq_board.specs.declared.fault.BoardFault.TheVariants as fault;

use crate::fault::BoardFault;
use crate::seat::Seat;
use crate::words::Words;
use hq_certcheck::Accepted;
use std::alloc::Global;
use std::marker::Model;

/// The words of an accepted job's signals and queues. The processors share it, each with the seat of its own queue.
///
/// Contracts see it as the job, and which board it is.
#[derive(Drop)]
pub struct Board<'a> {
    accepted: &'a Accepted,
    words: Words<'a>,
}

impl<'a> Model for Board<'a> {
    ghost use Rattle.std.specs.Prelude.{◌≡◌};
    ghost use Rattle.hq_board.specs.Calls.{BoardValue};

    ghost Value = { BoardValue };

    ghost view = { λ b. record { job = b.accepted.now.job; table = b.words.table.shared.table_id } };

    ghost invariant = { λ b. b.words.job.now ≡ b.accepted.now.job };
}

/// Whether there is one seat of each queue, in queue order.
fn are_in_order(queues: usize, seats: &[Seat]) -> bool
    ensures { IsTrue result ↔ AreInOrder queues seats.now }
{
    if seats.len() != queues {
        return false;
    }
    for queue in 0..seats.len() {
        if seats[queue].queue() != queue {
            return false;
        }
    }
    true
}

impl<'a> Board<'a> {
    /// A board, and a seat for each queue, in queue order, each with an empty list.
    ///
    /// # Errors
    ///
    /// `Memory` alone.
    pub fn open(alloc: Global, accepted: &'a Accepted) -> Result<(Board<'a>, Vec<Seat>), BoardFault>
        requires rings { accepted.now.job.rings ≡ false }
        ensures job { IfOk result (λ r. r.0.job ≡ accepted.now.job) }
        ensures seats { IfOk result (λ r. All (IsSeatOf r.0) r.1.items) }
        ensures order { IfOk result (λ r. AreInOrder (length accepted.now.job.queues) r.1.items) }
        ensures lists { IfOk result (λ r. All HasNoList r.1.items) }
        ensures memory { IfErr result (λ e. e ≡ fault.Memory) }
    {
        let (words, mut token) = Words::open(alloc, accepted.job())?;
        let mut seats = Vec::new(alloc);
        for queue in 0..accepted.job().queues().len() {
            let fresh = words.deal(&mut token);
            seats.push(Seat::new(alloc, accepted.job(), queue, fresh)?)?;
        }
        Ok((Board { accepted, words }, seats))
    }

    /// How many signals there are.
    pub fn signals(&self) -> usize
        ensures { result ≡ length (job_of self.now).starts }
    {
        self.words.signals()
    }

    /// Launches the next packet of the seat's queue, and answers its number: one addition to the queue's own word.
    /// It takes as long however many packets there are.
    ///
    /// # Errors
    ///
    /// `NotNext` exactly where the seat's own list lets no packet be launched.
    pub fn launch(&self, seat: &mut Seat) -> Result<usize, BoardFault>
        requires seat { IsSeatOf self.now seat.old }
        ensures seat { IsSeatOf self.now seat.new }
        ensures list { MatchResult result (Launches (job_of self.now) seat.old seat.new)
            (LaunchRefused (job_of self.now) seat.old seat.new) }
    {
        self.words.launch(&mut seat.known)
    }

    /// Observes a slot of a packet, if the slot's signal is 0: one load of the signal's word.
    ///
    /// # Errors
    ///
    /// `NotNext` exactly where the seat's own list doesn't let the packet observe the slot; `NotZero` with the
    /// value that was found, which is above 0, and never of a signal that the seat's own list settles.
    pub fn observe(&self, seat: &mut Seat, packet: usize, slot: usize) -> Result<(), BoardFault>
        requires seat { IsSeatOf self.now seat.old }
        ensures seat { IsSeatOf self.now seat.new }
        ensures list { MatchResult result (λ _. Observes (job_of self.now) seat.old seat.new packet slot)
            (ObserveRefused (job_of self.now) seat.old seat.new packet slot) }
    {
        self.words.observe(&mut seat.known, packet, slot)
    }

    /// Enters a packet: one addition to the queue's own word.
    ///
    /// # Errors
    ///
    /// `NotNext` exactly where the seat's own list doesn't let the packet be entered.
    pub fn enter(&self, seat: &mut Seat, packet: usize) -> Result<(), BoardFault>
        requires seat { IsSeatOf self.now seat.old }
        ensures seat { IsSeatOf self.now seat.new }
        ensures list { MatchResult result (λ _. Enters (job_of self.now) seat.old seat.new packet)
            (EnterRefused (job_of self.now) seat.old seat.new packet) }
    {
        self.words.enter(&mut seat.known, packet)
    }

    /// Completes a packet: 1 is taken from its signal's word, or, where it has no signal, added to the queue's own.
    ///
    /// # Errors
    ///
    /// `NotEntered` exactly where, by the seat's own list, the packet isn't entered or is complete.
    pub fn complete(&self, seat: &mut Seat, packet: usize) -> Result<(), BoardFault>
        requires seat { IsSeatOf self.now seat.old }
        ensures seat { IsSeatOf self.now seat.new }
        ensures list { MatchResult result (λ _. Completes (job_of self.now) seat.old seat.new packet)
            (CompleteRefused (job_of self.now) seat.old seat.new packet) }
    {
        self.words.complete(&mut seat.known, packet)
    }

    /// Takes all seats back and writes each signal's value. The values are those at the end of a history which its
    /// queues and signals allow, which a run of the machine tells, and which has the last queue's list as its part.
    ///
    /// # Errors
    ///
    /// Hands all back, and leaves the values, exactly where these aren't one seat of each queue in queue order.
    pub fn close(
        self,
        mut seats: Vec<Seat>,
        values: &mut [u64],
    ) -> Result<(), (Board<'a>, Vec<Seat>)>
        requires seats { All (IsSeatOf self) seats.items }
        requires room { length values.old ≡ length (job_of self).starts }
        ensures order { MatchResult result (λ _. AreInOrder (length self.entry.job.queues) seats.items)
            (λ _. ¬ AreInOrder (length self.entry.job.queues) seats.items) }
        ensures closed { OnOk result (Closed (job_of self.entry) seats.items values.new) }
        ensures back { IfErr result (λ back. (back.0 ≡ self.entry) × (back.1.items ≡ seats.items)) }
        ensures left { OnErr result (values.new ≡ values.old) }
    {
        if !are_in_order(self.accepted.job().queues().len(), &seats) {
            return Err((self, seats));
        }
        let Board { accepted, words } = self;
        accepted.ordered();
        match seats.pop() {
            Some(seat) => words.close_with(seat.into_token(), values),
            None => words.close(values),
        }
        Ok(())
    }
}
