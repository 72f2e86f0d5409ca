//! The hall.

ghost use Rattle.std.specs.Prelude.{◌≡◌, ◌↔◌, ◌<◌, ◌+◌, ◌^◌, ◌++◌, ◌∷◌, [], ℕ, All, IsTrue, IfOk, IfErr, OnOk};
ghost use Rattle.std.specs.Prelude.{OnErr, List, Some, length, map, replicate, slice_get};
ghost use Rattle.hq_footprint.specs.declared.footprint.Range.{Range as ByteRange};
ghost use Rattle.hq_footprint.specs.Counts.{reads_of, writes_of};
ghost use Rattle.hq_hall.specs.Handing.{first_read, foot_of, pieces_of, second_read, work_of};
ghost use Rattle.hq_hall.specs.Histories.{Refused, RunSoFar};
ghost use Rattle.hq_hall.specs.Stages.{stage_of};
ghost use Rattle.hq_hall.specs.View.{Adds, AddsAlone, ArePieces, AreDone, MayComplete, IsPieceOf, IsReadPiece};
ghost use Rattle.hq_hall.specs.View.{IsReady, MayDeliver, MayFetch, NotDelivered, job_of, piece_at, state_in, work_in};
ghost use Rattle.hq_hall.specs.declared.fault.HallFault.TheVariants as fault;
ghost use Rattle.hq_hall.specs.declared.stage.Stage.TheVariants as stage;
ghost use Rattle.hq_job.specs.Plan.{plan, planned};
ghost use Rattle.hq_job.specs.View.{PacketIsRead};
ghost use Rattle.hq_ledger.specs.Grants.{AreApart, IsClear, IsOut, without};
ghost use Rattle.hq_ledger.specs.Trays.{Learned, homes_from, part_of};
ghost use Rattle.hq_events.specs.declared.event.Event.TheVariants as event;
ghost use Rattle.hq_machine.specs.Enabled.{Possible};
ghost use Rattle.hq_model.specs.Job.{IsPacket, packet as packet_of};
ghost use Rattle.hq_model.specs.Job.{Kind};
ghost use Rattle.hq_model.specs.Journal.Coarse.{Deliver, Fetch, One, Rest};
ghost use Rattle.hq_model.specs.Machine as machine;
ghost use Rattle.hq_model.specs.Machine.{bytes_read, bytes_stored, lane_sees};
ghost use Rattle.hq_model.specs.OneByOne.{given};
ghost use Rattle.hq_model.specs.Order.{Extends};

use crate::fault::HallFault;
use crate::handing::{Giver, both, open_all};
use crate::history::History;
use crate::stage::Stage;
use hq_certcheck::Accepted;
use hq_footprint::{Footprint, Range, Work};
use hq_job::Job;
use hq_ledger::{GrantFault, Grants, Home, Piece, Tray};
use hq_machine::{Event, Journal, Phase};
use hq_packet::Packet;
use hq_tables::Placed;
use std::alloc::{AllocError, Global};
use std::marker::Model;

/// A run of an accepted job, in which packets are handed the pieces of memory that they read and write.
///
/// Contracts see it as the job, the state, the events, the packets that are out, and what is known of the pieces
/// that came home. The type keeps that the events are a run of the job which leads to the state, and that exactly
/// the packets that were fetched and not yet delivered are out, each with its own footprint, no two of them in
/// conflict.
#[derive(Drop)]
pub struct Hall<'a> {
    history: History<'a>,
    grants: Grants,
    stages: Vec<Stage>,
    tray: Tray,
    alloc: Global,
}

impl<'a> Model for Hall<'a> {
    ghost use Rattle.std.specs.Coded.{codes};
    ghost use Rattle.hq_machine.specs.State.{state_code};
    ghost use Rattle.hq_hall.specs.View.{HallValue, Stood};

    ghost Value = { HallValue };

    ghost coded = { Prim.hlevel (codes, state_code) };

    ghost view = { λ h. record
        { job = h.history.job; state = h.history.state; events = h.history.events; out = h.grants; home = h.tray } };

    ghost invariant = { λ h. Stood h.history h.grants h.stages.items h.tray.packets };
}

impl<'a> Hall<'a> {
    /// A hall in which nothing has happened yet.
    ///
    /// # Errors
    ///
    /// `Memory` alone.
    pub fn open(alloc: Global, accepted: &'a Accepted) -> Result<Hall<'a>, HallFault>
        ensures job { IfOk result (λ h. h.job ≡ accepted.now) }
        ensures events { IfOk result (λ h. h.events ≡ []) }
        ensures out { IfOk result (λ h. h.out ≡ []) }
        ensures memory { IfErr result (λ e. e ≡ fault.Memory) }
    {
        let history = History::open(alloc, accepted)?;
        history.run_so_far();
        let job = accepted.job();
        job.valid();
        let packets = job.packets().len();
        Ok(Hall {
            history,
            grants: Grants::new(alloc),
            stages: unfetched(alloc, packets)?,
            tray: Tray::open(alloc, packets as u16)?,
            alloc,
        })
    }

    /// The journal is a run of the job that leads to the state; exactly the packets that were fetched and not yet
    /// delivered are out, with their own footprints; no two of these conflict.
    pub fn run_so_far(&self)
        ensures run { RunSoFar (job_of self.now) self.now.events self.now.state }
        ensures out { (p : ℕ) → IsOut self.now.out p
            ↔ ((p < length self.now.job.job.packets) × (stage_of self.now.events p ≡ stage.Out)) }
        ensures feet { All (λ grant. grant.foot ≡ foot_of self.now.job.job.packets grant.packet) self.now.out }
        ensures apart { AreApart self.now.out }
    {
        self.history.run_so_far();
        self.grants.apart();
    }

    /// The accepted job.
    pub fn accepted(&self) -> &'a Accepted
        ensures { result.now ≡ self.now.job }
    {
        self.history.accepted()
    }

    /// The job.
    pub fn job(&self) -> &'a Job
        ensures { result.now ≡ self.now.job.job }
    {
        self.history.accepted().job()
    }

    /// The events so far.
    pub fn journal(&self) -> &Journal
        ensures { result.now ≡ self.now.events }
    {
        self.history.journal()
    }

    /// The bytes of memory, by number.
    pub fn memory(&self) -> &[u8]
        ensures { result.now ≡ self.now.state.copies.memory }
    {
        self.history.state().memory()
    }

    /// The pieces that came home by being dropped, by packet, then place. They stay in the tray, so that a later
    /// call answers the same, and more where more came home.
    ///
    /// # Errors
    ///
    /// `Memory` alone.
    pub fn gather(&mut self) -> Result<Vec<Home>, HallFault>
        ensures same { (self.new.job ≡ self.old.job) × (self.new.state ≡ self.old.state)
            × (self.new.events ≡ self.old.events) × (self.new.out ≡ self.old.out) }
        ensures learned { Learned self.old.home.known self.new.home.known }
        ensures homes { IfOk result (λ homes. map part_of homes.items ≡ homes_from 0 self.new.home.known) }
        ensures memory { IfErr result (λ e. e ≡ fault.Memory) }
    {
        let homes = self.tray.gather(self.alloc)?;
        Ok(homes)
    }

    /// Whether every packet is complete.
    pub fn all_complete(&self) -> bool
        ensures { IsTrue result
            ↔ ((p : ℕ) → IsPacket (job_of self.now) p → (state_in self.now).phase p ≡ machine.Phase.Complete) }
    {
        self.history.run_so_far();
        let state = self.history.state();
        state.all_complete(0..state.packets())
    }

    /// The events so far; takes no memory.
    pub fn into_journal(self) -> Journal
        ensures { result ≡ self.entry.events }
    {
        let Hall {
            history,
            grants: _,
            stages: _,
            tray: _,
            alloc: _,
        } = self;
        history.into_journal()
    }

    /// Where a packet stands between its fetch and its delivery.
    fn stage(&self, packet: u16) -> Stage
        requires { packet < length self.now.job.job.packets }
        ensures { result ≡ stage_of self.now.events packet }
    {
        self.stages[packet as usize]
    }

    /// Whether a packet is one of the job's.
    fn is_packet(&self, packet: u16) -> bool
        ensures { IsTrue result ↔ (packet < length self.now.job.job.packets) }
    {
        (packet as usize) < self.job().packets().len()
    }

    /// The next packet of the submission order is put in its queue.
    ///
    /// # Errors
    ///
    /// `NotEnabled` exactly where no packet may be put in its queue; `Memory`.
    pub fn submit(&mut self) -> Result<(), HallFault>
        ensures ok { OnOk result (AddsAlone self.old event.Submit self.new) }
        ensures err { OnErr result (self.new ≡ self.old) }
        ensures fault { IfErr result
            (λ f. Refused (Possible (job_of self.old) self.old.state (One machine.Event.Submit)) f) }
    {
        self.history.take(Event::Submit)
    }

    /// The queue's next packet is launched.
    ///
    /// # Errors
    ///
    /// `NotEnabled` exactly where the queue has no packet that may be launched; `Memory`.
    pub fn launch(&mut self, queue: u16) -> Result<(), HallFault>
        ensures ok { OnOk result (AddsAlone self.old (event.Launch queue) self.new) }
        ensures err { OnErr result (self.new ≡ self.old) }
        ensures fault { IfErr result
            (λ f. Refused (Possible (job_of self.old) self.old.state (One (machine.Event.Launch queue))) f) }
    {
        self.history.take(Event::Launch {
            queue: queue as u32,
        })
    }

    /// A launched barrier packet sees the signal of one of its dependencies at 0.
    ///
    /// # Errors
    ///
    /// `NotEnabled` exactly where the packet may not observe the slot; `Memory`.
    pub fn observe(&mut self, packet: u16, slot: u16) -> Result<(), HallFault>
        ensures ok { OnOk result (AddsAlone self.old (event.Observe packet slot) self.new) }
        ensures err { OnErr result (self.new ≡ self.old) }
        ensures fault { IfErr result
            (λ f. Refused (Possible (job_of self.old) self.old.state (One (machine.Event.Observe packet slot))) f) }
    {
        self.history.take(Event::Observe {
            packet: packet as u32,
            slot: slot as u32,
        })
    }

    /// The packet's wait is over: its acquire fence is applied, and it is active.
    ///
    /// # Errors
    ///
    /// `NotEnabled` exactly where the packet may not enter; `Memory`.
    pub fn enter(&mut self, packet: u16) -> Result<(), HallFault>
        ensures ok { OnOk result (AddsAlone self.old (event.Enter packet) self.new) }
        ensures err { OnErr result (self.new ≡ self.old) }
        ensures fault { IfErr result
            (λ f. Refused (Possible (job_of self.old) self.old.state (One (machine.Event.Enter packet))) f) }
    {
        self.history.take(Event::Enter {
            packet: packet as u32,
        })
    }

    /// All dirty bytes are pushed.
    ///
    /// # Errors
    ///
    /// `NotEnabled` in no state in which that can be; `Memory`.
    pub fn rest(&mut self) -> Result<(), HallFault>
        ensures ok { OnOk result (AddsAlone self.old event.Rest self.new) }
        ensures err { OnErr result (self.new ≡ self.old) }
        ensures fault { IfErr result (λ f. Refused (Possible (job_of self.old) self.old.state Rest) f) }
    {
        self.history.take(Event::Rest)
    }

    /// Whether a packet may complete as far as its delivery goes.
    fn is_done(&self, packet: u16) -> bool
        ensures { IsTrue result
            ↔ ((packet < length self.now.job.job.packets)
            × ((packet_of (job_of self.now) packet).kind ≡ Kind.Work
            → stage_of self.now.events packet ≡ stage.Delivered)) }
    {
        self.is_packet(packet)
            && (self.job().is_barrier(packet as usize) || self.stage(packet) == Stage::Delivered)
    }

    /// The pushes that the packet's release fence asks for, and its completion.
    ///
    /// # Errors
    ///
    /// `NotEnabled` exactly where the packet may not complete, or is a kernel or agent packet that wasn't
    /// delivered; `Memory`.
    pub fn complete(&mut self, packet: u16) -> Result<(), HallFault>
        ensures ok { OnOk result (AddsAlone self.old (event.Complete packet) self.new) }
        ensures may { OnOk result (MayComplete self.old packet) }
        ensures err { OnErr result (self.new ≡ self.old) }
        ensures fault { IfErr result (λ f. Refused (MayComplete self.old packet) f) }
    {
        if !self.is_done(packet) {
            return Err(HallFault::NotEnabled);
        }
        self.history.take(Event::Complete {
            packet: packet as u32,
        })
    }

    /// Whether a packet is active.
    fn is_active(&self, packet: u16) -> bool
        requires { packet < length self.now.job.job.packets }
        ensures { IsTrue result ↔ (state_in self.now).phase packet ≡ machine.Phase.Active }
    {
        self.history.run_so_far();
        self.history.state().phase(packet as usize) == Phase::Active
    }

    /// Whether a packet may be fetched as far as the hall knows: it is work, is active and wasn't fetched yet.
    fn is_ready(&self, packet: u16) -> bool
        ensures { IsTrue result ↔ IsReady self.now packet }
    {
        self.is_packet(packet)
            && !self.job().is_barrier(packet as usize)
            && self.is_active(packet)
            && self.stage(packet) == Stage::Unfetched
    }

    /// The packet's pieces, with the bytes that are seen through its lane; and bytes of 0 in the one that it writes.
    fn hand_out(&self, packet: u16) -> Result<Vec<Piece>, HallFault>
        requires { packet < length self.now.job.job.packets }
        ensures ok { IfOk result
            (λ pieces. pieces.items ≡ pieces_of packet (work_in self.now packet)
            (map (lane_sees (job_of self.now) (state_in self.now) packet) (packet_of (job_of self.now) packet).reads)
            (replicate (work_in self.now packet).foot.write.len 0)) }
        ensures memory { IfErr result (λ e. e ≡ fault.Memory) }
    {
        self.history.run_so_far();
        let job = self.job();
        job.valid();
        let placed = placed(job, packet);
        let giver = Giver {
            alloc: self.alloc,
            state: self.history.state(),
            tray: &self.tray,
        };
        let pieces = giver.hand_out(packet, placed)?;
        Ok(pieces)
    }

    /// Makes the packet's fetch happen, and notes that its ranges are out.
    fn take_out(&mut self, packet: u16) -> Result<(), HallFault>
        requires { IsReady self.old packet }
        ensures ok { OnOk result (Adds self.old (event.Fetch packet) self.new) }
        ensures out { OnOk result
            (self.new.out ≡ self.old.out ++ record { packet = packet; foot = foot_of self.old.job.job.packets packet } ∷
            []) }
        ensures err { OnErr result (self.new ≡ self.old) }
        ensures fault { IfErr result (λ f. Refused (Possible (job_of self.old) self.old.state (Fetch packet)) f) }
    {
        self.history.run_so_far();
        let accepted = self.history.accepted();
        accepted.ordered();
        let foot = placed(accepted.job(), packet).bytes;
        let_out(&mut self.grants, packet, &foot)?;
        match self.history.take(Event::Fetch {
            packet: packet as u32,
        }) {
            Ok(()) => {
                self.stages[packet as usize] = Stage::Out;
                Ok(())
            }
            Err(fault) => {
                let _home = self.grants.home(packet);
                Err(fault)
            }
        }
    }

    /// All reads of a kernel or agent packet: answers its pieces in order, first those that it reads, then the one
    /// that it writes. The read pieces hold the bytes that every order of one packet at a time which keeps the
    /// job's order gives it, the written one bytes of 0.
    ///
    /// # Errors
    ///
    /// `NotEnabled` exactly where the packet is a barrier packet or none of the job's, isn't active, was fetched
    /// before, or the event isn't enabled; `Memory`.
    pub fn fetch(&mut self, packet: u16) -> Result<Vec<Piece>, HallFault>
        ensures ok { OnOk result (Adds self.old (event.Fetch packet) self.new) }
        ensures out { OnOk result
            (self.new.out ≡ self.old.out ++ record { packet = packet; foot = foot_of self.old.job.job.packets packet } ∷
            []) }
        ensures may { OnOk result (MayFetch self.old packet) }
        ensures pieces { IfOk result
            (λ pieces. pieces.items ≡ pieces_of packet (work_in self.new packet)
            (bytes_read (job_of self.new) (state_in self.new) packet)
            (replicate (work_in self.new packet).foot.write.len 0)) }
        ensures given { OnOk result
            ((list : List ℕ) → Extends (job_of self.old) list
            → bytes_read (job_of self.new) (state_in self.new) packet ≡ given (job_of self.old) list packet) }
        ensures err { OnErr result (self.new ≡ self.old) }
        ensures fault { IfErr result (λ f. Refused (MayFetch self.old packet) f) }
    {
        if !self.is_ready(packet) {
            return Err(HallFault::NotEnabled);
        }
        self.accepted().ordered();
        let pieces = self.hand_out(packet)?;
        if let Err(fault) = self.take_out(packet) {
            open_all(pieces);
            return Err(fault);
        }
        self.run_so_far();
        Ok(pieces)
    }

    /// Whether the piece is one that a packet reads, of this range, and holds the bytes that it has read as its
    /// entries from `first` on.
    fn is_read(&self, packet: u16, place: u8, range: Range, first: u64, piece: &Piece) -> bool
        requires packet { packet < length self.now.job.job.packets }
        requires entries { first + range.len < 2 ^ 64 }
        ensures { IsTrue result ↔ IsReadPiece (state_in self.now) packet place range first piece.now }
    {
        self.history.run_so_far();
        is_piece(piece, packet, place, range)
            && self
                .history
                .state()
                .has_read(packet as usize, first as usize, piece.bytes())
    }

    /// Whether the first piece is the first that the packet reads, if it reads one.
    fn is_first(&self, packet: u16, work: Work, pieces: &[Piece]) -> bool
        requires packet { packet < length self.now.job.job.packets }
        requires count { length pieces.now ≡ reads_of work.task + writes_of work.task }
        ensures { IsTrue result
            ↔ (0 < reads_of work.task
            → IsReadPiece (state_in self.now) packet 0 (first_read work) 0 (piece_at pieces.now 0)) }
    {
        let (first, _second) = both(work.foot.reads);
        work.task.reads() < 1 || self.is_read(packet, 0, first, 0, &pieces[0])
    }

    /// Whether the second piece is the second that the packet reads, if it reads two.
    fn is_second(&self, packet: u16, work: Work, pieces: &[Piece]) -> bool
        requires packet { packet < length self.now.job.job.packets }
        requires count { length pieces.now ≡ reads_of work.task + writes_of work.task }
        requires entries { (first_read work).len + (second_read work).len < 2 ^ 64 }
        ensures { IsTrue result
            ↔ (1 < reads_of work.task
            → IsReadPiece (state_in self.now) packet 1 (second_read work) (first_read work).len
            (piece_at pieces.now 1)) }
    {
        let (first, second) = both(work.foot.reads);
        work.task.reads() < 2 || self.is_read(packet, 1, second, first.len, &pieces[1])
    }

    /// Whether these are the packet's pieces, and hold in their read ranges what it has read.
    fn are_pieces(&self, packet: u16, pieces: &[Piece]) -> bool
        requires packet { packet < length self.now.job.job.packets }
        ensures { IsTrue result ↔ ArePieces (state_in self.now) packet (work_in self.now packet) pieces.now }
    {
        let work = placed(self.job(), packet).work;
        pieces.len() == work.task.reads() + work.task.writes()
            && self.is_first(packet, work, pieces)
            && self.is_second(packet, work, pieces)
            && is_last(packet, work, pieces)
    }

    /// A packet that is out may be delivered.
    fn may_deliver(&self, packet: u16)
        requires packet { packet < length self.now.job.job.packets }
        requires out { stage_of self.now.events packet ≡ stage.Out }
        ensures { MayDeliver self.now packet }
    {
        let _stages = &self.stages;
    }

    /// Makes the packet's delivery of these bytes happen, and notes that its ranges are home again.
    fn take_back(&mut self, packet: u16, written: &[u8]) -> Result<(), HallFault>
        requires packet { packet < length self.old.job.job.packets }
        requires out { stage_of self.old.events packet ≡ stage.Out }
        requires bytes { Possible (job_of self.old) self.old.state (Deliver packet)
            → written.now ≡ bytes_stored (job_of self.old) (state_in self.old) packet }
        ensures ok { OnOk result (Adds self.old (event.Deliver packet) self.new) }
        ensures out { OnOk result (self.new.out ≡ without packet self.old.out) }
        ensures err { OnErr result (self.new ≡ self.old) }
        ensures fault { IfErr result (λ f. Refused (Possible (job_of self.old) self.old.state (Deliver packet)) f) }
    {
        self.history.deliver(packet, written)?;
        let _back = self.grants.home(packet);
        self.stages[packet as usize] = Stage::Delivered;
        Ok(())
    }

    /// All stores of a packet that was fetched, of the bytes in its pieces, which it brings back in the order in
    /// which it got them. The piece that it writes has to hold what its task makes of those that it reads.
    ///
    /// # Errors
    ///
    /// `NotEnabled` exactly where the packet isn't out, or the event isn't enabled; else `WrongPieces` exactly
    /// where these aren't its pieces in order, or a read piece doesn't hold what was handed out; `Memory`. The
    /// pieces are handed back.
    pub fn deliver(
        &mut self,
        packet: u16,
        pieces: Vec<Piece>,
    ) -> Result<(), (HallFault, Vec<Piece>)>
        requires done { AreDone self.old packet pieces.items }
        ensures ok { OnOk result (Adds self.old (event.Deliver packet) self.new) }
        ensures out { OnOk result (self.new.out ≡ without packet self.old.out) }
        ensures may { OnOk result
            (MayDeliver self.old packet × ArePieces (state_in self.old) packet (work_in self.old packet) pieces.items) }
        ensures err { OnErr result (self.new ≡ self.old) }
        ensures back { IfErr result (λ e. e.1 ≡ pieces) }
        ensures fault { IfErr result (λ e. NotDelivered self.old packet pieces.items e.0) }
    {
        if !self.is_packet(packet) || self.stage(packet) != Stage::Out {
            return Err((HallFault::NotEnabled, pieces));
        }
        self.may_deliver(packet);
        if !self.are_pieces(packet, &pieces) {
            return Err((HallFault::WrongPieces, pieces));
        }
        let task = placed(self.job(), packet).work.task;
        let taken = if task.writes() == 0 {
            self.take_back(packet, &[])
        } else {
            self.take_back(packet, pieces[task.reads()].bytes())
        };
        match taken {
            Ok(()) => {
                open_all(pieces);
                Ok(())
            }
            Err(fault) => Err((fault, pieces)),
        }
    }
}

/// Whether the piece is the packet's in this place, of this range.
fn is_piece(piece: &Piece, packet: u16, place: u8, range: Range) -> bool
    ensures { IsTrue result ↔ IsPieceOf packet place range piece.now }
{
    piece.is_of(packet, place) && piece.at() == range.at && piece.bytes().len() as u64 == range.len
}

/// The stages of so many packets that weren't fetched yet.
fn unfetched(alloc: Global, packets: usize) -> Result<Vec<Stage>, AllocError>
    ensures { IfOk result (λ stages. stages.items ≡ replicate packets stage.Unfetched) }
{
    let stages = vec![in alloc; Stage::Unfetched; packets]?;
    Ok(stages)
}

/// Hands a packet its ranges, where nothing that is out is in the way.
fn let_out(grants: &mut Grants, packet: u16, foot: &Footprint) -> Result<(), HallFault>
    requires clear { IsClear grants.old (record { packet = packet; foot = foot.now }) }
    ensures ok { OnOk result (grants.new ≡ grants.old ++ record { packet = packet; foot = foot.now } ∷ []) }
    ensures err { OnErr result (grants.new ≡ grants.old) }
    ensures memory { IfErr result (λ e. e ≡ fault.Memory) }
{
    match grants.grant(packet, foot) {
        Ok(()) => Ok(()),
        Err(fault) => match fault {
            GrantFault::Memory => Err(HallFault::Memory),
            GrantFault::Overlap(_) | GrantFault::NotOut => unreachable!(),
        },
    }
}

/// Whether the last piece is the one that a packet with this work writes, if it writes one.
fn is_last(packet: u16, work: Work, pieces: &[Piece]) -> bool
    requires count { length pieces.now ≡ reads_of work.task + writes_of work.task }
    ensures { IsTrue result
        ↔ (0 < writes_of work.task
        → IsPieceOf packet (reads_of work.task) work.foot.write (piece_at pieces.now (reads_of work.task))) }
{
    let reads = work.task.reads();
    work.task.writes() < 1 || is_piece(&pieces[reads], packet, reads as u8, work.foot.write)
}

/// The packet of this number.
fn placed(job: &Job, packet: u16) -> &Placed
    requires { packet < length job.now.packets }
    ensures there { slice_get job.now.packets packet ≡ Some result.now }
    ensures read { PacketIsRead job.now result.now }
    ensures work { result.now.work ≡ work_of job.now.packets packet }
    ensures foot { result.now.bytes ≡ foot_of job.now.packets packet }
    ensures planned { planned result.now ≡ packet_of (plan job.now) packet }
    ensures entries { (first_read result.now.work).len + (second_read result.now.work).len < 2 ^ 64 }
    ensures ranges { (first : ByteRange) × (second : ByteRange) × (result.now.work.foot.reads ≡ first ∷ second ∷ []) }
    ensures numbers { (first : ByteRange) × (second : ByteRange) × (result.now.bytes.reads ≡ first ∷ second ∷ []) }
{
    job.valid();
    let placed = &job.packets()[packet as usize];
    let _ranges = both(placed.work.foot.reads);
    let _numbers = both(placed.bytes.reads);
    placed
}
