//! The board's words, and the steps on them. Each step is one load, one addition or one subtraction on one word.

ghost use Rattle.std.specs.Prelude.{◌≡◌, ℕ, ◌+◌, ◌<◌, ◌≤◌, ◌++◌, slice_index, replicate, length, [], false, Some, IfOk};
ghost use Rattle.hq_job.specs.Plan.{plan};
ghost use Rattle.hq_model.specs.Job.{packet as packet_of, Dependency};
ghost use Rattle.hq_board.specs.Calls.{ClosesAlone, ClosesWith};
ghost use Rattle.hq_model.specs.Theorems.{Valid};
ghost use Rattle.std.specs.Slots.{slots_items, slots_len, IsFull};
ghost use Rattle.hq_board.specs.History.{after, May, MayLook};
ghost use Rattle.hq_board.specs.Rule.{Fits, IsSettled, OwnStep, added, seen, dealer, newcomer};
ghost use Rattle.hq_board.specs.declared.entry.Entry.TheVariants.{DidComplete};

use crate::entry::View;
use crate::laws::histories_run;
use crate::rule::{Adds, Asked, ByJob, NextQueue};
use atomic_table::{Closed, Table};
use hq_events::packets::done_of;
use hq_events::starts::signal_values;
use hq_job::Job;
use std::alloc::{AllocError, Global};
use std::marker::Brand;

/// What is known of a seat: its list, and that it is one of its table's.
pub type Token = atomic_table::Seat<u64, View>;

/// The signals' starts, and 0 for each queue.
fn first_words(alloc: Global, job: &Job) -> Result<Vec<u64>, AllocError>
    ensures { IfOk result (λ words. words.items ≡ (plan job.now).starts ++ replicate (length (plan job.now).queues) 0) }
{
    job.valid();
    let mut words = signal_values(alloc, job)?;
    words.resize(job.signals().len() + job.queues().len(), 0)?;
    Ok(words)
}

/// The first words of a table that no thread shares any more.
fn copy_out(closed: &Closed<u64, Global>, values: &mut [u64])
    requires full { IsFull closed.now.words }
    requires room { length values.old ≤ slots_len closed.now.words }
    ensures count { length values.new ≡ length values.old }
    ensures values { (k : ℕ) → k < length values.new
        → slice_index values.new k ≡ slice_index (slots_items closed.now.words) k }
{
    for place in 0..values.len() {
        values[place] = closed.word(place);
    }
}

/// A word for each signal, which is its value, and one for each queue, which counts its own steps.
#[derive(Drop)]
pub struct Words<'a> {
    pub job: &'a Job,
    pub table: Table<u64, View, Job, ByJob, Global>,
    pub ghost key_is: { table.shared.key ≡ job.now },
    pub ghost fits: { Fits (plan job.now) },
    pub ghost no_slots: { table.shared.table_id.slots ≡ 0 },
    pub ghost sized: { table.shared.table_id.words ≡ length (plan job.now).starts + length (plan job.now).queues },
}

impl<'a> Words<'a> {
    /// How many signals there are.
    pub fn signals(&self) -> usize
        ensures { result ≡ length (plan self.now.job.now).starts }
    {
        self.job.signals().len()
    }

    /// A launch, an entry, or a completion on no signal: 1 is added to the queue's own word.
    pub fn step_own<J: Asked>(&self, token: &mut Token, queue: usize, _packet: usize)
        requires table { token.old.table_id ≡ self.now.table.shared.table_id }
        requires steady { (n : ℕ) → J.entry n ≡ J.entry 0 }
        requires told { (n : ℕ) → J.told n }
        requires own { OwnStep (plan self.now.job.now) token.old.me.0 (J.entry 0) × (token.old.me.0.queue ≡ queue) }
        ensures table { (token.new.table_id ≡ token.old.table_id) × (token.new.id ≡ token.old.id) }
        ensures list { token.new.me ≡ (added token.old.me.0 (J.entry 0), token.old.me.1) }
    {
        self.job.valid();
        let word = self.signals() + queue;
        self.table.shared.fetch_add::<Adds<J>>(token, word, 1);
    }

    /// A completion on a signal: 1 is taken from its word.
    pub fn step_down<J: Asked>(&self, token: &mut Token, packet: usize, signal: usize)
        requires table { token.old.table_id ≡ self.now.table.shared.table_id }
        requires entry { (n : ℕ) → J.entry n ≡ DidComplete packet }
        requires told { (n : ℕ) → J.told n }
        requires queue { (token.old.me.0.deals ≡ false)
            × ((packet_of (plan self.now.job.now) packet).queue ≡ token.old.me.0.queue) }
        requires signal { ((packet_of (plan self.now.job.now) packet).done ≡ Some signal)
            × (signal < length (plan self.now.job.now).starts) }
        requires may { May (plan self.now.job.now) (after (plan self.now.job.now) token.old.me.0.log)
            (DidComplete packet) }
        ensures table { (token.new.table_id ≡ token.old.table_id) × (token.new.id ≡ token.old.id) }
        ensures list { token.new.me ≡ (added token.old.me.0 (DidComplete packet), token.old.me.1) }
    {
        self.table.shared.fetch_sub::<Adds<J>>(token, signal, 1);
    }

    /// A look at a signal: its word is loaded. What is found is 0 where the seat's own list says that the signal is
    /// settled.
    pub fn step_look<J: Asked>(
        &self,
        token: &mut Token,
        packet: usize,
        slot: usize,
        signal: usize,
    ) -> u64
        requires table { token.old.table_id ≡ self.now.table.shared.table_id }
        requires entry { (n : ℕ) → J.entry n ≡ seen packet slot n }
        requires told { (n : ℕ) → (IsSettled (plan self.now.job.now) token.old.me.0 signal → n ≡ 0) → J.told n }
        requires queue { (token.old.me.0.deals ≡ false)
            × ((packet_of (plan self.now.job.now) packet).queue ≡ token.old.me.0.queue) }
        requires signal { Dependency (plan self.now.job.now) packet slot signal }
        requires may { MayLook (plan self.now.job.now) (after (plan self.now.job.now) token.old.me.0.log) packet slot }
        ensures table { (token.new.table_id ≡ token.old.table_id) × (token.new.id ≡ token.old.id) }
        ensures list { token.new.me ≡ (added token.old.me.0 (seen packet slot result), token.old.me.1) }
        ensures told { J.told result }
    {
        self.table.shared.load::<Adds<J>>(token, signal)
    }

    /// A completion.
    pub fn step_complete(&self, token: &mut Token, queue: usize, packet: usize)
        requires table { token.old.table_id ≡ self.now.table.shared.table_id }
        requires queue { (token.old.me.0.deals ≡ false) × ((packet_of (plan self.now.job.now) packet).queue ≡ queue)
            × (token.old.me.0.queue ≡ queue) }
        requires may { May (plan self.now.job.now) (after (plan self.now.job.now) token.old.me.0.log)
            (DidComplete packet) }
        ensures table { (token.new.table_id ≡ token.old.table_id) × (token.new.id ≡ token.old.id) }
        ensures list { token.new.me ≡ (added token.old.me.0 (DidComplete packet), token.old.me.1) }
    {
        match done_of(self.job, packet) {
            None => self.step_own::<Brand>(token, queue, packet),
            Some(signal) => self.step_down::<Brand>(token, packet, signal as usize),
        }
    }

    /// The next queue's seat is handed out.
    pub fn deal(&self, token: &mut Token) -> Token
        requires table { token.old.table_id ≡ self.now.table.shared.table_id }
        requires dealer { (token.old.me.0 ≡ dealer token.old.me.0.queue)
            × (token.old.me.0.queue < length (plan self.now.job.now).queues) }
        ensures table { (token.new.table_id ≡ token.old.table_id) × (result.table_id ≡ token.old.table_id) }
        ensures dealer { token.new.me.0 ≡ dealer (token.old.me.0.queue + 1) }
        ensures seat { result.me ≡ (newcomer token.old.me.0.queue, []) }
    {
        self.table.shared.split_seat::<NextQueue>(token)
    }

    /// The words as the job starts, and what hands out seats.
    pub fn open(alloc: Global, job: &'a Job) -> Result<(Words<'a>, Token), AllocError>
        ensures { IfOk result
            (λ r. (r.0.job.now ≡ job.now) × (r.1.table_id ≡ r.0.table.shared.table_id) × (r.1.me.0 ≡ dealer 0)) }
    {
        job.valid();
        let words = first_words(alloc, job)?;
        let (table, token) = Table::of_words(alloc, &words, job)?;
        Ok((Words { job, table }, token))
    }

    /// Takes the words apart, with one seat, and writes the signals' values: those at the end of a history that has
    /// the seat's list as its part.
    pub fn close_with(self, token: Token, values: &mut [u64])
        requires valid { Valid (plan self.job.now) }
        requires table { token.table_id ≡ self.table.shared.table_id }
        requires room { length values.old ≡ length (plan self.job.now).starts }
        ensures { ClosesWith (plan self.entry.job.now) token.me.0 values.new }
    {
        let Words { job: _, table } = self;
        histories_run();
        let closed = table.close_with(token);
        copy_out(&closed, values);
        closed.free();
    }

    /// Takes the words of a board without a seat apart, and writes the signals' values.
    pub fn close(self, values: &mut [u64])
        requires valid { Valid (plan self.job.now) }
        requires room { length values.old ≡ length (plan self.job.now).starts }
        ensures { ClosesAlone (plan self.entry.job.now) values.new }
    {
        let Words { job: _, table } = self;
        histories_run();
        let closed = table.close();
        copy_out(&closed, values);
        closed.free();
    }
}
