//! The table of a job's signals.

ghost use Rattle.std.specs.Prelude.{◌≡◌, ◌≢◌, ◌+◌, ◌<◌, ◌^◌, ◌↔◌, ℕ, [], ◌∷◌, ◌++◌, length, nat_lt, ◌&&◌};
ghost use Rattle.std.specs.Prelude.{slice_get, All, AllPairs, IsTrue, IfOk, IsOk, IsNone, OnOk, OnErr};

use crate::fault::SignalFault;
use indexmap::IndexMap;
use std::alloc::{AllocError, Global};
use std::marker::Model;

// What the table keeps of a signal beside its handle.
#[derive(Clone, Copy, Debug)]
struct Entry {
    start: u64,
    decrementers: u64,
    waited: bool,
    ghost start_fits: { start < 2 ^ 63 },
}

impl Entry {
    fn is_undershot(&self) -> bool
        ensures { result ≡ nat_lt self.now.start self.now.decrementers }
    {
        self.decrementers > self.start
    }

    fn never_reaches_zero(&self) -> bool
        ensures { result ≡ (self.now.waited && nat_lt self.now.decrementers self.now.start) }
    {
        self.waited && self.decrementers < self.start
    }

    fn same(&self, other: &Entry) -> bool
        ensures { IsTrue result
            ↔ ((self.now.start ≡ other.now.start)
            × ((self.now.decrementers ≡ other.now.decrementers) × (self.now.waited ≡ other.now.waited))) }
    {
        self.start == other.start
            && self.decrementers == other.decrementers
            && self.waited == other.waited
    }
}

/// A job's signals, in the order in which they were opened: the start of each, how many packets complete on it, and
/// whether a barrier waits on it. Handles are distinct.
///
/// A contract sees the table as the list of its signals.
#[derive(Debug, Drop)]
pub struct SignalTable {
    signals: IndexMap<u64, Entry>,
}

impl Model for SignalTable {
    ghost use Rattle.std.specs.Prelude.{List};
    ghost use Rattle.hq_signals.specs.Table.{OpenSignal};

    ghost Value = { List OpenSignal };

    ghost use Rattle.hq_signals.specs.View.{signals_of};

    ghost view = { λ t. signals_of t.signals.entries };
}

impl SignalTable {
    ghost use Rattle.hq_signals.specs.Table.{OpenSignal, opened, handles, starts, IsOpen, noted, changed_at};
    ghost use Rattle.hq_signals.specs.Table.{with_decrementer, with_wait, IsUndershot, NeverReachesZero, IsFirst};
    ghost use Rattle.hq_signals.specs.Table.{Finds};

    /// A table with no signal. It takes no memory.
    pub fn new(alloc: Global) -> Self
        ensures { result ≡ [] }
    {
        SignalTable {
            signals: IndexMap::new(alloc),
        }
    }

    /// An equal table.
    ///
    /// # Errors
    ///
    /// `AllocError` where there is no memory.
    pub fn copy(&self) -> Result<SignalTable, AllocError>
        ensures { IfOk result (λ t. t ≡ self.now) }
    {
        Ok(SignalTable {
            signals: self.signals.clone()?,
        })
    }

    /// The number of signals.
    pub fn len(&self) -> usize
        ensures value { result ≡ length self.now }
        ensures distinct { AllPairs (λ h g. h ≢ g) (handles self.now) }
    {
        self.signals.len()
    }

    /// Whether there is no signal.
    pub fn is_empty(&self) -> bool
        ensures { IsTrue result ↔ (self.now ≡ []) }
    {
        self.signals.is_empty()
    }

    /// Whether a signal with this handle is open.
    pub fn has(&self, handle: u64) -> bool
        ensures { IsTrue result ↔ IsOpen self.now handle }
    {
        self.signals.contains_key(&handle)
    }

    /// The signal's place in order of opening, from 0.
    pub fn index_of(&self, handle: u64) -> Option<usize>
        ensures place { (i : ℕ) → (result ≡ Some i) ↔ (slice_get (handles self.now) i ≡ Some handle) }
        ensures absent { IsNone result ↔ ¬ (IsOpen self.now handle) }
    {
        self.signals.get_index_of(&handle)
    }

    fn place_of(&self, handle: u64) -> usize
        requires { IsOpen self.now handle }
        ensures { slice_get (handles self.now) result ≡ Some handle }
    {
        self.index_of(handle).unwrap()
    }

    /// The handle of the signal at this place in order of opening.
    pub fn handle(&self, index: usize) -> u64
        requires { index < length self.now }
        ensures { slice_get (handles self.now) index ≡ Some result }
    {
        let (handle, _) = self.signals.get_index(index).unwrap();
        *handle
    }

    /// The start of the signal at this place in order of opening.
    pub fn start(&self, index: usize) -> u64
        requires { index < length self.now }
        ensures value { slice_get (starts self.now) index ≡ Some result }
        ensures fits { result < 2 ^ 63 }
    {
        let (_, signal) = self.signals.get_index(index).unwrap();
        signal.start
    }

    fn same_at(&self, other: &SignalTable, index: usize) -> bool
        requires here { index < length self.now }
        requires there { index < length other.now }
        ensures { IsTrue result ↔ (slice_get self.now index ≡ slice_get other.now index) }
    {
        let (own_handle, entry) = self.signals.get_index(index).unwrap();
        let (other_handle, other_entry) = other.signals.get_index(index).unwrap();
        own_handle == other_handle && entry.same(other_entry)
    }

    /// Whether both tables show the same signals in the same order of opening: the handle, the start and the
    /// decrementers of each, and whether a barrier waits on it. It takes no memory.
    pub fn same(&self, other: &SignalTable) -> bool
        ensures { IsTrue result ↔ (self.now ≡ other.now) }
    {
        if self.len() != other.len() {
            return false;
        }
        for index in 0..self.len() {
            if !self.same_at(other, index) {
                return false;
            }
        }
        true
    }

    /// Opens a signal, behind those that are open. A signal's value is a signed 64-bit number, so `start` is below
    /// 2^63. An `Err` changes nothing.
    ///
    /// # Errors
    ///
    /// `AllocError` where there is no memory, and then nothing changes.
    pub fn open(&mut self, handle: u64, start: u64) -> Result<(), AllocError>
        requires closed { ¬ (IsOpen self.old handle) }
        requires fits { start < 2 ^ 63 }
        ensures ok { OnOk result (self.new ≡ self.old ++ opened handle start ∷ []) }
        ensures err { OnErr result (self.new ≡ self.old) }
    {
        let entry = Entry {
            start,
            decrementers: 0,
            waited: false,
        };
        self.signals.insert(handle, entry)?;
        Ok(())
    }

    /// Notes that one packet more completes on the signal. It takes no memory.
    pub fn note_decrement(&mut self, handle: u64)
        requires open { IsOpen self.old handle }
        requires room { noted self.old + 1 < 2 ^ 64 }
        ensures counted { self.new ≡ changed_at handle with_decrementer self.old }
        ensures total { noted self.new ≡ noted self.old + 1 }
    {
        let index = self.place_of(handle);
        let (_, entry) = self.signals.pair_mut(index);
        entry.decrementers += 1;
    }

    /// Notes that a barrier waits on the signal. It takes no memory.
    pub fn note_wait(&mut self, handle: u64)
        requires { IsOpen self.old handle }
        ensures waited { self.new ≡ changed_at handle with_wait self.old }
        ensures total { noted self.new ≡ noted self.old }
    {
        let index = self.place_of(handle);
        let (_, entry) = self.signals.pair_mut(index);
        entry.waited = true;
    }

    fn first_undershot(&self) -> Option<u64>
        ensures { Finds IsUndershot self.now result }
    {
        let (handle, _) = self
            .signals
            .iter()
            .find(|(_, signal)| signal.is_undershot())?;
        Some(*handle)
    }

    fn first_never_zero(&self) -> Option<u64>
        ensures { Finds NeverReachesZero self.now result }
    {
        let (handle, _) = self
            .signals
            .iter()
            .find(|(_, signal)| signal.never_reaches_zero())?;
        Some(*handle)
    }

    /// Whether no signal has more decrementers than its start, and none that a barrier waits on has fewer. The first
    /// undershot signal in order of opening is named; where there is none, the first that never reaches 0.
    ///
    /// # Errors
    ///
    /// `Undershoot` with the first undershot signal, else `NeverZero` with the first that never reaches 0.
    pub fn verdict(&self) -> Result<(), SignalFault>
        ensures ok { IsOk result
            ↔ (All (λ s. ¬ (IsUndershot s)) self.now × All (λ s. ¬ (NeverReachesZero s)) self.now) }
        ensures undershoot { (handle : ℕ) → (result ≡ Err (SignalFault.Undershoot handle))
            ↔ IsFirst IsUndershot self.now handle }
        ensures never_zero { (handle : ℕ) → (result ≡ Err (SignalFault.NeverZero handle))
            ↔ (All (λ s. ¬ (IsUndershot s)) self.now × IsFirst NeverReachesZero self.now handle) }
    {
        if let Some(handle) = self.first_undershot() {
            return Err(SignalFault::Undershoot(handle));
        }
        if let Some(handle) = self.first_never_zero() {
            return Err(SignalFault::NeverZero(handle));
        }
        Ok(())
    }
}
