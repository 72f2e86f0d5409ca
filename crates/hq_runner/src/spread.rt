//! One call for each job, each in a thread of its own.

ghost use Rattle.std.specs.Prelude.{◌≡◌, ℕ, IfOk};
ghost use denote.Param.Send.{IsSend, IsSync};
ghost use Rattle.hq_runner.specs.Spread.{Accepts, Gives};

use crate::shared::Shared;
use std::alloc::{AllocError, Global};
use std::marker::PhantomData;
use std::snapshot::Snapshot;
use std::sync::Wait;
use std::thread;
use std::thread::{Promise, PromisedHandle, Scope, Threads};

/// A call that is made with a job and its place.
trait Call<J, X> {
    ghost accepts: { Self → ℕ → J → Type 0 };

    ghost gives: { Self → ℕ → J → X → Type 0 };

    /// Makes it.
    fn make(&self, place: usize, job: J) -> X
        requires { Self.accepts self.now place job }
        ensures { Self.gives self.now place job result };
}

/// The call of f.
#[derive(Drop)]
struct Each<'a, F> {
    f: &'a F,
}

impl<'a, J, X, F: Fn(usize, J) -> X> Call<J, X> for Each<'a, F> {
    ghost accepts = { λ each place job. F.pre each.f.now place job };

    ghost gives = { λ each place job x. F.post each.f.now place job x };

    fn make(&self, place: usize, job: J) -> X {
        (self.f)(place, job)
    }
}

/// The call of h, which takes neither a job nor a place.
#[derive(Drop)]
struct Beside<'a, H> {
    h: &'a H,
}

impl<'a, Y, H: Fn() -> Y> Call<(), Y> for Beside<'a, H> {
    ghost accepts = { λ beside _ _. H.pre beside.h.now };

    ghost gives = { λ beside _ _ y. H.post beside.h.now y };

    fn make(&self, _place: usize, _job: ()) -> Y {
        (self.h)()
    }
}

/// The call that a thread makes. The thread gives what the call gives.
#[derive(Drop)]
struct Started<J, X, C: Call<J, X>> {
    call: Snapshot<C>,
    place: usize,
    job: Snapshot<J>,
    result: PhantomData<X>,
}

impl<J, X, C: Call<J, X>> Promise<X> for Started<J, X, C> {
    ghost kept_by = { λ started x. C.gives started.call.value started.place started.job.value x };
}

/// Makes the call in a thread of its own, where one can be made.
fn start<'s, E, J: Send + Drop + 's, X: Send + Drop + 's, C: Call<J, X> + Sync>(
    scope: &Scope<'s, E>,
    call: &'s C,
    place: usize,
    job: J,
) -> Result<PromisedHandle<X, Started<J, X, C>>, AllocError>
    requires { C.accepts call.now place job }
    ensures call { IfOk result (λ handle. handle.promise.call.value ≡ call.now) }
    ensures place { IfOk result (λ handle. handle.promise.place ≡ place) }
    ensures job { IfOk result (λ handle. handle.promise.job.value ≡ job) }
{
    let started = Started {
        call: Snapshot::of(call),
        place,
        job: Snapshot::of(&job),
        result: PhantomData,
    };
    let handle = scope.spawn_with(
        started,
        move || -> X
            requires { IsSync C.row × IsSend J.row × IsSend X.row × C.accepts call.now place job }
            ensures { C.gives call.entry.now place job result }
        { call.make(place, job) },
    )?;
    Ok(handle)
}

/// Makes the call with each job, with the first in this thread, and waits for all. Where a thread can't be made, ends
/// the run, so that the calls that wait for the one that isn't made end too.
fn make_each<
    's,
    E,
    R: Threads + Wait,
    J: Send + Drop + 's,
    X: Send + Drop + 's,
    C: Call<J, X> + Sync,
>(
    scope: &Scope<'s, E>,
    rt: &R,
    alloc: Global,
    shared: &Shared,
    call: &'s C,
    mut jobs: Vec<J>,
) -> Result<Vec<X>, AllocError>
    requires { Accepts (C.accepts call.now) jobs.items }
    ensures { IfOk result (λ xs. Gives (C.gives call.now) jobs.items xs.items) }
{
    let Some(job) = jobs.pop() else {
        return Ok(Vec::new(alloc));
    };
    let place = jobs.len();
    if place == 0 {
        let mut first = Vec::new(alloc);
        first.push(call.make(place, job))?;
        return Ok(first);
    }
    let Ok(handle) = start(scope, call, place, job) else {
        shared.fail(rt);
        return Err(AllocError);
    };
    let xs = make_each(scope, rt, alloc, shared, call, jobs);
    let x = handle.join(rt);
    let mut xs = xs?;
    xs.push(x)?;
    Ok(xs)
}

/// Does the same, and makes the other call beside, in a thread of its own.
fn make_beside<
    's,
    E,
    R: Threads + Wait,
    J: Send + Drop + 's,
    X: Send + Drop + 's,
    C: Call<J, X> + Sync,
    Y: Send + Drop + 's,
    B: Call<(), Y> + Sync,
>(
    scope: &Scope<'s, E>,
    rt: &R,
    alloc: Global,
    shared: &Shared,
    call: &'s C,
    jobs: Vec<J>,
    beside: &'s B,
) -> Result<(Y, Vec<X>), AllocError>
    requires each { Accepts (C.accepts call.now) jobs.items }
    requires beside { B.accepts beside.now 0 tt }
    ensures each { IfOk result (λ all. Gives (C.gives call.now) jobs.items all.1.items) }
    ensures beside { IfOk result (λ all. B.gives beside.now 0 tt all.0) }
{
    let handle = start(scope, beside, 0, ())?;
    let xs = make_each(scope, rt, alloc, shared, call, jobs);
    let y = handle.join(rt);
    let xs = xs?;
    Ok((y, xs))
}

/// Calls f with each job and its place, with the first in this thread and with each other in one of its own, and waits
/// for all.
///
/// # Errors
///
/// There is no memory for the results, though all calls were made; or a thread can't be made: then the run is ended for
/// the calls that were begun, and the others aren't made.
pub fn run_each<R: Threads + Wait, J: Send + Drop, X: Send + Drop, F: Fn(usize, J) -> X + Sync>(
    rt: &R,
    alloc: Global,
    shared: &Shared,
    f: &F,
    jobs: Vec<J>,
) -> Result<Vec<X>, AllocError>
    requires { Accepts (F.pre f.now) jobs.items }
    ensures { IfOk result (λ xs. Gives (F.post f.now) jobs.items xs.items) }
{
    let each = Each { f };
    let each = &each;
    thread::scope(
        thread::scope_env(),
        rt,
        move |scope| -> Result<Vec<X>, AllocError>
            requires { IsSync F.row × IsSend J.row × IsSend X.row × Accepts (F.pre each.now.f.now) jobs.items }
            ensures { IfOk result (λ xs. Gives (F.post each.entry.now.f.now) jobs.items xs.items) }
        { make_each(scope, rt, alloc, shared, each, jobs) },
    )
}

/// Does the same, and calls h beside, in a thread of its own.
pub fn run_beside<
    R: Threads + Wait,
    J: Send + Drop,
    X: Send + Drop,
    F: Fn(usize, J) -> X + Sync,
    Y: Send + Drop,
    H: Fn() -> Y + Sync,
>(
    rt: &R,
    alloc: Global,
    shared: &Shared,
    f: &F,
    jobs: Vec<J>,
    h: &H,
) -> Result<(Y, Vec<X>), AllocError>
    requires each { Accepts (F.pre f.now) jobs.items }
    requires beside { H.pre h.now }
    ensures each { IfOk result (λ all. Gives (F.post f.now) jobs.items all.1.items) }
    ensures beside { IfOk result (λ all. H.post h.now all.0) }
{
    let each = Each { f };
    let beside = Beside { h };
    let (each, beside) = (&each, &beside);
    thread::scope(
        thread::scope_env(),
        rt,
        move |scope| -> Result<(Y, Vec<X>), AllocError>
            requires { IsSync F.row × IsSend J.row × IsSend X.row × IsSync H.row × IsSend Y.row
                × Accepts (F.pre each.now.f.now) jobs.items × H.pre beside.now.h.now }
            ensures each { IfOk result (λ all. Gives (F.post each.entry.now.f.now) jobs.items all.1.items) }
            ensures beside { IfOk result (λ all. H.post beside.entry.now.h.now all.0) }
        { make_beside(scope, rt, alloc, shared, each, jobs, beside) },
    )
}
