//! Work that a thread may be given.
ghost use Rattle.std.specs.Prelude.{◌≡◌, IfSome, ⊤};
ghost use Rattle.deep_thread.specs.Called.{IsCalled};

use core::thread::{SpawnError, Stack};
use std::snapshot::Snapshot;
use std::sync::Wait;
use std::sync::atomic::{AtomicBool, Ordering};
use std::thread::{Promise, Scope, Threads, scope, scope_env};

/// Work that is done once, or let be. That a thread takes it is proved for any type of work, and so
/// the closure that is lent stands behind this trait.
pub(crate) trait Task {
    /// What it gives back.
    type Output;

    ghost may_run: { Self → Type 0 };

    ghost gives: { Self → Self.Output → Type 0 };

    /// Does the work, or lets it be.
    fn run(self, called: bool) -> Self::Output
        requires { may_run self }
        ensures { gives self result };
}

/// A closure that is lent.
#[derive(Drop)]
pub(crate) struct Lent<'a, F> {
    /// What a thread may call.
    pub(crate) closure: &'a mut F,
}

impl<'a, F: FnMut() -> A, A> Task for Lent<'a, F> {
    type Output = (&'a mut F, Option<A>);

    ghost may_run = { λ t. F.pre t.closure.now };

    ghost gives = { λ t r. (r.0.ghost_name ≡ t.closure.ghost_name)
        × IsCalled F.step t.closure.now r.1 r.0.now };

    fn run(self, called: bool) -> (&'a mut F, Option<A>) {
        let Lent { closure } = self;
        if called {
            let answer = closure();
            (closure, Some(answer))
        } else {
            (closure, None)
        }
    }
}

/// A closure that is called once.
#[derive(Drop)]
pub(crate) struct Once<F> {
    /// What a thread may call.
    pub(crate) closure: F,
}

impl<F: FnOnce() -> A + Drop, A> Task for Once<F> {
    type Output = Option<A>;

    ghost may_run = { λ t. F.pre t.closure };

    ghost gives = { λ t r. IfSome r (λ a. F.post t.closure a) };

    fn run(self, called: bool) -> Option<A> {
        let Once { closure } = self;
        if called { Some(closure()) } else { None }
    }
}

/// No work.
#[derive(Drop)]
pub(crate) struct Nothing;

impl Task for Nothing {
    type Output = ();

    ghost may_run = { λ _. ⊤ };

    ghost gives = { λ _ _. ⊤ };

    fn run(self, _called: bool) {}
}

/// The promise that a thread gives what the work gives.
#[derive(Drop)]
struct Gives<S>(Snapshot<S>);

impl<S: Task<Output = A>, A> Promise<A> for Gives<S> {
    ghost kept_by = { λ p a. S.gives p.0.value a };
}

/// Does the first on a new thread, whose stack has at least so many bytes, and the second on this
/// one; or lets both be, where the thread can't be had.
pub(crate) fn beside<
    R: Threads + Wait,
    S: Task<Output = A> + Send + Drop,
    T: Task<Output = B> + Drop,
    A: Send + Drop,
    B,
>(rt: &R, stack: usize, first: S, second: T) -> (A, B)
    requires { S.may_run first × T.may_run second }
    ensures { S.gives first result.0 × T.gives second result.1 }
{
    let refused = AtomicBool::new(false);
    let flag = &refused;
    scope(
        scope_env(),
        rt,
        move |threads| -> (A, B)
            requires { S.may_run first × T.may_run second }
            ensures { S.gives first result.0 × T.gives second result.1 }
        { beside_in(threads, rt, stack, flag, first, second) },
    )
}

/// The same, with a thread of the scope. The flag tells the work that is handed back that it is.
fn beside_in<
    's,
    E,
    R: Threads,
    S: Task<Output = A> + Send + Drop + 's,
    T: Task<Output = B>,
    A: Send + Drop + 's,
    B,
>(
    threads: &Scope<'s, E>,
    rt: &R,
    stack: usize,
    refused: &'s AtomicBool,
    first: S,
    second: T,
) -> (A, B)
    requires { S.may_run first × T.may_run second }
    ensures { S.gives first result.0 × T.gives second result.1 }
{
    let promise = Gives(Snapshot::of(&first));
    let work = move || -> A
        requires { S.may_run first }
        ensures { S.gives first result }
    { first.run(!refused.load(Ordering::SeqCst)) };
    match Stack::new()
        .stack_size(stack)
        .spawn_scoped_with(threads, promise, work)
    {
        Ok(thread) => {
            let second = second.run(true);
            (thread.join(rt), second)
        }
        Err(SpawnError { value: work }) => {
            refused.store(true, Ordering::SeqCst);
            (work(), second.run(false))
        }
    }
}
