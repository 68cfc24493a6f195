//! Work on a thread whose stack is as large as the caller says.
//!
//! `std::thread::join_mut` gives each thread the stack that the host's own limit says, and does work
//! for which no thread can be had behind the rest. Here that limit says nothing, and work for which
//! no thread can be had isn't done at all, so that the caller can tell it.
#![tactic(auto)]

mod task;

ghost use Rattle.std.specs.Prelude.{◌≡◌, IfSome};
ghost use Rattle.deep_thread.specs.Called.{IsCalled};

use crate::task::{Lent, Nothing, Once, beside};
use std::sync::Wait;
use std::thread::Threads;

/// Calls a closure on a new thread, whose stack has at least so many bytes, and gives what it answers.
/// Where the thread can't be had it isn't called.
pub fn call_deep<R: Threads + Wait, F: FnOnce() -> A + Send + Drop, A: Send + Drop>(
    rt: &R,
    stack: usize,
    closure: F,
) -> Option<A>
    requires { F.pre closure }
    ensures { IfSome result (λ a. F.post closure a) }
{
    beside(rt, stack, Once { closure }, Nothing).0
}

/// Calls the first closure on a new thread, whose stack has at least so many bytes, and the second
/// on this one. It answers what they answered, once both are done. Where the thread can't be had
/// neither is called.
pub fn join_deep<R: Threads + Wait, F: FnMut() -> A + Send, G: FnMut() -> B, A: Send + Drop, B>(
    rt: &R,
    stack: usize,
    first: &mut F,
    second: &mut G,
) -> (Option<A>, Option<B>)
    requires first { F.pre first.old }
    requires second { G.pre second.old }
    ensures first { IsCalled F.step first.old result.0 first.new }
    ensures second { IsCalled G.step second.old result.1 second.new }
{
    let ((first, a), (second, b)) = beside(
        rt,
        stack,
        Lent { closure: first },
        Lent { closure: second },
    );
    end_loan(first);
    end_loan(second);
    (a, b)
}

/// Does nothing. It is a use of a reference that was handed back, so that what stands behind it is
/// known where it was lent.
fn end_loan<T>(lent: &mut T)
    ensures { lent.new ≡ lent.old }
{}
