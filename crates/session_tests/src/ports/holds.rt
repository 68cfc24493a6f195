//! Lines that wait for other clients' lines.
use mdb_ports::{Gate, Hold, HoldGate};
use std::hint::spin_loop;
use std::sync::Wait;
use std::sync::atomic::{AtomicBool, Ordering};
use std::test::Fail;
use std::thread::{Threads, join};

/// Client 1 waits at line 2 for line 3 of client 2, which waits at line 2 for line 1 of client 1.
fn crossed() -> HoldGate {
    let first = Hold {
        client: 1,
        line: 2,
        until_client: 2,
        until_line: 3,
    };
    let second = Hold {
        client: 2,
        line: 2,
        until_client: 1,
        until_line: 1,
    };
    HoldGate::new(first, second)
}

/// Passes the first lines of a client.
fn pass(gate: &HoldGate, client: u32, lines: u32) {
    for line in 1..=lines {
        gate.before(client, line);
        gate.after(client, line);
    }
}

/// Passes the lines of both clients, each on a thread of its own.
fn pass_both<R: Threads + Wait + Sync>(rt: &R, gate: &HoldGate) {
    let ((), ()) = join(rt, || pass(gate, 1, 2), || pass(gate, 2, 3));
}

#[test]
fn lines_wait_for_each_other(rt: HostRuntime) -> Result<(), Fail> {
    let gate = crossed();
    pass_both(&rt, &gate);
    assert!(rt; !gate.expired());
    Ok(())
}

#[test]
fn no_line_but_the_held_ones_waits(rt: HostRuntime) -> Result<(), Fail> {
    let gate = crossed();
    pass(&gate, 1, 1);
    pass(&gate, 3, 9);
    assert!(rt; !gate.expired());
    Ok(())
}

/// What the two sides of a held line tell each other.
#[derive(Drop)]
struct Sides {
    /// The line is reached.
    reached: AtomicBool,
    /// The line that it waits for is about to be answered.
    answering: AtomicBool,
}

/// Comes to the held line of client 1. Whether it went on only when the other was being answered.
fn go_on(gate: &HoldGate, sides: &Sides) -> bool {
    sides.reached.store(true, Ordering::Release);
    gate.before(1, 2);
    sides.answering.load(Ordering::Acquire)
}

/// Answers the line that it waits for, a while after the held line was reached.
fn answer_late(gate: &HoldGate, sides: &Sides) {
    for _ in 0..1u32 << 28 {
        if sides.reached.load(Ordering::Acquire) {
            break;
        }
        spin_loop();
    }
    for _ in 0..1u32 << 20 {
        spin_loop();
    }
    sides.answering.store(true, Ordering::Release);
    gate.after(2, 3);
}

/// Whether a line is held until the other is answered, and the gate hasn't expired then.
fn is_held<R: Threads + Wait + Sync>(rt: &R, gate: &HoldGate) -> bool {
    let sides = Sides {
        reached: AtomicBool::new(false),
        answering: AtomicBool::new(false),
    };
    let (held, ()) = join(rt, || go_on(gate, &sides), || answer_late(gate, &sides));
    held && !gate.expired()
}

#[test]
fn a_held_line_goes_on_when_the_other_is_answered(rt: HostRuntime) -> Result<(), Fail> {
    let gate = crossed();
    assert!(rt; is_held(&rt, &gate));
    Ok(())
}

// Nobody answers the line that it waits for.
#[test]
fn a_held_line_goes_on_after_its_time_and_the_gate_has_expired(
    rt: HostRuntime,
) -> Result<(), Fail> {
    let gate = crossed();
    pass(&gate, 1, 2);
    assert!(rt; gate.expired());
    Ok(())
}
