//! A gate that puts two lines of scripts in an order, for tests of clients side by side.
use crate::gate::Gate;
use std::hint::spin_loop;
use std::sync::atomic::{AtomicBool, Ordering};

/// How often a held line looks whether it may go on.
const TURNS: u32 = 1 << 28;

/// A line of a client that waits until another client's line is answered. Clients and lines count
/// from 1.
#[derive(Clone, Copy, Debug)]
pub struct Hold {
    /// The client whose line is held.
    pub client: u32,
    /// The line that is held.
    pub line: u32,
    /// The client for which it waits.
    pub until_client: u32,
    /// The line whose answer it waits for.
    pub until_line: u32,
}

/// A hold, and whether the line that it waits for is answered.
#[derive(Drop)]
struct Latch {
    hold: Hold,
    open: AtomicBool,
}

impl Latch {
    /// A latch that is shut.
    fn new(hold: Hold) -> Latch {
        Latch {
            hold,
            open: AtomicBool::new(false),
        }
    }

    /// Opens it, where this is the line that it waits for.
    fn answered(&self, client: u32, line: u32) {
        if self.hold.until_client == client && self.hold.until_line == line {
            self.open.store(true, Ordering::Release);
        }
    }

    /// Waits, where this is the line that is held. False where it gave up.
    fn pass(&self, client: u32, line: u32) -> bool {
        if self.hold.client != client || self.hold.line != line {
            return true;
        }
        for _ in 0..TURNS {
            if self.open.load(Ordering::Acquire) {
                return true;
            }
            spin_loop();
        }
        false
    }
}

/// A gate that holds two lines, each until another line is answered. A line that is held looks at
/// most 2^28 times. Then it goes on all the same, and the gate has expired.
#[derive(Drop)]
pub struct HoldGate {
    first: Latch,
    second: Latch,
    expired: AtomicBool,
}

impl HoldGate {
    /// A gate that holds these lines.
    pub fn new(first: Hold, second: Hold) -> HoldGate {
        HoldGate {
            first: Latch::new(first),
            second: Latch::new(second),
            expired: AtomicBool::new(false),
        }
    }

    /// Whether a line went on before the line that it waited for was answered.
    pub fn expired(&self) -> bool {
        self.expired.load(Ordering::Acquire)
    }
}

impl Gate for HoldGate {
    /// Waits at a line that is held. Where it gives up, the gate has expired.
    fn before(&self, client: u32, line: u32) {
        if !self.first.pass(client, line) || !self.second.pass(client, line) {
            self.expired.store(true, Ordering::Release);
        }
    }

    /// Lets go of a line that waits for this one.
    fn after(&self, client: u32, line: u32) {
        self.first.answered(client, line);
        self.second.answered(client, line);
    }
}
