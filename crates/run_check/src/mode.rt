//! What a client has open, and the refusals that this alone decides.
ghost use Rattle.std.specs.Prelude.{◌≡◌, option_map};
ghost use Rattle.std.specs.Str.{bytes_eq};
ghost use Rattle.client_script.specs.declared.command.Command.TheVariants as commands;
ghost use Rattle.run_check.specs.Mode.{is_other_rule, mode_after, needs_any, needs_writes, order_rule};

use client_script::{AskCommand, Command, NameCommand, TransactionCommand, WatchesCommand};

/// What a client has open.
#[derive(Clone, Copy)]
pub(crate) enum Mode {
    /// No transaction.
    Idle,
    /// A read transaction.
    Reads,
    /// A write transaction.
    Writes,
}

impl Mode {
    /// What is open after a line, whatever it was answered.
    pub(crate) fn after(self, command: &Command) -> Mode
        ensures { result ≡ mode_after self command.now }
    {
        match command {
            Command::Transaction(line) => self.after_transaction(line),
            _ => self,
        }
    }

    /// What is open after a line that begins or ends a transaction.
    pub(crate) fn after_transaction(self, line: &TransactionCommand) -> Mode
        ensures { result ≡ mode_after self (commands.Transaction line.now) }
    {
        match (self, line) {
            (Mode::Idle, TransactionCommand::Read) => Mode::Reads,
            (Mode::Idle, TransactionCommand::Write) => Mode::Writes,
            (Mode::Reads, TransactionCommand::End)
            | (Mode::Writes, TransactionCommand::Commit | TransactionCommand::Abort) => Mode::Idle,
            _ => self,
        }
    }

    /// A transaction has to be open.
    fn needs_any(self) -> Option<&'static [u8]>
        ensures { option_map (λ rule. rule.now) result ≡ needs_any self }
    {
        match self {
            Mode::Idle => Some(b"no-transaction"),
            Mode::Reads | Mode::Writes => None,
        }
    }

    /// A write transaction has to be open.
    fn needs_writes(self) -> Option<&'static [u8]>
        ensures { option_map (λ rule. rule.now) result ≡ needs_writes self }
    {
        match self {
            Mode::Idle => Some(b"no-transaction"),
            Mode::Reads => Some(b"read-only"),
            Mode::Writes => None,
        }
    }

    /// The rule that the order of a client's lines breaks at this one.
    pub(crate) fn order_rule(self, command: &Command) -> Option<&'static [u8]>
        ensures { option_map (λ rule. rule.now) result ≡ order_rule self command.now }
    {
        match command {
            Command::Transaction(line) => self.transaction_rule(line),
            Command::Write(_) | Command::Defer { .. } => self.needs_writes(),
            Command::Ask(AskCommand::Question { .. }) => self.needs_any(),
            Command::Ask(AskCommand::InSnapshot { .. }) => None,
            Command::Name(line) => self.name_rule(line),
            Command::Size { .. } => None,
            Command::Watches(line) => self.watches_rule(line),
        }
    }

    /// The same of a line that begins or ends a transaction.
    fn transaction_rule(self, line: &TransactionCommand) -> Option<&'static [u8]>
        ensures { option_map (λ rule. rule.now) result
            ≡ order_rule self (commands.Transaction line.now) }
    {
        match (line, self) {
            (TransactionCommand::Read | TransactionCommand::Write, Mode::Idle)
            | (TransactionCommand::End, Mode::Reads) => None,
            (TransactionCommand::Read | TransactionCommand::Write, _) => Some(b"transaction-open"),
            (TransactionCommand::End, Mode::Idle) => Some(b"no-transaction"),
            (TransactionCommand::End, Mode::Writes) => Some(b"write-open"),
            (TransactionCommand::Commit | TransactionCommand::Abort, _) => self.needs_writes(),
        }
    }

    /// The same of a line that gives a name to a snapshot or a watch.
    fn name_rule(self, line: &NameCommand) -> Option<&'static [u8]>
        ensures { option_map (λ rule. rule.now) result ≡ order_rule self (commands.Name line.now) }
    {
        match line {
            NameCommand::Snapshot { .. } | NameCommand::Watch { .. } => self.needs_any(),
            NameCommand::WatchIn { .. } => None,
        }
    }

    /// The same of a line of watches.
    fn watches_rule(self, line: &WatchesCommand) -> Option<&'static [u8]>
        ensures { option_map (λ rule. rule.now) result ≡ order_rule self (commands.Watches line.now) }
    {
        match (self, line) {
            (
                Mode::Writes,
                WatchesCommand::Check { .. }
                | WatchesCommand::Wait { .. }
                | WatchesCommand::WaitUntil { .. },
            ) => Some(b"write-open"),
            _ => None,
        }
    }
}

/// Whether a rule has this name.
fn is_named(rule: &[u8], name: &[u8]) -> bool
    ensures { result ≡ bytes_eq rule.now name.now }
{
    rule == name
}

/// Whether a rule is none of those of the order, and none that no line of an output breaks.
pub(crate) fn is_other_rule(rule: &[u8]) -> bool
    ensures { result ≡ is_other_rule rule.now }
{
    let is_kept = is_named(rule, b"transaction-open")
        || is_named(rule, b"no-transaction")
        || is_named(rule, b"write-open")
        || is_named(rule, b"read-only")
        || is_named(rule, b"commits-spent")
        || is_named(rule, b"ids-spent")
        || is_named(rule, b"spoiled");
    !is_kept
}
