//! The numbers of `make`.
ghost use Rattle.std.specs.Prelude.{◌≡◌, ◌≤◌, IfNone};
ghost use Rattle.std.specs.Char.{is_ascii_digit};
ghost use Rattle.std.specs.List.{list_all};
ghost use Rattle.memdb.specs.Made.{AreInRange};
ghost use Rattle.memdb.specs.Words.{in_range, is_number, number_in};

use std::marker::Model;

/// The number that all is drawn from, how many clients there are, and how many rounds each has,
/// where they are in range.
#[derive(Drop)]
pub struct Numbers {
    number: u32,
    clients: u32,
    count: u32,
}

impl Model for Numbers {
    ghost use Rattle.memdb.specs.Made as made;

    ghost Value = { made.Numbers };

    ghost view = { λ n. record { number = n.number; clients = n.clients; count = n.count } };

    ghost invariant = { λ n.
        made.AreInRange (record { number = n.number; clients = n.clients; count = n.count }) };
}

impl Numbers {
    /// These numbers, where they are in range: `number` is at most 65,536, there are 1 to 64
    /// clients, and 1 to 1,000 rounds.
    pub fn of(number: u32, clients: u32, count: u32) -> Option<Numbers>
        ensures value { result
            ≡ in_range (record { number = number; clients = clients; count = count }) }
        ensures none { IfNone result
            (AreInRange (record { number = number; clients = clients; count = count }) → ⊥) }
    {
        let has_clients = (1..=64).contains(&clients);
        let has_rounds = (1..=1_000).contains(&count);
        if number > 65_536 || !has_clients || !has_rounds {
            return None;
        }
        Some(Numbers {
            number,
            clients,
            count,
        })
    }

    /// They are in range, as a law: the function does nothing.
    pub fn are_in_range(&self)
        ensures { AreInRange self.now }
    {
        let _ = (self.number(), self.clients(), self.count());
    }

    /// The number that all is drawn from.
    pub fn number(&self) -> u32
        ensures number { result ≡ self.now.number }
        ensures small { result ≤ 65536 }
    {
        self.number
    }

    /// How many clients there are.
    pub fn clients(&self) -> u32
        ensures clients { result ≡ self.now.clients }
        ensures some { 1 ≤ result }
        ensures few { result ≤ 64 }
    {
        self.clients
    }

    /// How many rounds each of them has.
    pub fn count(&self) -> u32
        ensures count { result ≡ self.now.count }
        ensures some { 1 ≤ result }
        ensures few { result ≤ 1000 }
    {
        self.count
    }
}

/// The number that 1 to 5 decimal digits write.
pub fn number_in(word: &str) -> Option<u32>
    ensures { result ≡ number_in word.now }
{
    if !is_number(word.as_bytes()) {
        return None;
    }
    word.parse().ok()
}

/// Whether a word is 1 to 5 decimal digits.
fn is_number(word: &[u8]) -> bool
    ensures { result ≡ is_number word.now }
{
    (1..=5).contains(&word.len()) && all_digits(word)
}

/// Whether each byte is a decimal digit.
fn all_digits(bytes: &[u8]) -> bool
    ensures { result ≡ list_all is_ascii_digit bytes.now }
{
    bytes.iter().all(u8::is_ascii_digit)
}
