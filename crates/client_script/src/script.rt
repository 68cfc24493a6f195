//! A script.
ghost use Rattle.std.specs.Prelude.{◌≡◌, length, slice_get, option_copied};
ghost use Rattle.std.specs.Slice.Iter.{iter_rest};

use crate::line::Line;
use std::marker::Model;
use std::slice;

/// The commands of a client's file, seen as a list of lines. It never changes.
#[derive(Drop)]
pub struct Script {
    lines: Vec<Line>,
}

impl Model for Script {
    ghost use Rattle.std.specs.Prelude.{List};
    ghost use Rattle.client_script.specs.declared.line.Line.{Line};
    ghost use Rattle.client_script.specs.Codes.{script_code};

    ghost Value = { List Line };

    ghost coded = { script_code };

    ghost view = { λ s. s.lines.items };
}

impl Script {
    /// A script of these lines.
    pub(crate) fn of(lines: Vec<Line>) -> Script
        ensures { result ≡ lines.items }
    {
        Script { lines }
    }

    /// How many lines have a command.
    pub fn len(&self) -> usize
        ensures { result ≡ length self.now }
    {
        self.lines.len()
    }

    /// The line at a place among those that have a command, counted from 0.
    pub fn get(&self, at: usize) -> Option<&Line>
        ensures { option_copied result ≡ slice_get self.now at }
    {
        self.lines.get(at)
    }

    /// The lines that have a command, in order.
    pub fn iter(&self) -> slice::Iter<'_, Line>
        ensures { iter_rest result ≡ self.now }
    {
        self.lines.iter()
    }
}
