//! A list of scripts.
ghost use Rattle.std.specs.Prelude.{◌≡◌, ◌++◌, ◌∷◌, [], length, is_ok, if◌then◌else◌};
ghost use Rattle.std.specs.Prelude.{option_to_list, slice_get, option_copied};

use crate::script::Script;
use std::alloc::{AllocError, Global};
use std::collections::VecDeque;
use std::marker::Model;

/// Scripts, in the order in which they were added, of which the first may be taken out.
#[derive(Drop)]
pub struct Scripts {
    scripts: VecDeque<Script>,
}

impl Model for Scripts {
    ghost use Rattle.std.specs.Prelude.{List};
    ghost use Rattle.client_script.specs.declared.line.Line.{Line};
    ghost use Rattle.client_script.specs.Codes.{scripts_code};

    ghost Value = { List (List Line) };

    ghost coded = { scripts_code };

    ghost view = { λ s. s.scripts.items };
}

impl Scripts {
    /// No scripts. It takes no memory.
    pub fn new(alloc: Global) -> Scripts
        ensures { result ≡ [] }
    {
        Scripts {
            scripts: VecDeque::new(alloc),
        }
    }

    /// How many there are.
    pub fn len(&self) -> usize
        ensures { result ≡ length self.now }
    {
        self.scripts.len()
    }

    /// Adds a script at the end. After `AllocError` the list is unchanged.
    pub fn push(&mut self, script: Script) -> Result<(), AllocError>
        ensures { self.new ≡ (if is_ok result then self.old ++ script ∷ [] else self.old) }
    {
        self.scripts.push_back(script)?;
        Ok(())
    }

    /// The script at a place, counted from 0.
    pub fn get(&self, at: usize) -> Option<&Script>
        ensures { option_copied result ≡ slice_get self.now at }
    {
        self.scripts.get(at)
    }

    /// Takes out the first script. It takes no memory.
    pub fn take(&mut self) -> Option<Script>
        ensures first { result ≡ slice_get self.old 0 }
        ensures rest { self.old ≡ option_to_list result ++ self.new }
    {
        self.scripts.pop_front()
    }
}
