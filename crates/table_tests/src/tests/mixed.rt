//! A run of writes and questions on a table of ten indexes and on a plain list of rows. Both answer
//! the same, and a refusal is the same one.
use super::drawn::{Random, SCHEMA};
use super::plain::PlainTable;
use super::played::Play;
use super::{Told, Wrong, def_of, none_wrong};
use std::alloc::Global;
use std::test::Fail;

/// What each index of the table lists.
static LISTED: [&str; 10] = [
    "old get age []",
    "old get debt []",
    "old get id []",
    "old get local []",
    "old get meta []",
    "old get place []",
    "old get tagged []",
    "old get tags []",
    "old get up []",
    "old get uuid []",
];

/// A table and a plain list that are written alike, and what is drawn for them.
#[derive(Drop)]
struct Both {
    alloc: Global,
    play: Play,
    plain: PlainTable,
    random: Random,
}

impl Both {
    /// Whether both answer a command the same.
    fn is_told_alike(&mut self, command: &str) -> Told {
        let told = self.play.told(command)?;
        Ok(told == self.plain.told(command)?)
    }

    /// Whether each index lists the same rows in the same order.
    fn are_listed_alike(&mut self) -> Told {
        for command in &LISTED {
            if !self.is_told_alike(command)? {
                return Ok(false);
            }
        }
        Ok(true)
    }

    /// Whether a question of the table is answered alike, by a word before it.
    fn is_asked_alike(&mut self, word: &str, question: &str) -> Told {
        let command = format!(in self.alloc; "{word} {question}")?;
        self.is_told_alike(&command)
    }

    /// Whether a drawn question is answered alike, at once and one row at a time.
    fn is_drawn_alike(&mut self) -> Told {
        let question = self.random.question(self.alloc)?;
        Ok(self.is_asked_alike("old", &question)? && self.is_asked_alike("walk", &question)?)
    }

    /// Whether four of them are.
    fn are_drawn_alike(&mut self) -> Told {
        for _ in 0..4 {
            if !self.is_drawn_alike()? {
                return Ok(false);
            }
        }
        Ok(true)
    }

    /// Whether a drawn write is answered alike.
    fn is_written_alike(&mut self) -> Told {
        let command = self
            .random
            .write(self.alloc, &["delete-all", "delete-prefix"])?;
        self.is_told_alike(&command)
    }

    /// Whether it is, and leaves the same rows, which answer drawn questions alike.
    fn is_step_alike(&mut self) -> Told {
        if !self.is_written_alike()? {
            return Ok(false);
        }
        self.play.stand()?;
        Ok(self.are_listed_alike()? && self.are_drawn_alike()?)
    }

    /// Makes drawn writes in both, and tells the first that is answered otherwise.
    fn run(&mut self, steps: u64) -> Wrong {
        for _ in 0..steps {
            if !self.is_step_alike()? {
                return Ok(Some("another answer"));
            }
        }
        Ok(None)
    }
}

/// What is wrong in a long run, which begins without rows.
fn wrong_run(alloc: Global) -> Wrong {
    let plain = PlainTable::empty(alloc, def_of(alloc, SCHEMA)?);
    let mut both = Both {
        alloc,
        play: Play::new(alloc, SCHEMA)?,
        plain,
        random: Random::from(1),
    };
    both.run(1_500)
}

#[test]
fn a_long_run_is_as_on_a_plain_list(rt: HostRuntime) -> Result<(), Fail> {
    none_wrong(wrong_run(rt.alloc()))
}
