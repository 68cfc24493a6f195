//! Lines of writes and questions drawn from a fixed sequence, for a table of ten indexes, one of each
//! kind. Names and values are few, so that rows often replace each other and share keys, and are
//! often refused.
ghost use Rattle.std.specs.Prelude.{◌<◌};

use super::Done;
use rand_core::{Rng, SeedableRng};
use rand_xoshiro::Xoshiro256PlusPlus;
use std::alloc::{AllocError, Global};

pub static SCHEMA: &str = r#"{"memdb":1,"tables":{"t":{"indexes":{
    "age":{"indexer":{"kind":"uint","field":"age","width":1}},
    "debt":{"unique":true,"allow_missing":true,"indexer":{"kind":"int","field":"debt","width":2}},
    "id":{"unique":true,"indexer":{"kind":"text","field":"name","lowercase":true}},
    "local":{"indexer":{"kind":"conditional","field":"dc","equals":"a"}},
    "meta":{"unique":true,"allow_missing":true,"indexer":{"kind":"text_map","field":"meta"}},
    "place":{"unique":true,"indexer":{"kind":"compound","allow_missing":true,"parts":[
        {"kind":"text","field":"dc"},{"kind":"int","field":"rack","width":1}]}},
    "tagged":{"indexer":{"kind":"field_set","field":"tags"}},
    "tags":{"allow_missing":true,"indexer":{"kind":"text_list","field":"tags"}},
    "up":{"allow_missing":true,"indexer":{"kind":"bool","field":"up"}},
    "uuid":{"unique":true,"allow_missing":true,"indexer":{"kind":"uuid","field":"uuid"}}}}}}"#;

/// Texts to draw from, with blanks between them.
type Texts = &'static str;

/// The members of a row, each with its values; `-` leaves the member out.
static MEMBERS: [(&str, Texts); 9] = [
    (
        "name",
        r#""a" "b" "B" "c" "ab" "ba" "abc" "aB" "a\u0000" "a\u0000b" "a\u0000a" "\u0000"
        "bb" "cc" "ca" "d" "dd" "da" "e" "" 7 -"#,
    ),
    ("age", "0 1 2 0 1 2 97 98 255 1 2 0 - 256 true"),
    (
        "debt",
        "- - - - null -1 0 1 -32768 32767 300 -300 2 3 32768",
    ),
    ("dc", r#""a" "a" "b" "c" "a\u0000" "d" "" -"#),
    ("rack", "-128 -2 0 1 5 127 2 - null"),
    (
        "meta",
        r#"- - - - - - - null {} {"a":"x"} {"a":"y"} {"b":"","a":"z"} {"":"x"}
        {"ab":"x","b":"x"} {"a":1}"#,
    ),
    (
        "tags",
        r#"- null [] ["a"] ["b"] ["a","b"] ["b","a","b"] ["","c"] ["a\u0000","a"]
        ["ab","a","ab"] [""] ["c"] ["a\u0000b"] ["a",1]"#,
    ),
    ("up", "true false true false - null true false 0"),
    (
        "uuid",
        r#"- - - - null "" "12345678-9abc-def0-1234-56789abcdef0"
        "12345678-9ABC-DEF0-1234-56789ABCDEF1" "12340000-0000-0000-0000-000000000000"
        "ffffffff-ffff-ffff-ffff-ffffffffffff" "00000000-0000-0000-0000-000000000000"
        "12""#,
    ),
];

/// The indexes, and a name of none, each with its prefix form's name and with arguments.
static INDEXES: [(&str, &str, Texts); 11] = [
    (
        "age",
        "age_prefix",
        "[] [0] [1] [2] [97] [255] [256] [true]",
    ),
    (
        "debt",
        "debt_prefix",
        "[] [-1] [0] [2] [300] [-32768] [32767] [32768] [null]",
    ),
    (
        "id",
        "id_prefix",
        r#"[] ["a"] ["B"] ["ab"] [""] ["a\u0000"] ["a\u0000b"] ["a\u0000b\u0000"] ["d"]
        ["abcd"] [1] ["a","b"]"#,
    ),
    ("local", "local_prefix", "[] [true] [false] [0]"),
    (
        "meta",
        "meta_prefix",
        r#"[] ["a"] ["a","x"] ["b",""] ["ab"] [""] ["a","x","y"] ["a",1]"#,
    ),
    ("none", "none_prefix", "[] [1]"),
    (
        "place",
        "place_prefix",
        r#"[] ["a",1] ["a",-2] ["b",127] ["a\u0000",0] ["a"] ["c"] [""] ["a",128] [1]
        ["a",1,1]"#,
    ),
    ("tagged", "tagged_prefix", "[] [true] [false] [null]"),
    (
        "tags",
        "tags_prefix",
        r#"[] ["a"] ["b"] ["ab"] ["c"] ["a\u0000"] [""] [false]"#,
    ),
    ("up", "up_prefix", "[] [true] [false] [1]"),
    (
        "uuid",
        "uuid_prefix",
        r#"[] ["12345678-9abc-def0-1234-56789abcdef0"] ["1"] ["12"] ["12-34"] ["ff"] [""]
        ["00000000-0000-0000-0000-000000000000"] [1]"#,
    ),
];

/// The words of questions.
static ASKS: [&str; 7] = [
    "first",
    "last",
    "get",
    "get-reverse",
    "lower",
    "reverse-lower",
    "longest",
];

/// Drawn numbers, the same in each run.
#[derive(Drop)]
pub struct Random(Xoshiro256PlusPlus);

impl Random {
    /// The numbers of a seed.
    pub fn from(seed: u64) -> Random {
        Random(Xoshiro256PlusPlus::seed_from_u64(seed))
    }

    /// A number below a bound.
    fn below(&mut self, bound: u64) -> u64
        requires { 0 < bound }
        ensures { result < bound }
    {
        self.0.next_u64() % bound
    }

    /// One of some texts.
    fn text(&mut self, texts: Texts) -> &'static str {
        let count = texts.split_whitespace().count() as u64;
        if count == 0 {
            return "-";
        }
        let at = self.below(count) as usize;
        texts.split_whitespace().nth(at).unwrap_or("-")
    }

    /// Adds the members of a row, and the end of its text.
    fn add_members(&mut self, text: &mut String) -> Done {
        for (name, values) in &MEMBERS {
            add_member(text, name, self.text(values))?;
        }
        text.push('}')
    }

    /// The write of a row, by a word with a blank behind it. Not each row is one that the table takes.
    fn row_line(&mut self, alloc: Global, word: &str) -> Result<String, AllocError> {
        let mut text = format!(in alloc; "{word}{{\"kept\":1")?;
        self.add_members(&mut text)?;
        Ok(text)
    }

    /// A wipe or a question of this word. Not each of them keeps the rules.
    fn listed(&mut self, alloc: Global, word: &str) -> Result<String, AllocError> {
        let (index, prefix, args) = &INDEXES[self.below(11) as usize];
        let args = self.text(args);
        let name = if self.below(3) == 0 { prefix } else { index };
        format!(in alloc; "{word} {name} {args}")
    }

    /// A question.
    pub fn question(&mut self, alloc: Global) -> Result<String, AllocError> {
        let word = ASKS[self.below(7) as usize];
        self.listed(alloc, word)
    }

    /// A write, most often a put; a wipe has one of two words.
    pub fn write(&mut self, alloc: Global, wipes: &[&str; 2]) -> Result<String, AllocError> {
        match self.below(24) {
            0 => self.listed(alloc, wipes[0]),
            1 => self.listed(alloc, wipes[1]),
            2..=4 => self.row_line(alloc, "delete "),
            _ => self.row_line(alloc, "insert "),
        }
    }
}

/// Adds a member to the text of a row, but for `-`.
fn add_member(text: &mut String, name: &str, value: &str) -> Done {
    if value == "-" {
        Ok(())
    } else {
        Ok(write!(text, ",\"{name}\":{value}")?)
    }
}
