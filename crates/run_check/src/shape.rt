//! The first test of an output, its shape: each client's replies as they stand in the text.
ghost use Rattle.std.specs.Prelude.{◌≡◌, ◌<◌, ◌≤◌, ◌+◌, ◌-◌, ◌^◌, MatchResult};
ghost use Rattle.std.specs.Prelude.{[], drop, length, option_map, take};
ghost use Rattle.std.specs.Result.{result_map_both};
ghost use Rattle.run_check.specs.Shape.{answer_in, behind_number, is_further, is_heading, is_refusal};
ghost use Rattle.run_check.specs.Shape.{may_answer, shape, take_client, take_replies, take_reply};
ghost use Rattle.run_check.specs.declared.mode.Mode.TheVariants.{Idle};
ghost use Rattle.run_check.specs.inner.Further.{IsBadBehind, IsBadRow, IsBehindAnswer};
ghost use Rattle.run_check.specs.inner.Further.{IsBehindFurther, IsBehindRow, IsBehindRows, IsNoRow};
ghost use Rattle.run_check.specs.Reads.{Reads, clients_of, replies_of};
ghost use Rattle.run_check.specs.Views.{bad_line, place_of, taken_of};

use crate::bad::BadLine;
use crate::behind::{behind, is_two_words};
use crate::cut::start;
use crate::decimal::{behind_number, number_behind};
use crate::form::has_form;
use crate::mode::{Mode, is_other_rule};
use crate::place::Place;
use crate::stop::Stop;
use client_script::{Command, Line, Script, Scripts};
use mdb_datum::Text;
use run_io::Texts;
use std::alloc::{AllocError, Global};

/// A reply as it stands in the text.
#[derive(Clone, Copy)]
pub(crate) struct Printed<'a> {
    /// The number of its first line in the text.
    pub(crate) line: u32,
    /// What stands between `LINE: ` and the line feed of its last line.
    pub(crate) text: &'a [u8],
}

/// A reply, and the place behind it.
type Taken<'a> = (Printed<'a>, Place<'a>);

/// The replies of a client, in order.
pub(crate) type Replies<'a> = Vec<Printed<'a>>;

/// Whether a line is the heading `client K WORD`.
fn is_heading(number: u64, word: &[u8], line: &[u8]) -> bool
    ensures { result ≡ is_heading number word.now line.now }
{
    match behind(b"client ", line) {
        Some(found) => match behind_number(number, found) {
            Some(rest) => is_two_words(b" ", word, rest),
            None => false,
        },
        None => false,
    }
}

/// The answer of `LINE: ANSWER`.
fn answer_in(number: u32, line: &[u8]) -> Option<&[u8]>
    ensures { option_map (λ answer. answer.now) result ≡ answer_in number line.now }
{
    let rest = behind_number(u64::from(number), line)?;
    behind(b": ", rest)
}

/// Whether an answer is a refusal of which the order of the lines says nothing.
fn is_refusal(answer: &[u8]) -> bool
    ensures { result ≡ is_refusal answer.now }
{
    match behind(b"refused ", answer) {
        Some(rule) => is_other_rule(rule),
        None => false,
    }
}

/// Whether a command may be answered so: by the refusal that the order of the lines decides; where
/// that decides none, by another refusal or in a form of its own.
fn may_answer(mode: Mode, command: &Command, answer: &[u8]) -> bool
    ensures { result ≡ may_answer mode command.now answer.now }
{
    match mode.order_rule(command) {
        Some(rule) => is_two_words(b"refused ", rule, answer),
        None => is_refusal(answer) || has_form(command, answer),
    }
}

/// Whether a line is a further one of a reply.
fn is_further(line: &[u8]) -> bool
    ensures { result ≡ is_further line.now }
{
    behind(b"  ", line).is_some()
}

/// The place behind a further line.
fn after_further_line(at: Place<'_>) -> Result<Place<'_>, BadLine>
    ensures { MatchResult result (IsBehindRow at.entry) (IsNoRow at.entry) }
{
    let (line, behind) = at.line()?;
    if is_further(line) {
        Ok(behind)
    } else {
        Err(at.bad())
    }
}

/// The place behind so many further lines.
fn after_rows(count: u64, at: Place<'_>) -> Result<Place<'_>, BadLine>
    ensures { MatchResult result (IsBehindRows count at.entry) (IsBadRow count at.entry) }
{
    let mut place = at;
    for _ in 0..count {
        place = after_further_line(place)?;
    }
    Ok(place)
}

/// The place behind all further lines.
fn after_further(at: Place<'_>) -> Place<'_>
    ensures { IsBehindFurther at.entry result }
{
    let mut place = at;
    while let Ok(behind) = after_further_line(place) {
        place = behind;
    }
    place
}

/// The place behind the further lines of an answer: k after `rows k`, any number of them after
/// `commit @n`, and else none.
fn after_answer<'a>(answer: &[u8], at: Place<'a>) -> Result<Place<'a>, BadLine>
    ensures { MatchResult result
        (IsBehindAnswer answer.now at.entry) (IsBadBehind answer.now at.entry) }
{
    if let Some(count) = number_behind(b"rows ", answer) {
        return after_rows(count, at);
    }
    if number_behind(b"commit @", answer).is_some() {
        return Ok(after_further(at));
    }
    Ok(at)
}

/// What stands behind so many bytes, up to the line feed before so many others.
fn text_between(bytes: &[u8], front: usize, left: usize) -> &[u8]
    requires { front + left < length bytes.now }
    ensures { result.now ≡ take (length bytes.now - front - left - 1) (drop front bytes.now) }
{
    let (_, begun) = bytes.split_at(front);
    let (text, _) = begun.split_at(begun.len() - left - 1);
    text
}

/// The reply to a line, and the place behind it.
fn take_reply<'a>(mode: Mode, line: &Line, at: Place<'a>) -> Result<Taken<'a>, BadLine>
    ensures { result_map_both taken_of bad_line result ≡ take_reply mode line.now (place_of at.entry) }
{
    let (text, second) = at.line()?;
    let Some(answer) = answer_in(line.number, text) else {
        return Err(at.bad());
    };
    if !may_answer(mode, &line.command, answer) {
        return Err(at.bad());
    }
    let behind = after_answer(answer, second)?;
    let front = text.len() - answer.len();
    let printed = Printed {
        line: at.next,
        text: text_between(at.rest, front, behind.rest.len()),
    };
    Ok((printed, behind))
}

/// The place behind the replies to the lines of a script, which it adds to a list that has none.
fn add_replies<'a>(
    script: &Script,
    start: Place<'a>,
    replies: &mut Replies<'a>,
) -> Result<Place<'a>, Stop>
    requires { replies.old.items ≡ [] }
    ensures { Reads (λ place. replies_of (replies.new, place))
        (take_replies Idle script.now (place_of start.entry)) result }
{
    let mut place = start;
    let mut mode = Mode::Idle;
    for at in 0..script.len() {
        let Some(line) = script.get(at) else {
            unreachable!();
        };
        let (printed, behind) = take_reply(mode, line, place)?;
        replies.push(printed)?;
        place = behind;
        mode = mode.after(&line.command);
    }
    Ok(place)
}

/// The replies to the lines of a script, and the place behind them.
fn take_replies<'a>(
    alloc: Global,
    script: &Script,
    start: Place<'a>,
) -> Result<(Replies<'a>, Place<'a>), Stop>
    ensures { Reads replies_of (take_replies Idle script.now (place_of start.entry)) result }
{
    let mut replies = Vec::new(alloc);
    let behind = add_replies(script, start, &mut replies)?;
    Ok((replies, behind))
}

/// The replies of a client behind its heading, and the place behind them.
fn take_client<'a>(
    alloc: Global,
    number: u64,
    word: &Text,
    script: &Script,
    at: Place<'a>,
) -> Result<(Replies<'a>, Place<'a>), Stop>
    ensures { Reads replies_of (take_client number word.now script.now (place_of at.entry)) result }
{
    let (line, behind) = at.line()?;
    if !is_heading(number, word.as_str().as_bytes(), line) {
        return Err(Stop::from(at.bad()));
    }
    take_replies(alloc, script, behind)
}

/// Each client's replies as they stand in the text, or the first line that breaks the shape.
pub(crate) fn shape<'a>(
    alloc: Global,
    words: &Texts,
    scripts: &Scripts,
    out: &'a [u8],
) -> Result<Vec<Replies<'a>>, Stop>
    requires named { length words.now ≡ length scripts.now }
    requires few { length scripts.now ≤ 64 }
    requires small { length out.now ≤ 2 ^ 24 }
    ensures { Reads clients_of (shape words.now scripts.now out.now) result }
{
    let mut clients = Vec::new(alloc);
    let mut place = start(out);
    for at in 0..words.len() {
        let Some(word) = words.get(at) else {
            unreachable!();
        };
        let Some(script) = scripts.get(at) else {
            unreachable!();
        };
        let (replies, behind) = take_client(alloc, at as u64 + 1, word, script, place)?;
        clients.push(replies)?;
        place = behind;
    }
    if place.is_end() {
        Ok(clients)
    } else {
        Err(Stop::from(place.bad()))
    }
}
