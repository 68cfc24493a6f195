//! Which of some names a text begins with.
ghost use Rattle.std.specs.Prelude.{◌≡◌, Some, slice_get};
ghost use Rattle.run_check.specs.inner.FirstNamed.{FirstWoken, TellsAt};
ghost use Rattle.run_check.specs.declared.watching.Set.{Set};

use crate::behind::behind;
use crate::names::Names;
use crate::watching::Watching;
use mdb_datum::Text;

/// The member of a set that a text tells to have fired: where it stands among the members, its name,
/// and what the text has behind the name.
#[derive(Clone, Copy)]
pub(crate) struct Woken<'a, 't> {
    pub(crate) place: usize,
    pub(crate) name: &'a Text,
    pub(crate) behind: &'t [u8],
}

/// The member of the name at a place, where a text begins with that and ` @`. `member` is where it
/// stands among the members.
fn woken_at<'a, 't>(
    names: &Names<'a>,
    member: usize,
    place: usize,
    text: &'t [u8],
) -> Option<Woken<'a, 't>>
    ensures { TellsAt names.now text.now member place result }
{
    let name = names.at(place)?;
    let rest = behind(name.as_str().as_bytes(), text)?;
    if behind(b" @", rest).is_some() {
        Some(Woken {
            place: member,
            name,
            behind: rest,
        })
    } else {
        None
    }
}

/// The first member whose name stands before ` @` in a text, of those at these places.
fn first_named<'a, 't>(names: &Names<'a>, places: &[usize], text: &'t [u8]) -> Option<Woken<'a, 't>>
    ensures { FirstWoken names.now text.now places.now result }
{
    for k in 0..places.len() {
        if let Some(woken) = woken_at(names, k, places[k], text) {
            return Some(woken);
        }
    }
    None
}

/// The first member of the set at a place whose name stands before ` @` in a text.
pub(crate) fn member_named<'a, 't>(
    watching: &Watching<'a>,
    set: usize,
    text: &'t [u8],
) -> Option<Woken<'a, 't>>
    ensures { (s : Set) → slice_get watching.now.sets.values.items set ≡ Some s
        → FirstWoken watching.now.watches.names text.now s.members.items result }
{
    let found = watching.sets.at(set)?;
    first_named(&watching.watches.names, &found.members, text)
}
