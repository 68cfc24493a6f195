//! That texts can be listed.
use mdb_datum::Text;
use run_io::Texts;
use std::alloc::{AllocError, Global};
use std::test::Fail;

/// Adds a copy of a text.
fn add_text(alloc: Global, text: &str, texts: &mut Texts) -> Result<(), AllocError> {
    texts.push(Text::of(alloc, text)?)
}

/// Two texts.
fn two_texts(alloc: Global) -> Result<Texts, AllocError> {
    let mut texts = Texts::new(alloc);
    add_text(alloc, "a", &mut texts)?;
    add_text(alloc, "b", &mut texts)?;
    Ok(texts)
}

/// Whether they are listed in this order, and alone.
fn are_listed(texts: &Texts) -> bool {
    let second = texts.get(1).is_some_and(|text| text.as_str() == "b");
    second && texts.get(2).is_none() && texts.len() == 2
}

/// Whether each text listed has one byte.
fn are_single(texts: &Texts) -> bool {
    texts.iter().all(|text| text.as_str().len() == 1)
}

#[test]
fn texts_are_listed_in_order(rt: HostRuntime) -> Result<(), Fail> {
    let texts = two_texts(rt.alloc())?;
    let listed = are_listed(&texts) && are_single(&texts);
    assert!(rt; listed);
    Ok(())
}
