//! Indexers: from a document to a kind of index.
ghost use Rattle.std.specs.Prelude.{◌≡◌, IfOk, map};
ghost use Rattle.std.specs.Result.{result_map_both};
ghost use Rattle.mdb_datum.specs.Datum.{doc_of};
ghost use Rattle.mdb_encode.specs.Indexer.{str, uint, sint};
ghost use Rattle.mdb_encode.specs.Kind.{name_of, width_bytes, scalar_doc};
ghost use Rattle.mdb_encode.specs.Kind.{part_indexer, indexer_of};
ghost use Rattle.mdb_encode.specs.Lawful.{IsFieldName, IsScalar};
ghost use Rattle.mdb_schema.specs.Broken.{needed, each};
ghost use Rattle.mdb_schema.specs.inner.IndexerAnswer.{IsIndexerResult};
ghost use Rattle.mdb_schema.specs.Reading.{width_of, folded_indexer, sized, width_indexer};
ghost use Rattle.mdb_schema.specs.Reading.{equals_indexer, kind_in, single_indexer, part_in};
ghost use Rattle.mdb_schema.specs.Reading.{compound_of, compound_indexer, whole_indexer, indexer_in};
ghost use Rattle.mdb_schema.specs.Shapes.{folded_shape, plain_shape, equals_shape};
ghost use Rattle.mdb_schema.specs.declared.schema_rule.SchemaRule.TheVariants as rule;

use crate::error::IndexerError;
use crate::kind_name::{KindName, kind_named};
use crate::schema_rule::SchemaRule;
use crate::shapes::{
    compound_shape, equals_shape, folded_shape, object_in, plain_shape, text_under, width_shape,
};
use mdb_datum::{Datum, Items, Members, Text};
use mdb_encode::{Field, Kind, Part, Parts, Scalar, Width};
use std::alloc::{AllocError, Global};

/// A width in bytes.
#[tactic(auto, using(crate::proofs::WidthReading::width_found, crate::proofs::WidthReading::no_width))]
fn width_of(number: i128) -> Result<Width, SchemaRule>
    ensures { result_map_both width_bytes (λ r. r) result ≡ width_of number }
{
    let Some(width) = Width::of(number) else {
        return Err(SchemaRule::BadWidth);
    };
    Ok(width)
}

/// The kind of an indexer, and its members.
fn kind_in(document: &Datum) -> Result<(KindName, &Members), SchemaRule>
    ensures { result_map_both (λ p. (p.0, p.1.now)) (λ r. r) result
        ≡ kind_in (doc_of document.now) }
{
    let Some(members) = object_in(document) else {
        return Err(SchemaRule::BadShape);
    };
    let Some(word) = text_under(members, "kind") else {
        return Err(SchemaRule::BadShape);
    };
    let Some(kind) = kind_named(word.as_str()) else {
        return Err(SchemaRule::UnknownKind);
    };
    Ok((kind, members))
}

/// A copy of the name of a member.
fn field_copy(alloc: Global, name: &Text) -> Result<Field, AllocError>
    requires { IsFieldName name.now }
    ensures { IfOk result (λ field. name_of field ≡ name.now) }
{
    let own = Text::of(alloc, name.as_str())?;
    match Field::of(own) {
        Some(field) => Ok(field),
        None => unreachable!(),
    }
}

/// A copy of `field`, and `lowercase`.
fn folded(alloc: Global, members: &Members) -> Result<(Field, bool), IndexerError>
    ensures { IsIndexerResult (λ p. (name_of p.0, p.1))
        (needed rule.BadShape (folded_shape members.now)) result }
{
    let Some((field, lowercase)) = folded_shape(members) else {
        return Err(IndexerError::Broken(SchemaRule::BadShape));
    };
    Ok((field_copy(alloc, field)?, lowercase))
}

/// A copy of `field`, and `width`.
fn sized(alloc: Global, members: &Members) -> Result<(Field, Width), IndexerError>
    ensures { IsIndexerResult (λ p. (name_of p.0, width_bytes p.1)) (sized members.now) result }
{
    let Some((field, number)) = width_shape(members) else {
        return Err(IndexerError::Broken(SchemaRule::BadShape));
    };
    let width = width_of(number)?;
    Ok((field_copy(alloc, field)?, width))
}

/// A copy of `field`.
fn plain(alloc: Global, members: &Members) -> Result<Field, IndexerError>
    ensures { IsIndexerResult name_of
        (needed rule.BadShape (plain_shape members.now)) result }
{
    let Some(field) = plain_shape(members) else {
        return Err(IndexerError::Broken(SchemaRule::BadShape));
    };
    Ok(field_copy(alloc, field)?)
}

/// A copy of a document that is no list and no object.
fn scalar_copy(alloc: Global, document: &Datum) -> Result<Scalar, AllocError>
    requires { IsScalar (doc_of document.now) }
    ensures { IfOk result (λ scalar. scalar_doc scalar ≡ doc_of document.now) }
{
    match document {
        Datum::Nil => Ok(Scalar::Nil),
        Datum::Flag(flag) => Ok(Scalar::Flag(*flag)),
        Datum::Whole(number) => Ok(Scalar::Whole(*number)),
        Datum::Str(text) => Ok(Scalar::Str(Text::of(alloc, text.as_str())?)),
        Datum::Items(_) | Datum::Members(_) => unreachable!(),
    }
}

/// Copies of `field` and `equals`.
fn compared(alloc: Global, members: &Members) -> Result<(Field, Scalar), IndexerError>
    ensures { IsIndexerResult (λ p. (name_of p.0, scalar_doc p.1))
        (needed rule.BadShape (equals_shape members.now)) result }
{
    let Some((field, scalar)) = equals_shape(members) else {
        return Err(IndexerError::Broken(SchemaRule::BadShape));
    };
    Ok((field_copy(alloc, field)?, scalar_copy(alloc, scalar)?))
}

/// An indexer of the kind `text`.
fn text_indexer(alloc: Global, members: &Members) -> Result<Part, IndexerError>
    ensures { IsIndexerResult part_indexer (folded_indexer str members.now) result }
{
    let (field, lowercase) = folded(alloc, members)?;
    Ok(Part::Str { field, lowercase })
}

/// An indexer of the kind `uint`.
fn uint_indexer(alloc: Global, members: &Members) -> Result<Part, IndexerError>
    ensures { IsIndexerResult part_indexer (width_indexer uint members.now) result }
{
    let (field, width) = sized(alloc, members)?;
    Ok(Part::Uint { field, width })
}

/// An indexer of the kind `int`.
fn int_indexer(alloc: Global, members: &Members) -> Result<Part, IndexerError>
    ensures { IsIndexerResult part_indexer (width_indexer sint members.now) result }
{
    let (field, width) = sized(alloc, members)?;
    Ok(Part::Sint { field, width })
}

/// An indexer of the kind `conditional`.
fn conditional_indexer(alloc: Global, members: &Members) -> Result<Part, IndexerError>
    ensures { IsIndexerResult part_indexer (equals_indexer members.now) result }
{
    let (field, scalar) = compared(alloc, members)?;
    Ok(Part::Equals { field, scalar })
}

/// An indexer that may be a part, whose kind is known.
fn single_indexer(alloc: Global, kind: KindName, members: &Members) -> Result<Part, IndexerError>
    ensures { IsIndexerResult part_indexer (single_indexer kind members.now) result }
{
    match kind {
        KindName::Text => text_indexer(alloc, members),
        KindName::Uint => uint_indexer(alloc, members),
        KindName::Int => int_indexer(alloc, members),
        KindName::Bool => Ok(Part::Flag {
            field: plain(alloc, members)?,
        }),
        KindName::Uuid => Ok(Part::Uuid {
            field: plain(alloc, members)?,
        }),
        KindName::FieldSet => Ok(Part::IsSet {
            field: plain(alloc, members)?,
        }),
        KindName::Conditional => conditional_indexer(alloc, members),
        KindName::TextList | KindName::TextMap | KindName::Compound => {
            Err(IndexerError::Broken(SchemaRule::BadPart))
        }
    }
}

/// A part of a compound indexer.
fn part_in(alloc: Global, document: &Datum) -> Result<Part, IndexerError>
    ensures { IsIndexerResult part_indexer (part_in (doc_of document.now)) result }
{
    let (kind, members) = kind_in(document)?;
    single_indexer(alloc, kind, members)
}

/// The parts of a compound indexer, from the left.
fn parts_in(alloc: Global, documents: &Items) -> Result<Vec<Part>, IndexerError>
    ensures { IsIndexerResult (λ parts. map part_indexer parts.items)
        (each part_in documents.now) result }
{
    let mut parts = Vec::new(alloc);
    for at in 0..documents.len() {
        let Some(document) = documents.get(at) else {
            unreachable!();
        };
        match part_in(alloc, document) {
            Ok(part) => parts.push(part)?,
            Err(error) => return Err(error),
        }
    }
    Ok(parts)
}

/// An indexer of these parts, of which there has to be one.
#[tactic(auto, using(crate::proofs::CompoundReading::made, crate::proofs::CompoundReading::none_made, crate::proofs::CompoundReading::refused))]
fn compound_of(alloc: Global, documents: &Items, allow_missing: bool) -> Result<Kind, IndexerError>
    ensures { IsIndexerResult indexer_of (compound_of documents.now allow_missing) result }
{
    let parts = parts_in(alloc, documents)?;
    let Some(parts) = Parts::of(parts) else {
        return Err(IndexerError::Broken(SchemaRule::EmptyCompound));
    };
    Ok(Kind::Compound {
        parts,
        allow_missing,
    })
}

/// An indexer of several parts.
fn compound_indexer(alloc: Global, members: &Members) -> Result<Kind, IndexerError>
    ensures { IsIndexerResult indexer_of (compound_indexer members.now) result }
{
    let Some((documents, allow_missing)) = compound_shape(members) else {
        return Err(IndexerError::Broken(SchemaRule::BadShape));
    };
    compound_of(alloc, documents, allow_missing)
}

/// An indexer whose kind is known.
fn whole_indexer(alloc: Global, kind: KindName, members: &Members) -> Result<Kind, IndexerError>
    ensures { IsIndexerResult indexer_of (whole_indexer kind members.now) result }
{
    match kind {
        KindName::TextList => {
            let (field, lowercase) = folded(alloc, members)?;
            Ok(Kind::StrList { field, lowercase })
        }
        KindName::TextMap => {
            let (field, lowercase) = folded(alloc, members)?;
            Ok(Kind::StrMap { field, lowercase })
        }
        KindName::Compound => compound_indexer(alloc, members),
        _ => Ok(Kind::Part(single_indexer(alloc, kind, members)?)),
    }
}

/// The kind of an indexer, or the first rule that it breaks.
pub(crate) fn read_indexer(alloc: Global, document: &Datum) -> Result<Kind, IndexerError>
    ensures { IsIndexerResult indexer_of (indexer_in (doc_of document.now)) result }
{
    let (kind, members) = kind_in(document)?;
    whole_indexer(alloc, kind, members)
}
