//! The values of a row of an answer.
ghost use Rattle.std.specs.Prelude.{◌≡◌, [], IfErr, IfOk, Ok, map, option_map, string_bytes};
ghost use Rattle.sqlite.specs.Order.{column};
ghost use Rattle.desk_model.specs.Kept.{EachOf};
ghost use Rattle.sql_read.specs.Failures.{IsOfNoDevice, IsOutOfMemory};
ghost use Rattle.sql_read.specs.Spelled.{HasAt, HoldsBlob, HoldsBlobOrNull, HoldsInt, HoldsIntOrNull, HoldsText, HoldsTextOrNull, bytes_in};
ghost use Rattle.sql_read.specs.Spelled.{bytes_or_none, number_in, number_or_none};

use desk_model::{Sequence, Text};
use sqlite::types::{Type, ValueRef};
use sqlite::{Error, Row};
use std::alloc::Global;

// The number in a column.
fn number(row: &Row, at: usize) -> Result<i64, Error>
    ensures read { IfOk result (λ n. n ≡ number_in (column row.now at)) }
    ensures fails { HasAt HoldsInt row.now at → IfErr result IsOutOfMemory }
    ensures kind { IfErr result IsOfNoDevice }
{
    row.get(at)
}

/// The numbers in these columns.
pub(crate) fn numbers<const N: usize>(row: &Row, places: [usize; N]) -> Result<[i64; N], Error>
    ensures read { IfOk result (λ found. found ≡ map (λ at. number_in (column row.now at)) places.entry) }
    ensures fails { EachOf (HasAt HoldsInt row.now) places.entry → IfErr result IsOutOfMemory }
    ensures kind { IfErr result IsOfNoDevice }
{
    let mut found = [0; N];
    for i in 0..N {
        found[i] = number(row, places[i])?;
    }
    Ok(found)
}

// The text in a column, as a `String`.
fn string(row: &Row, at: usize) -> Result<String, Error>
    ensures read { IfOk result (λ t. string_bytes t ≡ bytes_in (column row.now at)) }
    ensures fails { HasAt HoldsText row.now at → IfErr result IsOutOfMemory }
    ensures kind { IfErr result IsOfNoDevice }
{
    row.get(at)
}

// The bytes in a column, as a `Vec`.
fn byte_vec(row: &Row, at: usize) -> Result<Vec<u8>, Error>
    ensures read { IfOk result (λ b. b.items ≡ bytes_in (column row.now at)) }
    ensures fails { HasAt HoldsBlob row.now at → IfErr result IsOutOfMemory }
    ensures kind { IfErr result IsOfNoDevice }
{
    row.get(at)
}

/// The text in a column.
pub(crate) fn text(row: &Row, at: usize) -> Result<Text, Error>
    ensures read { IfOk result (λ t. t ≡ bytes_in (column row.now at)) }
    ensures fails { HasAt HoldsText row.now at → IfErr result IsOutOfMemory }
    ensures kind { IfErr result IsOfNoDevice }
{
    let read = string(row, at)?;
    Ok(Text::new(read))
}

/// The bytes in a column.
pub(crate) fn bytes(row: &Row, at: usize) -> Result<Sequence<u8>, Error>
    ensures read { IfOk result (λ b. b ≡ bytes_in (column row.now at)) }
    ensures fails { HasAt HoldsBlob row.now at → IfErr result IsOutOfMemory }
    ensures kind { IfErr result IsOfNoDevice }
{
    let read = byte_vec(row, at)?;
    Ok(Sequence::new(read))
}

/// The number in a column, or `None` for NULL.
pub(crate) fn number_or_none(row: &Row, at: usize) -> Result<Option<i64>, Error>
    ensures read { IfOk result (λ o. o ≡ number_or_none (column row.now at)) }
    ensures fails { HasAt HoldsIntOrNull row.now at → IfErr result IsOutOfMemory }
    ensures kind { IfErr result IsOfNoDevice }
{
    row.get(at)
}

/// The numbers in these columns, or `None` for NULL.
pub(crate) fn numbers_or_none<const N: usize>(
    row: &Row,
    places: [usize; N],
) -> Result<[Option<i64>; N], Error>
    ensures read { IfOk result (λ found. found ≡ map (λ at. number_or_none (column row.now at)) places.entry) }
    ensures fails { EachOf (HasAt HoldsIntOrNull row.now) places.entry → IfErr result IsOutOfMemory }
    ensures kind { IfErr result IsOfNoDevice }
{
    let mut found = [None; N];
    for i in 0..N {
        found[i] = number_or_none(row, places[i])?;
    }
    Ok(found)
}

// The text in a column, as a `String`, or `None` for NULL.
fn string_or_none(row: &Row, at: usize) -> Result<Option<String>, Error>
    ensures read { IfOk result (λ o. option_map string_bytes o ≡ bytes_or_none (column row.now at)) }
    ensures fails { HasAt HoldsTextOrNull row.now at → IfErr result IsOutOfMemory }
    ensures kind { IfErr result IsOfNoDevice }
{
    row.get(at)
}

// The bytes in a column, as a `Vec`, or `None` for NULL.
fn byte_vec_or_none(row: &Row, at: usize) -> Result<Option<Vec<u8>>, Error>
    ensures read { IfOk result (λ o. option_map (λ b. b.items) o ≡ bytes_or_none (column row.now at)) }
    ensures fails { HasAt HoldsBlobOrNull row.now at → IfErr result IsOutOfMemory }
    ensures kind { IfErr result IsOfNoDevice }
{
    row.get(at)
}

/// The text in a column, or `None` for NULL.
pub(crate) fn text_or_none(row: &Row, at: usize) -> Result<Option<Text>, Error>
    ensures read { IfOk result (λ o. o ≡ bytes_or_none (column row.now at)) }
    ensures fails { HasAt HoldsTextOrNull row.now at → IfErr result IsOutOfMemory }
    ensures kind { IfErr result IsOfNoDevice }
{
    match string_or_none(row, at)? {
        Some(found) => Ok(Some(Text::new(found))),
        None => Ok(None),
    }
}

/// The bytes in a column, or `None` for NULL.
pub(crate) fn bytes_or_none(row: &Row, at: usize) -> Result<Option<Sequence<u8>>, Error>
    ensures read { IfOk result (λ o. o ≡ bytes_or_none (column row.now at)) }
    ensures fails { HasAt HoldsBlobOrNull row.now at → IfErr result IsOutOfMemory }
    ensures kind { IfErr result IsOfNoDevice }
{
    match byte_vec_or_none(row, at)? {
        Some(found) => Ok(Some(Sequence::new(found))),
        None => Ok(None),
    }
}

/// No bytes where a column has some, or `None` for NULL.
pub(crate) fn no_bytes_or_none(
    alloc: Global,
    row: &Row,
    at: usize,
) -> Result<Option<Sequence<u8>>, Error>
    ensures read { IfOk result (λ o. o ≡ option_map (λ _. []) (bytes_or_none (column row.now at))) }
    ensures fails { HasAt HoldsBlobOrNull row.now at → IfErr result IsOutOfMemory }
    ensures kind { IfErr result IsOfNoDevice }
{
    let value = row.get_ref(at)?;
    match value {
        ValueRef::Blob(_) => Ok(Some(Sequence::new(Vec::new(alloc)))),
        ValueRef::Null => Ok(None),
        _ => Err(Error::InvalidColumnType(at, Type::of(value))),
    }
}

/// Two values, where neither fails. It takes both results for the proof: a row that owns several has one exit so, not one for each.
pub(crate) fn both<A: Drop, B: Drop>(
    first: Result<A, Error>,
    second: Result<B, Error>,
) -> Result<(A, B), Error>
    ensures read { IfOk result (λ pair. (first ≡ Ok pair.0) × (second ≡ Ok pair.1)) }
    ensures fails { IfErr first IsOutOfMemory → IfErr second IsOutOfMemory → IfErr result IsOutOfMemory }
    ensures kind { IfErr first IsOfNoDevice → IfErr second IsOfNoDevice → IfErr result IsOfNoDevice }
{
    let first = first?;
    let second = second?;
    Ok((first, second))
}
