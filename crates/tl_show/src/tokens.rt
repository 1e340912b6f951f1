//! JSON from its tokens, one value at a time. What isn't common is given up, and left to `serde_json`: text that is no JSON, and a number that isn't
//! whole or is past 64 bits.
ghost use Rattle.std.specs.Prelude.{◌≡◌, ◌<◌, ◌≤◌, ℕ, length, true, false, Some, option_and_then, option_map, IfOk, IfSome, OnOk, IsTrue, ◌==◌, slice_index};
ghost use Rattle.json.specs.Json.{items, value};
ghost use Rattle.serde_json.specs.Data.{Data, no_members, number, put};
ghost use Rattle.serde_json.specs.Find.{as_integer};
ghost use Rattle.serde_json.specs.Read.{converted, number_from, number_of, of_items, of_json};
ghost use Rattle.serde_json.specs.View.{view as data_of, items_view, members_view};
ghost use Rattle.tl_show.specs.inner.Direct.{GoesOnTo};

use crate::fault::FormFault;
use fast_float::Numeral;
use json::{Invalid, Reader, Token};
use serde_json::{Map, Value};
use std::alloc::{AllocError, AllocFailed, Global};

/// It is left to another way of reading.
#[derive(Drop)]
pub struct GivenUp;

impl From<AllocError> for GivenUp {
    fn from(_e: AllocError) -> GivenUp {
        GivenUp
    }
}

impl<T: Drop> From<AllocFailed<T>> for GivenUp {
    fn from(_e: AllocFailed<T>) -> GivenUp {
        GivenUp
    }
}

impl From<Invalid> for GivenUp {
    fn from(_e: Invalid) -> GivenUp {
        GivenUp
    }
}

impl From<FormFault> for GivenUp {
    fn from(_e: FormFault) -> GivenUp {
        GivenUp
    }
}

/// One value, with lists and objects nested no deeper than the number.
#[cycle(tree)]
#[inline(always)]
pub fn tree_of(alloc: Global, reader: &mut Reader<'_>, depth: usize) -> Result<Value, GivenUp>
    ensures ok { IfOk result (λ v. converted of_json (value depth reader.old) ≡ Some (data_of v, reader.new)) }
    ensures shorter { OnOk result (length reader.new < length reader.old) }
{
    let token = reader.next().ok_or(GivenUp)?;
    match token {
        Token::String(text) => Ok(Value::String(String::from_str(alloc, text)?)),
        Token::Number(text) => match whole_number(text) {
            Some(number) => Ok(number),
            None => Err(GivenUp),
        },
        Token::Bool(b) => Ok(Value::Bool(b)),
        Token::Null => Ok(Value::Null),
        Token::EndObject | Token::EndArray | Token::Key(_) | Token::Bad => Err(GivenUp),
        Token::BeginArray => {
            if depth == 0 {
                return Err(GivenUp);
            }
            Ok(Value::Array(items_of(alloc, reader, depth - 1)?))
        }
        Token::BeginObject => {
            if depth == 0 {
                return Err(GivenUp);
            }
            Ok(Value::Object(members_of(alloc, reader, depth - 1)?))
        }
    }
}

// The values of a list, after its bracket.
#[cycle(tree)]
#[inline(never)]
fn items_of(alloc: Global, reader: &mut Reader<'_>, depth: usize) -> Result<Vec<Value>, GivenUp>
    ensures ok { IfOk result (λ v. converted of_items (items (value depth) (length reader.old) reader.old) ≡ Some (items_view v.items, reader.new)) }
    ensures shorter { OnOk result (length reader.new < length reader.old) }
{
    let mut found = Vec::new(alloc);
    'items: while !reader.take_end_array() {
        let item = tree_of(alloc, reader, depth)?;
        found.push(item)?;
    }
    Ok(found)
}

/// The members of an object, after its brace.
#[cycle(tree)]
pub fn members_of(
    alloc: Global,
    reader: &mut Reader<'_>,
    depth: usize,
) -> Result<Map<String, Value>, GivenUp>
    ensures ok { IfOk result (λ m. GoesOnTo depth (length reader.old) reader.old no_members reader.new (members_view m.entries)) }
    ensures shorter { OnOk result (length reader.new < length reader.old) }
{
    let mut found = Map::new(alloc);
    add_members(alloc, reader, depth, &mut found)?;
    Ok(found)
}

/// The members that an object has beside those that were found.
#[cycle(tree)]
#[inline(never)]
pub fn add_members(
    alloc: Global,
    reader: &mut Reader<'_>,
    depth: usize,
    found: &mut Map<String, Value>,
) -> Result<(), GivenUp>
    ensures ok { OnOk result ((n : ℕ) → length reader.old ≤ n → GoesOnTo depth n reader.old (members_view found.old.entries) reader.new (members_view found.new.entries)) }
    ensures shorter { OnOk result (length reader.new < length reader.old) }
{
    'members: while let Some(name) = reader.next_key()? {
        add_member(alloc, reader, depth, name, found)?;
    }
    Ok(())
}

/// The member with a key, after that.
#[cycle(tree)]
#[inline(always)]
pub fn add_member(
    alloc: Global,
    reader: &mut Reader<'_>,
    depth: usize,
    name: &str,
    found: &mut Map<String, Value>,
) -> Result<(), GivenUp>
    ensures ok { OnOk result ((d : Data) × (converted of_json (value depth reader.old) ≡ Some (d, reader.new)) × (members_view found.new.entries ≡ put name.now d (members_view found.old.entries))) }
    ensures shorter { OnOk result (length reader.new < length reader.old) }
{
    let key = String::from_str(alloc, name)?;
    let member = tree_of(alloc, reader, depth)?;
    drop(found.insert(key, member)?);
    Ok(())
}

/// The whole number of at most 64 bits that a token writes.
#[inline(always)]
pub fn whole_number(text: &str) -> Option<Value>
    ensures { IfSome result (λ v. option_map number (number_of text.now) ≡ Some (data_of v)) }
{
    let bytes = text.as_bytes();
    if has_minus(bytes) {
        below_zero(&Numeral::scan(&bytes[1..]))
    } else {
        from_zero(&Numeral::scan(bytes))
    }
}

#[inline(always)]
fn has_minus(bytes: &[u8]) -> bool
    ensures value { result ≡ (slice_index bytes.now 0 == 45) }
    ensures len { IsTrue result → 0 < length bytes.now }
{
    !bytes.is_empty() && bytes[0] == b'-'
}

#[inline(always)]
fn from_zero(numeral: &Numeral<'_>) -> Option<Value>
    ensures { IfSome result (λ v. option_map number (number_from false numeral.now) ≡ Some (data_of v)) }
{
    match numeral.to_u64() {
        Some(whole) => Some(Value::from(whole)),
        None => None,
    }
}

// `-0` is a float.
#[inline(always)]
fn below_zero(numeral: &Numeral<'_>) -> Option<Value>
    ensures { IfSome result (λ v. option_map number (number_from true numeral.now) ≡ Some (data_of v)) }
{
    match numeral.to_i64(true) {
        Some(whole) if whole < 0 => Some(Value::from(whole)),
        _ => None,
    }
}

/// The whole number that a token writes, if an `i64` has it.
#[inline(always)]
pub fn whole_in(text: &str) -> Option<i64>
    ensures { IfSome result (λ n. option_and_then as_integer (number_of text.now) ≡ Some n) }
{
    let bytes = text.as_bytes();
    if has_minus(bytes) {
        whole_below_zero(&Numeral::scan(&bytes[1..]))
    } else {
        whole_from_zero(&Numeral::scan(bytes))
    }
}

#[inline(always)]
fn whole_from_zero(numeral: &Numeral<'_>) -> Option<i64>
    ensures { IfSome result (λ n. option_and_then as_integer (number_from false numeral.now) ≡ Some n) }
{
    numeral.to_i64(false)
}

// `-0` is a float.
#[inline(always)]
fn whole_below_zero(numeral: &Numeral<'_>) -> Option<i64>
    ensures { IfSome result (λ n. option_and_then as_integer (number_from true numeral.now) ≡ Some n) }
{
    match numeral.to_i64(true) {
        Some(whole) if whole < 0 => Some(whole),
        _ => None,
    }
}
