//! Lines that are read for each number of a range.
use crate::fault::CaseFault;
use crate::words::number_of;
use std::alloc::Global;

/// The lines of a block, and its numbers.
#[derive(Drop)]
pub struct Block {
    /// The line that begins it.
    pub line: u64,
    /// The first number, and the one after the last.
    pub first: u32,
    pub end: u32,
    pub lines: Vec<String>,
}

impl Block {
    /// A block without lines, over a range: `0..16`.
    pub fn new(alloc: Global, line: u64, range: &str) -> Result<Block, CaseFault> {
        let Some((first, end)) = range.split_once("..") else {
            return Err(CaseFault::NoRange);
        };
        Ok(Block {
            line,
            first: number_of(first)?,
            end: number_of(end)?,
            lines: Vec::new(alloc),
        })
    }

    pub fn put(&mut self, alloc: Global, line: &str) -> Result<(), CaseFault> {
        self.lines.push(String::from_str(alloc, line)?)?;
        Ok(())
    }
}

// The number that stands so far from another, or is so many times as large: `+3`, `-3`, `*3` or nothing.
fn moved(number: u32, by: &str) -> Result<u32, CaseFault> {
    if by.is_empty() {
        return Ok(number);
    }
    if let Some(more) = by.strip_prefix('+') {
        return number
            .checked_add(number_of(more)?)
            .ok_or(CaseFault::NoForm);
    }
    if let Some(times) = by.strip_prefix('*') {
        return number
            .checked_mul(number_of(times)?)
            .ok_or(CaseFault::NoForm);
    }
    match by.strip_prefix('-') {
        Some(less) => number
            .checked_sub(number_of(less)?)
            .ok_or(CaseFault::NoForm),
        None => Err(CaseFault::NoForm),
    }
}

// Appends a number in a form, as it stands between `{n` and `}`.
fn put_number(alloc: Global, text: &mut String, number: u32, form: &str) -> Result<(), CaseFault> {
    let (by, how) = match form.split_once(':') {
        Some(parts) => parts,
        None => (form, ""),
    };
    let number = moved(number, by)?;
    match how {
        "" => text.push_str(&format!(in alloc; "{number}")?)?,
        "x" => text.push_str(&hex::encode(alloc, &number.to_be_bytes())?)?,
        "le" => text.push_str(&hex::encode(alloc, &number.to_le_bytes())?)?,
        _ => return Err(CaseFault::NoForm),
    }
    Ok(())
}

// Appends what stands after `{n`.
fn put_rest(alloc: Global, text: &mut String, number: u32, rest: &str) -> Result<(), CaseFault> {
    let Some((form, plain)) = rest.split_once('}') else {
        return Err(CaseFault::NoForm);
    };
    put_number(alloc, text, number, form)?;
    text.push_str(plain)?;
    Ok(())
}

/// A line of a block for one of its numbers.
pub fn line_at(alloc: Global, line: &str, number: u32) -> Result<String, CaseFault> {
    let mut text = String::new(alloc);
    let mut pieces = line.split("{n");
    if let Some(plain) = pieces.next() {
        text.push_str(plain)?;
    }
    for rest in pieces {
        put_rest(alloc, &mut text, number, rest)?;
    }
    Ok(text)
}
