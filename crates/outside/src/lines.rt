//! Lines of refusals.
ghost use Rattle.std.specs.Prelude.{◌≡◌, IfOk};
ghost use Rattle.outside.specs.Answer.{decl_line, placed_line, unplaced_line};

use std::alloc::{AllocError, Global};

/// The line of what is refused at an offset.
pub fn placed_line(alloc: Global, what: &str, place: u64, why: &str) -> Result<Vec<u8>, AllocError>
    ensures { IfOk result (λ line. line.items ≡ placed_line what.now place why.now) }
{
    let mut line = format!(in alloc; "tlbox: {what} {place} ")?;
    line.push_str(why)?;
    line.push_str("\n")?;
    Ok(line.into_bytes())
}

/// The line of what is refused for a cause without an offset.
pub fn unplaced_line(alloc: Global, what: &str, why: &str) -> Result<Vec<u8>, AllocError>
    ensures { IfOk result (λ line. line.items ≡ unplaced_line what.now why.now) }
{
    let line = format!(in alloc; "tlbox: {what} - {why}\n")?;
    Ok(line.into_bytes())
}

/// The line of a declaration that is refused: its number, counted from 0, and the cause.
pub fn decl_line(alloc: Global, what: &str, decl: u32, why: &str) -> Result<Vec<u8>, AllocError>
    ensures { IfOk result (λ line. line.items ≡ decl_line what.now decl why.now) }
{
    let mut line = format!(in alloc; "tlbox: {what} decl {decl} ")?;
    line.push_str(why)?;
    line.push_str("\n")?;
    Ok(line.into_bytes())
}
