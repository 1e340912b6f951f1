//! Posts that are drawn.
ghost use Rattle.update_replay.specs.Made.{drawn_body, drawn_ids, drawn_message, drawn_delete, drawn_secret, drawn_setting, drawn_post};
ghost use Rattle.update_replay.specs.Making.{Draws};

use crate::generator::Generator;
use box_events::{Ids, Post};
use std::alloc::Global;
use tl_base::{Bytes, Memory};

// A body: a draw in four bytes.
fn draw_body(alloc: Global, from: &mut Generator) -> Result<Bytes, Memory>
    ensures { Draws (drawn_body from.old.number) result from.new.number }
{
    let draw = from.draw();
    Ok(Bytes::from_slice(alloc, &draw.to_le_bytes())?)
}

// So many ids, each a draw.
fn draw_ids(alloc: Global, count: u32, from: &mut Generator) -> Result<Ids, Memory>
    ensures { Draws (drawn_ids count from.old.number) result from.new.number }
{
    let mut ids = Ids::new(alloc);
    for _ in 0..count {
        ids.push(from.draw() as i32)?;
    }
    Ok(ids)
}

fn draw_message(alloc: Global, from: &mut Generator) -> Result<Post, Memory>
    ensures { Draws (drawn_message from.old.number) result from.new.number }
{
    let body = draw_body(alloc, from)?;
    Ok(Post::Message { body })
}

fn draw_delete(alloc: Global, from: &mut Generator) -> Result<Post, Memory>
    ensures { Draws (drawn_delete from.old.number) result from.new.number }
{
    let count = 1 + from.below(3);
    let ids = draw_ids(alloc, count, from)?;
    Ok(Post::Delete { ids })
}

fn draw_secret(alloc: Global, from: &mut Generator) -> Result<Post, Memory>
    ensures { Draws (drawn_secret from.old.number) result from.new.number }
{
    let body = draw_body(alloc, from)?;
    Ok(Post::Secret { body })
}

// A setting, whose key is a letter from a to p.
fn draw_setting(alloc: Global, from: &mut Generator) -> Result<Post, Memory>
    ensures { Draws (drawn_setting from.old.number) result from.new.number }
{
    let letter = 97 + from.below(16) as u8;
    let value = draw_body(alloc, from)?;
    let key = Bytes::from_slice(alloc, &[letter])?;
    Ok(Post::Setting { key, value })
}

/// A message, a delete of one to three ids, a secret message or a setting, as the draws choose.
pub fn draw_post(alloc: Global, from: &mut Generator) -> Result<Post, Memory>
    ensures { Draws (drawn_post from.old.number) result from.new.number }
{
    match from.below(4) {
        0 => draw_message(alloc, from),
        1 => draw_delete(alloc, from),
        2 => draw_secret(alloc, from),
        _ => draw_setting(alloc, from),
    }
}
