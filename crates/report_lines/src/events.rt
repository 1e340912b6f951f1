//! The lines of events.
ghost use Rattle.std.specs.Prelude.{◌≡◌, ◌++◌, ◌+◌, ◌≤◌, OnOk};
ghost use Rattle.box_events.specs.Boxes.{ending};
ghost use Rattle.hex.specs.Hex.{encode_lower};
ghost use Rattle.report_lines.specs.Closing.{ids_bytes, event_bytes, event_word, event_line, event_lines};

use crate::pieces::{put_hex, put_line_end, put_number, put_text};
use box_events::{Event, EventKind, MAX_END};
use tl_base::Memory;

/// Puts the lines of the events that stand after the number `restart`.
pub fn put_events(lines: &mut Vec<u8>, restart: u32, events: &[Event]) -> Result<(), Memory>
    requires limit { restart + ending events.now ≤ MAX_END }
    ensures { OnOk result (lines.new.items ≡ lines.old.items ++ event_lines restart events.now) }
{
    let mut end = restart;
    for event in events {
        end += event.count();
        put_event(lines, end, event)?;
    }
    Ok(())
}

// Puts the line of an event that ends at the number `end`.
fn put_event(lines: &mut Vec<u8>, end: u32, event: &Event) -> Result<(), Memory>
    ensures { OnOk result (lines.new.items ≡ lines.old.items ++ event_line end event.now) }
{
    put_number(lines, event_word(event), end)?;
    put_text(lines, " ")?;
    put_event_bytes(lines, event)?;
    put_line_end(lines)
}

fn event_word(event: &Event) -> &'static str
    ensures { result.now ≡ event_word event.now }
{
    match event.kind() {
        EventKind::New => "new ",
        EventKind::Edit => "edit ",
        EventKind::Delete => "delete ",
        EventKind::Read { .. } => "read ",
    }
}

// Puts the body of a message or of an edit, the ids of a delete, or the id of a read mark.
fn put_event_bytes(lines: &mut Vec<u8>, event: &Event) -> Result<(), Memory>
    ensures { OnOk result (lines.new.items ≡ lines.old.items ++ encode_lower (event_bytes event.now)) }
{
    match event.kind() {
        EventKind::New | EventKind::Edit => put_hex(lines, event.body()),
        EventKind::Delete => put_ids(lines, event.ids()),
        EventKind::Read { max_id } => put_hex(lines, &max_id.to_le_bytes()),
    }
}

fn put_ids(lines: &mut Vec<u8>, ids: &[i32]) -> Result<(), Memory>
    ensures { OnOk result (lines.new.items ≡ lines.old.items ++ encode_lower (ids_bytes ids.now)) }
{
    for id in ids {
        put_hex(lines, &id.to_le_bytes())?;
    }
    Ok(())
}
