//! The closing lines: where the server is, and what each client has.
ghost use Rattle.std.specs.Prelude.{◌≡◌, ◌++◌, OnOk};
ghost use Rattle.channel_box.specs.States.{states, first, has_id};
ghost use Rattle.box_client.specs.Saving.{settings_saved};
ghost use Rattle.report_lines.specs.Closing.{server_line, client_head, span, lane_lines, channel_line, recent_line, recent_lines, setting_line, setting_lines, settings_lines, own_channels, own_lines};
ghost use Rattle.report_lines.specs.Watched.{EndsInLimit, lines_of};

use crate::events::put_events;
use crate::pieces::{put_hex, put_line_end, put_number, put_text};
use crate::positions::put_group;
use box_client::Client;
use box_events::{Event, Setting, State};
use channel_box::Channels;
use pts_machine::{Lane, Settings};
use tl_base::{Bytes, Memory};

/// Puts the line of the server.
pub fn put_server(lines: &mut Vec<u8>, state: State) -> Result<(), Memory>
    ensures { OnOk result (lines.new.items ≡ lines.old.items ++ server_line state) }
{
    put_text(lines, "server ")?;
    put_group(lines, state.pts, state.qts, state.seq)?;
    put_number(lines, " date ", state.date)?;
    put_line_end(lines)
}

/// Puts the lines of all that the client of this number has.
pub fn put_client(lines: &mut Vec<u8>, number: u32, client: &Client) -> Result<(), Memory>
    ensures { OnOk result (lines.new.items ≡ lines.old.items ++ own_lines number client.now) }
{
    put_lane(lines, number, "common", client.common())?;
    put_lane(lines, number, "secret", client.secret())?;
    put_channels(lines, number, client.channels())?;
    put_settings(lines, number, client.settings())
}

// Begins a line of the client of this number.
fn put_client_head(lines: &mut Vec<u8>, number: u32) -> Result<(), Memory>
    ensures { OnOk result (lines.new.items ≡ lines.old.items ++ client_head number) }
{
    put_number(lines, "client ", number)?;
    put_text(lines, " ")
}

// Puts from where to where a lane goes.
fn put_span(lines: &mut Vec<u8>, lane: &Lane<Event>) -> Result<(), Memory>
    ensures text { OnOk result (lines.new.items ≡ lines.old.items ++ span lane.now.state.restart lane.now.state.at) }
    ensures limit { OnOk result (EndsInLimit lane.now.state) }
{
    put_number(lines, " from ", lane.restart())?;
    put_number(lines, " to ", lane.at())
}

fn put_lane(lines: &mut Vec<u8>, number: u32, name: &str, lane: &Lane<Event>) -> Result<(), Memory>
    ensures { OnOk result (lines.new.items ≡ lines.old.items ++ lane_lines number name.now lane.now.state.restart lane.now.state.at lane.now.state.events) }
{
    put_client_head(lines, number)?;
    put_text(lines, name)?;
    put_span(lines, lane)?;
    put_line_end(lines)?;
    put_events(lines, lane.restart(), lane.events())
}

fn put_channels(lines: &mut Vec<u8>, number: u32, channels: &Channels) -> Result<(), Memory>
    ensures { OnOk result (lines.new.items ≡ lines.old.items ++ own_channels number (states channels.now)) }
{
    for id in channels.ids() {
        put_channel(lines, number, channels, *id)?;
    }
    Ok(())
}

// Puts the lines of a channel that is watched.
fn put_channel(lines: &mut Vec<u8>, number: u32, channels: &Channels, id: i64) -> Result<(), Memory>
    ensures { OnOk result (lines.new.items ≡ lines.old.items ++ lines_of number id (first (has_id id) (states channels.now))) }
{
    match channels.lane(id) {
        Some(lane) => {
            let recent = channels.recent(id);
            put_channel_line(lines, number, id, lane, recent.len())?;
            put_recent(lines, recent)?;
            put_events(lines, lane.restart(), lane.events())
        }
        None => Ok(()),
    }
}

// Puts the line of a channel, with the number of its recent messages.
fn put_channel_line(
    lines: &mut Vec<u8>,
    number: u32,
    id: i64,
    lane: &Lane<Event>,
    recent: usize,
) -> Result<(), Memory>
    ensures text { OnOk result (lines.new.items ≡ lines.old.items ++ channel_line number id lane.now.state.restart lane.now.state.at recent) }
    ensures limit { OnOk result (EndsInLimit lane.now.state) }
{
    put_client_head(lines, number)?;
    put_number(lines, "channel ", id)?;
    put_span(lines, lane)?;
    put_number(lines, " recent ", recent)?;
    put_line_end(lines)
}

fn put_recent(lines: &mut Vec<u8>, bodies: &[Bytes]) -> Result<(), Memory>
    ensures { OnOk result (lines.new.items ≡ lines.old.items ++ recent_lines bodies.now) }
{
    for body in bodies {
        put_body(lines, body.as_slice())?;
    }
    Ok(())
}

fn put_body(lines: &mut Vec<u8>, body: &[u8]) -> Result<(), Memory>
    ensures { OnOk result (lines.new.items ≡ lines.old.items ++ recent_line body.now) }
{
    put_text(lines, "recent ")?;
    put_hex(lines, body)?;
    put_line_end(lines)
}

fn put_settings(lines: &mut Vec<u8>, number: u32, settings: &Settings) -> Result<(), Memory>
    ensures { OnOk result (lines.new.items ≡ lines.old.items ++ settings_lines number settings.now.state.at (settings_saved settings.now.state.table)) }
{
    put_client_head(lines, number)?;
    put_number(lines, "settings seq ", settings.at())?;
    put_line_end(lines)?;
    put_all(lines, settings.all())
}

fn put_all(lines: &mut Vec<u8>, settings: &[Setting]) -> Result<(), Memory>
    ensures { OnOk result (lines.new.items ≡ lines.old.items ++ setting_lines settings.now) }
{
    for setting in settings {
        put_setting(lines, setting)?;
    }
    Ok(())
}

fn put_setting(lines: &mut Vec<u8>, setting: &Setting) -> Result<(), Memory>
    ensures { OnOk result (lines.new.items ≡ lines.old.items ++ setting_line setting.now) }
{
    put_text(lines, "setting ")?;
    put_hex(lines, setting.key.as_slice())?;
    put_text(lines, " ")?;
    put_hex(lines, setting.value.as_slice())?;
    put_line_end(lines)
}
