//! The lines of a step: its number, what came of it, and its packets.
ghost use Rattle.std.specs.Prelude.{◌≡◌, ◌++◌, OnOk};
ghost use Rattle.box_client.specs.Numbers.{client_numbers};
ghost use Rattle.report_lines.specs.Texts.{step_head, posted_text, again_text, refused_text, date_text, served_text, heard_word, heard_text, ticked_text, woken_text, watch_refusal, watched_text, restarted_text, too_long_text, channel_too_long_text, packet_line};

use crate::heard::HeardAs;
use crate::pieces::{put_hex, put_line_end, put_number, put_text};
use crate::positions::{put_group, put_positions};
use box_client::Client;
use box_events::State;
use box_server::PostFault;
use channel_box::WatchFault;
use tl_base::Memory;

/// Begins the line of a step. What came of it follows, and the line's end.
pub fn put_step_head(lines: &mut Vec<u8>, number: u32) -> Result<(), Memory>
    ensures { OnOk result (lines.new.items ≡ lines.old.items ++ step_head number) }
{
    put_number(lines, "step ", number)?;
    put_text(lines, " ")
}

/// A post was done: where the server is, and the packet of the push.
pub fn put_posted(lines: &mut Vec<u8>, state: State, packet: u32) -> Result<(), Memory>
    ensures { OnOk result (lines.new.items ≡ lines.old.items ++ posted_text state packet) }
{
    put_text(lines, "post ")?;
    put_group(lines, state.pts, state.qts, state.seq)?;
    put_number(lines, " packet ", packet)
}

/// A post came under an id that was known.
pub fn put_again(lines: &mut Vec<u8>) -> Result<(), Memory>
    ensures { OnOk result (lines.new.items ≡ lines.old.items ++ again_text) }
{
    put_text(lines, "post again")
}

/// A post was refused.
pub fn put_refused(lines: &mut Vec<u8>, fault: PostFault) -> Result<(), Memory>
    ensures { OnOk result (lines.new.items ≡ lines.old.items ++ refused_text fault) }
{
    put_text(lines, "post refused ")?;
    put_text(lines, fault.name())
}

/// The server's clock was set.
pub fn put_date(lines: &mut Vec<u8>, date: u32) -> Result<(), Memory>
    ensures { OnOk result (lines.new.items ≡ lines.old.items ++ date_text date) }
{
    put_number(lines, "date ", date)
}

/// A request was answered by a packet.
pub fn put_served(lines: &mut Vec<u8>, packet: u32) -> Result<(), Memory>
    ensures { OnOk result (lines.new.items ≡ lines.old.items ++ served_text packet) }
{
    put_number(lines, "serve packet ", packet)
}

/// The client of this number heard a packet, and is as it is now.
pub fn put_heard(
    lines: &mut Vec<u8>,
    number: u32,
    told: HeardAs,
    client: &Client,
) -> Result<(), Memory>
    ensures { OnOk result (lines.new.items ≡ lines.old.items ++ heard_text number told (client_numbers client.now)) }
{
    put_number(lines, "hear ", number)?;
    put_text(lines, heard_word(told))?;
    put_positions(lines, client)
}

fn heard_word(told: HeardAs) -> &'static str
    ensures { result.now ≡ heard_word told }
{
    match told {
        HeardAs::Push => " push ",
        HeardAs::Reply => " reply ",
        HeardAs::Stale => " stale ",
    }
}

/// The client of this number was asked what is due, and made so many requests.
pub fn put_ticked(lines: &mut Vec<u8>, number: u32, asks: u32) -> Result<(), Memory>
    ensures { OnOk result (lines.new.items ≡ lines.old.items ++ ticked_text number asks) }
{
    put_number(lines, "tick ", number)?;
    put_number(lines, " asks ", asks)
}

/// The client of this number is to ask about all.
pub fn put_woken(lines: &mut Vec<u8>, number: u32) -> Result<(), Memory>
    ensures { OnOk result (lines.new.items ≡ lines.old.items ++ woken_text number) }
{
    put_number(lines, "wake ", number)
}

/// The client of this number watches a channel from now on, or doesn't.
pub fn put_watched(
    lines: &mut Vec<u8>,
    number: u32,
    id: i64,
    refused: Option<WatchFault>,
) -> Result<(), Memory>
    ensures { OnOk result (lines.new.items ≡ lines.old.items ++ watched_text number id refused) }
{
    put_number(lines, "watch ", number)?;
    put_number(lines, " ", id)?;
    put_text(lines, watch_refusal(refused))
}

fn watch_refusal(refused: Option<WatchFault>) -> &'static str
    ensures { result.now ≡ watch_refusal refused }
{
    match refused {
        None => "",
        Some(WatchFault::Already) => " refused Already",
        Some(WatchFault::TooMany) => " refused TooMany",
        Some(WatchFault::Memory) => " refused Memory",
    }
}

/// The client of this number began anew, and is as it is now.
pub fn put_restarted(lines: &mut Vec<u8>, number: u32, client: &Client) -> Result<(), Memory>
    ensures { OnOk result (lines.new.items ≡ lines.old.items ++ restarted_text number (client_numbers client.now)) }
{
    put_number(lines, "restart ", number)?;
    put_text(lines, " ")?;
    put_positions(lines, client)
}

/// A push said that more is new than it would carry.
pub fn put_too_long(lines: &mut Vec<u8>, packet: u32) -> Result<(), Memory>
    ensures { OnOk result (lines.new.items ≡ lines.old.items ++ too_long_text packet) }
{
    put_number(lines, "toolong packet ", packet)
}

/// A push said so of a channel.
pub fn put_channel_too_long(lines: &mut Vec<u8>, packet: u32) -> Result<(), Memory>
    ensures { OnOk result (lines.new.items ≡ lines.old.items ++ channel_too_long_text packet) }
{
    put_number(lines, "channeltoolong packet ", packet)
}

/// Puts the line of a packet.
pub fn put_packet(lines: &mut Vec<u8>, number: u32, bytes: &[u8]) -> Result<(), Memory>
    ensures { OnOk result (lines.new.items ≡ lines.old.items ++ packet_line number bytes.now) }
{
    put_number(lines, "packet ", number)?;
    put_text(lines, " ")?;
    put_hex(lines, bytes)?;
    put_line_end(lines)
}
