//! Where a server and a client are.
ghost use Rattle.std.specs.Prelude.{◌≡◌, ◌++◌, OnOk, map};
ghost use Rattle.channel_box.specs.States.{states, first, has_id};
ghost use Rattle.box_client.specs.Numbers.{client_numbers, channel_numbers};
ghost use Rattle.report_lines.specs.Texts.{positions, channel_positions, client_positions};
ghost use Rattle.report_lines.specs.Watched.{position_of};

use crate::pieces::put_number;
use box_client::Client;
use channel_box::Channels;
use tl_base::Memory;

/// Puts a client's positions, and those of the channels that it watches.
pub fn put_positions(lines: &mut Vec<u8>, client: &Client) -> Result<(), Memory>
    ensures { OnOk result (lines.new.items ≡ lines.old.items ++ client_positions (client_numbers client.now)) }
{
    put_group(
        lines,
        client.common().at(),
        client.secret().at(),
        client.settings().at(),
    )?;
    put_channels(lines, client.channels())
}

/// Puts positions of the common box, of the secret box and of the settings.
pub fn put_group(lines: &mut Vec<u8>, pts: u32, qts: u32, seq: u32) -> Result<(), Memory>
    ensures { OnOk result (lines.new.items ≡ lines.old.items ++ positions pts qts seq) }
{
    put_number(lines, "pts ", pts)?;
    put_number(lines, " qts ", qts)?;
    put_number(lines, " seq ", seq)
}

fn put_channels(lines: &mut Vec<u8>, channels: &Channels) -> Result<(), Memory>
    ensures { OnOk result (lines.new.items ≡ lines.old.items ++ channel_positions (map channel_numbers (states channels.now))) }
{
    for id in channels.ids() {
        put_channel(lines, channels, *id)?;
    }
    Ok(())
}

// Puts the position of a channel that is watched.
fn put_channel(lines: &mut Vec<u8>, channels: &Channels, id: i64) -> Result<(), Memory>
    ensures { OnOk result (lines.new.items ≡ lines.old.items ++ position_of id (first (has_id id) (states channels.now))) }
{
    match channels.lane(id) {
        Some(lane) => {
            put_number(lines, " ch ", id)?;
            put_number(lines, " at ", lane.at())
        }
        None => Ok(()),
    }
}
