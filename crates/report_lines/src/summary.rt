//! The summary of a made run.
ghost use Rattle.std.specs.Prelude.{◌≡◌, ◌++◌, OnOk};
ghost use Rattle.box_client.specs.Numbers.{client_numbers};
ghost use Rattle.report_lines.specs.Texts.{made_line, standing_line};

use crate::pieces::{put_line_end, put_number, put_text};
use crate::positions::put_positions;
use box_client::Client;
use tl_base::Memory;

/// Puts the line of how much was made.
pub fn put_made(lines: &mut Vec<u8>, steps: u32, packets: u32, bytes: u32) -> Result<(), Memory>
    ensures { OnOk result (lines.new.items ≡ lines.old.items ++ made_line steps packets bytes) }
{
    put_number(lines, "made ", steps)?;
    put_number(lines, " steps ", packets)?;
    put_number(lines, " packets ", bytes)?;
    put_text(lines, " bytes\n")
}

/// Puts the line of where the client of this number is.
pub fn put_standing(lines: &mut Vec<u8>, number: u32, client: &Client) -> Result<(), Memory>
    ensures { OnOk result (lines.new.items ≡ lines.old.items ++ standing_line number (client_numbers client.now)) }
{
    put_number(lines, "client ", number)?;
    put_text(lines, " ")?;
    put_positions(lines, client)?;
    put_line_end(lines)
}
