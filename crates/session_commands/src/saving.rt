//! What is left of a client: its state file, and the line of its positions.
ghost use Rattle.std.specs.Prelude.{◌≡◌, IfOk};
ghost use Rattle.session_commands.specs.Client.{client_line};
ghost use Rattle.session_commands.specs.inner.Recovering.{LeavesOf};

use box_client::Client;
use box_wire::spell_saved;
use report_lines::{put_line_end, put_positions};
use std::alloc::Global;
use tl_base::{Bytes, Memory};
use wire_profile::Profile;

/// The bytes for State, and the line for Output.
#[derive(Drop)]
pub struct SavedState {
    pub state: Bytes,
    pub line: Vec<u8>,
}

/// What is to be written of a client.
pub fn saved_state(alloc: Global, profile: &Profile, client: &Client) -> Result<SavedState, Memory>
    ensures { IfOk result (LeavesOf profile.now client.now) }
{
    let saved = client.save(alloc)?;
    let state = spell_saved(alloc, profile, &saved)?;
    let line = client_line(alloc, client)?;
    Ok(SavedState { state, line })
}

// The line of a client's positions.
fn client_line(alloc: Global, client: &Client) -> Result<Vec<u8>, Memory>
    ensures { IfOk result (λ line. line.items ≡ client_line client.now) }
{
    let mut line = Vec::new(alloc);
    line.extend_from_slice(b"client ")?;
    put_positions(&mut line, client)?;
    put_line_end(&mut line)?;
    Ok(line)
}
