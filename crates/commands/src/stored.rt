//! The top call of a server whose posts are kept.
ghost use Rattle.std.specs.Prelude.{map, string_bytes};
ghost use Rattle.serve_rooms.specs.Acts.{beside};
ghost use Rattle.commands.specs.Work.{RanStored};

use crate::keep_words::keep_in;
use crate::program::USAGE;
use box_server::Keeper;
use outside::{Host, Status, tell};
use serve_rooms::{KeptStatus, run_kept};
use std::alloc::Global;

/// Runs `keep` over an outside and a keeper: the words without the program's name; the status that it ends with, and the keeper that is left.
pub fn run_stored<H: Host, K: Keeper>(
    alloc: Global,
    words: &[String],
    host: &mut H,
    keeper: K,
) -> (KeptStatus, K)
    ensures { RanStored (map string_bytes words.now) (beside (H.state host.old) (K.state keeper)) (beside (H.state host.new) (K.state result.1)) result.0 }
{
    match keep_in(words) {
        None => {
            let status = tell(host, USAGE, Status::Usage);
            (KeptStatus::Run(status), keeper)
        }
        Some(request) => run_kept(
            alloc,
            host,
            request.schema,
            request.address,
            request.sessions,
            keeper,
        ),
    }
}
