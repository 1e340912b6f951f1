//! tlbox: reads schemas of Telegram's TL language, values that are spelled in them, and journals of updates.
#![tactic(auto)]

ghost use Rattle.std.specs.Prelude.{map, string_bytes};
ghost use Rattle.outside.specs.Steps.{Grows};
ghost use Rattle.real_host.specs.Seen.{ends_of, seen};
ghost use Rattle.serve_rooms.specs.Acts.{beside};
ghost use Rattle.commands.specs.Work.{RanStored};
ghost use Rattle.tlbox.specs.Program.{NamesState, RanProgram};

use box_server::Keeper;
use commands::{KeptStatus, Status, keep_in, run, run_stored};
use outside::tell;
use real_host::{RealHost, hold_streams, words_of};
use sqlite_keeper::{FileKeeper, OpenError, close_keeper, open_keeper};
use std::alloc::Global;
use std::process::ExitCode;

// Tells that memory ran out.
fn tell_memory(host: &mut RealHost) -> u8 {
    tell(host, b"tlbox: memory\n", Status::Memory).code()
}

// State takes its name; where it can't, that is told.
fn name_state(host: &mut RealHost) -> Status
    ensures { Grows (seen host.old) (seen host.new) (λ t. NamesState (ends_of host.new) t result) }
{
    match host.keep_state() {
        Ok(()) => Status::Done,
        Err(_) => tell(host, b"tlbox: write fault\n", Status::WriteFault),
    }
}

// Runs a command other than `keep`. State takes its name where all went well, and is removed else.
fn run_words(alloc: Global, host: &mut RealHost, words: &[String]) -> Status
    ensures { RanProgram (map string_bytes words.now) (seen host.old) (seen host.new) (ends_of host.new) result }
{
    match run(alloc, words, host) {
        Status::Done => name_state(host),
        status => {
            host.discard_state();
            status
        }
    }
}

// Runs `keep` over a keeper, which is left.
fn run_kept<K: Keeper>(
    alloc: Global,
    host: &mut RealHost,
    words: &[String],
    keeper: K,
) -> (KeptStatus, K)
    ensures { RanStored (map string_bytes words.now) (beside (seen host.old) (K.state keeper)) (beside (seen host.new) (K.state result.1)) result.0 }
{
    run_stored(alloc, words, host, keeper)
}

// Runs it over the keeper of its file, if that could be opened.
fn run_keep(
    alloc: Global,
    host: &mut RealHost,
    words: &[String],
    opened: Result<FileKeeper, OpenError>,
) -> u8 {
    match opened {
        Ok(keeper) => {
            let (status, keeper) = run_kept(alloc, host, words, keeper);
            close_keeper(keeper);
            status.code()
        }
        Err(OpenError::Memory) => tell_memory(host),
        Err(OpenError::Fault) => {
            tell(host, b"tlbox: keep fault\n", KeptStatus::KeepFault).code()
        }
    }
}

fn main(rt: HostRuntime) -> ExitCode {
    hold_streams(&rt);
    let alloc = rt.alloc();
    let Some(words) = words_of(&rt) else {
        return ExitCode::from(tell_memory(&mut RealHost::new(rt)));
    };
    let words = words.as_slice();
    // The database is opened only where the words ask for it: a run that ends by its usage makes no file.
    match keep_in(words) {
        None => ExitCode::from(run_words(alloc, &mut RealHost::new(rt), words).code()),
        Some(request) => {
            let opened = open_keeper(&rt, request.file);
            ExitCode::from(run_keep(alloc, &mut RealHost::new(rt), words, opened))
        }
    }
}
