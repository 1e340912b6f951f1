//! The table of rows, as `clap` is told it.
ghost use Rattle.std.specs.Prelude.{◌≡◌, IfOk, map, false};
ghost use Rattle.clap.specs.Words.{app_of};
ghost use Rattle.clap.specs.declared.builder.command.Command.TheViews.{out-Command as fields_of};
ghost use Rattle.commands.specs.CommandLine.{program, row, row_text, rows, table};

use clap::{Arg, Command};
use std::alloc::{AllocError, Global};

/// A row of the usage: a command, and the names of its operands in order.
#[derive(Clone, Copy)]
pub struct Row<'a> {
    pub command: &'a str,
    pub operands: &'a [&'a str],
}

// The rows in the order of the usage, each as far as `clap` reads it: all words of a row but the channels of `client`.
fn rows<'a>() -> &'a [Row<'a>]
    ensures { map row_text result.now ≡ rows }
{
    &[
        Row {
            command: "check",
            operands: &["SCHEMA"],
        },
        Row {
            command: "decode",
            operands: &["SCHEMA", "TYPE", "INPUT"],
        },
        Row {
            command: "encode",
            operands: &["SCHEMA", "TYPE", "INPUT"],
        },
        Row {
            command: "replay",
            operands: &["SCHEMA", "JOURNAL", "CLIENTS"],
        },
        Row {
            command: "make",
            operands: &["SCHEMA", "NUMBER", "STEPS"],
        },
        Row {
            command: "serve",
            operands: &["SCHEMA", "ADDRESS", "SESSIONS"],
        },
        Row {
            command: "post",
            operands: &["SCHEMA", "ADDRESS", "INPUT"],
        },
        Row {
            command: "client",
            operands: &["SCHEMA", "ADDRESS", "STATE"],
        },
        Row {
            command: "layers",
            operands: &["OLD", "NEW", "TYPE"],
        },
        Row {
            command: "calls",
            operands: &["SCHEMA", "INPUT"],
        },
    ]
}

/// The command line of the program: a subcommand for each row.
pub fn table_of<'a>(alloc: Global) -> Result<Command<'a>, AllocError>
    ensures { IfOk result (λ c. app_of c ≡ table) }
{
    let mut program = program_of(alloc);
    for row in rows() {
        program = program.subcommand(row_of(alloc, row.command, row.operands)?)?;
    }
    Ok(program)
}

// The program without its rows.
fn program_of<'a>(alloc: Global) -> Command<'a>
    ensures { app_of result ≡ program }
{
    Command::new(alloc, "tlbox")
        .no_binary_name(true)
        .disable_help_flag(true)
        .disable_help_subcommand(true)
        .disable_version_flag(true)
        .subcommand_required(true)
}

// A command with its operands in order.
fn row_of<'a>(
    alloc: Global,
    command: &'a str,
    operands: &[&'a str],
) -> Result<Command<'a>, AllocError>
    ensures row { IfOk result (λ c. app_of c ≡ row command.now (map (λ s. s.now) operands.now)) }
    ensures local { IfOk result (λ c. (fields_of c).has_globals ≡ false) }
{
    let mut row = Command::new(alloc, command);
    for operand in operands {
        row = row.arg(Arg::new(alloc, operand).required(true))?;
    }
    Ok(row)
}
