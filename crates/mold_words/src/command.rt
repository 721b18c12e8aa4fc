//! Builds the `clap` command of the program from the table.
ghost use Rattle.std.specs.Prelude.{◌≡◌, [], IfOk, Some, false, fold, map};
ghost use Rattle.clap.specs.Words.{app_of, new_rule, rule_of};
ghost use Rattle.clap.specs.declared.builder.Command.TheViews.{out-Command as fields_of};
ghost use Rattle.mold_words.specs.Words.{bare_app, check_command, close_command, command_app, commands, dump_command};
ghost use Rattle.mold_words.specs.Words.{extract_command, feed_command, listen_command, loop_command, mold_app};
ghost use Rattle.mold_words.specs.Words.{pack_command, publish_command, receive_command, rule_for, serve_command};
ghost use Rattle.mold_words.specs.Words.{sessions_command, show_command, sim_command, upgrade_command, with_command};
ghost use Rattle.mold_words.specs.Words.{with_option};
ghost use Rattle.mold_words.specs.Table.{command_of, option_of};

use crate::table::{
    CHECK, CLOSE, CommandRow, DUMP, EXTRACT, FEED, Kind, LISTEN, LOOP, OptionRow, PACK, PUBLISH,
    RECEIVE, SERVE, SESSIONS, SHOW, SIM, UPGRADE, value_name,
};
use clap::{Arg, ArgAction, Command};
use std::alloc::{AllocError, Global};

/// The version of the program, which is also that of the library.
pub const VERSION: &str = "0.3.0";

const ABOUT: &str = "Publish, serve, receive and check MoldUDP64 sessions";

const WITHOUT_COMMAND: &str = "Without a command, show is run.";

// Returns what `clap` does with an option of this kind.
fn action_of(kind: Kind) -> ArgAction
    ensures { Some result ≡ (rule_for [] kind).action }
{
    match kind {
        Kind::Flag => ArgAction::SetTrue,
        Kind::Repeated | Kind::RequiredRepeated => ArgAction::Append,
        Kind::Optional | Kind::Required | Kind::Word => ArgAction::Set,
    }
}

// Whether an option of this kind must be given.
fn is_required(kind: Kind) -> bool
    ensures { result ≡ (rule_for [] kind).required }
{
    matches!(kind, Kind::Required | Kind::RequiredRepeated)
}

// Returns the `clap` argument of an option, without the text by which it is given and the name of its value.
fn plain_argument<'a>(alloc: Global, option: OptionRow) -> Arg<'a>
    ensures rule { rule_of result ≡ record (new_rule option.name.now) {
      action = (rule_for [] option.kind).action;
      required = (rule_for [] option.kind).required;
    } }
    ensures local { result.global ≡ false }
{
    Arg::new(alloc, option.name)
        .help(option.help)
        .action(action_of(option.kind))
        .required(is_required(option.kind))
}

// Returns the `clap` argument of an option. `clap` reads each value as text.
fn argument_of<'a>(alloc: Global, option: OptionRow) -> Arg<'a>
    ensures rule { rule_of result ≡ rule_for option.name.now option.kind }
    ensures local { result.global ≡ false }
{
    let argument = plain_argument(alloc, option);
    match option.kind {
        Kind::Flag => argument.long(option.name),
        Kind::Word => argument.value_name(value_name(option.name)),
        _ => argument
            .long(option.name)
            .value_name(value_name(option.name)),
    }
}

// Adds an option to a command.
fn with_option<'a>(
    alloc: Global,
    command: Command<'a>,
    option: OptionRow,
) -> Result<Command<'a>, AllocError>
    requires { (fields_of command).has_globals ≡ false }
    ensures app { IfOk result (λ c. app_of c ≡ with_option (app_of command.entry) (option_of option)) }
    ensures local { IfOk result (λ c. (fields_of c).has_globals ≡ false) }
{
    command.arg(argument_of(alloc, option))
}

// Returns the command of a row.
fn command_from<'a>(alloc: Global, row: CommandRow) -> Result<Command<'a>, AllocError>
    ensures app { IfOk result (λ c. app_of c ≡ command_app (command_of row)) }
    ensures local { IfOk result (λ c. (fields_of c).has_globals ≡ false) }
{
    let mut command = Command::new(alloc, row.name)
        .about(row.about)
        .after_help(row.example);
    for option in row.options {
        command = with_option(alloc, command, *option)?;
    }
    Ok(command)
}

// Returns the program without commands.
fn bare_command<'a>(alloc: Global) -> Result<Command<'a>, AllocError>
    ensures { IfOk result (λ c. app_of c ≡ bare_app) }
{
    Command::new(alloc, "mold")
        .no_binary_name(true)
        .version(VERSION)
        .about(ABOUT)
        .after_help(WITHOUT_COMMAND)
        .bin_name("mold")
}

// Adds the command of each row to the program.
fn with_commands<'a>(
    alloc: Global,
    program: Command<'a>,
    rows: &[CommandRow],
) -> Result<Command<'a>, AllocError>
    ensures { IfOk result (λ c. app_of c
        ≡ fold with_command (app_of program.entry) (map command_of rows.now)) }
{
    let mut program = program;
    for row in rows {
        let command = command_from(alloc, *row)?;
        program = program.subcommand(command)?;
    }
    Ok(program)
}

// Each of the functions that follow returns a row of the table.

fn show_row() -> CommandRow
    ensures { command_of result ≡ show_command }
{
    SHOW
}

fn pack_row() -> CommandRow
    ensures { command_of result ≡ pack_command }
{
    PACK
}

fn sim_row() -> CommandRow
    ensures { command_of result ≡ sim_command }
{
    SIM
}

fn check_row() -> CommandRow
    ensures { command_of result ≡ check_command }
{
    CHECK
}

fn extract_row() -> CommandRow
    ensures { command_of result ≡ extract_command }
{
    EXTRACT
}

fn sessions_row() -> CommandRow
    ensures { command_of result ≡ sessions_command }
{
    SESSIONS
}

fn publish_row() -> CommandRow
    ensures { command_of result ≡ publish_command }
{
    PUBLISH
}

fn feed_row() -> CommandRow
    ensures { command_of result ≡ feed_command }
{
    FEED
}

fn serve_row() -> CommandRow
    ensures { command_of result ≡ serve_command }
{
    SERVE
}

fn listen_row() -> CommandRow
    ensures { command_of result ≡ listen_command }
{
    LISTEN
}

fn receive_row() -> CommandRow
    ensures { command_of result ≡ receive_command }
{
    RECEIVE
}

fn loop_row() -> CommandRow
    ensures { command_of result ≡ loop_command }
{
    LOOP
}

fn upgrade_row() -> CommandRow
    ensures { command_of result ≡ upgrade_command }
{
    UPGRADE
}

fn close_row() -> CommandRow
    ensures { command_of result ≡ close_command }
{
    CLOSE
}

fn dump_row() -> CommandRow
    ensures { command_of result ≡ dump_command }
{
    DUMP
}

// Returns the rows of the table.
fn command_rows() -> [CommandRow; 15]
    ensures { map command_of result ≡ commands }
{
    [
        show_row(),
        pack_row(),
        sim_row(),
        check_row(),
        extract_row(),
        sessions_row(),
        publish_row(),
        feed_row(),
        serve_row(),
        listen_row(),
        receive_row(),
        loop_row(),
        upgrade_row(),
        close_row(),
        dump_row(),
    ]
}

/// Returns the program with its commands and options. It fails only if an allocation fails.
pub(crate) fn mold_command<'a>(alloc: Global) -> Result<Command<'a>, AllocError>
    ensures { IfOk result (λ c. app_of c ≡ mold_app) }
{
    let program = bare_command(alloc)?;
    with_commands(alloc, program, &command_rows())
}
