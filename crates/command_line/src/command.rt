//! The commands of the program, built with clap.
ghost use Rattle.std.specs.Prelude.{◌≡◌, IfOk, false, map};
ghost use Rattle.clap.specs.Words.{app_of, rule_of};
ghost use Rattle.clap.specs.declared.builder.command.Command.TheViews.{out-Command as fields_of};
ghost use Rattle.command_line.specs.Arguments.{action_of_form, app_for, bare_app, is_required_form, rule_for};
ghost use Rattle.command_line.specs.Arguments.{with_subcommands};
ghost use Rattle.command_line.specs.Shape.{drive_app, pass_app, program_app, run_app, serve_app, show_app};

use crate::help::*;
use crate::spelling::{HIGHEST_VLAN, LEAST_KILOBYTES, MOST_KILOBYTES};
use clap::builder::ValueParser;
use clap::{Arg, ArgAction, Command};
use std::alloc::{AllocError, Global};

/// The form of an argument.
#[derive(Clone, Copy)]
pub(crate) enum Form {
    /// An option `--NAME VALUE`, used at most once.
    Value,
    /// An option `--NAME N`, used at most once, whose number clap accepts within these bounds, both included.
    Number(u64, u64),
    /// An option `--NAME VALUE`, used exactly once.
    Required,
    /// An option `--NAME` without a value, used at most once.
    Flag,
    /// The path of a file or a folder, without an option name. It is required.
    File,
}

/// An argument of a command: its name, its form, the name of its value in help, and its help. The name of the value is
/// empty for a flag and a file.
#[derive(Clone, Copy)]
pub(crate) struct Argument<'a>(&'a str, Form, &'a str, &'a str);

/// The program or a subcommand: its name, the first line of its help, the text of its help after the options, and its
/// arguments.
#[derive(Clone, Copy)]
pub(crate) struct CommandRow<'a>(&'a str, &'a str, &'a str, &'a [Argument<'a>]);

/// Returns whether an argument of this form is required.
fn is_required(form: Form) -> bool
    ensures { result ≡ is_required_form form }
{
    matches!(form, Form::Required | Form::File)
}

/// Returns what clap does with a use of an argument of this form.
fn action_of(form: Form) -> ArgAction
    ensures { result ≡ action_of_form form }
{
    match form {
        Form::Flag => ArgAction::SetTrue,
        Form::Value | Form::Number(_, _) | Form::Required | Form::File => ArgAction::Set,
    }
}

/// Returns an argument in clap's form. The argument isn't global: only its own command has it.
fn clap_argument<'a>(alloc: Global, argument: &Argument<'a>) -> Arg<'a>
    ensures rule { rule_of result ≡ rule_for argument.now }
    ensures local { result.global ≡ false }
{
    let Argument(name, form, value, help) = *argument;
    let arg = Arg::new(alloc, name)
        .help(help)
        .required(is_required(form))
        .action(action_of(form));
    match form {
        Form::File => arg,
        Form::Flag => arg.long(name),
        Form::Value | Form::Required => arg.long(name).value_name(value),
        Form::Number(least, most) => {
            let parser = ValueParser::unsigned(least, most);
            arg.long(name).value_name(value).value_parser(parser)
        }
    }
}

/// Returns a command in clap's form, without subcommands. No argument of the command is global.
fn clap_command<'a>(alloc: Global, row: &CommandRow<'a>) -> Result<Command<'a>, AllocError>
    ensures app { IfOk result (λ command. app_of command ≡ app_for row.now) }
    ensures no_globals { IfOk result (λ command. (fields_of command).has_globals ≡ false) }
{
    let CommandRow(name, about, note, arguments) = *row;
    let mut command = Command::new(alloc, name).about(about).after_help(note);
    for argument in arguments {
        command = command.arg(clap_argument(alloc, argument))?;
    }
    Ok(command)
}

const PASS_ARGUMENTS: [Argument<'static>; 6] = [
    Argument("address", Form::Value, "A", ADDRESS_HELP),
    Argument("group", Form::Value, "G", GROUP_HELP),
    Argument("vlan", Form::Number(0, HIGHEST_VLAN), "N", VLAN_HELP),
    Argument("nanos", Form::Flag, "", NANOS_HELP),
    Argument("IN", Form::File, "", READ_HELP),
    Argument("OUT", Form::File, "", WRITTEN_HELP),
];

/// Returns the row of `pass`.
fn pass() -> CommandRow<'static>
    ensures { app_for result ≡ pass_app }
{
    CommandRow("pass", PASS_ABOUT, PASS_NOTE, &PASS_ARGUMENTS)
}

const RUN_ARGUMENTS: [Argument<'static>; 5] = [
    Argument("wires", Form::Flag, "", WIRES_HELP),
    Argument("nanos", Form::Flag, "", NANOS_HELP),
    Argument("events", Form::Value, "FILE", EVENTS_HELP),
    Argument("SCENARIO", Form::File, "", SCENARIO_HELP),
    Argument("OUTDIR", Form::File, "", FOLDER_HELP),
];

/// Returns the row of `run`.
fn run() -> CommandRow<'static>
    ensures { app_for result ≡ run_app }
{
    CommandRow("run", RUN_ABOUT, RUN_NOTE, &RUN_ARGUMENTS)
}

const SHOW_ARGUMENTS: [Argument<'static>; 1] = [Argument("TRACE", Form::File, "", READ_HELP)];

/// Returns the row of `show`.
fn show() -> CommandRow<'static>
    ensures { app_for result ≡ show_app }
{
    CommandRow("show", SHOW_ABOUT, SHOW_NOTE, &SHOW_ARGUMENTS)
}

const SERVE_ARGUMENTS: [Argument<'static>; 10] = [
    Argument("memory", Form::Value, "BYTES", MEMORY_HELP),
    Argument("registers", Form::Value, "ADDRESS", REGISTERS_HELP),
    Argument("address", Form::Value, "A", EEPROM_ADDRESS_HELP),
    Argument("image", Form::Value, "FILE", IMAGE_HELP),
    Argument("link", Form::Value, "N|never", LINK_HELP),
    Argument(
        "rxa",
        Form::Number(LEAST_KILOBYTES, MOST_KILOBYTES),
        "N",
        RXA_HELP,
    ),
    Argument("seed", Form::Number(0, u64::MAX), "N", SEED_HELP),
    Argument("missed", Form::Number(0, u32::MAX as u64), "N", MISSED_HELP),
    Argument("schedule", Form::Value, "FILE", SCHEDULE_HELP),
    Argument("record", Form::Value, "FILE", RECORD_HELP),
];

/// Returns the row of `serve`.
fn serve() -> CommandRow<'static>
    ensures { app_for result ≡ serve_app }
{
    CommandRow("serve", SERVE_ABOUT, SERVE_NOTE, &SERVE_ARGUMENTS)
}

const DRIVE_ARGUMENTS: [Argument<'static>; 9] = [
    Argument("registers", Form::Value, "ADDRESS", REGISTERS_HELP),
    Argument("memory", Form::Value, "BYTES", DRIVE_MEMORY_HELP),
    Argument("rx", Form::Number(0, u16::MAX as u64), "N", RX_HELP),
    Argument("tx", Form::Number(0, u16::MAX as u64), "N", TX_HELP),
    Argument(
        "buffers",
        Form::Number(0, u16::MAX as u64),
        "N",
        BUFFERS_HELP,
    ),
    Argument("expect", Form::Number(0, u64::MAX), "N", EXPECT_HELP),
    Argument("idle", Form::Number(0, u64::MAX), "N", IDLE_HELP),
    Argument("send", Form::Required, "IN", SEND_HELP),
    Argument("receive", Form::Required, "OUT", RECEIVE_HELP),
];

/// Returns the row of `drive`.
fn drive() -> CommandRow<'static>
    ensures { app_for result ≡ drive_app }
{
    CommandRow("drive", DRIVE_ABOUT, DRIVE_NOTE, &DRIVE_ARGUMENTS)
}

/// The program. Its arguments are those that clap adds.
const PROGRAM: CommandRow<'static> = CommandRow("nicbench", PROGRAM_ABOUT, PROGRAM_NOTE, &[]);

/// Returns the program with these subcommands. The program refuses words without a subcommand, and prints help if only
/// its name is given. No argument is global.
fn program_with<'a>(
    alloc: Global,
    subcommands: &[CommandRow<'a>],
) -> Result<Command<'a>, AllocError>
    ensures app { IfOk result (λ command. app_of command
        ≡ with_subcommands bare_app (map app_for subcommands.now)) }
    ensures no_globals { IfOk result (λ command. (fields_of command).has_globals ≡ false) }
{
    let mut program = clap_command(alloc, &PROGRAM)?
        .version(VERSION)
        .subcommand_required(true)
        .arg_required_else_help(true);
    for subcommand in subcommands {
        let command = clap_command(alloc, subcommand)?;
        program = program.subcommand(command)?;
    }
    Ok(program)
}

/// Returns the program with all its subcommands, in the order of help. No argument is global.
pub(crate) fn program<'a>(alloc: Global) -> Result<Command<'a>, AllocError>
    ensures app { IfOk result (λ command. app_of command ≡ program_app) }
    ensures no_globals { IfOk result (λ command. (fields_of command).has_globals ≡ false) }
{
    program_with(alloc, &[pass(), run(), show(), serve(), drive()])
}
