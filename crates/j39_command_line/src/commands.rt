//! The commands, with their help.
ghost use Rattle.std.specs.Prelude.{◌≡◌, false, IfOk, IsOkAnd, codes};
ghost use Rattle.clap.specs.Words.{app_of, rule_of, with_subcommand};
ghost use Rattle.clap.specs.declared.builder.command.Command.TheViews.{out-Command as fields_of};
ghost use Rattle.j39_command_line.specs.Commands.{commands, flag_rule, one_value, program, two_values};
ghost use Rattle.j39_command_line.specs.Commands.{two_values_and_flag};
ghost use Rattle.j39_command_line.specs.Commands.{audit_command, option_rule, value_and_values, value_rule};
ghost use Rattle.j39_command_line.specs.Commands.{any_values_rule};

use clap::{Arg, ArgAction, Command};
use std::alloc::{AllocError, Global};

const ABOUT: &str = "Checks a SAE J1939 network plan before its units meet on the bus";

const USAGE: &str = "j39plan [COMMAND]";

const AFTER: &str = "Without a command, the first line of standard input is read as LINE.
A value that begins with - (but - alone) needs -- before it, as in: j39plan frame -- -x

Example: j39plan frame 18EEFF00#0100800C00000010

Exit status: 0 done, 1 findings or a refused step, 2 bad input or command line, 3 out of memory, 4 device fault";

const VERSION: &str = "0.1.0";

fn program<'a>(alloc: Global) -> Result<Command<'a>, AllocError>
    ensures { IfOk result (λ c. app_of c ≡ program) }
{
    Command::new(alloc, "j39plan")
        .no_binary_name(true)
        .subcommand_required(true)
        .version(VERSION)
        .about(ABOUT)
        .override_usage(USAGE)
        .after_help(AFTER)
        .bin_name("j39plan")
}

// A value that has to be given.
fn value<'a>(alloc: Global, name: &'a str, help: &'a str) -> Arg<'a>
    ensures rule { rule_of result ≡ value_rule name.entry.now }
    ensures local { result.global ≡ false }
{
    Arg::new(alloc, name).required(true).help(help)
}

// Values of which none has to be given.
fn values<'a>(alloc: Global, name: &'a str, help: &'a str) -> Arg<'a>
    ensures rule { rule_of result ≡ any_values_rule name.entry.now }
    ensures local { result.global ≡ false }
{
    Arg::new(alloc, name).action(ArgAction::Append).help(help)
}

// A flag that may be given, by two hyphens and its name.
fn flag<'a>(alloc: Global, name: &'a str, help: &'a str) -> Arg<'a>
    ensures rule { rule_of result ≡ flag_rule name.entry.now }
    ensures local { result.global ≡ false }
{
    Arg::new(alloc, name)
        .long(name)
        .action(ArgAction::SetTrue)
        .help(help)
}

// A command that takes one value.
fn one_value<'a>(
    alloc: Global,
    name: &'a str,
    about: &'a str,
    first: &'a str,
    help: &'a str,
) -> Result<Command<'a>, AllocError>
    ensures app { IfOk result (λ c. app_of c ≡ one_value name.entry.now first.entry.now) }
    ensures local { IfOk result (λ c. (fields_of c).has_globals ≡ false) }
{
    Command::new(alloc, name)
        .about(about)
        .arg(value(alloc, first, help))
}

// A command that takes two values.
fn two_values<'a>(
    alloc: Global,
    name: &'a str,
    about: &'a str,
    first: &'a str,
    first_help: &'a str,
    second: &'a str,
    second_help: &'a str,
) -> Result<Command<'a>, AllocError>
    ensures app { IfOk result (λ c. app_of c ≡ two_values name.entry.now first.entry.now second.entry.now) }
    ensures local { IfOk result (λ c. (fields_of c).has_globals ≡ false) }
{
    one_value(alloc, name, about, first, first_help)?.arg(value(alloc, second, second_help))
}

fn variant<'a>(alloc: Global) -> Result<Command<'a>, AllocError>
    ensures app { IfOk result (λ c. app_of c ≡ value_and_values (codes "variant") (codes "PLAN") (codes "LABEL")) }
    ensures local { IfOk result (λ c. (fields_of c).has_globals ≡ false) }
{
    one_value(
        alloc,
        "variant",
        "Shows each value of the plan of the first variant that is built and takes the alternatives of these labels",
        "PLAN",
        "The name of a plan file",
    )?
    .arg(values(
        alloc,
        "LABEL",
        "The label of an alternative of a choice of the plan, at most one of each choice",
    ))
}

fn follow<'a>(alloc: Global) -> Result<Command<'a>, AllocError>
    ensures app { IfOk result (λ c. app_of c ≡ two_values_and_flag (codes "follow") (codes "PLAN") (codes "LOG")
        (codes "all")) }
    ensures local { IfOk result (λ c. (fields_of c).has_globals ≡ false) }
{
    two_values(
        alloc,
        "follow",
        "Shows who sent what in the log, by the claims of the log itself",
        "PLAN",
        "The name of a plan file",
        "LOG",
        "The name of a file as candump -L writes it, of one interface, with R or T behind the data or without",
    )?
    .arg(flag(
        alloc,
        "all",
        "Shows each frame of the log of which there is no other line, too",
    ))
}

// A value, which the help calls so, that may be given behind a name with two hyphens.
fn option<'a>(alloc: Global, name: &'a str, called: &'a str, help: &'a str) -> Arg<'a>
    ensures rule { rule_of result ≡ option_rule name.entry.now }
    ensures local { result.global ≡ false }
{
    Arg::new(alloc, name)
        .long(name)
        .value_name(called)
        .help(help)
}

fn audit<'a>(alloc: Global) -> Result<Command<'a>, AllocError>
    ensures app { IfOk result (λ c. app_of c ≡ audit_command) }
    ensures local { IfOk result (λ c. (fields_of c).has_globals ≡ false) }
{
    two_values(
        alloc,
        "audit",
        "Shows which premises of the plan the log refutes, of which unit or flow, and at which lines",
        "PLAN",
        "The name of a plan file",
        "LOG",
        "The name of a file as candump -L writes it, of one interface, with R or T behind the data or without",
    )?
    .arg(flag(
        alloc,
        "part",
        "The log may lack frames of the bus: a filter took them out, or the logger lost some",
    ))?
    .arg(option(
        alloc,
        "stamps",
        "US",
        "By how many microseconds the time of a line may differ from the end of its frame: 0 to 1000000, 1000 without it",
    ))?
    .arg(option(
        alloc,
        "quiet",
        "MS",
        "How many milliseconds without a frame end what is waited for: 1 to 1000, without it by the pauses of the plan",
    ))
}

// Adds a subcommand, if both could be made.
fn with<'a>(
    program: Result<Command<'a>, AllocError>,
    subcommand: Result<Command<'a>, AllocError>,
) -> Result<Command<'a>, AllocError>
    requires { IfOk subcommand (λ c. (fields_of c).has_globals ≡ false) }
    ensures { IfOk result (λ c. IsOkAnd program.entry
        (λ p. IsOkAnd subcommand.entry (λ s. app_of c ≡ with_subcommand (app_of p) (app_of s).top))) }
{
    program?.subcommand(subcommand?)
}

// Adds one that takes one value.
fn with_one<'a>(
    program: Result<Command<'a>, AllocError>,
    alloc: Global,
    name: &'a str,
    about: &'a str,
    first: &'a str,
    help: &'a str,
) -> Result<Command<'a>, AllocError>
    ensures { IfOk result (λ c. IsOkAnd program.entry
        (λ p. app_of c ≡ with_subcommand (app_of p) (one_value name.entry.now first.entry.now).top)) }
{
    with(program, one_value(alloc, name, about, first, help))
}

/// The commands.
pub(super) fn commands<'a>(alloc: Global) -> Result<Command<'a>, AllocError>
    ensures { IfOk result (λ c. app_of c ≡ commands) }
{
    let no_commands = program(alloc);
    let frames = with_one(
        no_commands,
        alloc,
        "frame",
        "Shows what the frame line LINE says",
        "LINE",
        "A line of a CAN log; its last word is the frame, as 18EEFF00#0100800C00000010",
    );
    let shows = with_one(
        frames,
        alloc,
        "show",
        "Shows each value of the plan, those too that its file leaves to their defaults",
        "PLAN",
        "The name of a plan file",
    );
    let variants = with(shows, variant(alloc));
    let checks = with_one(
        variants,
        alloc,
        "check",
        "Shows what is wrong with the plan of the file PLAN",
        "PLAN",
        "The name of a plan file. tools/where.py, installed as j39plan-where, shows the line of the file before each answer",
    );
    let addresses = with_one(
        checks,
        alloc,
        "addresses",
        "Shows which units of the plan keep their planned addresses, whatever happens",
        "PLAN",
        "The name of a plan file",
    );
    let loads = with_one(
        addresses,
        alloc,
        "load",
        "Shows within which time the frames of each flow of the plan are on the bus, and how full it is",
        "PLAN",
        "The name of a plan file with the table timing and a period of each flow. A time counts from when the frame is ready \
        in its controller, of a flow with jitter from its message's moment. It is a bound on each bus that meets the \
        assumptions listed in j39plan(1), ASSUMPTIONS",
    );
    let runs = with(
        loads,
        two_values(
            alloc,
            "run",
            "Shows what happens on the bus of the plan by the schedule",
            "PLAN",
            "The name of a plan file",
            "SCHEDULE",
            "The name of a schedule file",
        ),
    );
    let reads = with(
        runs,
        two_values(
            alloc,
            "read",
            "Shows what the log says of the plan's groups",
            "PLAN",
            "The name of a plan file",
            "LOG",
            "The name of a file as candump -L writes it. If the last line counts bad lines, words behind the data, as R or T, \
            are the usual cause: sed -E 's/ [RT]\\r?$//' LOG takes them away",
        ),
    );
    let follows = with(reads, follow(alloc));
    let audits = with(follows, audit(alloc));
    with_one(
        audits,
        alloc,
        "vehicle",
        "Shows what is wrong with the buses of a vehicle, and with what its gateways send on",
        "VEHICLE",
        "The name of a vehicle file, which names the plan file of each bus. A name that doesn't begin with / starts in the folder \
        of the vehicle file",
    )
}
