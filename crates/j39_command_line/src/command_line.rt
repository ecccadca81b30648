//! The words of the command line, read.
ghost use Rattle.std.specs.Prelude.{ℕ, nat_le, nat_lt, ◌&&◌, ◌<◌, if◌then◌else◌, ◌≡◌, ◌≢◌, Err, None, true, false, []};
ghost use Rattle.std.specs.Prelude.{IfOk, Some, codes, length, map, string_bytes, unwrap_or};
ghost use Rattle.clap.specs.Words.{all_of, first_of, found_of, kind_of, one_of, rows_of, subcommand_of};
ghost use Rattle.clap.specs.Words.{subcommand_rows_of};
ghost use Rattle.j39_command_line.specs.Commands.{commands};
ghost use Rattle.j39_command_line.specs.Orders.{IsOrdered, AreRefused, AsksHelp, IsHelp, Orders, OrdersNothing};
ghost use Rattle.j39_command_line.specs.Orders.{are_all, are_quiet, are_stamps, quiet_in, stamps_in};
ghost use Rattle.j39_command_line.specs.Orders.{asks_for_text};
ghost use Rattle.std.specs.Char.{is_ascii_digit};
ghost use Rattle.std.specs.List.{list_all};
ghost use Rattle.std.specs.Str.Parse.{digits_value};
ghost use Rattle.j39_command_line.specs.declared.orders.WordsFault.TheVariants.{Bad, Memory};
ghost use Rattle.clap.specs.declared.error.kind.ErrorKind.TheVariants.{OutOfMemory};

use crate::commands::commands;
use crate::orders::{Frames, Order, WordsFault};
use clap::error::ErrorKind;
use clap::{ArgMatches, Error};
use std::alloc::{AllocError, Global};

// By how many microseconds the times of a log may differ, unless it is said, and at most.
const USUAL_STAMPS: u64 = 1000;

const MOST_STAMPS: u64 = 1_000_000;

const MOST_QUIET: u64 = 1_000;

// The value that a command asks for by this name.
fn value(alloc: Global, values: &ArgMatches, name: &str) -> Result<String, WordsFault>
    ensures given { IfOk result (λ s. first_of name.now (rows_of (found_of values.now)) ≡ Some (string_bytes s)) }
    ensures missing { result ≡ Err Bad → first_of name.now (rows_of (found_of values.now)) ≡ None }
{
    match values.get_str(name) {
        Some(text) => Ok(String::from_str(alloc, text)?),
        None => Err(WordsFault::Bad),
    }
}

// The values that a command takes by this name, of which there may be none.
fn given(alloc: Global, values: &ArgMatches, name: &str) -> Result<Vec<String>, WordsFault>
    ensures given { IfOk result (λ v. map string_bytes v.items ≡ unwrap_or
        (all_of name.now (rows_of (found_of values.now))) []) }
    ensures known { result ≡ Err Bad → ⊥ }
{
    match values.get_raw(name) {
        Some(texts) => Ok(owned(alloc, texts)?),
        None => Ok(Vec::new(alloc)),
    }
}

fn owned(alloc: Global, texts: &[&str]) -> Result<Vec<String>, AllocError>
    ensures { IfOk result (λ v. map string_bytes v.items ≡ map (λ t. t.now) texts.now) }
{
    let mut words = Vec::new(alloc);
    for text in texts {
        words.push(String::from_str(alloc, text)?)?;
    }
    Ok(words)
}

// Whether a flag of a command is given.
fn is_given(values: &ArgMatches, flag: &str) -> bool
    ensures given { one_of flag.now (rows_of (found_of values.now)) ≡ Some (codes "true") → result ≡ true }
    ensures not_given { one_of flag.now (rows_of (found_of values.now)) ≡ Some (codes "false") → result ≡ false }
    ensures unsaid { one_of flag.now (rows_of (found_of values.now)) ≡ None → result ≡ false }
{
    values.get_flag(flag)
}

// Which frames are reported: all, where it is asked for.
fn frames(values: &ArgMatches) -> Frames
    ensures given { one_of (codes "all") (rows_of (found_of values.now)) ≡ Some (codes "true") → are_all result ≡ true }
    ensures not_given { one_of (codes "all") (rows_of (found_of values.now)) ≡ Some (codes "false")
        → are_all result ≡ false }
    ensures unsaid { one_of (codes "all") (rows_of (found_of values.now)) ≡ None → are_all result ≡ false }
{
    if is_given(values, "all") {
        Frames::All
    } else {
        Frames::Planned
    }
}

fn is_digit(byte: u8) -> bool
    ensures { result ≡ is_ascii_digit byte }
{
    matches!(byte, b'0'..=b'9')
}

fn are_digits(text: &[u8]) -> bool
    ensures { result ≡ list_all is_ascii_digit text.now }
{
    text.iter().all(|byte| is_digit(*byte))
}

// The number that digits are, if it is at most that of a second's microseconds.
fn number_of(digits: &str) -> Option<u64>
    requires some { 0 < length digits.now }
    requires digits { list_all is_ascii_digit digits.now ≡ true }
    ensures { result ≡ (if nat_le (digits_value 10 digits.now) 1000000 then Some (digits_value 10 digits.now)
        else None) }
{
    let Ok(number) = digits.parse::<u64>() else {
        return None;
    };
    if number <= MOST_STAMPS {
        Some(number)
    } else {
        None
    }
}

// A number of milliseconds, if it may be that of a gap.
fn quiet_if(number: u64) -> Option<Option<u64>>
    ensures { result ≡ (if nat_lt 0 number && nat_le number 1000 then Some (Some number) else None) }
{
    if number > 0 && number <= MOST_QUIET {
        Some(Some(number))
    } else {
        None
    }
}

// The number that digits are, if it is one of milliseconds that may be a gap.
fn quiet_number(digits: &str) -> Option<Option<u64>>
    requires some { 0 < length digits.now }
    requires digits { list_all is_ascii_digit digits.now ≡ true }
    ensures { result ≡ (if nat_lt 0 (digits_value 10 digits.now) && nat_le (digits_value 10 digits.now) 1000
        then Some (Some (digits_value 10 digits.now)) else None) }
{
    match number_of(digits) {
        Some(number) => quiet_if(number),
        None => None,
    }
}

// The number that a text is, if it is one of digits, and at most that of a second's microseconds.
fn stamps_of(text: &str) -> Option<u64>
    ensures { result ≡ (if are_stamps text.now then Some (digits_value 10 text.now) else None) }
{
    if text.is_empty() || !are_digits(text.as_bytes()) {
        None
    } else {
        number_of(text)
    }
}

// By how many microseconds the times of a log may differ.
fn stamps_in(values: &ArgMatches) -> Option<u64>
    ensures { result ≡ stamps_in (first_of (codes "stamps") (rows_of (found_of values.now))) }
{
    match values.get_str("stamps") {
        Some(text) => stamps_of(text),
        None => Some(USUAL_STAMPS),
    }
}

// The number that a text is, if it is one of milliseconds that may be a gap.
fn quiet_of(text: &str) -> Option<Option<u64>>
    ensures { result ≡ (if are_quiet text.now then Some (Some (digits_value 10 text.now)) else None) }
{
    if text.is_empty() || !are_digits(text.as_bytes()) {
        None
    } else {
        quiet_number(text)
    }
}

// How many milliseconds without a frame are a gap, where that is given; nothing where what is given is no such number.
fn quiet_in(values: &ArgMatches) -> Option<Option<u64>>
    ensures { result ≡ quiet_in (first_of (codes "quiet") (rows_of (found_of values.now))) }
{
    match values.get_str("quiet") {
        Some(text) => quiet_of(text),
        None => Some(None),
    }
}

// What `audit` orders of a plan.
fn audit(alloc: Global, plan: String, values: &ArgMatches) -> Result<Order, WordsFault>
    requires { first_of (codes "PLAN") (rows_of (found_of values.now)) ≡ Some (string_bytes plan) }
    ensures ordered { IfOk result (Orders (Some (codes "audit", rows_of (found_of values.now)))) }
    ensures named { IfOk result (λ o. IsHelp o → ⊥) }
    ensures refused { result ≡ Err Bad → OrdersNothing (Some (codes "audit", rows_of (found_of values.now))) }
{
    let log = value(alloc, values, "LOG")?;
    let Some(quiet) = quiet_in(values) else {
        return Err(WordsFault::Bad);
    };
    match stamps_in(values) {
        Some(stamps) => Ok(Order::Audit(plan, log, is_given(values, "part"), stamps, quiet)),
        None => Err(WordsFault::Bad),
    }
}

// What a command orders whose first value is a plan.
fn of_plan(alloc: Global, name: &str, values: &ArgMatches) -> Result<Order, WordsFault>
    requires line { name.now ≡ codes "frame" → ⊥ }
    requires vehicle { name.now ≡ codes "vehicle" → ⊥ }
    ensures ordered { IfOk result (Orders (Some (name.now, rows_of (found_of values.now)))) }
    ensures named { IfOk result (λ o. IsHelp o → ⊥) }
    ensures refused { result ≡ Err Bad → OrdersNothing (Some (name.now, rows_of (found_of values.now))) }
{
    let plan = value(alloc, values, "PLAN")?;
    match name {
        "show" => Ok(Order::Show(plan)),
        "variant" => Ok(Order::Variant(plan, given(alloc, values, "LABEL")?)),
        "check" => Ok(Order::Check(plan)),
        "addresses" => Ok(Order::Addresses(plan)),
        "load" => Ok(Order::Load(plan)),
        "run" => Ok(Order::Run(plan, value(alloc, values, "SCHEDULE")?)),
        "read" => Ok(Order::Read(plan, value(alloc, values, "LOG")?)),
        "audit" => audit(alloc, plan, values),
        "follow" => Ok(Order::Follow(plan, value(alloc, values, "LOG")?, frames(values))),
        _ => Err(WordsFault::Bad),
    }
}

fn command(alloc: Global, name: &str, values: &ArgMatches) -> Result<Order, WordsFault>
    ensures ordered { IfOk result (Orders (Some (name.now, rows_of (found_of values.now)))) }
    ensures named { IfOk result (λ o. IsHelp o → ⊥) }
    ensures refused { result ≡ Err Bad → OrdersNothing (Some (name.now, rows_of (found_of values.now))) }
{
    match name {
        "frame" => Ok(Order::Frame(value(alloc, values, "LINE")?)),
        "vehicle" => Ok(Order::Vehicle(value(alloc, values, "VEHICLE")?)),
        _ => of_plan(alloc, name, values),
    }
}

// What the matches order.
fn met(alloc: Global, matches: &ArgMatches) -> Result<Order, WordsFault>
    ensures ordered { IfOk result (Orders (subcommand_rows_of matches.now)) }
    ensures named { IfOk result (λ o. IsHelp o → ⊥) }
    ensures refused { result ≡ Err Bad → OrdersNothing (subcommand_rows_of matches.now) }
{
    match matches.subcommand() {
        Some((name, values)) => command(alloc, name, values),
        None => Err(WordsFault::Bad),
    }
}

// What is ordered by words that give no matches.
fn unmet(alloc: Global, error: &Error) -> Result<Order, WordsFault>
    ensures helped { IfOk result IsHelp }
    ensures request { IfOk result (λ _. asks_for_text (kind_of error.now) ≡ true) }
    ensures fault { result ≡ Err Bad → asks_for_text (kind_of error.now) ≡ false }
    ensures memory { kind_of error.now ≡ OutOfMemory → result ≡ Err Bad → ⊥ }
{
    match error.kind() {
        ErrorKind::OutOfMemory => Err(WordsFault::Memory),
        ErrorKind::DisplayHelp | ErrorKind::DisplayVersion => {
            Ok(Order::Help(error.to_string(alloc)?))
        }
        _ => Err(WordsFault::Bad),
    }
}

fn parsed(alloc: Global, words: &[String]) -> Result<Order, WordsFault>
    ensures ordered { IfOk result (Orders (subcommand_of commands (map string_bytes words.now))) }
    ensures helped { IfOk result (λ o. IsHelp o → AsksHelp (map string_bytes words.now)) }
    ensures refused { result ≡ Err Bad → AreRefused (map string_bytes words.now) }
{
    match commands(alloc)?.try_get_matches_from(words) {
        Ok(matches) => met(alloc, &matches),
        Err(error) => unmet(alloc, &error),
    }
}

/// What the words after the program's name ask for.
pub fn order(alloc: Global, words: Vec<String>) -> Result<Order, WordsFault>
    ensures input { words.items ≡ [] → result ≡ Ok Order.Input }
    ensures ordered { IfOk result (IsOrdered (map string_bytes words.items)) }
    ensures helped { IfOk result (λ o. IsHelp o → AsksHelp (map string_bytes words.items)) }
    ensures refused { result ≡ Err Bad → AreRefused (map string_bytes words.items) }
    ensures memory { result ≡ Err Memory → words.items ≢ [] }
{
    if words.is_empty() {
        Ok(Order::Input)
    } else {
        parsed(alloc, words.as_slice())
    }
}
