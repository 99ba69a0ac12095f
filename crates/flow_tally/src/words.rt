ghost use Rattle.std.specs.Prelude.{◌≡◌, [], Some, false, true, map, option_map, IfErr, IfOk};
ghost use Rattle.std.specs.String.{string_bytes};
ghost use Rattle.clap.specs.Words.{all_of, app_of, first_of, found_of, is_simple_and_free, kind_of, rows_of, rule_of};
ghost use Rattle.flow_tally.specs.Words.{Gives, IsRefusal, RefusesWords, asked_by, faults_in, rows_in, source_in, tally_with, words_asked};
ghost use Rattle.flow_tally.specs.Words.{drive_app, drive_from, files_rule, numbered_app, option_rule, required_rule, tally_app, tally_from, trial_app, trial_from};

use crate::drive_words::DriveWords;
use crate::generator::{Generator, MOST_DATAGRAMS};
use crate::numbers::{number_given, number_in};
use crate::source::Source;
use crate::tally_words::{MOST_FLOWS, MOST_WORKERS, TallyWords};
use clap::error::ErrorKind;
use clap::{Arg, ArgMatches, Command, Error};
use std::alloc::{AllocError, Global};

/// The most buckets, and the largest share, of a script.
const MOST_IN_SCRIPT: u32 = 1 << 16;

/// The flows, and the buckets, where none are given.
const FLOWS: u32 = 65_536;

/// What the program's words ask for.
#[derive(Debug, Drop)]
pub enum Asked {
    /// A tally of files, or of generated datagrams.
    Tally(TallyWords),
    Drive(DriveWords),
    /// The words fit no command.
    Usage,
    NoMemory,
}

/// An option with this long name alone, set by one value.
fn option<'a>(alloc: Global, name: &'a str) -> Arg<'a>
    ensures rule { rule_of result ≡ option_rule name.entry.now }
    ensures global { result.global ≡ false }
{
    Arg::new(alloc, name).long(name)
}

/// The files: one positional argument with one or more values. It has no action of its own, so
/// options may stand between the files.
fn files<'a>(alloc: Global) -> Arg<'a>
    ensures rule { rule_of result ≡ files_rule }
    ensures global { result.global ≡ false }
{
    Arg::new(alloc, "FILE").required(true).num_args(1..)
}

/// One positional argument that must be there.
fn required<'a>(alloc: Global, name: &'a str) -> Arg<'a>
    ensures rule { rule_of result ≡ required_rule name.entry.now }
    ensures global { result.global ≡ false }
{
    Arg::new(alloc, name).required(true)
}

/// A command of this name with the numbers of a tally.
fn numbered<'a>(alloc: Global, name: &'a str) -> Result<Command<'a>, AllocError>
    ensures { IfOk result (λ c. app_of c ≡ numbered_app name.entry.now) }
{
    Command::new(alloc, name)
        .arg(option(alloc, "workers"))?
        .arg(option(alloc, "flows"))?
        .arg(option(alloc, "buckets"))
}

fn tally_command<'a>(alloc: Global) -> Result<Command<'a>, AllocError>
    ensures { IfOk result (λ c. app_of c ≡ tally_app) }
{
    numbered(alloc, "tally")?.arg(files(alloc))
}

fn trial_command<'a>(alloc: Global) -> Result<Command<'a>, AllocError>
    ensures { IfOk result (λ c. app_of c ≡ trial_app) }
{
    numbered(alloc, "trial")?
        .arg(required(alloc, "START"))?
        .arg(required(alloc, "N"))
}

fn drive_command<'a>(alloc: Global) -> Result<Command<'a>, AllocError>
    ensures { IfOk result (λ c. app_of c ≡ drive_app) }
{
    Command::new(alloc, "drive")
        .arg(option(alloc, "buckets"))?
        .arg(option(alloc, "share"))?
        .arg(required(alloc, "FILE"))
}

/// What a refusal of `clap` comes to.
fn refused(error: &Error) -> Asked
    ensures { IsRefusal (kind_of error.now) result }
{
    if error.kind() == ErrorKind::OutOfMemory {
        Asked::NoMemory
    } else {
        Asked::Usage
    }
}

/// What a command takes from the words, of which the first stands for the program's name; or what
/// its refusal comes to.
fn parse<'a>(command: Command<'a>, words: &'a [String]) -> Result<ArgMatches<'a>, Asked>
    requires { is_simple_and_free (app_of command) ≡ true }
    ensures found { IfOk result (λ m. (faults_in (app_of command.entry) (map string_bytes words.now) ≡ [])
        × (rows_of (found_of m) ≡ rows_in (app_of command.entry) (map string_bytes words.now))) }
    ensures refused { IfErr result (λ w. RefusesWords (faults_in (app_of command.entry) (map string_bytes words.now)) w) }
{
    match command.try_get_matches_from(words) {
        Ok(matches) => Ok(matches),
        Err(error) => Err(refused(&error)),
    }
}

fn owned(alloc: Global, texts: &[&str]) -> Result<Vec<String>, AllocError>
    ensures { IfOk result (λ v. map string_bytes v.items ≡ map (λ s. s.now) texts.now) }
{
    let mut all = Vec::new(alloc);
    for text in texts {
        all.push(String::from_str(alloc, text)?)?;
    }
    Ok(all)
}

/// The value of an argument, the first where there are several.
fn value_of<'a>(matches: &ArgMatches<'a>, name: &str) -> Option<&'a str>
    ensures { option_map (λ s. s.now) result ≡ first_of name.now (rows_of (found_of matches.now)) }
{
    matches.get_str(name)
}

/// All values of an argument.
fn values_of<'a, 'b>(matches: &'b ArgMatches<'a>, name: &str) -> Option<&'b [&'a str]>
    ensures { option_map (λ s. map (λ v. v.now) s.now) result ≡ all_of name.now (rows_of (found_of matches.now)) }
{
    matches.get_strs(name)
}

/// The tally of these datagrams with the numbers given, where each is in its range.
fn tally_with(matches: &ArgMatches, source: Source) -> Asked
    ensures { Gives result (tally_with (Some (source_in source)) (rows_of (found_of matches.now))) }
{
    let Some(workers) = number_in(value_of(matches, "workers"), 1, MOST_WORKERS, 4) else {
        return Asked::Usage;
    };
    let Some(flows) = number_in(value_of(matches, "flows"), 1, MOST_FLOWS, FLOWS) else {
        return Asked::Usage;
    };
    let Some(buckets) = number_in(value_of(matches, "buckets"), 1, MOST_FLOWS, FLOWS) else {
        return Asked::Usage;
    };
    Asked::Tally(TallyWords {
        workers,
        flows,
        buckets,
        source,
    })
}

/// The tally of the files given.
fn tally_given(alloc: Global, matches: &ArgMatches) -> Asked
    ensures { Gives result (tally_from (rows_of (found_of matches.now))) }
{
    let Some(names) = values_of(matches, "FILE") else {
        return Asked::Usage;
    };
    match owned(alloc, names) {
        Ok(files) => tally_with(matches, Source::Files(files)),
        Err(_) => Asked::NoMemory,
    }
}

/// The tally of the generator's datagrams, where the numbers given are in their ranges.
fn trial_given(matches: &ArgMatches) -> Asked
    ensures { Gives result (trial_from (rows_of (found_of matches.now))) }
{
    let Some(start) = number_given(value_of(matches, "START"), u64::MAX) else {
        return Asked::Usage;
    };
    let Some(datagrams) = number_given(value_of(matches, "N"), u64::from(MOST_DATAGRAMS)) else {
        return Asked::Usage;
    };
    let generator = Generator {
        start,
        datagrams: datagrams as u32,
    };
    tally_with(matches, Source::Generated(generator))
}

/// The drive of the script given, where each number is in its range.
fn drive_given(alloc: Global, matches: &ArgMatches) -> Asked
    ensures { Gives result (drive_from (rows_of (found_of matches.now))) }
{
    let Some(buckets) = number_in(value_of(matches, "buckets"), 1, MOST_IN_SCRIPT, 16) else {
        return Asked::Usage;
    };
    let Some(share) = number_in(value_of(matches, "share"), 1, MOST_IN_SCRIPT, 4096) else {
        return Asked::Usage;
    };
    let Some(name) = value_of(matches, "FILE") else {
        return Asked::Usage;
    };
    match String::from_str(alloc, name) {
        Ok(file) => Asked::Drive(DriveWords {
            buckets,
            share,
            file,
        }),
        Err(_) => Asked::NoMemory,
    }
}

/// What the words ask of `tally`.
fn tally_asked(alloc: Global, words: &[String]) -> Asked
    ensures { Gives result (asked_by tally_app tally_from (map string_bytes words.now)) }
{
    let Ok(command) = tally_command(alloc) else {
        return Asked::NoMemory;
    };
    match parse(command, words) {
        Ok(matches) => tally_given(alloc, &matches),
        Err(asked) => asked,
    }
}

/// What the words ask of `trial`.
fn trial_asked(alloc: Global, words: &[String]) -> Asked
    ensures { Gives result (asked_by trial_app trial_from (map string_bytes words.now)) }
{
    let Ok(command) = trial_command(alloc) else {
        return Asked::NoMemory;
    };
    match parse(command, words) {
        Ok(matches) => trial_given(&matches),
        Err(asked) => asked,
    }
}

/// What the words ask of `drive`.
fn drive_asked(alloc: Global, words: &[String]) -> Asked
    ensures { Gives result (asked_by drive_app drive_from (map string_bytes words.now)) }
{
    let Ok(command) = drive_command(alloc) else {
        return Asked::NoMemory;
    };
    match parse(command, words) {
        Ok(matches) => drive_given(alloc, &matches),
        Err(asked) => asked,
    }
}

/// What the words after the program's name ask for.
pub fn read_words(alloc: Global, words: &[String]) -> Asked
    ensures { Gives result (words_asked (map string_bytes words.now)) }
{
    let Some(command) = words.first() else {
        return Asked::Usage;
    };
    if command.as_str() == "tally" {
        tally_asked(alloc, words)
    } else if command.as_str() == "trial" {
        trial_asked(alloc, words)
    } else if command.as_str() == "drive" {
        drive_asked(alloc, words)
    } else {
        Asked::Usage
    }
}
