//! The words after the program's name.
ghost use Rattle.std.specs.Prelude.{◌≡◌, map, option_map, Some, None, IfOk, IfErr, IfSome, codes, false};
ghost use Rattle.clap.specs.Words.{app_of, with_rule, first_of, found_of, rows_of, subcommand_rows_of};
ghost use Rattle.clap.specs.declared.builder.command.Command.TheViews.{out-Command};
ghost use Rattle.uv_script.specs.Program.{IsWorkerCount};
ghost use Rattle.uv_words.specs.declared.command_line.NoJob.TheVariants.{BadWords};
ghost use Rattle.uv_words.specs.Words.{uvt_app, two_app, job_app, workers_rule, count_in, live_by, job_named, job_by, job_of, IsJob};

use clap::error::ErrorKind;
use clap::{Arg, ArgAction, ArgMatches, Command};
use std::alloc::{AllocError, Global};
use uv_ids::MOST_WORKERS;
use uv_script::number;

/// What the program is to do.
#[derive(Clone, Copy)]
pub enum Job {
    /// `debug`: a conversation on standard input and output.
    Debug,
    /// `replay`: the verdict on the recording on standard input.
    Replay,
    /// `live`: a live run of the script on standard input, with so many workers, or as many as the script says.
    Live(Option<u16>),
}

/// Why there is no job.
#[derive(Clone, Copy)]
pub enum NoJob {
    /// Words that are no command line.
    BadWords,
    Memory,
}

impl From<AllocError> for NoJob {
    fn from(_refused: AllocError) -> NoJob {
        NoJob::Memory
    }
}

fn command<'a>(alloc: Global) -> Result<Command<'a>, AllocError>
    ensures { IfOk result (λ command. app_of command ≡ uvt_app) }
{
    let two = two_commands(alloc)?;
    let live = live_command(alloc)?;
    two.subcommand(live)
}

/// The program with the two subcommands that take no option.
fn two_commands<'a>(alloc: Global) -> Result<Command<'a>, AllocError>
    ensures { IfOk result (λ command. app_of command ≡ two_app) }
{
    let debug = Command::new(alloc, "debug").disable_help_flag(true);
    let replay = Command::new(alloc, "replay").disable_help_flag(true);
    Command::new(alloc, "uvt")
        .disable_help_flag(true)
        .disable_version_flag(true)
        .disable_help_subcommand(true)
        .subcommand_required(true)
        .subcommand(debug)?
        .subcommand(replay)
}

fn live_command<'a>(alloc: Global) -> Result<Command<'a>, AllocError>
    ensures app { IfOk result (λ command. app_of command ≡ with_rule (job_app (codes "live")) workers_rule) }
    ensures local { IfOk result (λ command. (out-Command command).has_globals ≡ false) }
{
    let workers = Arg::new(alloc, "workers")
        .long("workers")
        .action(ArgAction::Set);
    Command::new(alloc, "live")
        .disable_help_flag(true)
        .arg(workers)
}

/// How many workers a word asks for.
fn worker_count(word: &str) -> Option<u16>
    ensures count { result ≡ count_in word.now }
    ensures within { IfSome result IsWorkerCount }
{
    let count = number(word.as_bytes())?;
    if 1 <= count && count <= u64::from(MOST_WORKERS) {
        Some(count as u16)
    } else {
        None
    }
}

/// A live run, by its option.
fn live_job(workers: Option<&str>) -> Option<Job>
    ensures job { result ≡ live_by (option_map (λ word. word.now) workers.entry) }
    ensures within { IfSome result IsJob }
{
    let Some(word) = workers else {
        return Some(Job::Live(None));
    };
    let count = worker_count(word)?;
    Some(Job::Live(Some(count)))
}

fn live_by_options(options: &ArgMatches<'_>) -> Option<Job>
    ensures job { result ≡ live_by (first_of (codes "workers") (rows_of (found_of options.now))) }
    ensures within { IfSome result IsJob }
{
    live_job(options.get_str("workers"))
}

/// The job that a word names, with its options.
fn job_named(name: &str, options: &ArgMatches<'_>) -> Option<Job>
    ensures job { result ≡ job_named name.now (rows_of (found_of options.now)) }
    ensures within { IfSome result IsJob }
{
    match name {
        "debug" => Some(Job::Debug),
        "replay" => Some(Job::Replay),
        "live" => live_by_options(options),
        _ => None,
    }
}

/// The job of a subcommand.
fn job_by(matches: &ArgMatches<'_>) -> Option<Job>
    ensures job { result ≡ job_by (subcommand_rows_of matches.now) }
    ensures within { IfSome result IsJob }
{
    let (name, options) = matches.subcommand()?;
    job_named(name, options)
}

/// Reads the words, of which the first is the program's own.
pub fn read_words<'a>(alloc: Global, words: &'a [&'a str]) -> Result<Job, NoJob>
    ensures job { IfOk result (λ job. job_of (map (λ word. word.now) words.now) ≡ Some job) }
    ensures within { IfOk result IsJob }
    ensures none { IfErr result (λ why. why ≡ BadWords → job_of (map (λ word. word.now) words.now) ≡ None) }
{
    let Ok(command) = command(alloc) else {
        return Err(NoJob::Memory);
    };
    match command.try_get_matches_from(words) {
        Ok(matches) => match job_by(&matches) {
            Some(job) => Ok(job),
            None => Err(NoJob::BadWords),
        },
        Err(error) if error.kind() == ErrorKind::OutOfMemory => Err(NoJob::Memory),
        Err(_) => Err(NoJob::BadWords),
    }
}
