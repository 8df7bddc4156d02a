ghost use Rattle.std.specs.Prelude.{◌≡◌, IfErr, IfOk, Some, codes, false, map, string_bytes, true};
ghost use Rattle.clap.specs.Words.{first_of, found_of, rows_of, subcommand_of};
ghost use Rattle.clap.specs.Words.{subcommand_rows_of, takes};
ghost use Rattle.loom_words.specs.Command.{loom_app};
ghost use Rattle.loom_words.specs.Jobs.{HasRange, job_in, job_named, number_given, number_of};

use crate::command::command;
use crate::{Job, WordsStop};
use clap::ArgMatches;
use std::alloc::Global;

/// The number from 1 to 200 that a text is.
#[tactic(auto, using(crate::proofs::Numbers::some_number, crate::proofs::Numbers::unread_number))]
fn number_from(text: &str) -> Option<u32>
    ensures { result ≡ number_of text.now }
{
    match text.parse::<u32>() {
        Ok(number) if (1..=200).contains(&number) => Some(number),
        _ => None,
    }
}

/// The number that was given to `trial`.
#[tactic(auto, using(crate::proofs::Numbers::first_found))]
fn number_in(matches: &ArgMatches<'_>) -> Option<u32>
    ensures { result ≡ number_given (rows_of (found_of matches.now)) }
{
    number_from(matches.get_str("N")?)
}

/// The job of the subcommand of this name, with what was given to it.
fn job_of(name: &str, matches: &ArgMatches<'_>) -> Option<Job>
    ensures { result ≡ job_named name.now (rows_of (found_of matches.now)) }
{
    match name {
        "plan" => Some(Job::Plan),
        "extract" => Some(Job::Extract),
        "check" => Some(Job::Check),
        "trial" => number_in(matches).map(Job::Trial),
        _ => None,
    }
}

/// The job of the subcommand that clap met.
fn job_met(matches: &ArgMatches<'_>) -> Option<Job>
    ensures { result ≡ job_in (subcommand_rows_of matches.now) }
{
    let (name, given) = matches.subcommand()?;
    job_of(name, given)
}

/// The job that the words after the program's name ask for.
///
/// `Usage` comes only where clap's definition of the program's command (`loom_app`) doesn't take
/// the words, and a job only where it does; the job is the one that the definition's matches mean
/// (`job_in`). `plan`, `extract` and `check` alone and `trial` with the plain digits of 1 to 200
/// are always taken. Words that ask for help aren't.
pub fn read_words(alloc: Global, words: &[String]) -> Result<Job, WordsStop>
    ensures job { IfOk result (λ job.
        job_in (subcommand_of loom_app (map string_bytes words.now)) ≡ Some job) }
    ensures range { IfOk result HasRange }
    ensures taken { IfOk result (λ _. takes loom_app (map string_bytes words.now) ≡ true) }
    ensures usage { IfErr result (λ stop.
        stop ≡ WordsStop.Usage → takes loom_app (map string_bytes words.now) ≡ false) }
{
    let matches = command(alloc)?.try_get_matches_from(words)?;
    match job_met(&matches) {
        Some(job) => Ok(job),
        None => Err(WordsStop::Usage),
    }
}
