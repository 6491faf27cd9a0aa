// What the matches of the command say.
ghost use Rattle.std.specs.Prelude.{◌≡◌, IfOk, codes, map, option_map, string_bytes};
ghost use Rattle.clap.specs.Words.{first_of, found_of, one_of, rows_of};
ghost use Rattle.wv_arguments.specs.Requests.{given, labelled, limits, named, stated, wanted};
ghost use Rattle.wv_arguments.specs.Words.{asked_by, asked_in, budgets_in, command_in, is_set, label_in, mode_in, number_in, sources_in, steps_in, wanted_as, validate_of, demo_of, certify_of, recheck_of, author_of, weed_of, seek_of, conflicts_in, turns_in, made_number};

use crate::command::{MOST_CONFLICTS, MOST_NUMBER, MOST_STEPS, MOST_TURNS, command};
use crate::request::{Asked, Budgets, Label, Names, Request, Sources};
use clap::ArgMatches;
use clap::error::ErrorKind;
use std::alloc::Global;
use wv_base::OutOfMemory;

fn text<'a>(matches: &ArgMatches<'a>, id: &str) -> Option<&'a str>
    ensures { option_map (λ s. s.now) result ≡ first_of id.now (rows_of (found_of matches.now)) }
{
    matches.get_str(id)
}

fn mode<'a>(matches: &ArgMatches<'a>) -> &'a str
    ensures { result.now ≡ mode_in (rows_of (found_of matches.now)) }
{
    match text(matches, "mode") {
        Some(mode) => mode,
        None => "",
    }
}

/// A number, where it is given and lies between two others.
fn number(matches: &ArgMatches<'_>, id: &str, least: u64, most: u64) -> Option<u64>
    ensures { result ≡ number_in least most (one_of id.now (rows_of (found_of matches.now))) }
{
    match matches.get_one::<u64>(id) {
        Some(number) if least <= number && number <= most => Some(number),
        _ => None,
    }
}

fn flag(matches: &ArgMatches<'_>, id: &str) -> bool
    ensures { result ≡ is_set (first_of id.now (rows_of (found_of matches.now))) }
{
    match text(matches, id) {
        Some(text) => text == "true",
        None => false,
    }
}

fn names<'a>(matches: &ArgMatches<'a>) -> Option<Names<'a>>
    ensures { option_map named result ≡ command_in (rows_of (found_of matches.now)) }
{
    Some(Names {
        program: text(matches, "program")?,
        property: text(matches, "property")?,
        witness: text(matches, "witness")?,
    })
}

fn budgets(matches: &ArgMatches<'_>) -> Option<Budgets>
    ensures { option_map limits result ≡ budgets_in (rows_of (found_of matches.now)) }
{
    Some(Budgets {
        steps: number(matches, "steps", 1, MOST_STEPS)?,
        conflicts: number(matches, "conflicts", 1, MOST_CONFLICTS)?,
    })
}

fn validate<'a>(matches: &ArgMatches<'a>) -> Option<Request<'a>>
    ensures { option_map wanted result ≡ validate_of (command_in (rows_of (found_of matches.now)))
        (budgets_in (rows_of (found_of matches.now))) }
{
    Some(Request::Validate {
        names: names(matches)?,
        budgets: budgets(matches)?,
    })
}

fn demo<'a>(matches: &ArgMatches<'a>) -> Option<Request<'a>>
    ensures { option_map wanted result ≡ demo_of (made_number (rows_of (found_of matches.now)))
        (budgets_in (rows_of (found_of matches.now))) }
{
    Some(Request::Demo {
        number: number(matches, "number", 0, MOST_NUMBER)?,
        budgets: budgets(matches)?,
    })
}

fn certify<'a>(matches: &ArgMatches<'a>) -> Option<Request<'a>>
    ensures { option_map wanted result ≡ certify_of (command_in (rows_of (found_of matches.now)))
        (conflicts_in (rows_of (found_of matches.now))) }
{
    Some(Request::Certify {
        names: names(matches)?,
        conflicts: number(matches, "conflicts", 1, MOST_CONFLICTS)?,
    })
}

fn recheck<'a>(matches: &ArgMatches<'a>) -> Option<Request<'a>>
    ensures { option_map wanted result ≡ recheck_of (command_in (rows_of (found_of matches.now)))
        (first_of (codes "certificate") (rows_of (found_of matches.now))) }
{
    Some(Request::Recheck {
        names: names(matches)?,
        certificate: text(matches, "certificate")?,
    })
}

fn sources<'a>(matches: &ArgMatches<'a>) -> Option<Sources<'a>>
    ensures { option_map given result ≡ sources_in (rows_of (found_of matches.now)) }
{
    Some(Sources {
        program: text(matches, "program")?,
        property: text(matches, "property")?,
        values: text(matches, "values")?,
    })
}

fn label<'a>(matches: &ArgMatches<'a>) -> Option<Label<'a>>
    ensures { option_map labelled result ≡ label_in (rows_of (found_of matches.now)) }
{
    Some(Label {
        model: text(matches, "model")?,
        uuid: text(matches, "uuid")?,
        time: text(matches, "time")?,
    })
}

fn author<'a>(matches: &ArgMatches<'a>) -> Option<Request<'a>>
    ensures { option_map wanted result ≡ author_of (sources_in (rows_of (found_of matches.now)))
        (label_in (rows_of (found_of matches.now))) (steps_in (rows_of (found_of matches.now))) }
{
    let sources = sources(matches)?;
    let label = label(matches)?;
    let steps = number(matches, "steps", 1, MOST_STEPS)?;
    Some(Request::Author {
        sources,
        label,
        steps,
    })
}

fn weed<'a>(matches: &ArgMatches<'a>) -> Option<Request<'a>>
    ensures { option_map wanted result ≡ weed_of (command_in (rows_of (found_of matches.now)))
        (conflicts_in (rows_of (found_of matches.now))) }
{
    Some(Request::Weed {
        names: names(matches)?,
        conflicts: number(matches, "conflicts", 1, MOST_CONFLICTS)?,
    })
}

fn seek<'a>(matches: &ArgMatches<'a>) -> Option<Request<'a>>
    ensures { option_map wanted result ≡ seek_of (command_in (rows_of (found_of matches.now)))
        (turns_in (rows_of (found_of matches.now))) (conflicts_in (rows_of (found_of matches.now))) }
{
    let names = names(matches)?;
    let turns = number(matches, "bound", 1, MOST_TURNS)?;
    let conflicts = number(matches, "conflicts", 1, MOST_CONFLICTS)?;
    Some(Request::Seek {
        names,
        turns,
        conflicts,
    })
}

/// What a mode asks for.
fn request<'a>(mode: &str, matches: &ArgMatches<'a>) -> Option<Request<'a>>
    ensures { option_map wanted result ≡ wanted_as mode.now (rows_of (found_of matches.now)) }
{
    match mode {
        "validate" => validate(matches),
        "show" => Some(Request::Show(text(matches, "witness")?)),
        "normalise" => Some(Request::Normalise(text(matches, "witness")?)),
        "demo" => demo(matches),
        "certify" => certify(matches),
        "recheck" => recheck(matches),
        "author" => author(matches),
        "weed" => weed(matches),
        "seek" => seek(matches),
        _ => None,
    }
}

fn asked<'a>(matches: &ArgMatches<'a>) -> Asked<'a>
    ensures { stated result ≡ asked_in (rows_of (found_of matches.now)) }
{
    Asked {
        request: request(mode(matches), matches),
        json: flag(matches, "json"),
    }
}

/// What the arguments ask for, the first of which is the program's own name.
pub fn read_words(alloc: Global, words: &[String]) -> Result<Asked<'_>, OutOfMemory>
    ensures { IfOk result (λ asked. stated asked ≡ asked_by (map string_bytes words.now)) }
{
    let command = command(alloc)?;
    match command.try_get_matches_from(words) {
        Ok(matches) => Ok(asked(&matches)),
        Err(error) => match error.kind() {
            ErrorKind::OutOfMemory => Err(OutOfMemory),
            _ => Ok(Asked {
                request: None,
                json: false,
            }),
        },
    }
}
