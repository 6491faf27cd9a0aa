// The arguments of the command line, read by `clap`.
use crate::certificate_words::{wanted_part, with_parts};
use crate::screen::{Screen, wanted_look};
use clap::builder::ValueParser;
use clap::error::ErrorKind;
use clap::{Arg, ArgAction, ArgMatches, Command};
use std::alloc::{AllocError, Global};
use view_text::{Look, printable_text};
use wv_arguments::{Budgets, Names};
use wv_base::OutOfMemory;

const ABOUT: &str =
    "Judges a software verification witness as `witval validate` does, or a certificate as `witval recheck` does, and shows what \
there is to look at in the files: what a refusal speaks of, why a violation isn't confirmed, which obligation fails and with which \
values, which line of a certificate is wrong, or what values `witval seek` found. It also hands a certificate out, in the forms of other checkers.";

const AFTER: &str =
    "It prints the reply of `witval validate`, `witval recheck` or `witval seek` word for word, and then messages in the form of compilers: \
FILE:LINE:COLUMN: error: TEXT [code], the line, a caret. Messages are no verdicts of their own.\n\n\
Status: that of `witval validate`, `witval recheck` or `witval seek`: 0 confirmed, 1 not confirmed, 2 undecided, 3 refused, 4 a read fault, 5 a write fault, \
6 out of memory, 7 misused arguments; 0 for this help.";

/// How a judgement is shown.
#[derive(Clone, Copy, Debug, PartialEq, Eq)]
pub enum Form {
    /// Plain text, as files and pipes have it.
    Text,
    /// Text laid out for a screen.
    Screen(Look),
    Sarif,
    Html,
    /// One line of JSON.
    Json,
}

/// How the judgements of a list are shown.
#[derive(Clone, Copy, Debug, PartialEq, Eq)]
pub enum ListForm {
    /// A line of JSON for each.
    Lines,
    /// The same with its messages.
    Messages,
    /// A page of HTML with a row for each.
    Page,
}

/// What is handed out of a certificate, for other checkers.
#[derive(Clone, Copy, Debug, PartialEq, Eq)]
pub enum Part {
    /// What its obligations are, and of which files.
    Manifest,
    /// The clauses of the obligation of this number.
    Dimacs(u64),
    /// The log of the obligation of this number.
    Lrat(u64),
}

/// How far values are sought: the most turns of a loop and calls that are active, and the most conflicts.
#[derive(Clone, Copy, Debug)]
pub struct Search {
    pub bound: u64,
    pub conflicts: u64,
}

/// What is asked of three files: a verdict, whether a certificate is accepted, or values for the draws that a witness
/// leaves open.
#[derive(Clone, Copy, Debug)]
pub enum Asking<'a> {
    Judge(Budgets),
    Recheck(&'a str),
    Seek(Search),
}

/// What the arguments ask for.
#[derive(Drop)]
pub enum Asked<'a> {
    Judge {
        names: Names<'a>,
        asking: Asking<'a>,
        form: Form,
    },
    /// A part of a certificate.
    Export {
        names: Names<'a>,
        certificate: &'a str,
        part: Part,
        /// In which form is shown why it isn't handed out.
        form: Form,
    },
    /// Many judgements, by the name of their list.
    List {
        name: &'a str,
        budgets: Budgets,
        form: ListForm,
    },
    /// The help, as it is printed.
    Help(String),
    /// What is wrong with the arguments, as it may be printed.
    Misuse(String),
}

fn file<'a>(alloc: Global, name: &'a str, help: &'a str) -> Result<Arg<'a>, AllocError> {
    let arg = Arg::new(alloc, name)
        .long(name)
        .value_name("FILE")
        .help(help)
        .required_unless_present("list")?;
    Ok(arg)
}

fn flag<'a>(
    alloc: Global,
    name: &'a str,
    other: &'a str,
    help: &'a str,
) -> Result<Arg<'a>, AllocError> {
    let arg = Arg::new(alloc, name)
        .long(name)
        .action(ArgAction::SetTrue)
        .help(help)
        .conflicts_with(other)?;
    Ok(arg)
}

fn list<'a>(alloc: Global) -> Result<Arg<'a>, AllocError> {
    let arg = Arg::new(alloc, "list")
        .long("list")
        .value_name("FILE")
        .help(
            "Judges each line of a list, a program, a property and a witness parted by tabs or blanks, and prints a line of JSON for each, with its messages by --json, or one page by --html; - is standard input",
        )
        .conflicts_with("program")?
        .conflicts_with("property")?
        .conflicts_with("witness")?
        .conflicts_with("sarif")?;
    Ok(arg)
}

fn number<'a>(alloc: Global, name: &'a str, most: u64, default: &'a str, help: &'a str) -> Arg<'a> {
    Arg::new(alloc, name)
        .long(name)
        .value_name("N")
        .value_parser(ValueParser::unsigned(1, most))
        .default_value(default)
        .help(help)
}

fn with_files<'a>(alloc: Global, command: Command<'a>) -> Result<Command<'a>, AllocError> {
    let command = command
        .arg(file(alloc, "program", "The C program, preprocessed")?)?
        .arg(file(alloc, "property", "The property")?)?
        .arg(file(alloc, "witness", "The witness, format 2.0")?)?
        .arg(list(alloc)?)?;
    Ok(command)
}

fn with_forms<'a>(alloc: Global, command: Command<'a>) -> Result<Command<'a>, AllocError> {
    let json = flag(
        alloc,
        "json",
        "sarif",
        "Prints one line of JSON instead, with the reply and the messages",
    )?;
    let command = command
        .arg(flag(alloc, "sarif", "html", "Prints a SARIF 2.1.0 log instead")?)?
        .arg(flag(alloc, "html", "sarif", "Prints one page of HTML instead")?)?
        .arg(json.conflicts_with("html")?)?;
    Ok(command)
}

fn with_look<'a>(alloc: Global, command: Command<'a>) -> Result<Command<'a>, AllocError> {
    let colour = Arg::new(alloc, "colour")
        .long("colour")
        .value_name("WHEN")
        .help("Colours in text: always, never, or auto: on a terminal, unless NO_COLOR is set");
    let width = Arg::new(alloc, "width")
        .long("width")
        .value_name("N")
        .value_parser(ValueParser::unsigned(40, 1000))
        .help(
            "Cuts the lines of files to this width, 40 to 1000 bytes; else to COLUMNS on a terminal, and to 240",
        );
    let counts = Arg::new(alloc, "counts")
        .long("counts")
        .action(ArgAction::SetTrue)
        .help("Shows the program with its counts in text after the messages about a run, too");
    let command = command.arg(colour)?.arg(width)?.arg(counts)?;
    Ok(command)
}

fn with_budgets<'a>(alloc: Global, command: Command<'a>) -> Result<Command<'a>, AllocError> {
    let command = command
        .arg(number(
            alloc,
            "steps",
            100_000_000,
            "10000000",
            "The most steps of a run, 1 to 100000000",
        ))?
        .arg(number(
            alloc,
            "conflicts",
            1_000_000,
            "100000",
            "The most conflicts on one obligation, or in seek on all values, 1 to 1000000",
        ))?
        .arg(number(
            alloc,
            "bound",
            64,
            "8",
            "In seek, the most turns of a loop and the most calls that are active, 1 to 64",
        ))?;
    Ok(command)
}

fn command<'a>(alloc: Global) -> Result<Command<'a>, AllocError> {
    let mode = Arg::new(alloc, "mode").value_name("MODE").help(
        "validate, which may be left out, or seek, which looks for values of the draws that the witness leaves open",
    );
    let command = Command::new(alloc, "witval-view")
        .about(ABOUT)
        .after_help(AFTER)
        .arg(mode)?;
    let command = with_files(alloc, command)?;
    let command = with_forms(alloc, command)?;
    let command = with_parts(alloc, command)?;
    let command = with_look(alloc, command)?;
    with_budgets(alloc, command)
}

fn budgets(matches: &ArgMatches<'_>) -> Budgets {
    Budgets {
        steps: matches.get_one::<u64>("steps").unwrap_or(10_000_000),
        conflicts: matches.get_one::<u64>("conflicts").unwrap_or(100_000),
    }
}

/// The form that is asked for, where text is laid out like this.
fn wanted_form(matches: &ArgMatches<'_>, look: Look) -> Form {
    if matches.get_flag("sarif") {
        Form::Sarif
    } else if matches.get_flag("html") {
        Form::Html
    } else if matches.get_flag("json") {
        Form::Json
    } else if look == Look::plain() {
        Form::Text
    } else {
        Form::Screen(look)
    }
}

/// The form of a list that is asked for.
fn list_form(matches: &ArgMatches<'_>) -> ListForm {
    if matches.get_flag("html") {
        ListForm::Page
    } else if matches.get_flag("json") {
        ListForm::Messages
    } else {
        ListForm::Lines
    }
}

fn names<'a>(matches: &ArgMatches<'a>) -> Option<Names<'a>> {
    Some(Names {
        program: matches.get_str("program")?,
        property: matches.get_str("property")?,
        witness: matches.get_str("witness")?,
    })
}

fn misuse<'a>(alloc: Global, text: &str) -> Result<Asked<'a>, OutOfMemory> {
    Ok(Asked::Misuse(String::from_str(alloc, text)?))
}

fn asked_by<'a>(
    alloc: Global,
    matches: &ArgMatches<'a>,
    screen: Screen,
) -> Result<Asked<'a>, OutOfMemory> {
    let seeks = match matches.get_str("mode") {
        Some("validate") | None => false,
        Some("seek") => true,
        Some(_) => return misuse(alloc, "error: the modes are validate and seek\n"),
    };
    if seeks && !is_of_one_witness(matches) {
        return misuse(alloc, "error: seek takes one witness, and no certificate\n");
    }
    let Some(look) = wanted_look(matches, screen) else {
        return misuse(alloc, "error: --colour is always, never or auto\n");
    };
    let budgets = budgets(matches);
    if let Some(name) = matches.get_str("list") {
        return Ok(Asked::List {
            name,
            budgets,
            form: list_form(matches),
        });
    }
    match names(matches) {
        Some(names) => {
            let form = wanted_form(matches, look);
            Ok(asked_of(matches, names, seeks, budgets, form))
        }
        None => misuse(alloc, "error: a file isn't named\n"),
    }
}

/// Whether neither a list nor a certificate is named.
fn is_of_one_witness(matches: &ArgMatches<'_>) -> bool {
    matches.get_str("list").is_none() && matches.get_str("certificate").is_none()
}

/// How far values are sought.
fn search_of(matches: &ArgMatches<'_>, budgets: Budgets) -> Search {
    Search {
        bound: matches.get_one::<u64>("bound").unwrap_or(8),
        conflicts: budgets.conflicts,
    }
}

/// What is asked of three files, and of a certificate where one is named.
fn asked_of<'a>(
    matches: &ArgMatches<'a>,
    names: Names<'a>,
    seeks: bool,
    budgets: Budgets,
    form: Form,
) -> Asked<'a> {
    let asking = match matches.get_str("certificate") {
        Some(certificate) => match wanted_part(matches) {
            Some(part) => {
                return Asked::Export {
                    names,
                    certificate,
                    part,
                    form,
                };
            }
            None => Asking::Recheck(certificate),
        },
        None if seeks => Asking::Seek(search_of(matches, budgets)),
        None => Asking::Judge(budgets),
    };
    Asked::Judge {
        names,
        asking,
        form,
    }
}

/// What the arguments ask for, the first of which is the program's own name, where a file or a pipe is written.
pub fn read_words(alloc: Global, words: &[String]) -> Result<Asked<'_>, OutOfMemory> {
    read_words_at(alloc, words, Screen::file())
}

/// What the arguments ask for, where this screen is written on.
pub fn read_words_at(
    alloc: Global,
    words: &[String],
    screen: Screen,
) -> Result<Asked<'_>, OutOfMemory> {
    let command = command(alloc)?;
    match command.try_get_matches_from(words) {
        Ok(matches) => asked_by(alloc, &matches, screen),
        Err(error) => match error.kind() {
            ErrorKind::OutOfMemory => Err(OutOfMemory),
            ErrorKind::DisplayHelp => Ok(Asked::Help(format!(in alloc; "{error}")?)),
            _ => {
                let told = format!(in alloc; "{error}")?;
                Ok(Asked::Misuse(printable_text(alloc, told.as_str())?))
            }
        },
    }
}
