ghost use Rattle.std.specs.Prelude.{◌≡◌, None, map, string_bytes};
ghost use Rattle.witval.specs.Kept.{KeepsBy, KeepsFor};
ghost use Rattle.witval.specs.Running.{Complete, CompleteFor, Runs, RunsFor};
ghost use Rattle.witval.specs.inside.Allowed.{AreAllowed};
ghost use Rattle.wv_arguments.specs.Requests.{stated};

use crate::answer::answer;
use crate::output::{bytes_of, status_of};
use c_core::Program;
use std::alloc::Global;
use wv_arguments::{Asked, read_words};
use wv_base::{Shelf, Sink, write_all};

/// What is asked for is read or made, judged, shown or brought into canonical form, and written.
fn run_asked<S: Shelf, O: Sink>(
    alloc: Global,
    asked: &Asked<'_>,
    shelf: &mut S,
    out: &mut O,
    kept: &mut Option<Program>,
) -> u8
    requires allowed { AreAllowed (stated asked.now).wanted }
    requires none { kept.old ≡ None }
    ensures runs { RunsFor (stated asked.now) (S.state shelf.old) (S.state shelf.new) (O.state out.old)
        (O.state out.new) result }
    ensures complete { CompleteFor (stated asked.now) (S.state shelf.old) (S.state shelf.new) (O.state out.old)
        (O.state out.new) result }
    ensures kept { KeepsFor (stated asked.now).wanted (S.state shelf.old) kept.new }
{
    let Ok(output) = answer(alloc, asked, shelf, kept) else {
        return 6;
    };
    let status = status_of(&output);
    let Ok(bytes) = bytes_of(alloc, output, asked.json) else {
        return 6;
    };
    match write_all(out, bytes.as_slice()) {
        Ok(()) => status,
        Err(_) => 5,
    }
}

/// The same for the arguments of a command line.
fn run_words<S: Shelf, O: Sink>(
    alloc: Global,
    words: &[String],
    shelf: &mut S,
    out: &mut O,
    kept: &mut Option<Program>,
) -> u8
    requires none { kept.old ≡ None }
    ensures runs { Runs (map string_bytes words.now) (S.state shelf.old) (S.state shelf.new) (O.state out.old)
        (O.state out.new) result }
    ensures complete { Complete (map string_bytes words.now) (S.state shelf.old) (S.state shelf.new) (O.state out.old)
        (O.state out.new) result }
    ensures kept { KeepsBy (map string_bytes words.now) (S.state shelf.old) kept.new }
{
    match read_words(alloc, words) {
        Ok(asked) => run_asked(alloc, &asked, shelf, out, kept),
        Err(_) => 6,
    }
}

/// All that the program does. It reads the files that the arguments name, does what the mode asks for (`Request` lists
/// the modes), and writes the output.
///
/// The status is the output's, 5 where a write failed, 6 where memory ran out. All bytes stand in memory before the
/// first of them is written.
pub fn run<S: Shelf, O: Sink>(alloc: Global, words: &Vec<String>, shelf: &mut S, out: &mut O) -> u8
    ensures runs { Runs (map string_bytes words.now.items) (S.state shelf.old) (S.state shelf.new) (O.state out.old)
        (O.state out.new) result }
    ensures complete { Complete (map string_bytes words.now.items) (S.state shelf.old) (S.state shelf.new)
        (O.state out.old) (O.state out.new) result }
{
    run_words(alloc, words, shelf, out, &mut None)
}

/// The same. Where the mode is `validate` or `seek`, `kept`, which is `None` before, may be a checked program of the
/// program's file; that one is kept isn't promised. So whoever explains the answer need not read the file again.
pub fn run_keeping<S: Shelf, O: Sink>(
    alloc: Global,
    words: &Vec<String>,
    shelf: &mut S,
    out: &mut O,
    kept: &mut Option<Program>,
) -> u8
    requires none { kept.old ≡ None }
    ensures runs { Runs (map string_bytes words.now.items) (S.state shelf.old) (S.state shelf.new) (O.state out.old)
        (O.state out.new) result }
    ensures complete { Complete (map string_bytes words.now.items) (S.state shelf.old) (S.state shelf.new)
        (O.state out.old) (O.state out.new) result }
    ensures kept { KeepsBy (map string_bytes words.now.items) (S.state shelf.old) kept.new }
{
    run_words(alloc, words, shelf, out, kept)
}
