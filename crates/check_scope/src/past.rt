ghost use Rattle.std.specs.Prelude.{◌≡◌};
ghost use Rattle.check_scope.specs.Kinds.{types_stated};
ghost use Rattle.check_scope.specs.Pasts;

use crate::agreeing::{agree, count, same_result};
use crate::known::{Known, Stated};
use c_core::IntType;

/// The result of the latest function of a name, its place, and that of the latest with another result.
#[derive(Clone, Copy)]
pub struct Results {
    pub result: Option<IntType>,
    pub place: usize,
    pub other: Option<usize>,
}

/// The parameters that are stated latest, with the place of the latest that states others.
#[derive(Clone, Copy)]
pub struct Lists<'a> {
    pub stated: Stated<'a>,
    pub place: usize,
    pub other: Option<usize>,
}

/// What all declarations of a name make of it together. With places in place of flags it says of any
/// scope what its own declarations say, so that no scope that begins or ends has to change it.
#[derive(Clone, Copy)]
pub struct Past<'a> {
    /// What the name stands for.
    pub means: Known<'a>,
    /// How many parameters are stated first.
    pub count: Option<usize>,
    /// The places of the latest object and of the latest function with a body.
    pub object: Option<usize>,
    pub body: Option<usize>,
    pub results: Option<Results>,
    pub lists: Option<Lists<'a>>,
}

/// The place of the latest function with another result than the given one.
fn other_result(results: Option<Results>, given: Option<IntType>) -> Option<usize>
    ensures { result ≡ Pasts.other_result results given }
{
    match results {
        None => None,
        Some(latest) => {
            if same_result(latest.result, given) {
                latest.other
            } else {
                Some(latest.place)
            }
        }
    }
}

/// The place of the latest function that states other parameters than the given ones.
fn other_list(lists: Option<Lists>, given: Stated) -> Option<usize>
    ensures { result ≡ Pasts.other_list lists.entry (types_stated given.entry) }
{
    match (lists, given) {
        (None, _) | (_, Stated::Unstated) => None,
        (Some(latest), _) => {
            if agree(latest.stated, given) {
                latest.other
            } else {
                Some(latest.place)
            }
        }
    }
}

fn count_stated(stated: Stated) -> Option<usize>
    ensures { result ≡ Pasts.count_of (types_stated stated.entry) }
{
    match stated {
        Stated::Unstated => None,
        _ => Some(count(stated)),
    }
}

fn lists_with<'a>(place: usize, lists: Option<Lists<'a>>, stated: Stated<'a>) -> Option<Lists<'a>>
    ensures { result ≡ Pasts.lists_with place lists.entry stated.entry }
{
    match stated {
        Stated::Unstated => lists,
        _ => Some(Lists {
            stated,
            place,
            other: other_list(lists, stated),
        }),
    }
}

fn with_function<'a>(
    place: usize,
    past: Past<'a>,
    result_type: Option<IntType>,
    stated: Stated<'a>,
    has_body: bool,
) -> Past<'a>
    ensures { result ≡ Pasts.with_function place past.entry result_type stated.entry has_body }
{
    Past {
        means: Known::Function {
            result: result_type,
            stated,
            has_body,
        },
        count: past.count.or(count_stated(stated)),
        object: past.object,
        body: if has_body { Some(place) } else { past.body },
        results: Some(Results {
            result: result_type,
            place,
            other: other_result(past.results, result_type),
        }),
        lists: lists_with(place, past.lists, stated),
    }
}

fn or_blank<'a>(before: Option<Past<'a>>, known: Known<'a>) -> Past<'a>
    ensures { result ≡ Pasts.or_blank before.entry known.entry }
{
    match before {
        Some(past) => past,
        None => Past {
            means: known,
            count: None,
            object: None,
            body: None,
            results: None,
            lists: None,
        },
    }
}

/// With one declaration more, at a place.
pub fn with_known<'a>(place: usize, before: Option<Past<'a>>, known: Known<'a>) -> Past<'a>
    ensures { result ≡ Pasts.with_known place before.entry known.entry }
{
    let past = or_blank(before, known);
    match known {
        Known::Closed => past,
        Known::Object { .. } => Past {
            means: known,
            count: past.count,
            object: Some(place),
            body: past.body,
            results: past.results,
            lists: past.lists,
        },
        Known::Function {
            result,
            stated,
            has_body,
        } => with_function(place, past, result, stated, has_body),
    }
}

fn is_since(start: usize, place: Option<usize>) -> bool
    ensures { result ≡ Pasts.is_since start place }
{
    match place {
        None => false,
        Some(place) => start <= place,
    }
}

fn latest_function(results: Option<Results>) -> Option<usize>
    ensures { result ≡ Pasts.latest_function results }
{
    match results {
        None => None,
        Some(latest) => Some(latest.place),
    }
}

fn clashes(start: usize, past: Past, known: Known) -> bool
    ensures { result ≡ Pasts.clashes_since start past.entry known.entry }
{
    match known {
        Known::Closed => false,
        Known::Object { .. } => {
            is_since(start, past.object) || is_since(start, latest_function(past.results))
        }
        Known::Function {
            result,
            stated,
            has_body,
        } => {
            is_since(start, past.object)
                || is_since(start, other_result(past.results, result))
                || is_since(start, other_list(past.lists, stated))
                || (is_since(start, past.body) && has_body)
        }
    }
}

/// Whether one more declaration clashes with one that stands at this place or after.
pub fn is_clash(start: usize, past: Option<Past>, known: Known) -> bool
    ensures { result ≡ Pasts.is_clash start past.entry known.entry }
{
    match past {
        None => false,
        Some(past) => clashes(start, past, known),
    }
}
