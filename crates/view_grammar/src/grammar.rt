// The token of an item that the grammar can't take: the first behind the longest front of the item that something
// completes to an item.
use crate::brackets::Walk;
use crate::fronts::Front;
use crate::sources::tokens_of;
use c_core::Spot;
use c_tokens::{Punct, Token, TokenKind};
use std::alloc::Global;
use view_text::{Growing, last_holding, offset_of};
use wv_base::OutOfMemory;

/// Items are looked into so far, in bytes.
const DEEPEST: usize = 65_536;

/// After so many tokens that nothing completes the search ends.
const MOST_MISSES: u32 = 8;

/// So many tokens of one statement are tried.
const LONGEST: usize = 400;

/// An item, from its first byte to where it is looked into.
#[derive(Drop)]
struct Item<'a> {
    text: &'a [u8],
    tokens: &'a [Token],
    /// How many bytes stand before each token.
    starts: &'a [usize],
    /// The numbers of tokens behind which a statement may begin.
    counts: &'a [usize],
}

impl<'a> Item<'a> {
    /// How many bytes stand before a token.
    fn start(&self, index: usize) -> usize {
        self.starts.get(index).copied().unwrap_or(self.text.len())
    }

    /// The text of so many tokens.
    fn front(&self, count: usize) -> &'a [u8] {
        let end = self.start(count);
        self.text.get(..end).unwrap_or(self.text)
    }

    /// A token's text, with the gap behind it.
    fn piece(&self, index: usize) -> &'a [u8] {
        let start = self.start(index);
        let end = self.start(index.saturating_add(1));
        self.text.get(start..end).unwrap_or(&[])
    }

    fn walk(&self, alloc: Global, count: usize) -> Result<Walk, OutOfMemory> {
        let mut walk = Walk::new(alloc);
        for token in self.tokens.get(..count).unwrap_or(self.tokens) {
            walk.pass(token)?;
        }
        Ok(walk)
    }

    /// Whether something completes the front of so many tokens, which ends with a statement.
    fn is_whole_front(&self, alloc: Global, count: usize) -> Result<bool, OutOfMemory> {
        let walk = self.walk(alloc, count)?;
        let front = Front::of(alloc, self.front(count), walk)?;
        front.is_whole(alloc)
    }

    /// The front of so many tokens without what stands whole in its blocks.
    fn shortened(&self, alloc: Global, count: usize) -> Result<Front, OutOfMemory> {
        let mut front = Front::new(alloc);
        let tokens = self.tokens.get(..count).unwrap_or(self.tokens);
        for (index, token) in tokens.iter().enumerate() {
            let next = self.tokens.get(index.saturating_add(1));
            front.pass_shortened(token, self.piece(index), next)?;
        }
        Ok(front)
    }

    /// A front that something completes exactly where it completes that of so many tokens, as short as may be.
    fn front_for(&self, alloc: Global, count: usize) -> Result<Front, OutOfMemory> {
        let front = self.shortened(alloc, count)?;
        if front.is_whole(alloc)? {
            return Ok(front);
        }
        let walk = self.walk(alloc, count)?;
        Front::of(alloc, self.front(count), walk)
    }
}

impl Growing for Item<'_> {
    fn holds(&self, alloc: Global, length: usize) -> Result<bool, OutOfMemory> {
        match self.counts.get(length) {
            Some(count) => self.is_whole_front(alloc, *count),
            None => Ok(false),
        }
    }
}

/// Whether a statement or a block may begin behind a token.
fn may_end(token: &Token) -> bool {
    matches!(
        &token.kind,
        TokenKind::Punct(Punct::Semicolon | Punct::BraceOpen | Punct::BraceClose)
    )
}

/// The numbers of tokens behind which a statement may begin.
fn statement_counts(alloc: Global, tokens: &[Token]) -> Result<Vec<usize>, OutOfMemory> {
    let mut counts = Vec::new(alloc);
    counts.push(0)?;
    let mut walk = Walk::new(alloc);
    for (index, token) in tokens.iter().enumerate() {
        walk.pass(token)?;
        if may_end(token) && walk.is_between_statements() {
            counts.push(index.saturating_add(1))?;
        }
    }
    Ok(counts)
}

/// The most tokens of a statement, from so many on, that something completes.
fn last_front(alloc: Global, item: &Item<'_>, from: usize) -> Result<usize, OutOfMemory> {
    let mut front = item.front_for(alloc, from)?;
    let mut last = from;
    let mut misses = 0u32;
    for index in from..from.saturating_add(LONGEST) {
        let Some(token) = item.tokens.get(index) else {
            break;
        };
        front.pass(token, item.piece(index))?;
        if front.is_completed(alloc)? {
            last = index.saturating_add(1);
            misses = 0;
        } else {
            misses = misses.saturating_add(1);
        }
        if misses >= MOST_MISSES {
            break;
        }
    }
    Ok(last)
}

/// The number of the first token that can't be taken.
fn first_untaken(alloc: Global, item: &Item<'_>) -> Result<usize, OutOfMemory> {
    let last = last_holding(alloc, item, 0, item.counts.len())?;
    let from = item.counts.get(last).copied().unwrap_or(0);
    last_front(alloc, item, from)
}

/// Whether a token stands at a place.
fn is_at(token: &Token, spot: Spot) -> bool {
    token.spot.line == spot.line && token.spot.column == spot.column
}

/// How many tokens stand before the one at a place.
fn tokens_before(tokens: &[Token], spot: Spot) -> usize {
    for (index, token) in tokens.iter().enumerate() {
        if is_at(token, spot) {
            return index;
        }
    }
    0
}

/// The place behind a byte.
fn behind(spot: Spot, byte: u8) -> Spot {
    if byte == b'\n' {
        Spot {
            line: spot.line.saturating_add(1),
            column: 1,
        }
    } else {
        Spot {
            line: spot.line,
            column: spot.column.saturating_add(1),
        }
    }
}

/// How many bytes stand between the first token and each, as far as the text goes.
fn starts_of(alloc: Global, text: &[u8], tokens: &[Token]) -> Result<Vec<usize>, OutOfMemory> {
    let mut starts = Vec::new(alloc);
    let Some(first) = tokens.first() else {
        return Ok(starts);
    };
    let mut spot = first.spot;
    for (at, byte) in text.iter().enumerate() {
        if let Some(token) = tokens.get(starts.len()) {
            if is_at(token, spot) {
                starts.push(at)?;
            }
        }
        spot = behind(spot, *byte);
    }
    Ok(starts)
}

/// The bytes of an item that are looked into.
fn part_of(text: &[u8], item: Spot) -> &[u8] {
    let begin = offset_of(text, item);
    let end = begin.saturating_add(DEEPEST).min(text.len());
    text.get(begin..end).unwrap_or(&[])
}

/// The place of the first of these tokens that the grammar can't take, where they begin with an item of this text.
fn untaken_among(
    alloc: Global,
    text: &[u8],
    tokens: &[Token],
) -> Result<Option<Spot>, OutOfMemory> {
    let starts = starts_of(alloc, text, tokens)?;
    let tokens = tokens.get(..starts.len()).unwrap_or(tokens);
    let counts = statement_counts(alloc, tokens)?;
    let item = Item {
        text,
        tokens,
        starts: starts.as_slice(),
        counts: counts.as_slice(),
    };
    let count = first_untaken(alloc, &item)?;
    match tokens.get(count) {
        Some(token) => Ok(Some(token.spot)),
        None => Ok(None),
    }
}

/// The place of the token of an item that the grammar can't take; of none where the item isn't ended by the text's end.
pub fn untaken(alloc: Global, text: &[u8], item: Spot) -> Result<Option<Spot>, OutOfMemory> {
    let all = tokens_of(alloc, text)?;
    let before = tokens_before(all.as_slice(), item);
    let tokens = all.as_slice().get(before..).unwrap_or(&[]);
    untaken_among(alloc, part_of(text, item), tokens)
}
