// What entries say of themselves, and the whole text.
ghost use Rattle.std.specs.Prelude.{◌≡◌, ◌+◌, ◌++◌, IfOk, OnOk, string_bytes};
ghost use Rattle.wv_show.specs.Show.{content_size, created_line, entry_line, entry_lines, producer_line, summary_of, uuid_line};

use crate::claims::add_content;
use crate::words::{add_quoted, word_of_content};
use std::alloc::Global;
use wv_base::OutOfMemory;
use wv_schema::{Content, Entry, Metadata, Witness};
use wv_task::{created, identifier};

fn add_entry_line(out: &mut String, position: usize, content: &Content) -> Result<(), OutOfMemory>
    ensures { OnOk result (string_bytes out.new ≡ string_bytes out.old ++ entry_line position content.now) }
{
    let word = word_of_content(content);
    write!(out, "entry {position} {word}\n")?;
    Ok(())
}

fn add_producer(alloc: Global, out: &mut String, metadata: &Metadata) -> Result<(), OutOfMemory>
    ensures { OnOk result (string_bytes out.new ≡ string_bytes out.old ++ producer_line metadata.now) }
{
    out.push_str("producer ")?;
    add_quoted(alloc, out, &metadata.producer_name)?;
    out.push_str(" ")?;
    add_quoted(alloc, out, &metadata.producer_version)?;
    out.push_str("\n")?;
    Ok(())
}

fn add_uuid(alloc: Global, out: &mut String, metadata: &Metadata) -> Result<(), OutOfMemory>
    ensures { OnOk result (string_bytes out.new ≡ string_bytes out.old ++ uuid_line metadata.now) }
{
    match identifier(alloc, &metadata.uuid)? {
        Some(uuid) => {
            let uuid = uuid.as_str();
            write!(out, "uuid {uuid}\n")?;
        }
        None => out.push_str("uuid unread\n")?,
    }
    Ok(())
}

fn add_created(alloc: Global, out: &mut String, metadata: &Metadata) -> Result<(), OutOfMemory>
    ensures { OnOk result (string_bytes out.new ≡ string_bytes out.old ++ created_line metadata.now) }
{
    match created(alloc, &metadata.creation_time)? {
        Some(seconds) => write!(out, "created {seconds}\n")?,
        None => out.push_str("created unread\n")?,
    }
    Ok(())
}

/// The lines of an entry; the number of the next waypoint or invariant.
fn add_entry(
    alloc: Global,
    out: &mut String,
    position: usize,
    first: u64,
    entry: &Entry,
) -> Result<u64, OutOfMemory>
    ensures lines { OnOk result (string_bytes out.new ≡ string_bytes out.old ++ entry_lines position first entry.now) }
    ensures number { IfOk result (λ after. after ≡ first + content_size entry.now.content) }
{
    add_entry_line(out, position, &entry.content)?;
    add_producer(alloc, out, &entry.metadata)?;
    add_uuid(alloc, out, &entry.metadata)?;
    add_created(alloc, out, &entry.metadata)?;
    let after = add_content(alloc, out, first, &entry.content)?;
    Ok(after)
}

/// What is shown of a witness: each entry, with a line for each of its waypoints or invariants.
#[tactic(auto, unfolding(crate::specs::Show::summary_of))]
pub fn summary(alloc: Global, witness: &Witness) -> Result<Vec<u8>, OutOfMemory>
    ensures { IfOk result (λ bytes. bytes.items ≡ summary_of witness.now) }
{
    let mut out = String::new(alloc);
    let mut number = 1;
    for (index, entry) in witness.entries.as_slice().iter().enumerate() {
        number = add_entry(alloc, &mut out, index + 1, number, entry)?;
    }
    Ok(out.into_bytes())
}
