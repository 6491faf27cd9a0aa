// A part of a certificate, handed out to other checkers.
use crate::replying::{replied_to, usage_reply};
use crate::showing::{Output, files_of, output_of};
use std::alloc::Global;
use view_certificate::{Obliged, exported, manifest, obliged_by};
use view_inputs::{Asking, Form, Keeping, Part};
use view_text::{File, Files};
use wv_arguments::Names;
use wv_base::{OutOfMemory, Shelf};

/// What is printed, and what is said on standard error.
#[derive(Drop)]
pub struct Handed {
    pub output: Output,
    pub told: String,
}

/// The bytes of a part; none where there is no obligation of its number.
fn bytes_of(
    alloc: Global,
    files: &Files<'_>,
    found: &Obliged,
    part: Part,
) -> Result<Option<Vec<u8>>, OutOfMemory> {
    let certificate = files.text(File::Certificate);
    let obligations = &found.obligations;
    match part {
        Part::Manifest => {
            let text = manifest(alloc, files, obligations.list.as_slice())?;
            Ok(Some(text.into_bytes()))
        }
        Part::Dimacs(number) => match exported(alloc, obligations, certificate, number)? {
            Some(both) => Ok(Some(both.dimacs)),
            None => Ok(None),
        },
        Part::Lrat(number) => match exported(alloc, obligations, certificate, number)? {
            Some(both) => Ok(Some(both.lrat)),
            None => Ok(None),
        },
    }
}

/// The answer to the number of an obligation that isn't there: that to misused words.
fn beyond(alloc: Global, count: usize) -> Result<Handed, OutOfMemory> {
    let replied = usage_reply(alloc)?;
    let told = format!(in alloc; "error: the obligations are numbered from 1 to {count}\n")?;
    Ok(Handed {
        output: Output {
            bytes: replied.reply,
            status: replied.status,
        },
        told,
    })
}

/// A part of an accepted certificate.
fn part_of(
    alloc: Global,
    files: &Files<'_>,
    found: &Obliged,
    part: Part,
) -> Result<Handed, OutOfMemory> {
    match bytes_of(alloc, files, found, part)? {
        Some(bytes) => Ok(Handed {
            output: Output { bytes, status: 0 },
            told: String::new(alloc),
        }),
        None => beyond(alloc, found.obligations.list.len()),
    }
}

/// A part of a certificate that is accepted; of another one what is shown of it, in a form.
pub fn hand_out<S: Shelf + Drop>(
    alloc: Global,
    names: &Names<'_>,
    certificate: &str,
    part: Part,
    form: Form,
    shelf: S,
) -> Result<Handed, OutOfMemory> {
    let mut shelf = Keeping::new(alloc, shelf);
    let replied = replied_to(alloc, names, Asking::Recheck(certificate), &mut shelf)?;
    if shelf.is_lost() {
        return Err(OutOfMemory);
    }
    let program = shelf.kept(0);
    let property = shelf.kept(1);
    let witness = shelf.kept(2);
    let kept = shelf.kept(3);
    let files = files_of(
        names.program,
        names.property,
        names.witness,
        certificate,
        program,
        property,
        witness,
        kept,
    );
    if replied.status == 0 {
        if let Some(found) = obliged_by(alloc, &files)? {
            return part_of(alloc, &files, &found, part);
        }
    }
    let output = output_of(alloc, &files, &replied, Asking::Recheck(certificate), form)?;
    Ok(Handed {
        output,
        told: String::new(alloc),
    })
}
