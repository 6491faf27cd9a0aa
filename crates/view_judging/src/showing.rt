// One judgement: the reply of the validator, and what there is to look at.
use crate::replying::{Replied, replied_to};
use crate::searching::explain_search;
use c_core::Program;
use std::alloc::Global;
use view_certificate::explain_certificate;
use view_inputs::{Asking, Form, Keeping};
use view_pages::{json_of, log_of, page_of};
use view_program::{Question, explain};
use view_text::{
    File, Files, Look, Messages, advice, escaped_json, lay_out_counts, lay_out_listing,
    lay_out_message, printable_text,
};
use wv_arguments::Names;
use wv_base::{OutOfMemory, Shelf};

/// The bytes that are shown of a judgement, and its status.
#[derive(Drop)]
pub struct Output {
    pub bytes: Vec<u8>,
    pub status: u8,
}

/// The code of a reply to files that weren't read whole, and the file.
fn unread(reply: &str) -> Option<(&'static str, File)> {
    match reply {
        "fault read program\n" => Some(("fault", File::Program)),
        "fault read property\n" => Some(("fault", File::Property)),
        "fault read witness\n" => Some(("fault", File::Witness)),
        "fault read certificate\n" => Some(("fault", File::Certificate)),
        "refused too-long program\n" => Some(("too-long", File::Program)),
        "refused too-long property\n" => Some(("too-long", File::Property)),
        "refused too-long witness\n" => Some(("too-long", File::Witness)),
        "refused too-long certificate\n" => Some(("too-long", File::Certificate)),
        _ => None,
    }
}

/// What there is to say of files that were read whole.
fn explain_reply(
    alloc: Global,
    files: &Files<'_>,
    reply: &str,
    program: Option<&Program>,
    asking: Asking<'_>,
    messages: &mut Messages,
) -> Result<(), OutOfMemory> {
    match asking {
        Asking::Judge(budgets) => {
            let question = Question {
                budgets,
                values: None,
                program,
            };
            explain(alloc, files, question, messages)
        }
        Asking::Recheck(_) => explain_certificate(alloc, files, reply, messages),
        Asking::Seek(_) => explain_search(alloc, files, reply, program, messages),
    }
}

/// What there is to say of a reply.
pub fn messages_of(
    alloc: Global,
    replied: &Replied,
    files: &Files<'_>,
    asking: Asking<'_>,
) -> Result<Messages, OutOfMemory> {
    let reply = String::from_utf8_lossy(alloc, replied.reply.as_slice())?;
    let mut messages = Messages::new(alloc);
    match unread(reply.as_str()) {
        Some((code, file)) => {
            let told = String::from_str(alloc, advice(code))?;
            messages.error(code, file, None, told)?;
        }
        None => {
            let program = replied.program.as_ref();
            explain_reply(alloc, files, reply.as_str(), program, asking, &mut messages)?;
        }
    }
    Ok(messages)
}

/// Messages one after another, and the program with its counts where these are asked for; or a confirmation in the text
/// of the program.
fn shown_text(
    alloc: Global,
    look: Look,
    files: &Files<'_>,
    messages: &Messages,
) -> Result<String, OutOfMemory> {
    let mut text = String::new(alloc);
    if messages.is_confirmed() {
        lay_out_listing(alloc, &mut text, look, files, messages)?;
        return Ok(text);
    }
    for message in messages.as_slice() {
        lay_out_message(alloc, &mut text, look, files, message)?;
    }
    if look.has_counts && !messages.counts().is_empty() {
        lay_out_counts(alloc, &mut text, look, files, messages)?;
    }
    Ok(text)
}

/// The reply as a terminal may have it.
fn printable_reply(alloc: Global, replied: &Replied) -> Result<String, OutOfMemory> {
    let reply = String::from_utf8_lossy(alloc, replied.reply.as_slice())?;
    printable_text(alloc, reply.as_str())
}

/// The reply's own bytes, and after them what there is to look at.
fn shown_after(
    alloc: Global,
    look: Look,
    files: &Files<'_>,
    replied: &Replied,
    messages: &Messages,
) -> Result<Vec<u8>, OutOfMemory> {
    let text = shown_text(alloc, look, files, messages)?;
    let mut bytes = if look.is_terminal {
        printable_reply(alloc, replied)?.into_bytes()
    } else {
        replied.reply.clone()?
    };
    bytes.extend_from_slice(text.as_bytes())?;
    Ok(bytes)
}

/// One line of JSON, without characters that a terminal takes for commands.
pub fn json_line(
    alloc: Global,
    files: &Files<'_>,
    replied: &Replied,
    messages: &Messages,
) -> Result<String, OutOfMemory> {
    let reply = String::from_utf8_lossy(alloc, replied.reply.as_slice())?;
    let messages = messages.as_slice();
    let line = json_of(alloc, files, reply.as_str(), replied.status, messages)?;
    escaped_json(alloc, line.as_str())
}

/// A log in one line, without such characters either.
fn log_line(
    alloc: Global,
    files: &Files<'_>,
    replied: &Replied,
    messages: &Messages,
) -> Result<String, OutOfMemory> {
    let reply = String::from_utf8_lossy(alloc, replied.reply.as_slice())?;
    let messages = messages.as_slice();
    let log = log_of(alloc, files, reply.as_str(), replied.status, messages)?;
    escaped_json(alloc, log.as_str())
}

/// The whole of what is printed.
fn printed(
    alloc: Global,
    files: &Files<'_>,
    replied: &Replied,
    messages: &Messages,
    form: Form,
) -> Result<Vec<u8>, OutOfMemory> {
    let reply = String::from_utf8_lossy(alloc, replied.reply.as_slice())?;
    let reply = reply.as_str();
    let text = match form {
        Form::Text => return shown_after(alloc, Look::plain(), files, replied, messages),
        Form::Screen(look) => return shown_after(alloc, look, files, replied, messages),
        Form::Html => page_of(alloc, files, reply, messages)?,
        Form::Json => json_line(alloc, files, replied, messages)?,
        Form::Sarif => log_line(alloc, files, replied, messages)?,
    };
    Ok(text.into_bytes())
}

/// The files that are judged, by their names and by what was read of them.
pub fn files_of<'a>(
    program_name: &'a str,
    property_name: &'a str,
    witness_name: &'a str,
    certificate_name: &'a str,
    program: &'a [u8],
    property: &'a [u8],
    witness: &'a [u8],
    certificate: &'a [u8],
) -> Files<'a> {
    Files {
        names: [program_name, property_name, witness_name, certificate_name],
        texts: [program, property, witness, certificate],
    }
}

/// The name of the certificate that is asked about.
fn certificate_of<'a>(asking: Asking<'a>) -> &'a str {
    match asking {
        Asking::Recheck(certificate) => certificate,
        Asking::Judge(_) | Asking::Seek(_) => "",
    }
}

/// All that is shown of a reply, in one of its forms.
pub fn output_of(
    alloc: Global,
    files: &Files<'_>,
    replied: &Replied,
    asking: Asking<'_>,
    form: Form,
) -> Result<Output, OutOfMemory> {
    let messages = messages_of(alloc, replied, files, asking)?;
    let bytes = printed(alloc, files, replied, &messages, form)?;
    Ok(Output {
        bytes,
        status: replied.status,
    })
}

/// What is asked of the files of a shelf, answered in one of the forms.
pub fn shown<S: Shelf + Drop>(
    alloc: Global,
    names: &Names<'_>,
    asking: Asking<'_>,
    form: Form,
    shelf: S,
) -> Result<Output, OutOfMemory> {
    let mut shelf = Keeping::new(alloc, shelf);
    let replied = replied_to(alloc, names, asking, &mut shelf)?;
    if shelf.is_lost() {
        return Err(OutOfMemory);
    }
    let program = shelf.kept(0);
    let property = shelf.kept(1);
    let witness = shelf.kept(2);
    let kept = shelf.kept(3);
    let name = certificate_of(asking);
    let files = files_of(
        names.program,
        names.property,
        names.witness,
        name,
        program,
        property,
        witness,
        kept,
    );
    output_of(alloc, &files, &replied, asking, form)
}
