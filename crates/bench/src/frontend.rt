// Reads the C source text that its word names, and prints how many tokens it has: what bench/frontend times.
use c_tokens::{TokenFault, tokens};
use std::{fs, io};

/// Prints the number of tokens, or where the text is none.
fn report(rt: &HostRuntime, bytes: &[u8]) -> io::Result<()> {
    match tokens(rt.alloc(), bytes) {
        Ok(found) => println!(rt; "{} tokens", found.len()),
        Err(TokenFault::Token { line, column }) => println!(rt; "token {line}:{column}"),
        Err(TokenFault::Directive { line }) => println!(rt; "directive {line}"),
        Err(TokenFault::OutOfMemory) => println!(rt; "out of memory"),
    }
}

pub fn run(rt: &HostRuntime, paths: &[String]) -> io::Result<()> {
    for path in paths {
        let bytes = fs::read(rt, path.as_str())?;
        report(rt, bytes.as_slice())?;
    }
    Ok(())
}
