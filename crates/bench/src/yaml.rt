// Reads the YAML text that its word names, and prints what its top is: what bench/yaml times.
use std::{fs, io};
use wv_yaml::{Tree, YamlFault, read};

/// Prints what the top is and how many items it has, or why the text is refused.
fn report(rt: &HostRuntime, bytes: &[u8]) -> io::Result<()> {
    match read(rt.alloc(), bytes) {
        Ok(Tree::Text(_)) => println!(rt; "text"),
        Ok(Tree::List(items)) => println!(rt; "list of {}", items.len()),
        Ok(Tree::Map(pairs)) => println!(rt; "map of {}", pairs.len()),
        Err(YamlFault::Bytes) => println!(rt; "bytes"),
        Err(YamlFault::Grammar) => println!(rt; "grammar"),
        Err(YamlFault::Duplicate) => println!(rt; "duplicate"),
        Err(YamlFault::OutOfMemory) => println!(rt; "out of memory"),
    }
}

pub fn run(rt: &HostRuntime, paths: &[String]) -> io::Result<()> {
    for path in paths {
        let bytes = fs::read(rt, path.as_str())?;
        report(rt, bytes.as_slice())?;
    }
    Ok(())
}
