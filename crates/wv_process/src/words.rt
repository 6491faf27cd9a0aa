use std::alloc::Global;
use std::env;
use std::io::ErrorKind;

/// Words are shorter, and fewer, than this.
const MANY: usize = 1 << 30;

/// The arguments of the command line, or the status that the program ends with: 6 where memory ran out, 7 for one that
/// isn't UTF-8.
pub fn words_of(rt: &HostRuntime, alloc: Global) -> Result<Vec<String>, u8> {
    let args = match env::args(rt) {
        Ok(args) => args,
        Err(e) if e.kind() == ErrorKind::OutOfMemory => return Err(6),
        Err(_) => return Err(7),
    };
    let mut words = Vec::new(alloc);
    for word in args {
        if word.len() >= MANY || words.len() >= MANY - 1 {
            return Err(7);
        }
        if words.push(word).is_err() {
            return Err(6);
        }
    }
    Ok(words)
}
