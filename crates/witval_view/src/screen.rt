// What the process knows of its standard output.
use std::env;
use std::io::IsTerminal;
use view_inputs::Screen;

/// The number in COLUMNS, which shells know and `witval-view` hands on.
fn columns_of(rt: &HostRuntime) -> Option<u32> {
    match env::var(rt, "COLUMNS") {
        Ok(text) => text.as_str().parse::<u32>().ok(),
        Err(_) => None,
    }
}

/// Whether the environment asks for no colours: NO_COLOR is set to something, or the terminal is a dumb one.
fn is_plain(rt: &HostRuntime) -> bool {
    let asks = match env::var(rt, "NO_COLOR") {
        Ok(text) => !text.is_empty(),
        Err(_) => false,
    };
    let is_dumb = match env::var(rt, "TERM") {
        Ok(text) => text.as_str() == "dumb",
        Err(_) => true,
    };
    asks || is_dumb
}

/// Where standard output goes.
pub fn screen_of(rt: &HostRuntime) -> Screen {
    Screen {
        is_terminal: rt.stdout().is_terminal(),
        columns: columns_of(rt),
        is_plain: is_plain(rt),
    }
}
