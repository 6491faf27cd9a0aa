// What the reader's screen is, and how it is written on.
use clap::ArgMatches;
use view_text::Look;

/// Where what is printed goes.
#[derive(Clone, Copy, Debug)]
pub struct Screen {
    /// Whether it goes to a terminal.
    pub is_terminal: bool,
    /// How many columns that has, where it is known.
    pub columns: Option<u32>,
    /// Whether the environment asks for no colours, by NO_COLOR or by a terminal that has none.
    pub is_plain: bool,
}

impl Screen {
    /// A file or a pipe.
    pub fn file() -> Screen {
        Screen {
            is_terminal: false,
            columns: None,
            is_plain: true,
        }
    }

    /// How wide a line may be, where no argument says it.
    fn width(&self) -> u32 {
        match self.columns {
            Some(columns) if self.is_terminal => columns,
            _ => Look::plain().width,
        }
    }
}

/// Whether colours are asked for; none where the argument says neither.
fn wanted_colours(word: Option<&str>, screen: Screen) -> Option<bool> {
    match word {
        Some("always") => Some(true),
        Some("never") => Some(false),
        Some("auto") | None => Some(screen.is_terminal && !screen.is_plain),
        Some(_) => None,
    }
}

/// How text is laid out on a screen; none where the argument of `--colour` is none of its words.
pub fn wanted_look(matches: &ArgMatches<'_>, screen: Screen) -> Option<Look> {
    let is_coloured = wanted_colours(matches.get_str("colour"), screen)?;
    let width = match matches.get_one::<u64>("width") {
        Some(width) => u32::try_from(width).unwrap_or(u32::MAX),
        None => screen.width(),
    };
    Some(Look {
        width,
        is_coloured,
        has_counts: matches.get_flag("counts"),
        is_terminal: screen.is_terminal,
    })
}
