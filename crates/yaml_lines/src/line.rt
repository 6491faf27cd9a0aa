ghost use Rattle.std.specs.Prelude.{◌≡◌};
ghost use Rattle.std.specs.Str.{chars};
ghost use Rattle.yaml_lines.specs.Line.{line_at};

use crate::characters::Characters;
use std::marker::Model;

/// One line of a document: how many spaces it begins with, the text after them, and whether a line break ends it.
#[derive(Drop)]
pub struct Line<'a> {
    spaces: usize,
    rest: &'a str,
    has_break: bool,
}

impl<'a> Model for Line<'a> {
    ghost use Rattle.std.specs.Str.{chars};
    ghost use Rattle.yaml_lines.specs.Line.{Line as SourceLine, line_at, coded_line};

    ghost Value = { SourceLine };

    ghost coded = { coded_line };

    ghost view = { λ l. line_at l.spaces (chars l.rest.now) l.has_break };
}

impl<'a> Line<'a> {
    /// A line by its indentation, the text after that, and whether a line end stands after it.
    pub fn new(indent: usize, text: &'a str, ended: bool) -> Line<'a>
        ensures { result ≡ line_at indent (chars text.now) ended }
    {
        Line {
            spaces: indent,
            rest: text,
            has_break: ended,
        }
    }

    /// How many spaces the line begins with.
    pub fn indent(&self) -> usize
        ensures { result ≡ self.now.indent }
    {
        self.spaces
    }

    /// The characters after the indentation.
    pub fn text<'b>(&self) -> Characters<'a, 'b>
        ensures { result ≡ self.now.text }
    {
        Characters::of(self.rest)
    }

    /// The text after its spaces.
    pub fn slice(&self) -> &'a str
        ensures { chars result.now ≡ self.now.text }
    {
        self.rest
    }

    /// Whether a line end stands after the line.
    pub fn is_ended(&self) -> bool
        ensures { result ≡ self.now.ended }
    {
        self.has_break
    }
}
