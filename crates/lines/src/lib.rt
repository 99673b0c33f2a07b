// Lines of a lent text.
#![tactic(auto)]

ghost use Rattle.std.specs.Prelude.{◌≡◌, length, leb};
ghost use Rattle.lines.specs.Line.{line_at};

// A line by its place in the text, without its line feed.
#[derive(Clone, Copy)]
pub struct Line {
    pub start: usize,
    pub len: usize,
}

// The line that a line feed closes, if one does, and the offset behind that line feed, or else the text's end.
#[derive(Clone, Copy)]
pub struct Found {
    pub line: Option<Line>,
    pub next: usize,
}

pub fn find_line(text: &[u8], at: usize) -> Found
    ensures { result ≡ line_at text.now at }
{
    for i in at..text.len() {
        if text[i] == b'\n' {
            return Found {
                line: Some(Line {
                    start: at,
                    len: i - at,
                }),
                next: i + 1,
            };
        }
    }
    Found {
        line: None,
        next: text.len(),
    }
}

pub fn is_end(text: &[u8], at: usize) -> bool
    ensures { result ≡ leb (length text.now) at }
{
    text.len() <= at
}
