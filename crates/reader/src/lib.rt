// The reader that keeps a lent text beside the offset of its next line.
#![tactic(auto)]

ghost use Rattle.std.specs.Prelude.{◌≡◌, length, leb};
ghost use Rattle.lines.specs.Line.{line_at};

use lines::{Found, Line};

pub mod numbers;

#[derive(Clone, Copy)]
pub struct Reader<'a> {
    pub text: &'a [u8],
    pub at: usize,
}

// A line, and the reader that goes on behind it.
#[derive(Clone, Copy)]
pub struct Taken<'a> {
    pub line: Option<Line>,
    pub rest: Reader<'a>,
}

pub fn new<'a>(text: &'a [u8]) -> Reader<'a>
    ensures { (result.text ≡ text.entry) × (result.at ≡ 0) }
{
    Reader { text, at: 0 }
}

pub fn next_line<'a>(r: Reader<'a>) -> Taken<'a>
    ensures { (result.line ≡ (line_at r.entry.text.now r.entry.at).line) × (result.rest.text ≡ r.entry.text) × (result.rest.at ≡ (line_at r.entry.text.now r.entry.at).next) }
{
    let f = lines::find_line(r.text, r.at);
    Taken {
        line: f.line,
        rest: Reader {
            text: r.text,
            at: f.next,
        },
    }
}

pub fn at_end<'a>(r: Reader<'a>) -> bool
    ensures { result ≡ leb (length r.entry.text.now) r.entry.at }
{
    lines::is_end(r.text, r.at)
}

// For callers with a plain text and an offset, with no reader in the signature. A table's header line, its closing line and its end are found through these.

pub fn first_line(text: &[u8]) -> Found
    ensures { result ≡ line_at text.now 0 }
{
    let t = next_line(new(text));
    Found {
        line: t.line,
        next: t.rest.at,
    }
}

pub fn line_at(text: &[u8], at: usize) -> Found
    ensures { result ≡ line_at text.now at }
{
    let t = next_line(Reader { text, at });
    Found {
        line: t.line,
        next: t.rest.at,
    }
}

pub fn ends_at(text: &[u8], at: usize) -> bool
    ensures { result ≡ leb (length text.now) at }
{
    at_end(Reader { text, at })
}
