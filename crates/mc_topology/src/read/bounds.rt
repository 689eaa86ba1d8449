//! Bounds what parsing a text as TOML takes, by one pass over its bytes before: each table and each
//! value has a mark of its own, and each pair is compared with the header above it.

ghost use Rattle.std.specs.Prelude.{◌≡◌, ◌<◌, ◌≤◌, ◌^◌, length};
ghost use Rattle.mc_topology.specs.Bounds.{after_outside_byte, after_one_line_byte, after_multi_line_byte};
ghost use Rattle.mc_topology.specs.Bounds.{after_byte, is_blank, is_mark, is_outside, is_skipped_in_header};
ghost use Rattle.mc_topology.specs.Bounds.{part_with_byte, part_after, nesting_after, header_after};
ghost use Rattle.mc_topology.specs.Bounds.{with_byte, is_bounded};

use mc_text::MAX_TEXT;

/// The most marks of a text. A topology of the most rows has at most 125,451.
const MAX_MARKS: usize = 131_072;

/// The most bytes that are compared. A topology has at most 45,568 pairs below headers of at most 96
/// bytes, if all letters of their keys are escaped.
const MAX_COMPARED: usize = 268_435_456;

/// Whether the next byte is in a string, in a comment or outside of both.
#[derive(Clone, Copy)]
enum LexState {
    /// Outside of strings and comments.
    Outside,
    /// In a comment.
    Comment,
    /// After the first quote of a string, which is this byte.
    OneQuote(u8),
    /// After two quotes: they are an empty string, or a third one begins a multi-line string.
    TwoQuotes(u8),
    /// In a single-line string.
    OneLine(u8),
    /// After a backslash in a single-line string.
    OneLineEscape,
    /// In a multi-line string, after this many of its quotes in a row, of which three end it.
    MultiLine(u8, u8),
    /// After a backslash in a multi-line string.
    MultiLineEscape,
}

/// The part of a line that the next byte is in.
#[derive(Clone, Copy)]
enum LinePart {
    /// Before the first byte that is no blank and no byte order mark.
    Margin,
    /// In a header, from its `[` on.
    Header,
    /// After anything else, or within brackets that an earlier line opened.
    Rest,
}

/// What a pass over a text has found so far.
#[derive(Clone, Copy)]
struct Scan {
    state: LexState,
    part: LinePart,
    /// How many brackets are open.
    nesting: usize,
    /// How many bytes the last header has.
    header: usize,
    /// How many bytes the headers above each `=` have together.
    compared: usize,
    /// How many marks there are.
    marks: usize,
}

/// The state after a byte outside of strings and comments.
fn after_outside_byte(byte: u8) -> LexState
    ensures { result ≡ after_outside_byte byte }
{
    match byte {
        b'#' => LexState::Comment,
        b'"' | b'\'' => LexState::OneQuote(byte),
        _ => LexState::Outside,
    }
}

/// The state after a byte of a single-line string. A string that its line doesn't end is no TOML; it ends
/// with the line here, so that the rest is counted as before.
fn after_one_line_byte(quote: u8, byte: u8) -> LexState
    ensures { result ≡ after_one_line_byte quote byte }
{
    if byte == quote || byte == b'\n' {
        LexState::Outside
    } else if byte == b'\\' && quote == b'"' {
        LexState::OneLineEscape
    } else {
        LexState::OneLine(quote)
    }
}

/// The state after a byte of a multi-line string, or after one that ended it.
fn after_multi_line_byte(quote: u8, quotes: u8, byte: u8) -> LexState
    ensures { result ≡ after_multi_line_byte quote quotes byte }
{
    if byte == quote && quotes < 3 {
        LexState::MultiLine(quote, quotes + 1)
    } else if byte == quote {
        LexState::MultiLine(quote, quotes)
    } else if quotes >= 3 {
        after_outside_byte(byte)
    } else if byte == b'\\' && quote == b'"' {
        LexState::MultiLineEscape
    } else {
        LexState::MultiLine(quote, 0)
    }
}

/// Whether the byte is white space.
fn is_blank(byte: u8) -> bool
    ensures { result ≡ is_blank byte }
{
    matches!(byte, b'\t' | b'\n' | b'\r' | b' ')
}

/// Whether the byte is a mark of a table or a value, outside of strings and comments.
fn is_mark(byte: u8) -> bool
    ensures { result ≡ is_mark byte }
{
    matches!(byte, b'.' | b',' | b'=' | b'{' | b'[')
}

/// How many brackets are open after a byte outside of strings and comments.
fn nesting_after(nesting: usize, byte: u8) -> usize
    requires bounded { nesting < MAX_TEXT }
    ensures value { result ≡ nesting_after nesting byte }
{
    match byte {
        b'[' | b'{' => nesting + 1,
        b']' | b'}' => nesting.saturating_sub(1),
        _ => nesting,
    }
}

impl LexState {
    /// The state after a byte.
    #[tactic(auto, unfolding(crate::specs::Bounds::after_byte))]
    fn after_byte(self, byte: u8) -> LexState
        ensures { result ≡ after_byte self byte }
    {
        match self {
            LexState::Outside => after_outside_byte(byte),
            LexState::Comment if byte == b'\n' => LexState::Outside,
            LexState::Comment => LexState::Comment,
            LexState::OneQuote(quote) if byte == quote => LexState::TwoQuotes(quote),
            LexState::OneQuote(quote) => after_one_line_byte(quote, byte),
            LexState::TwoQuotes(quote) if byte == quote => LexState::MultiLine(quote, 0),
            LexState::TwoQuotes(_) => after_outside_byte(byte),
            LexState::OneLine(quote) => after_one_line_byte(quote, byte),
            LexState::OneLineEscape => LexState::OneLine(b'"'),
            LexState::MultiLine(quote, quotes) => after_multi_line_byte(quote, quotes, byte),
            LexState::MultiLineEscape => LexState::MultiLine(b'"', 0),
        }
    }

    fn is_outside(self) -> bool
        ensures { result ≡ is_outside self }
    {
        matches!(self, LexState::Outside)
    }

    /// Whether a byte that leads to this state isn't counted in its header: it is in a comment, or a
    /// blank outside of strings.
    fn is_skipped_in_header(self, byte: u8) -> bool
        ensures { result ≡ is_skipped_in_header self byte }
    {
        match self {
            LexState::Outside => is_blank(byte),
            LexState::Comment => true,
            _ => false,
        }
    }
}

impl LinePart {
    /// The part of the line after a byte that doesn't end the line.
    fn with_byte(self, byte: u8) -> LinePart
        ensures { result ≡ part_with_byte self byte }
    {
        match self {
            LinePart::Margin if byte == b'[' => LinePart::Header,
            LinePart::Margin if is_blank(byte) || byte >= 128 => LinePart::Margin,
            LinePart::Margin => LinePart::Rest,
            other => other,
        }
    }

    /// The part of the line after a byte, with this many brackets open before it.
    fn after_byte(self, nesting: usize, is_outside: bool, byte: u8) -> LinePart
        ensures { result ≡ part_after self nesting is_outside byte }
    {
        if !is_outside || byte != b'\n' {
            self.with_byte(byte)
        } else if nesting == 0 {
            LinePart::Margin
        } else {
            LinePart::Rest
        }
    }

    /// How many bytes the last header has after a byte that leads to this state.
    fn header_after(self, header: usize, state: LexState, byte: u8) -> usize
        requires bounded { header < MAX_TEXT }
        ensures value { result ≡ header_after self header state byte }
    {
        match self {
            LinePart::Margin if byte == b'[' => 1,
            LinePart::Header if !state.is_skipped_in_header(byte) => header + 1,
            _ => header,
        }
    }
}

impl Scan {
    /// The pass with the next byte.
    #[tactic(auto, unfolding(crate::specs::Bounds::with_byte))]
    fn with_byte(self, byte: u8) -> Scan
        requires nested { self.nesting < MAX_TEXT }
        requires short { self.header < MAX_TEXT }
        requires cheap { self.compared < 2 ^ 48 }
        requires few { self.marks < MAX_TEXT }
        ensures value { result ≡ with_byte self byte }
    {
        let state = self.state.after_byte(byte);
        let is_outside = state.is_outside();
        let nesting = if is_outside {
            nesting_after(self.nesting, byte)
        } else {
            self.nesting
        };
        let compared = if is_outside && byte == b'=' {
            self.compared + self.header
        } else {
            self.compared
        };
        let marks = if is_outside && is_mark(byte) {
            self.marks + 1
        } else {
            self.marks
        };
        Scan {
            state,
            part: self.part.after_byte(self.nesting, is_outside, byte),
            nesting,
            header: self.part.header_after(self.header, state, byte),
            compared,
            marks,
        }
    }
}

/// Whether the text has at most `MAX_MARKS` marks, and at most `MAX_COMPARED` bytes are compared.
#[tactic(auto, unfolding(crate::specs::Bounds::is_bounded))]
pub(super) fn is_bounded(text: &[u8]) -> bool
    requires bounded { length text.now ≤ MAX_TEXT }
    ensures value { result ≡ is_bounded text.now }
{
    let mut scan = Scan {
        state: LexState::Outside,
        part: LinePart::Margin,
        nesting: 0,
        header: 0,
        compared: 0,
        marks: 0,
    };
    for byte in text {
        scan = scan.with_byte(*byte);
    }
    scan.marks <= MAX_MARKS && scan.compared <= MAX_COMPARED
}
