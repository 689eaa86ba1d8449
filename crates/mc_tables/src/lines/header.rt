//! The header of a kernel's table.

ghost use Rattle.std.specs.Prelude.{◌≡◌};
ghost use Rattle.mc_tables.specs.Steps.{at_line};
ghost use Rattle.mc_tables.specs.TableLines.{begins_with};
ghost use Rattle.mc_tables.specs.LinesSoFar.{header_line};
ghost use Rattle.mc_text.specs.LineView.{line_text};
ghost use Rattle.mc_text.specs.Lines.{words_of};

use crate::fault::{TableFault, TableFaultKind};
use mc_text::{Line, Words};

/// Whether the line's first word is this one.
fn line_begins_with(line: &[u8], first: &[u8]) -> bool
    ensures { result ≡ begins_with first.now (words_of line.now) }
{
    match Words::new(line).next() {
        Some(word) => word == first,
        None => false,
    }
}

/// Refuses a line that isn't the header, whose first word is `first`.
pub fn check_header(line: &Line<'_>, first: &[u8]) -> Result<(), TableFault>
    ensures { result ≡ at_line 1 (header_line first.now (line_text line.now)) }
{
    if !line.ended {
        return Err(TableFaultKind::Unended.at(1));
    }
    if !line_begins_with(line.bytes, first) {
        return Err(TableFaultKind::NoHeader.at(1));
    }
    Ok(())
}
