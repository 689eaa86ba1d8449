//! Reads the rows of a table from pieces of its text.

ghost use Rattle.std.specs.Prelude.{◌≡◌, ◌≢◌, ◌+◌, ◌<◌, ◌≤◌, ◌==◌, ℕ, List, [], ◌∷◌, ◌++◌, length, drop};
ghost use Rattle.std.specs.Prelude.{position, false, Some, Result, Ok, Err, OnOk, IfOk, IfErr};
ghost use Rattle.mc_text.specs.LineView.{line_text};
ghost use Rattle.mc_text.specs.Lines.{LineText, max_text};
ghost use Rattle.mc_tables.specs.declared.fault.TableFault.{TableFault};
ghost use Rattle.mc_tables.specs.declared.fault.TableFaultKind.TheVariants.{TooLarge};
ghost use Rattle.mc_tables.specs.Steps.{out_of_memory, fault_at};
ghost use Rattle.mc_tables.specs.LinesSoFar.{read_after, line_after, ReadsInSteps};

use crate::fault::{TableFault, TableFaultKind};
use crate::lines::line_buffer::LineBuffer;
use mc_text::Line;

/// The rows of a table, to which those of further lines are added.
pub trait TableRows: Drop {
    /// The table of the rows.
    type Table;

    // the first word of its header
    ghost header: { List ℕ };

    // the rows with that of one more line, or the first fault
    ghost step: { Self → LineText → Result Self TableFault };

    // the table of these rows and those of the lines after them
    ghost table: { Self → List LineText → Result Self.Table TableFault };

    // the rules that the rows keep
    ghost is_valid: { Self → Type 0 };

    /// Adds the row of the line that comes after `ended` others. The first line is the header. The
    /// fault may be that of an earlier row. After an error the rows are of no use.
    fn add_line(&mut self, ended: u32, line: &Line<'_>) -> Result<(), TableFault>
        ensures added { OnOk result
            (line_after header (step self.old) self.old ended (line_text line.now) ≡ Ok self.new) }
        ensures fault { IfErr result (λ fault. fault ≢ out_of_memory →
            line_after header (step self.old) self.old ended (line_text line.now) ≡ Err fault) }
        ensures is_valid { OnOk result (is_valid self.old → is_valid self.new) };

    /// The fault of a text that ends in the line with this number, which has no line feed. It may be
    /// that of an earlier row. After it the rows are of no use.
    fn unended_fault(&mut self, number: u32) -> TableFault
        ensures { (bytes : List ℕ) →
            table self.old (record { number = number; bytes = bytes; ended = false } ∷ []) ≡ Err result };

    /// The table of a text that ends after these rows.
    fn into_table(self) -> Result<Self::Table, TableFault>
        requires valid { is_valid self }
        ensures table { result ≡ table self [] };
}

/// Reads the lines that end in a piece, and buffers the start of the next one.
pub fn read_piece<R: TableRows>(
    lines: &mut LineBuffer,
    rows: &mut R,
    piece: &[u8],
) -> Result<(), TableFault>
    // the lines are read one after the other
    requires steps { ReadsInSteps R.table R.step }
    ensures reads { (more : List ℕ) → OnOk result
        (read_after R.header (R.table rows.old) lines.old (piece.now ++ more)
        ≡ read_after R.header (R.table rows.new) lines.new more) }
    ensures size { OnOk result (lines.new.size ≡ lines.old.size + length piece.now) }
    ensures fault { (more : List ℕ) → lines.old.size + length piece.now ≤ max_text →
        IfErr result (λ fault. fault ≢ out_of_memory →
        read_after R.header (R.table rows.old) lines.old (piece.now ++ more) ≡ Err fault) }
    ensures too_large { max_text < lines.old.size + length piece.now →
        result ≡ Err (fault_at 0 TooLarge) }
    ensures is_valid { OnOk result (R.is_valid rows.old → R.is_valid rows.new) }
{
    if lines.room() < piece.len() {
        return Err(TableFaultKind::TooLarge.at(0));
    }
    let mut rest = piece;
    'lines: while !rest.is_empty() {
        match lines.whole_line_end(rest) {
            Some(end) => {
                read_whole_line(lines, rows, rest, end)?;
                rest = &rest[end + 1..];
            }
            None => {
                let taken = read_begun_line(lines, rows, rest)?;
                rest = &rest[taken..];
            }
        }
    }
    Ok(())
}

/// Reads a line that lies in this piece as a whole, up to its line feed at `end`.
#[inline(always)]
fn read_whole_line<R: TableRows>(
    lines: &mut LineBuffer,
    rows: &mut R,
    rest: &[u8],
    end: usize,
) -> Result<(), TableFault>
    requires steps { ReadsInSteps R.table R.step }
    requires begun { lines.old.begun ≡ [] }
    requires end { position (λ byte. byte == 10) rest.now ≡ Some end }
    requires room { lines.old.size + length rest.now ≤ max_text }
    ensures reads { (more : List ℕ) → OnOk result
        (read_after R.header (R.table rows.old) lines.old (rest.now ++ more)
        ≡ read_after R.header (R.table rows.new) lines.new (drop (end + 1) rest.now ++ more)) }
    ensures size { OnOk result (lines.new.size ≡ lines.old.size + (end + 1)) }
    ensures fault { (more : List ℕ) → IfErr result (λ fault. fault ≢ out_of_memory →
        read_after R.header (R.table rows.old) lines.old (rest.now ++ more) ≡ Err fault) }
    ensures is_valid { OnOk result (R.is_valid rows.old → R.is_valid rows.new) }
{
    rows.add_line(lines.ended(), &lines.line_of(&rest[..end]))?;
    lines.skip_line(end);
    Ok(())
}

/// Reads more of a line that has begun, and returns how many bytes it took: those up to the line
/// feed and it, or all.
#[cold]
fn read_begun_line<R: TableRows>(
    lines: &mut LineBuffer,
    rows: &mut R,
    rest: &[u8],
) -> Result<usize, TableFault>
    requires steps { ReadsInSteps R.table R.step }
    requires nonempty { 0 < length rest.now }
    requires room { lines.old.size + length rest.now ≤ max_text }
    ensures reads { (more : List ℕ) → IfOk result (λ taken.
        read_after R.header (R.table rows.old) lines.old (rest.now ++ more)
        ≡ read_after R.header (R.table rows.new) lines.new (drop taken rest.now ++ more)) }
    ensures size { IfOk result (λ taken. lines.new.size ≡ lines.old.size + taken) }
    ensures taken { IfOk result (λ taken. (0 < taken) × (taken ≤ length rest.now)) }
    ensures fault { (more : List ℕ) → IfErr result (λ fault. fault ≢ out_of_memory →
        read_after R.header (R.table rows.old) lines.old (rest.now ++ more) ≡ Err fault) }
    ensures is_valid { OnOk result (R.is_valid rows.old → R.is_valid rows.new) }
{
    let Some(end) = lines.take_to_line_feed(rest)? else {
        return Ok(rest.len());
    };
    rows.add_line(lines.ended(), &lines.line())?;
    lines.begin_next_line();
    Ok(end + 1)
}
