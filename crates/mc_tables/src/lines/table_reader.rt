//! Reads a kernel table from pieces of its text.

ghost use Rattle.std.specs.Prelude.{◌≡◌, ◌≢◌, ◌+◌, ◌<◌, ◌≤◌, ℕ, List, [], ◌++◌, length, None, Some};
ghost use Rattle.std.specs.Prelude.{Err, OnOk, IfErr, IfSome};
ghost use Rattle.mc_text.specs.Lines.{max_text};
ghost use Rattle.mc_tables.specs.declared.fault.TableFaultKind.TheVariants.{TooLarge};
ghost use Rattle.mc_tables.specs.LinesSoFar.{ReadsInSteps};
ghost use Rattle.mc_tables.specs.Steps.{out_of_memory, fault_at};
ghost use Rattle.mc_tables.specs.TableSoFar.{table_start, table_if, whole_if};

use crate::fault::TableFault;
use crate::lines::line_buffer::LineBuffer;
use crate::lines::rows::{TableRows, read_piece};
use std::alloc::Global;
use std::marker::Model;

/// A reader of a table that is fed the text in pieces of any size. A table of vifs has a `VifReader`,
/// a cache a `CacheReader` or a `SummaryReader`.
#[derive(Debug, Drop)]
pub struct TableReader<R: TableRows> {
    lines: LineBuffer,
    rows: R,
    fault: Option<TableFault>,
}

impl<R: TableRows> Model for TableReader<R> {
    ghost use Rattle.std.specs.Prelude.{◌≡◌, None};
    ghost use Rattle.mc_tables.specs.LinesSoFar.{ReadsInSteps};
    ghost use Rattle.mc_tables.specs.TableSoFar.{TableSoFar};

    ghost Value = { TableSoFar R };

    ghost view = { λ s. record { lines = s.lines; rows = s.rows; fault = s.fault } };

    ghost invariant = { λ s. ReadsInSteps R.table R.step × (s.fault ≡ None → R.is_valid s.rows) };
}

impl<R: TableRows> TableReader<R> {
    /// A reader that has been fed nothing, with no rows.
    pub(crate) fn with_rows(alloc: Global, rows: R) -> TableReader<R>
        // the lines are read one after the other
        requires steps { ReadsInSteps R.table R.step }
        requires valid { R.is_valid rows }
        ensures start { result ≡ table_start rows }
    {
        TableReader {
            lines: LineBuffer::new(alloc),
            rows,
            fault: None,
        }
    }

    /// Takes the next piece of the text.
    ///
    /// # Errors
    ///
    /// `TooLarge` at line 0 if the text has more than 16,777,216 bytes now; else the first fault of
    /// the lines that have ended; or `Memory`. Of a cache, a repeated row whose source and group
    /// aren't listed is reported only at the first other fault of a line, or by `finish`. Each later
    /// call returns the same fault.
    pub fn feed(&mut self, piece: &[u8]) -> Result<(), TableFault>
        // Whatever bytes follow, reading ends as if they came in one piece with these.
        ensures goes_on { (more : List ℕ) → result ≢ Err out_of_memory →
            self.old.lines.size + length (piece.now ++ more) ≤ max_text →
            table_if R.header R.table self.new more
            ≡ table_if R.header R.table self.old (piece.now ++ more) }
        ensures size { OnOk result (self.new.lines.size ≡ self.old.lines.size + length piece.now) }
        ensures sound { OnOk result (self.new.fault ≡ None) }
        ensures fault { IfErr result (λ fault. self.new.fault ≡ Some fault) }
        ensures too_large { self.old.fault ≡ None →
            max_text < self.old.lines.size + length piece.now →
            result ≡ Err (fault_at 0 TooLarge) }
        // After a fault each call returns it again.
        ensures again { IfSome self.old.fault (λ fault. (result ≡ Err fault)
            × (self.new ≡ self.old)) }
    {
        if let Some(fault) = self.fault {
            return Err(fault);
        }
        match read_piece(&mut self.lines, &mut self.rows, piece) {
            Ok(()) => Ok(()),
            Err(fault) => {
                self.fault = Some(fault);
                Err(fault)
            }
        }
    }

    /// The table, if the text ends here.
    ///
    /// # Errors
    ///
    /// The fault that `feed` returned; else, of a cache, `RepeatedEntry` for the first repeated row
    /// whose source and group aren't listed; else `Unended` if the last line has no line feed, or
    /// `NoHeader` at line 1 for an empty text.
    pub fn finish(self) -> Result<R::Table, TableFault>
        ensures { result ≡ table_if R.header R.table self [] }
    {
        let TableReader {
            lines,
            mut rows,
            fault,
        } = self;
        if let Some(fault) = fault {
            return Err(fault);
        }
        if let Err(fault) = lines.check_end() {
            // Before the header has ended there are no rows.
            if lines.ended() == 0 {
                return Err(fault);
            }
            return Err(rows.unended_fault(lines.ended() + 1));
        }
        rows.into_table()
    }

    /// Reads a whole text.
    ///
    /// # Errors
    ///
    /// Those of `feed` and `finish`.
    pub(crate) fn read_whole(mut self, text: &[u8]) -> Result<R::Table, TableFault>
        requires size { self.lines.size ≡ 0 }
        requires sound { self.fault ≡ None }
        ensures table { result ≢ Err out_of_memory →
            result ≡ whole_if (table_if R.header R.table self) text.now }
    {
        self.feed(text)?;
        self.finish()
    }
}
