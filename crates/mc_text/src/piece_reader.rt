//! A common trait of the readers of texts that are fed in pieces.

ghost use Rattle.std.specs.Prelude.{◌≡◌, ◌+◌, ◌≤◌, ◌++◌, ℕ, List, OnOk, length};
ghost use Rattle.mc_text.specs.Lines.{max_text};

use crate::memory::Memory;

/// A reader that is fed its text in pieces.
pub trait PieceReader {
    // the result of the reading
    ghost ReadResult: { Type 0 };

    // the result if these bytes are still fed
    ghost result_after: { Self → List ℕ → ReadResult };

    // how many of the bytes fed so far count towards the limit of a text
    ghost size: { Self → ℕ };

    /// Takes the next piece of the text. A fault of the text is kept until its end.
    ///
    /// # Errors
    ///
    /// `Memory` where an allocation failed. Then the reader can't be used any more.
    fn take(&mut self, piece: &[u8]) -> Result<(), Memory>
        // Whatever bytes follow, the result is that of the piece and those bytes before the call.
        ensures goes_on { (more : List ℕ) → size self.old + length (piece.now ++ more) ≤ max_text →
            OnOk result (result_after self.new more ≡ result_after self.old (piece.now ++ more)) }
        ensures size { size self.new ≤ size self.old + length piece.now };
}
