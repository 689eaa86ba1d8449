//! The program's words, as the system passes them.

ghost use Rattle.std.specs.Prelude.{◌≡◌, map, IfOk};
ghost use Rattle.std.specs.String.{string_bytes};

use crate::command::program;
use crate::fault::{WordsFault, usage_refusal};
use std::alloc::Global;
use std::env::{self, Env};
use std::io;

/// The program's words, its own name first.
///
/// # Errors
///
/// `Wrong` where a word isn't UTF-8, and `Memory` where memory runs out.
pub fn words_of(rt: &(impl Env + AllocGlobal)) -> Result<Vec<String>, WordsFault> {
    match env::args(rt) {
        Ok(words) => Ok(words.collect(rt.alloc())?),
        Err(error) if error.kind() == io::ErrorKind::OutOfMemory => Err(WordsFault::Memory),
        Err(_) => {
            let alloc = rt.alloc();
            Err(usage_refusal(alloc, program(alloc), "an argument is not valid UTF-8"))
        }
    }
}

/// The words as borrowed texts.
///
/// # Errors
///
/// `Memory` where memory runs out.
pub fn borrow_words(alloc: Global, words: &[String]) -> Result<Vec<&str>, WordsFault>
    ensures { IfOk result (λ all. map (λ word. word.now) all.items ≡ map string_bytes words.now) }
{
    Ok(words.iter().map(|word| word.as_str()).collect(alloc)?)
}
