//! Pickers, which choose the waiting copy that is handled next.

ghost use Rattle.std.specs.Prelude.{◌≡◌, ◌<◌, [], true, false, drop};
ghost use Rattle.mc_theory.specs.Findings.{Choices, after_choice, choice};

use std::marker::Model;

/// Picks the waiting copy that is handled next: by a list of numbers, and after those always the first
/// copy or always the last one.
pub trait Picker {
    // the numbers that are left, and whether the last copy is picked after them
    ghost choices: { Self → Choices };

    /// The index of the copy to handle, below `waiting`: the next number modulo `waiting`, and after all
    /// numbers always 0 or always `waiting - 1`.
    fn pick(&mut self, waiting: usize) -> usize
        requires positive { 0 < waiting }
        ensures value { result ≡
            choice waiting (choices self.old).numbers (choices self.old).last }
        ensures rest { choices self.new ≡ after_choice (choices self.old) };
}

impl<P: Picker> Picker for &mut P {
    ghost choices = { λ p. P.choices p.now };

    fn pick(&mut self, waiting: usize) -> usize {
        Picker::pick(&mut **self, waiting)
    }
}

/// Always picks the first of the waiting copies.
#[derive(Clone, Copy, Debug, Drop)]
pub struct First;

impl Picker for First {
    ghost choices = { λ _. record { numbers = []; last = false } };

    fn pick(&mut self, _waiting: usize) -> usize {
        0
    }
}

/// Always picks the last of the waiting copies.
#[derive(Clone, Copy, Debug, Drop)]
pub struct Last;

impl Picker for Last {
    ghost choices = { λ _. record { numbers = []; last = true } };

    fn pick(&mut self, waiting: usize) -> usize {
        waiting - 1
    }
}

/// Picks by a vector of numbers, and after those always the first of the waiting copies. The model is
/// the list of the numbers that are left.
#[derive(Debug, Drop)]
pub struct Numbers {
    numbers: Vec<usize>,
    taken: usize,
}

impl Model for Numbers {
    ghost use Rattle.std.specs.Prelude.{ℕ, ◌≤◌, List, drop, vec_len};

    ghost Value = { List ℕ };

    ghost view = { λ s. drop s.taken s.numbers.items };

    ghost invariant = { λ s. s.taken ≤ vec_len s.numbers };
}

impl Numbers {
    /// A picker by these numbers.
    pub fn new(numbers: Vec<usize>) -> Numbers
        ensures { result ≡ numbers.items }
    {
        Numbers { numbers, taken: 0 }
    }
}

impl Picker for Numbers {
    ghost choices = { λ s. record { numbers = s; last = false } };

    fn pick(&mut self, waiting: usize) -> usize {
        match self.numbers.get(self.taken) {
            Some(number) => {
                let pick = *number % waiting;
                self.taken += 1;
                pick
            }
            None => 0,
        }
    }
}
