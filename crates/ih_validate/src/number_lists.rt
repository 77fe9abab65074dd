//! Lists of persons or patients, in place.

use std::marker::Model;

/// Up to 2,560 numbers, as many as there can be persons. It takes no memory.
#[derive(Drop)]
pub struct NumberList {
    numbers: [u32; 2560],
    len: usize,
}

impl Model for NumberList {
    ghost use Rattle.std.specs.Prelude.{List, ℕ, take, ◌≤◌};

    ghost Value = { List ℕ };

    ghost view = { λ r. take r.len r.numbers };

    ghost invariant = { λ r. r.len ≤ 2560 };
}

impl NumberList {
    ghost use Rattle.std.specs.Prelude.{◌≡◌, ◌<◌, ◌≤◌, ◌^◌, ◌++◌, ◌∷◌, [], ℕ, Bool, All, length};
    ghost use Rattle.std.specs.List.{filter};
    ghost use Rattle.ih_plan.specs.Sums.{which_below};

    /// No numbers yet.
    pub fn new() -> NumberList
        ensures { result ≡ [] }
    {
        NumberList {
            numbers: [0; 2560],
            len: 0,
        }
    }

    /// How many numbers there are, at most 2,560.
    pub fn len(&self) -> usize
        ensures value { result ≡ length self.now }
        ensures bound { result ≤ 2560 }
    {
        self.len
    }

    /// The numbers, in order; at most 2,560.
    pub fn as_slice(&self) -> &[u32]
        ensures value { result.now ≡ self.now }
        ensures few { length result.now ≤ 2560 }
    {
        &self.numbers[..self.len]
    }

    /// Takes all numbers out.
    pub fn clear(&mut self)
        ensures { self.new ≡ [] }
    {
        self.len = 0;
    }

    /// Adds a number at the end.
    pub fn push(&mut self, number: u32)
        requires { length self.old < 2560 }
        ensures { self.new ≡ self.old ++ number ∷ [] }
    {
        self.numbers[self.len] = number;
        self.len += 1;
    }

    /// Lists the numbers below a count that are kept, rising.
    pub fn list_below<F: Fn(u32) -> bool>(&mut self, count: u32, keep: F)
        requires few { count ≤ 2560 }
        requires callable { (i : ℕ) → i < count → F.pre keep i }
        ensures { (p : ℕ → Bool) → ((i : ℕ) (b : Bool) → i < count → F.post keep i b → b ≡ p i)
            → self.new ≡ which_below count p }
    {
        self.clear();
        for x in 0..count {
            if keep(x) {
                self.push(x);
            }
        }
    }

    /// Lists those of some numbers that are kept, in their order.
    pub fn list_among<F: Fn(u32) -> bool>(&mut self, among: &[u32], keep: F)
        requires few { length among.now ≤ 2560 }
        requires callable { (most : ℕ) × All (λ i. i < most) among.now × ((i : ℕ) → i < most → F.pre keep i) }
        ensures { (p : ℕ → Bool) → ((i : ℕ) (b : Bool) → i < 2 ^ 32 → F.post keep i b → b ≡ p i)
            → self.new ≡ filter p among.now }
    {
        self.clear();
        for x in among {
            if keep(*x) {
                self.push(*x);
            }
        }
    }
}
