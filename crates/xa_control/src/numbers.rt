ghost use Rattle.std.specs.Prelude.{◌≡◌, ◌↔◌, ◌≤◌, IfSome, IsSome, length};

use std::marker::Model;

/// The most numbers that a server tells in an answer.
pub const MOST_NUMBERS: usize = 1024;

/// The numbers of an answer, at most `MOST_NUMBERS`. Contracts see them as a list.
#[derive(Debug, Drop)]
pub struct Numbers {
    numbers: Vec<u64>,
}

impl Model for Numbers {
    ghost use Rattle.std.specs.Prelude.{ℕ, List, ◌≤◌, length};

    ghost Value = { List ℕ };

    ghost view = { λ n. n.numbers.items };

    ghost invariant = { λ n. length n.numbers.items ≤ 1024 };
}

impl Numbers {
    /// These numbers; `None` if they are more than `MOST_NUMBERS`. Takes no memory.
    pub fn new(numbers: Vec<u64>) -> Option<Numbers>
        ensures numbers { IfSome result (λ n. n ≡ numbers.items) }
        ensures valid { IsSome result ↔ length numbers.items ≤ MOST_NUMBERS }
    {
        if numbers.len() > MOST_NUMBERS {
            return None;
        }
        Some(Numbers { numbers })
    }

    /// The numbers. Takes no memory.
    pub fn as_slice(&self) -> &[u64]
        ensures numbers { result.now ≡ self.now }
        ensures few { length result.now ≤ MOST_NUMBERS }
    {
        self.numbers.as_slice()
    }
}
