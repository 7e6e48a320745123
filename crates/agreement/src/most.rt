//! The value that more than half of a list have.
ghost use Rattle.std.specs.Prelude.{◌≡◌, ℕ, ◌<◌, true, List};
ghost use Rattle.std.specs.List.{push};
ghost use Rattle.clock.specs.Deviation.{largest};
ghost use Rattle.agreement.specs.Majority.{times, is_most, majority};
ghost use Rattle.agreement.specs.Pairs.{IsLeftOf};

/// The value that more than half of the values have, or 0 if there is none. A 0 is a value like any other, and is counted in
/// the length.
#[tactic(auto, using(crate::proofs::Majorities::majority_found, crate::proofs::Majorities::majority_not_found))]
pub fn majority(values: &[u32]) -> u32
    ensures { result ≡ majority values.now }
{
    let value = candidate(values);
    if is_most(values, value) { value } else { 0 }
}

// Whether more than half of the values are this one.
#[tactic(auto, using(crate::proofs::Majorities::counted))]
fn is_most(values: &[u32], value: u32) -> bool
    ensures { result ≡ is_most values.now value }
{
    let times = values.iter().filter(|one| **one == value).count();
    let others = values.len() - times;
    times > others
}

// The only value that more than half can have: what is left when values that differ are struck out in pairs.
fn candidate(values: &[u32]) -> u32
    ensures { (value : ℕ) → is_most values.now value ≡ true → value ≡ result }
{
    let mut left = Left { value: 0, times: 0 };
    for &value in values {
        left = left.with(value);
    }
    left.value
}

// What is left of some values when two that differ are struck out together as long as there are two: one value, so many times.
#[derive(Clone, Copy)]
struct Left {
    value: u32,
    times: usize,
}

impl Left {
    // What is left of these values and one more.
    #[tactic(auto, using(crate::proofs::Pairs::same, crate::proofs::Pairs::first))]
    fn with(self, value: u32) -> Left
        requires { self.times < largest }
        ensures { (values : List ℕ) → IsLeftOf values self → IsLeftOf (push values value) result }
    {
        if self.times == 0 {
            Left { value, times: 1 }
        } else if value == self.value {
            Left {
                value,
                times: self.times + 1,
            }
        } else {
            Left {
                value: self.value,
                times: self.times - 1,
            }
        }
    }
}
