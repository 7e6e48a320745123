//! What is heard of several that may come: it is kept only if it is one.
ghost use Rattle.std.specs.Prelude.{◌≡◌};
ghost use Rattle.schedule.specs.Heard.{with_one, answer_of};

/// What was heard of several: nothing, one, or more than one, of which nothing is kept.
#[derive(Clone, Copy, PartialEq, Eq, Debug)]
pub enum Heard<T> {
    Nothing,
    Once(T),
    Several,
}

impl<T: Copy> Heard<T> {
    /// The same with one more.
    pub fn with(self, one: T) -> Heard<T>
        ensures { result ≡ with_one self one }
    {
        match self {
            Heard::Nothing => Heard::Once(one),
            Heard::Once(_) | Heard::Several => Heard::Several,
        }
    }

    /// The only one; nothing if there was none, or more than one.
    pub fn only(self) -> Option<T>
        ensures { result ≡ answer_of self }
    {
        match self {
            Heard::Once(one) => Some(one),
            Heard::Nothing | Heard::Several => None,
        }
    }
}
