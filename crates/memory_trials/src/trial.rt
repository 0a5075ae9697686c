//! A call that is made, and made again if it failed with NoMemory.

ghost use Rattle.std.specs.Prelude.{◌≡◌, ◌≢◌, ◌↔◌, IsTrue};

/// The result of a call.
#[derive(Clone, Copy, PartialEq, Eq)]
pub enum Attempt {
    /// The result that it has when no allocation fails.
    Ample,
    /// NoMemory, and the objects of the call are unchanged.
    Refused,
    /// Anything else.
    Otherwise,
}

impl Attempt {
    ghost use Rattle.std.specs.Prelude.{◌≡◌, ◌⊎◌, ◌↔◌};

    /// The outcome of two trials, one after the other.
    pub fn then(self, next: Attempt) -> Attempt
        ensures ample { result ≡ Attempt.Ample ↔ (self ≡ Attempt.Ample) × (next ≡ Attempt.Ample) }
        ensures otherwise { result ≡ Attempt.Otherwise ↔ (self ≡ Attempt.Otherwise) ⊎ (next ≡ Attempt.Otherwise) }
    {
        match (self, next) {
            (Attempt::Ample, Attempt::Ample) => Attempt::Ample,
            (Attempt::Otherwise, _) | (_, Attempt::Otherwise) => Attempt::Otherwise,
            _ => Attempt::Refused,
        }
    }
}

/// A call that may fail with NoMemory, and its objects.
pub trait Call {
    /// Makes the call.
    fn make(&mut self) -> Attempt;
}

/// Makes a call, and makes it again if it failed with NoMemory. At most one allocation of a process fails, so those of
/// the second call succeed.
pub fn try_out<C: Call>(call: &mut C) -> Attempt {
    match call.make() {
        Attempt::Refused => made_again(call.make()),
        outcome => outcome,
    }
}

/// The outcome of a call that failed and then returned this.
pub fn made_again(again: Attempt) -> Attempt
    ensures refused { result ≡ Attempt.Refused ↔ (again ≡ Attempt.Ample) }
    ensures not_ample { result ≢ Attempt.Ample }
{
    match again {
        Attempt::Ample => Attempt::Refused,
        Attempt::Refused | Attempt::Otherwise => Attempt::Otherwise,
    }
}

/// Ample if this holds of the result.
pub fn ample_if(holds: bool) -> Attempt
    ensures ample { result ≡ Attempt.Ample ↔ IsTrue holds }
    ensures not_refused { result ≢ Attempt.Refused }
{
    if holds {
        Attempt::Ample
    } else {
        Attempt::Otherwise
    }
}

/// Refused if this holds of what a failed call left.
pub fn refused_if(holds: bool) -> Attempt
    ensures refused { result ≡ Attempt.Refused ↔ IsTrue holds }
    ensures not_ample { result ≢ Attempt.Ample }
{
    if holds {
        Attempt::Refused
    } else {
        Attempt::Otherwise
    }
}
