// A value with the status that IEEE 754 gives it.
ghost use Rattle.std.specs.Prelude.{◌≡◌};

/// A value combined with a status. It is no `Result`, as in the source: there is a value in each case.
#[derive(Clone, Copy)]
pub struct FpResult<T> {
    pub val: T,
    pub status: Status,
}

impl<T> FpResult<T> {
    pub fn new(val: T, status: Status) -> Self
        ensures val { result.val ≡ val }
        ensures status { result.status ≡ status }
    {
        FpResult { val, status }
    }

    /// A value with no error.
    pub fn ok(val: T) -> Self
        ensures val { result.val ≡ val }
        ensures status { result.status ≡ Status.Ok }
    {
        FpResult::new(val, Status::Ok)
    }
}

/// IEEE 754's exception status, as far as a root has one.
#[derive(Clone, Copy)]
pub enum Status {
    /// No errors.
    Ok,
    /// No definable result: the root of NaN or of a number below zero.
    Invalid,
}
