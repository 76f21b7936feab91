// A call of one of the ten functions, with its readings as patterns.
ghost use Rattle.std.specs.Prelude.{◌≡◌, ◌<◌};
ghost use Rattle.vectors.specs.Answers.{AnswersCall, AnswerTo, kind_of, function_of};
ghost use Rattle.vectors.specs.Tallies.{position_of};

use crate::function::{Function, Kind, Precision};
use angle::generic::asin::AsinHelper;
use angle::generic::atan2::Atan2Helper;
use root::sqrt::SqrtHelper;

// A call has readings, which a `Kind` has not, so the two are two enums.
/// A call at the precision whose patterns are of the type `I`.
#[derive(Clone, Copy)]
pub enum Call<I> {
    Asin(I),
    Acos(I),
    Atan(I),
    Atan2(I, I),
    Sqrt(I),
}

impl<I> Call<I> {
    fn kind(&self) -> Kind
        ensures { result ≡ kind_of self.now }
    {
        match self {
            Call::Asin(_) => Kind::Asin,
            Call::Acos(_) => Kind::Acos,
            Call::Atan(_) => Kind::Atan,
            Call::Atan2(_, _) => Kind::Atan2,
            Call::Sqrt(_) => Kind::Sqrt,
        }
    }
}

// The answer at the width `W`.
fn answer_at<W: AsinHelper + Atan2Helper + SqrtHelper>(call: Call<W::Int>) -> W::Int
    ensures { AnswersCall W.Int.Int.nat W.Width.fmt call result }
{
    match call {
        Call::Asin(x) => exports::asin::<W>(x),
        Call::Acos(x) => exports::acos::<W>(x),
        Call::Atan(x) => exports::atan::<W>(x),
        Call::Atan2(y, x) => exports::atan2::<W>(y, x),
        Call::Sqrt(x) => exports::sqrt::<W>(x),
    }
}

#[derive(Clone, Copy)]
pub enum Question {
    Wide(Call<u64>),
    Narrow(Call<u32>),
}

impl Question {
    /// Our answer, as a pattern.
    pub fn answer(self) -> u64
        ensures { AnswerTo self result }
    {
        match self {
            Question::Wide(call) => answer_at::<f64>(call),
            Question::Narrow(call) => u64::from(answer_at::<f32>(call)),
        }
    }

    /// The function that it calls.
    pub fn function(self) -> Function
        ensures { result ≡ function_of self }
    {
        match self {
            Question::Wide(call) => Function {
                kind: call.kind(),
                precision: Precision::Wide,
            },
            Question::Narrow(call) => Function {
                kind: call.kind(),
                precision: Precision::Narrow,
            },
        }
    }

    /// The position of its function in the report.
    pub fn position(self) -> usize
        ensures value { result ≡ position_of self }
        ensures few { result < 10 }
    {
        self.function().position()
    }
}
