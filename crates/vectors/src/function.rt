// The ten functions, by name.
ghost use Rattle.std.specs.Prelude.{◌≡◌, ◌<◌, Some, slice_get};
ghost use Rattle.vectors.specs.Names.{stem_of, suffix_of, name_of, NamesKind, NamesFunction};
ghost use Rattle.vectors.specs.Tallies.{place_of};

use std::error::Error;
use std::fmt;
use std::str::FromStr;

/// A name that is none of the ten.
#[derive(Clone, Copy, Debug, PartialEq, Eq)]
pub struct UnknownFunction;

impl fmt::Display for UnknownFunction {
    fn fmt<W: fmt::Write>(&self, f: &mut fmt::Formatter<W>) -> fmt::Result {
        f.write_str("none of the ten functions")
    }
}

impl Error for UnknownFunction {}

#[derive(Clone, Copy, PartialEq, Eq)]
pub enum Kind {
    Asin,
    Acos,
    Atan,
    Atan2,
    Sqrt,
}

impl Kind {
    /// Its name at wide precision.
    fn stem(self) -> &'static str
        ensures { result.now ≡ stem_of self }
    {
        match self {
            Kind::Asin => "asin",
            Kind::Acos => "acos",
            Kind::Atan => "atan",
            Kind::Atan2 => "atan2",
            Kind::Sqrt => "sqrt",
        }
    }
}

impl FromStr for Kind {
    type Err = UnknownFunction;

    ghost from_str_gives = { NamesKind };

    fn from_str(stem: &str) -> Result<Self, UnknownFunction> {
        // Tried by a `find` over the kinds: the proof did not close.
        match stem {
            "asin" => Ok(Kind::Asin),
            "acos" => Ok(Kind::Acos),
            "atan" => Ok(Kind::Atan),
            "atan2" => Ok(Kind::Atan2),
            "sqrt" => Ok(Kind::Sqrt),
            _ => Err(UnknownFunction),
        }
    }
}

#[derive(Clone, Copy, PartialEq, Eq)]
pub enum Precision {
    Wide,
    Narrow,
}

impl Precision {
    /// What it adds to a name.
    fn suffix(self) -> &'static str
        ensures { result.now ≡ suffix_of self }
    {
        match self {
            Precision::Wide => "",
            Precision::Narrow => "f",
        }
    }
}

/// One of the ten functions.
#[derive(Clone, Copy, PartialEq, Eq)]
pub struct Function {
    pub kind: Kind,
    pub precision: Precision,
}

impl Function {
    /// The ten, each at its position.
    pub fn all() -> [Function; 10]
        ensures { (f : Function) → slice_get result (place_of f) ≡ Some f }
    {
        [
            Function::new(Kind::Asin, Precision::Wide),
            Function::new(Kind::Asin, Precision::Narrow),
            Function::new(Kind::Acos, Precision::Wide),
            Function::new(Kind::Acos, Precision::Narrow),
            Function::new(Kind::Atan, Precision::Wide),
            Function::new(Kind::Atan, Precision::Narrow),
            Function::new(Kind::Atan2, Precision::Wide),
            Function::new(Kind::Atan2, Precision::Narrow),
            Function::new(Kind::Sqrt, Precision::Wide),
            Function::new(Kind::Sqrt, Precision::Narrow),
        ]
    }

    fn new(kind: Kind, precision: Precision) -> Self
        ensures { result ≡ record { kind = kind; precision = precision } }
    {
        Function { kind, precision }
    }

    /// Its position among the ten, in the order of the report.
    pub fn position(self) -> usize
        ensures value { result ≡ place_of self }
        ensures few { result < 10 }
    {
        let wide = match self.kind {
            Kind::Asin => 0,
            Kind::Acos => 2,
            Kind::Atan => 4,
            Kind::Atan2 => 6,
            Kind::Sqrt => 8,
        };
        match self.precision {
            Precision::Wide => wide,
            Precision::Narrow => wide + 1,
        }
    }
}

impl fmt::Display for Function {
    ghost output = { λ f. Some (name_of f) };

    fn fmt<W: fmt::Write>(&self, f: &mut fmt::Formatter<W>) -> fmt::Result {
        f.write_str(self.kind.stem())?;
        f.write_str(self.precision.suffix())
    }
}

impl FromStr for Function {
    type Err = UnknownFunction;

    ghost from_str_gives = { NamesFunction };

    #[tactic(auto, using(crate::proofs::Names::unknown_stem))]
    fn from_str(name: &str) -> Result<Self, UnknownFunction> {
        let (stem, precision) = match name.strip_suffix("f") {
            Some(stem) => (stem, Precision::Narrow),
            None => (name, Precision::Wide),
        };
        let kind = stem.parse()?;
        Ok(Function { kind, precision })
    }
}
