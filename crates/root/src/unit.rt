// A root unit: what is asked for roots, and counts how often.
ghost use Rattle.std.specs.Prelude.{◌≡◌, ℕ};
ghost use Rattle.std.specs.Float.{binary32, binary64};
ghost use Rattle.rootlaws.specs.Roots.{NearestRoot};
ghost use Rattle.root.specs.Count.{raised};

use crate::longhand::longhand_root;
use crate::sqrt::{SqrtHelper, square_root};
use std::marker::PhantomData;
use width::Width;

/// Answers the nearest root of every float, and counts what it was asked. It never declines. Its
/// meaning is one number, the count, which stays at 4,294,967,295 once it is there.
pub trait RootUnit {
    ghost count: { Self → ℕ };

    // Two methods and not one over the width: a unit may know these two formats alone.
    fn wide_root(&mut self, v: f64) -> f64
        ensures nearest { NearestRoot binary64 v result }
        ensures counted { count self.new ≡ raised (count self.old) };

    fn narrow_root(&mut self, v: f32) -> f32
        ensures nearest { NearestRoot binary32 v result }
        ensures counted { count self.new ≡ raised (count self.old) };

    fn asked(&self) -> u32
        ensures { result ≡ count self.now };
}

/// A width of which a unit is asked for roots, for code that is generic in the width.
pub trait Rooted: Width {
    fn root_from<U: RootUnit>(unit: &mut U, x: Self) -> Self
        ensures nearest { NearestRoot Self.Width.fmt (Self.Width.val x) (Self.Width.val result) }
        ensures counted { U.RootUnit.count unit.new ≡ raised (U.RootUnit.count unit.old) };
}

impl Rooted for f64 {
    fn root_from<U: RootUnit>(unit: &mut U, x: f64) -> f64 {
        unit.wide_root(x)
    }
}

impl Rooted for f32 {
    fn root_from<U: RootUnit>(unit: &mut U, x: f32) -> f32 {
        unit.narrow_root(x)
    }
}

/// A way to the nearest root.
pub trait Routine {
    fn root<W: Width + SqrtHelper>(x: W) -> W
        ensures { NearestRoot W.Width.fmt (W.Width.val x) (W.Width.val result) };
}

/// One binary digit at a time.
pub struct ByLonghand;

impl Routine for ByLonghand {
    fn root<W: Width + SqrtHelper>(x: W) -> W {
        longhand_root(x)
    }
}

/// The ported routine.
pub struct ByPort;

impl Routine for ByPort {
    fn root<W: Width + SqrtHelper>(x: W) -> W {
        square_root(x)
    }
}

/// A unit that takes its roots by the routine `R`.
#[derive(Drop)]
pub struct Unit<R> {
    roots: u32,
    routine: PhantomData<R>,
}

/// The unit that draws its roots by longhand.
pub type Longhand = Unit<ByLonghand>;

/// The unit that takes its roots by the ported routine.
pub type Ported = Unit<ByPort>;

impl<R: Routine> Unit<R> {
    pub fn new() -> Self
        ensures { result.roots ≡ 0 }
    {
        Unit {
            roots: 0,
            routine: PhantomData,
        }
    }

    fn one_more(&mut self)
        ensures { self.new.roots ≡ raised self.old.roots }
    {
        let Unit { roots, .. } = self;
        *roots = roots.saturating_add(1);
    }
}

impl<R: Routine> RootUnit for Unit<R> {
    ghost count = { λ s. s.roots };

    fn wide_root(&mut self, v: f64) -> f64 {
        self.one_more();
        R::root(v)
    }

    fn narrow_root(&mut self, v: f32) -> f32 {
        self.one_more();
        R::root(v)
    }

    fn asked(&self) -> u32 {
        self.roots
    }
}
