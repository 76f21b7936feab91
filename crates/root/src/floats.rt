// From the root of a pattern to the root of a float.
ghost use Rattle.rootlaws.specs.Roots.{RootBits, NearestRoot};

use width::Width;

// NaN is told before its pattern is read.
pub(crate) fn float_root<W: Width, R: FnOnce(W::Int) -> W::Int>(x: W, root: R) -> W
    requires callable { (n : W.Int) → R.pre root n }
    requires roots { (n r : W.Int) → R.post root n r → RootBits W.Layout.shape (W.Int.Int.nat n) (W.Int.Int.nat r) }
    ensures { NearestRoot W.Width.fmt (W.Width.val x) (W.Width.val result) }
{
    match x.pattern() {
        None => x,
        Some(ix) => W::from_pattern(root(ix)),
    }
}
