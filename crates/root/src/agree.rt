// Two root units on the same readings.
ghost use Rattle.std.specs.Prelude.{◌≡◌, true, length};
ghost use Rattle.root.specs.Count.{raised, raised_by};
ghost use Rattle.root.specs.Runs.{OneRun};

use crate::unit::{RootUnit, Rooted};

/// A reading of either width, of which a root is asked.
#[derive(Clone, Copy)]
pub enum Reading {
    Wide(f64),
    Narrow(f32),
}

// Asks both units for one root, and says whether the answers have the same bits. The two stay two
// arguments: they are of two types, and each has its own clause.
fn same_root<W: Rooted, P: RootUnit, Q: RootUnit>(first: &mut P, second: &mut Q, v: W) -> bool
    ensures same { result ≡ true }
    ensures first { P.RootUnit.count first.new ≡ raised (P.RootUnit.count first.old) }
    ensures second { Q.RootUnit.count second.new ≡ raised (Q.RootUnit.count second.old) }
{
    W::root_from(first, v).to_pattern() == W::root_from(second, v).to_pattern()
}

fn same_answer<P: RootUnit, Q: RootUnit>(first: &mut P, second: &mut Q, reading: Reading) -> bool
    ensures same { result ≡ true }
    ensures first { P.RootUnit.count first.new ≡ raised (P.RootUnit.count first.old) }
    ensures second { Q.RootUnit.count second.new ≡ raised (Q.RootUnit.count second.old) }
{
    match reading {
        Reading::Wide(v) => same_root(first, second, v),
        Reading::Narrow(v) => same_root(first, second, v),
    }
}

/// Asks two units for the same roots in the same order, and says whether all their answers have
/// the same bits. They always have, whatever the units; and each counts every reading once, so units
/// that start with equal counts end with equal counts.
#[tactic(auto, using(crate::proofs::Runs::one_run))]
pub fn agree<P: RootUnit, Q: RootUnit>(first: &mut P, second: &mut Q, readings: &[Reading]) -> bool
    ensures roots { result ≡ true }
    ensures run { OneRun }
    ensures first { P.RootUnit.count first.new ≡ raised_by (length readings.now) (P.RootUnit.count first.old) }
    ensures second { Q.RootUnit.count second.new ≡ raised_by (length readings.now) (Q.RootUnit.count second.old) }
    ensures counts { P.RootUnit.count first.old ≡ Q.RootUnit.count second.old → P.RootUnit.count first.new ≡ Q.RootUnit.count second.new }
{
    for reading in readings {
        if !same_answer(first, second, *reading) {
            return false;
        }
    }
    true
}
