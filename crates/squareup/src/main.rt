// Squares up fields: reads the sides of each, and prints the diagonal that its corners must show.
#![tactic(auto)]

ghost use Rattle.std.specs.Prelude.{◌≡◌, true};

use anyhow::ensure;
use field::diagonal::diagonal;
use field::line::sides_of;
use root::agree::{Reading, agree};
use root::known::known_roots;
use root::unit::{Longhand, Ported, RootUnit};
use std::io::{BufRead, BufReader};

fn main(rt: HostRuntime) -> anyhow::Result<()> {
    ensure!(
        trial(),
        "known roots do not come: this program was not built as it is written"
    );
    let mut unit = Ported::new();
    let mut done: u64 = 0;
    let input = BufReader::new(rt.alloc(), rt.stdin())?;
    for (index, line) in input.split(rt.alloc(), b'\n').enumerate() {
        match sides_of(line?.as_slice()) {
            Ok(sides) => {
                let reach = diagonal(&mut unit, sides);
                println!(rt; "{sides}: {reach}")?;
                done = done.saturating_add(1);
            }
            Err(refusal) => println!(rt; "line {}: {refusal}", index.saturating_add(1))?,
        }
    }
    let asked = unit.asked();
    println!(rt; "done {done}, roots asked {asked}")?;
    Ok(())
}

// A trial of the build: the known roots, and longhand beside the ported routine.
fn trial() -> bool
    ensures { result ≡ true }
{
    let readings = [
        Reading::Wide(2.0),
        Reading::Wide(1e-310),
        Reading::Narrow(2.0),
        Reading::Narrow(1e-40),
    ];
    let mut ported = Ported::new();
    let mut longhand = Longhand::new();
    let known = known_roots(&mut ported) & known_roots(&mut longhand);
    known & agree(&mut ported, &mut longhand, &readings)
}
