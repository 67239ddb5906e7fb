ghost use Rattle.std.specs.Prelude.{◌≡◌, ◌≤◌, IfOk};
ghost use Rattle.scenario_lines.specs.Generated.{generated};

use crate::made_lines::Lines;
use bcast_base::{Memory, Octets};
use std::alloc::Global;

/// The scenario of a seed, at most 2,147,483,647, and of 1 to 100,000 events.
pub fn generate(alloc: Global, seed: u32, events: u32) -> Result<Octets, Memory>
    requires seed { seed ≤ 2147483647 }
    requires least { 1 ≤ events }
    requires most { events ≤ 100000 }
    ensures { IfOk result (λ text. text ≡ generated seed events) }
{
    let mut lines = Lines::new(seed, events);
    let mut line = Octets::new(alloc);
    let mut text = Octets::new(alloc);
    'lines: while lines.next_line(&mut line)? {
        text.append(line.as_slice())?;
        text.push(b'\n')?;
    }
    Ok(text)
}
