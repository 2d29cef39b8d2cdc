ghost use Rattle.std.specs.Prelude.{◌≤◌, OnErr};
ghost use Rattle.hal_base.specs.Faults.{Rose};
ghost use Rattle.hal_report.specs.Draining.{Drains};

use hal_base::{Sink, SinkFault};

/// Puts a text into the sink, piece by piece: the whole, or a front of it where the sink fails.
pub fn drain<O: Sink>(text: &[u8], out: &mut O) -> Result<(), SinkFault>
    ensures taken { Drains (O.taken out.old) (O.taken out.new) text.now result }
    ensures failed { OnErr result (Rose (O.faults out.old) (O.faults out.new)) }
    ensures later { O.faults out.old ≤ O.faults out.new }
{
    let mut rest = text;
    while !rest.is_empty() {
        let count = out.put(rest)?;
        rest = rest.split_at(count).1;
    }
    Ok(())
}
