ghost use Rattle.std.specs.Prelude.{[], ◌∷◌, List, ℕ, IfOk};
ghost use Rattle.flow_tally.specs.Reading.{IsGatheredOf};
ghost use Rattle.netflow_five.specs.Generating.{generated};

use crate::gathered::Gathered;
use crate::generator::Generator;
use netflow_five::{Refused, collect_bytes, generate};
use std::alloc::Global;
use wire_ports::NoMemory;

/// Gathers the datagrams that the generator makes.
pub(crate) fn gather_generated(alloc: Global, generator: &Generator) -> Result<Gathered, NoMemory>
    ensures { IfOk result (λ gathered. (ds : List (List ℕ)) × IsGatheredOf (generated generator.now.start generator.now.datagrams ∷ []) ds gathered) }
{
    let bytes = generate(alloc, generator.start, generator.datagrams)?;
    let mut gathered = Gathered::new(alloc);
    match collect_bytes(&bytes, &mut gathered) {
        Ok(()) => Ok(gathered),
        // It makes well-formed datagrams alone.
        Err(Refused::Malformed { .. }) => unreachable!(),
        Err(Refused::NoMemory) => Err(NoMemory),
    }
}
