ghost use Rattle.std.specs.Prelude.{◌≡◌, [], ◌∷◌, OnErr, OnOk};

use flow_fold::{Key, Value, key_of, value_of};
use netflow_five::{Collector, Datagram, SeqMark};
use std::alloc::Global;
use wire_ports::NoMemory;

/// What was gathered so far: the keys and values of the records, and the mark of each datagram.
#[derive(Drop)]
pub struct Gathered {
    pub pairs: Vec<(Key, Value)>,
    pub marks: Vec<SeqMark>,
}

impl Gathered {
    ghost use Rattle.flow_tally.specs.Gathered.{HasGathered, Adds};

    /// Nothing is gathered yet.
    pub fn new(alloc: Global) -> Gathered
        ensures { HasGathered [] result }
    {
        Gathered {
            pairs: Vec::new(alloc),
            marks: Vec::new(alloc),
        }
    }

    /// Adds the records and the mark of a datagram. Where memory runs out, nothing is added.
    fn add_datagram(&mut self, datagram: &Datagram<'_>) -> Result<(), NoMemory>
        ensures adds { OnOk result (Adds (datagram.now.bytes.now ∷ []) self.old self.new) }
        ensures kept { OnErr result ((self.new.pairs.items ≡ self.old.pairs.items) × (self.new.marks.items ≡ self.old.marks.items)) }
    {
        self.pairs.reserve(datagram.count() as usize)?;
        self.marks.push(datagram.mark())?;
        let header = datagram.header();
        for i in 0..datagram.count() {
            let flow = datagram.flow(i);
            self.pairs
                .push_reserved((key_of(&flow), value_of(&header, &flow)));
        }
        Ok(())
    }
}

impl Collector for Gathered {
    ghost use Rattle.flow_tally.specs.Gathered.{HasGathered};

    ghost holds = { λ gathered ds. HasGathered ds gathered };

    ghost span = { λ gathered. 0 };

    fn add(&mut self, datagram: &Datagram<'_>) -> Result<(), NoMemory> {
        self.add_datagram(datagram)?;
        Ok(())
    }
}
