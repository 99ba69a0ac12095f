ghost use Rattle.std.specs.Prelude.{◌≡◌, List, ℕ, length, IfOk, IfErr};
ghost use Rattle.netflow_five.specs.File.{IsFile, IsWellFormed, joined, places, IsRefusal};
ghost use Rattle.netflow_five.specs.declared.refused.Refused.TheVariants.{NoMemory};

use crate::collecting::collect_bytes;
use crate::collector::Collector;
use crate::datagram::Datagram;
use crate::refused::Refused;
use item_list::ItemList;
use std::alloc::Global;
use wire_ports::NoMemory as OutOfMemory;

/// Where each datagram of a file begins, and how many records it has. Datagrams are numbered from 0.
pub type Places = ItemList<(usize, u32)>;

/// The places of the datagrams that were collected so far.
#[derive(Drop)]
struct Noted {
    items: Vec<(usize, u32)>,
    /// Where the last datagram ends.
    end: usize,
}

impl Collector for Noted {
    ghost holds = { λ noted ds. (noted.items.items ≡ places 0 ds) × (noted.end ≡ length (joined ds)) };

    ghost span = { λ noted. noted.end };

    fn add(&mut self, datagram: &Datagram<'_>) -> Result<(), OutOfMemory> {
        self.items.push((self.end, datagram.count()))?;
        self.end += datagram.size();
        Ok(())
    }
}

/// The datagrams of a file, or where and why it is none.
pub fn decode_all(alloc: Global, bytes: &[u8]) -> Result<Places, Refused>
    ensures ok { IfOk result (λ found. (ds : List (List ℕ)) × IsFile bytes.now ds × (found ≡ places 0 ds)) }
    ensures err { IfErr result (IsRefusal bytes.now) }
    ensures only_memory { IsWellFormed bytes.now → IfErr result (λ refused. refused ≡ NoMemory) }
{
    let mut noted = Noted {
        items: Vec::new(alloc),
        end: 0,
    };
    collect_bytes(bytes, &mut noted)?;
    Ok(Places::of_vec(noted.items))
}
