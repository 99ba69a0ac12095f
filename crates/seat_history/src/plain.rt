ghost use Rattle.std.specs.Prelude.{◌≡◌, ◌<◌, All, IfOk, OnOk, OnErr};
ghost use Rattle.seat_history.specs.Object.{blank_object, object_after, reply_in, MayCall, NamesBelow};
ghost use Rattle.seat_history.specs.Pairs.{ArePairsOf, IsPairInRange};
ghost use Rattle.seat_history.specs.Plain.{held_of, object_of, register_count};
ghost use Rattle.seat_history.specs.declared.plain.TheConstants.{CALLERS};

use crate::call::Call;
use crate::map::{self, Map};
use crate::pair_list::PairList;
use crate::registers;
use crate::reply::Reply;
use crate::words::Rec;
use std::alloc::Global;
use wire_ports::NoMemory;

/// How many callers an object may have.
pub const CALLERS: usize = 64;

/// The object of one thread: registers, a map, and at most one held record for each caller.
#[derive(Drop)]
pub struct Plain {
    registers: Vec<Rec>,
    map: Map,
    held: [Option<Rec>; CALLERS],
}

#[tactic(auto, using(crate::proofs::Blank::get_or_replicate_same))]
fn none_held() -> [Option<Rec>; CALLERS]
    ensures { held_of result ≡ blank_object.held }
{
    [None; CALLERS]
}

#[tactic(auto, unfolding(crate::specs::Plain::object_of, crate::specs::Plain::register_count))]
impl Plain {
    /// All registers are zeros, the map is empty, and nothing is held. An object has up to 64 callers.
    pub fn new(alloc: Global, registers: u32) -> Result<Plain, NoMemory>
        ensures blank { IfOk result (λ plain. object_of plain ≡ blank_object) }
        ensures count { IfOk result (λ plain. register_count plain ≡ registers) }
        ensures callers { CALLERS ≡ 64 }
    {
        Ok(Plain {
            registers: registers::zeroed(alloc, registers as usize)?,
            map: Map::new(alloc),
            held: none_held(),
        })
    }

    /// Makes a caller's call. Where memory runs out, everything stays as it was.
    pub fn call(&mut self, caller: u32, call: Call) -> Result<Reply, NoMemory>
        requires caller { caller < CALLERS }
        requires register { NamesBelow (register_count self.old) call }
        requires held { MayCall ((object_of self.old).held caller) call }
        ensures reply { IfOk result (λ reply. reply ≡ reply_in (object_of self.old) (record { caller = caller; call = call })) }
        ensures ok { OnOk result (object_of self.new ≡ object_after (object_of self.old) (record { caller = caller; call = call })) }
        ensures err { OnErr result (object_of self.new ≡ object_of self.old) }
        ensures count { register_count self.new ≡ register_count self.old }
    {
        match call {
            Call::Load { reg } => Ok(Reply::Words(self.registers[reg as usize])),
            Call::Store { reg, new } => {
                registers::store(&mut self.registers, reg, new);
                Ok(Reply::Done)
            }
            Call::Swap { reg, old, new } => {
                Ok(registers::swap(&mut self.registers, reg, old, new))
            }
            Call::Hold { reg } => {
                self.held[caller as usize] = Some(self.registers[reg as usize]);
                Ok(Reply::Done)
            }
            Call::Look => Ok(Reply::Words(self.held[caller as usize].unwrap())),
            Call::Release => {
                self.held[caller as usize] = None;
                Ok(Reply::Done)
            }
            Call::Find { key } => Ok(map::find(&self.map, key)),
            Call::Insert { key, val } => Ok(map::insert(&mut self.map, key, val)?),
            Call::Replace { key, old, new } => Ok(map::replace(&mut self.map, key, old, new)),
            Call::Remove { key } => Ok(map::remove(&mut self.map, key)),
        }
    }

    /// The words of a register.
    pub fn register(&self, reg: u32) -> Rec
        requires { reg < register_count self.now }
        ensures { result ≡ (object_of self.now).contents.registers reg }
    {
        self.registers[reg as usize]
    }

    /// The pairs of the map, by rising key.
    pub fn pairs(&self, alloc: Global) -> Result<PairList, NoMemory>
        ensures pairs { IfOk result (λ pairs. ArePairsOf (object_of self.now).contents.values pairs) }
        ensures in_range { IfOk result (λ pairs. All IsPairInRange pairs) }
    {
        Ok(PairList::of_vec(map::pairs_of(alloc, &self.map)?))
    }
}
