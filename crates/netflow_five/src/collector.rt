ghost use Rattle.std.specs.Prelude.{◌≡◌, ◌+◌, ◌<◌, ◌≤◌, ◌^◌, ◌∷◌, ◌++◌, [], List, ℕ, length, OnOk, OnErr};

use crate::datagram::Datagram;
use wire_ports::NoMemory;

/// Takes the datagrams of files, one after the other.
pub trait Collector {
    /// These datagrams were taken, in this order.
    ghost holds: { Self → List (List ℕ) → Type 0 };

    /// A number that no datagram raises by more than its bytes.
    ghost span: { Self → ℕ };

    /// Takes one datagram more. Where memory runs out, it holds what it held.
    fn add(&mut self, datagram: &Datagram<'_>) -> Result<(), NoMemory>
        requires span { span self.old + length datagram.now.bytes.now < 2 ^ 64 }
        ensures holds { OnOk result ((before : List (List ℕ)) → holds self.old before
            → holds self.new (before ++ datagram.now.bytes.now ∷ [])) }
        ensures kept { OnErr result ((taken : List (List ℕ)) → holds self.old taken → holds self.new taken) }
        ensures span { span self.new ≤ span self.old + length datagram.now.bytes.now };
}
