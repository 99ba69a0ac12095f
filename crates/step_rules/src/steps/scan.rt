ghost use Rattle.std.specs.Prelude.{◌≡◌, ◌<◌, ◌≤◌, ◌+◌, ◌==◌, ◌&&◌, ◌++◌, [], true, false, not, ℕ, List, length, take, filter, vec_capacity, vec_len, if◌then◌else◌};
ghost use Rattle.std.specs.List.Sorted.{IsNonDecreasing};
ghost use Rattle.step_rules.specs.Kinds.Claiming.{FindsOwn, MayScan};
ghost use Rattle.step_rules.specs.SeatData.{IsOf, IsSeat};
ghost use Rattle.step_rules.specs.Steps.{IsScanned};
ghost use Rattle.step_rules.specs.Views.{is_freed, noted};
ghost use Rattle.step_rules.specs.World.{Once, has};

use crate::layout::CLAIMS;
use crate::plays::Scans;
use crate::seat::Seat;
use crate::shared::Shared;

/// Loads a claim word for the seat's scan. Word 0 begins a scan, and ends one that was left unfinished.
/// The last word ends it: the nodes that were retired when it began and that no word named are free.
pub fn scan_load(shared: &Shared, seat: &mut Seat, word: u32) -> u64
    requires ours { IsOf shared.now seat.old }
    requires may { MayScan word seat.old.view }
    ensures seat { IsScanned word result seat.old seat.new }
    ensures own { FindsOwn word result seat.old.view }
    ensures law { IsSeat seat.new }
{
    seat.fresh = false;
    let found = shared
        .table
        .shared
        .load::<Scans>(&mut seat.inner, word as usize);
    seat.scan_old = old_end(word, seat.scan_old, &seat.retired);
    note(&mut seat.scan_found, word, found);
    seat.scan_next = word + 1;
    if seat.scan_next == CLAIMS * shared.plan.seats {
        part(
            &mut seat.retired,
            &mut seat.free,
            seat.scan_old,
            &mut seat.scan_found,
        );
        seat.scan_old = 0;
        seat.scan_next = 0;
    }
    found
}

// Where the old nodes end among the retired ones. Word 0 begins a scan.
fn old_end(word: u32, old: usize, retired: &[u32]) -> usize
    ensures { result ≡ (if word == 0 then length retired.now else old) }
{
    if word == 0 { retired.len() } else { old }
}

// Notes the node that a claim word names. Word 0 begins a scan.
fn note(list: &mut Vec<u64>, word: u32, found: u64)
    requires room { (if word == 0 then 0 else vec_len list.old) < vec_capacity list.old }
    ensures named { (n : ℕ) → has list.new.items n ≡ has (noted found (if word == 0 then [] else list.old.items)) n }
    ensures long { length list.new.items ≡ length (noted found (if word == 0 then [] else list.old.items)) }
    ensures capacity { vec_capacity list.new ≡ vec_capacity list.old }
{
    if word == 0 {
        list.clear();
    }
    if found != 0 {
        list.push_reserved(found - 1);
    }
}

// Whether a node is free after the scan: it is old, and no claim word named it.
fn frees(found: &[u64], node: u32, old: bool) -> bool
    requires { IsNonDecreasing found.now }
    ensures { result ≡ (old && not (has found.now node)) }
{
    old && found.binary_search(&u64::from(node)).is_err()
}

// Frees the old nodes that no claim word named, the first ones of those retired. The found nodes are
// sorted once, and each old one is looked up.
fn part(retired: &mut Vec<u32>, free: &mut Vec<u32>, old: usize, found: &mut Vec<u64>)
    requires once { Once retired.old.items }
    requires room { vec_len free.old + vec_len retired.old ≤ vec_capacity free.old }
    ensures retired { retired.new.items ≡ filter (λ n. not (is_freed (record { next = 0; old = take old retired.old.items; found = found.old.items }) n)) retired.old.items }
    ensures free { free.new.items ≡ free.old.items ++ filter (is_freed (record { next = 0; old = take old retired.old.items; found = found.old.items })) retired.old.items }
    ensures found { found.new.items ≡ [] }
    ensures room_retired { vec_capacity retired.new ≡ vec_capacity retired.old }
    ensures room_free { vec_capacity free.new ≡ vec_capacity free.old }
    ensures room_found { vec_capacity found.new ≡ vec_capacity found.old }
{
    found.sort_unstable();
    let mut kept = 0;
    for i in 0..retired.len() {
        let node = retired[i];
        if frees(found, node, i < old) {
            free.push_reserved(node);
        } else {
            retired[kept] = node;
            kept += 1;
        }
    }
    retired.truncate(kept);
    found.clear();
}
