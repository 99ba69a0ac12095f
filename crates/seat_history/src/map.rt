// The pairs of the object of one thread, by the keys' numbers.
ghost use Rattle.std.specs.Prelude.{◌≡◌, All, IfOk, OnOk, OnErr};
ghost use Rattle.std.specs.Option.{option_map_or};
ghost use Rattle.seat_history.specs.Key.{key_number};
ghost use Rattle.seat_history.specs.Pairs.{ArePairsOf, IsPairInRange};
ghost use Rattle.seat_history.specs.Plain.{values_of};
ghost use Rattle.seat_history.specs.Step.{replace_reply, values_after};
ghost use Rattle.seat_history.specs.declared.call.Call.TheVariants.{Insert, Replace, Remove};
ghost use Rattle.seat_history.specs.declared.reply.Reply.TheVariants.{Absent, Done, Gone, Present, Val};

use crate::key::KeyWords;
use crate::reply::Reply;
use crate::words::ValWords;
use std::alloc::{AllocError, Global};
use std::collections::BTreeMap;

pub(crate) type Map = BTreeMap<u128, ValWords>;

pub(crate) fn find(map: &Map, key: KeyWords) -> Reply
    ensures { result ≡ option_map_or Val (values_of map.now (key_number key)) Absent }
{
    match map.get(&key.number()) {
        Some(val) => Reply::Val(*val),
        None => Reply::Absent,
    }
}

pub(crate) fn insert(map: &mut Map, key: KeyWords, val: ValWords) -> Result<Reply, AllocError>
    ensures reply { IfOk result (λ reply. reply ≡ option_map_or Present (values_of map.old (key_number key)) Done) }
    ensures ok { OnOk result (values_of map.new ≡ values_after (values_of map.old) (Insert key val)) }
    ensures err { OnErr result (values_of map.new ≡ values_of map.old) }
{
    match map.get(&key.number()).copied() {
        Some(val) => Ok(Reply::Present(val)),
        None => {
            map.insert(key.number(), val)?;
            Ok(Reply::Done)
        }
    }
}

pub(crate) fn replace(map: &mut Map, key: KeyWords, old: ValWords, new: ValWords) -> Reply
    ensures reply { result ≡ replace_reply (values_of map.old (key_number key)) old }
    ensures replaced { values_of map.new ≡ values_after (values_of map.old) (Replace key old new) }
{
    match map.get_mut(&key.number()) {
        Some(val) if *val == old => {
            *val = new;
            Reply::Yes
        }
        Some(val) => Reply::Found(*val),
        None => Reply::Absent,
    }
}

pub(crate) fn remove(map: &mut Map, key: KeyWords) -> Reply
    ensures reply { result ≡ option_map_or Gone (values_of map.old (key_number key)) Absent }
    ensures gone { values_of map.new ≡ values_after (values_of map.old) (Remove key) }
{
    match map.remove(&key.number()) {
        Some(val) => Reply::Gone(val),
        None => Reply::Absent,
    }
}

fn pair_of(number: u128, val: ValWords) -> (KeyWords, ValWords)
    ensures key { key_number result.0 ≡ number }
    ensures value { result.1 ≡ val }
    ensures in_range { IsPairInRange result }
{
    (KeyWords::of_number(number), val)
}

pub(crate) fn pairs_of(alloc: Global, map: &Map) -> Result<Vec<(KeyWords, ValWords)>, AllocError>
    ensures pairs { IfOk result (λ pairs. ArePairsOf (values_of map.now) pairs.items) }
    ensures in_range { IfOk result (λ pairs. All IsPairInRange pairs.items) }
{
    let mut pairs = Vec::with_capacity(alloc, map.len())?;
    for (number, val) in map {
        pairs.push(pair_of(*number, *val))?;
    }
    Ok(pairs)
}
