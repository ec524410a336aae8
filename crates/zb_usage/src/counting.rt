ghost use Rattle.std.specs.Prelude.{◌≡◌, ◌%◌, ◌^◌, ℕ, if◌then◌else◌, IfOk, IsOk, OnErr, OnOk, Some};
ghost use Rattle.zb_types.specs.declared.ids.LogId.{LogId};
ghost use Rattle.zb_tables.specs.Tables.{held_at};
ghost use Rattle.zb_usage.specs.Noting.{Counts};
ghost use Rattle.zb_usage.specs.Seen.{HasCount, HasCountOf, count_at, found_at, if_held, is_key};
ghost use Rattle.zb_usage.specs.Uses.{bytes_in, named_bytes};

use std::alloc::Global;
use std::collections::BTreeMap;
use zb_delta::Body;
use zb_types::{HeldUse, Mem, NoMemory, Ptr};

/// Counts by log and stripe.
pub(crate) type CountMap = BTreeMap<(u32, u64), u32>;

/// The count under a key, 0 where there is none.
pub(crate) fn count_at(counts: &CountMap, key: (u32, u64)) -> u32
    ensures { result ≡ count_at counts.now.entries key }
{
    match counts.get(&key) {
        None => 0,
        Some(count) => *count,
    }
}

// Puts a count under a key, without memory where it has one.
fn put(counts: &mut CountMap, key: (u32, u64), count: u32) -> Mem<()>
    ensures ok { OnOk result ((q : ℕ × ℕ) → found_at counts.new.entries q ≡ (if is_key key q then Some count else found_at counts.old.entries q)) }
    ensures err { OnErr result (counts.new.entries ≡ counts.old.entries) }
    ensures present { HasCount counts.old.entries key → IsOk result }
{
    counts.insert(key, count)?;
    Ok(())
}

// Gives a key a count, where it has none.
fn make_room(counts: &mut CountMap, key: (u32, u64)) -> Mem<()>
    ensures same { (q : ℕ × ℕ) → count_at counts.new.entries q ≡ count_at counts.old.entries q }
    ensures ok { OnOk result (HasCount counts.new.entries key) }
    ensures others { (q : ℕ × ℕ) → HasCount counts.old.entries q → HasCount counts.new.entries q }
{
    let count = count_at(counts, key);
    put(counts, key, count)
}

/// Gives the stripe of a pointer, if there is one, a count.
pub(crate) fn room_for(counts: &mut CountMap, ptr: Option<Ptr>) -> Mem<()>
    ensures same { (q : ℕ × ℕ) → count_at counts.new.entries q ≡ count_at counts.old.entries q }
    ensures ok { OnOk result (HasCountOf counts.new.entries ptr) }
    ensures others { (q : ℕ × ℕ) → HasCount counts.old.entries q → HasCount counts.new.entries q }
{
    match ptr {
        None => Ok(()),
        Some(ptr) => make_room(counts, (ptr.log.0, ptr.stripe)),
    }
}

/// The bytes of a pointer come to its stripe, which has a count.
pub(crate) fn add(counts: &mut CountMap, ptr: Option<Ptr>)
    requires { HasCountOf counts.old.entries ptr }
    ensures counts { (log : LogId) (stripe : ℕ) → Counts (count_at counts.old.entries (log.0, stripe)) (bytes_in log stripe ptr) 0 (count_at counts.new.entries (log.0, stripe)) }
    ensures others { (q : ℕ × ℕ) → HasCount counts.old.entries q → HasCount counts.new.entries q }
{
    let Some(ptr) = ptr else {
        return;
    };
    let key = (ptr.log.0, ptr.stripe);
    let count = count_at(counts, key);
    let _ = put(counts, key, count.wrapping_add(ptr.len));
}

/// The bytes of a pointer go from its stripe, which has a count.
pub(crate) fn take(counts: &mut CountMap, ptr: Option<Ptr>)
    requires { HasCountOf counts.old.entries ptr }
    ensures counts { (log : LogId) (stripe : ℕ) → Counts (count_at counts.old.entries (log.0, stripe)) 0 (bytes_in log stripe ptr) (count_at counts.new.entries (log.0, stripe)) }
{
    let Some(ptr) = ptr else {
        return;
    };
    let key = (ptr.log.0, ptr.stripe);
    let count = count_at(counts, key);
    let _ = put(counts, key, count.wrapping_sub(ptr.len));
}

/// Counts the bytes that pointers name.
pub(crate) fn count_live(alloc: Global, live: &[Body]) -> Mem<CountMap>
    ensures { IfOk result (λ counts. (log : LogId) (stripe : ℕ) → count_at counts.entries (log.0, stripe) ≡ named_bytes log stripe live.now % 2 ^ 32) }
{
    let mut counts = BTreeMap::new(alloc);
    for body in live {
        let ptr = Some(body.now);
        room_for(&mut counts, ptr)?;
        add(&mut counts, ptr);
    }
    Ok(counts)
}

/// The counts of held stripes alone.
pub(crate) fn counts_of_held(alloc: Global, counts: &CountMap, held: &[HeldUse]) -> Mem<CountMap>
    ensures { IfOk result (λ kept. (log : LogId) (stripe : ℕ)
        → count_at kept.entries (log.0, stripe) ≡ if_held (held_at log stripe held.now) (count_at counts.now.entries (log.0, stripe))) }
{
    let mut kept = BTreeMap::new(alloc);
    for stripe in held {
        let key = (stripe.log.0, stripe.stripe);
        put(&mut kept, key, count_at(counts, key))?;
    }
    Ok(kept)
}
