ghost use Rattle.std.specs.Prelude.{◌≡◌, ◌<◌, ◌≤◌, length};
ghost use Rattle.zb_usage.specs.Choosing.{IsFirstGreatest, dead_by_age, dead_bytes, newest as greatest_born};

use crate::stripe_use::StripeUse;

// How many of the committed bytes no pointer names.
fn dead_bytes(stripe: &StripeUse) -> u32
    ensures { result ≡ dead_bytes stripe.now }
{
    stripe.bytes.saturating_sub(stripe.live)
}

/// The first place with the most dead bytes, `bytes - live`, where that is 0 if `live` is greater; 0 for an empty list.
/// Takes no memory.
pub fn most_dead(list: &[StripeUse]) -> usize
    ensures first { 1 ≤ length list.now → IsFirstGreatest dead_bytes list.now result }
    ensures index { 1 ≤ length list.now → result < length list.now }
    ensures empty { length list.now ≡ 0 → result ≡ 0 }
{
    if list.is_empty() {
        return 0;
    }
    let mut best = 0;
    for i in 1..list.len() {
        if dead_bytes(&list[best]) < dead_bytes(&list[i]) {
            best = i;
        }
    }
    best
}

// The greatest number of a first entry, 0 for an empty list.
fn newest(list: &[StripeUse]) -> u64
    ensures { result ≡ greatest_born list.now }
{
    let mut newest = 0;
    for stripe in list {
        newest = stripe.born.max(newest);
    }
    newest
}

// Dead bytes times the age in entries.
fn dead_by_age(newest: u64, stripe: &StripeUse) -> u128
    requires { stripe.now.born ≤ newest }
    ensures { result ≡ dead_by_age newest stripe.now }
{
    u128::from(dead_bytes(stripe)) * (u128::from(newest - stripe.born) + 1)
}

/// The first place with the greatest product of dead bytes and age: `bytes - live`, where that is 0 if `live` is greater,
/// times `newest - born + 1`, where `newest` is the greatest `born` of the list; 0 for an empty list. Takes no memory.
pub fn oldest(list: &[StripeUse]) -> usize
    ensures first { 1 ≤ length list.now → IsFirstGreatest (dead_by_age (greatest_born list.now)) list.now result }
    ensures index { 1 ≤ length list.now → result < length list.now }
    ensures empty { length list.now ≡ 0 → result ≡ 0 }
{
    if list.is_empty() {
        return 0;
    }
    let newest = newest(list);
    let mut best = 0;
    for i in 1..list.len() {
        if dead_by_age(newest, &list[best]) < dead_by_age(newest, &list[i]) {
            best = i;
        }
    }
    best
}
