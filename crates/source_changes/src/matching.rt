//! Which things of two lists are the same: the n-th of their key in one list, and the n-th of it in the other.
ghost use Rattle.std.specs.Prelude.{◌≡◌, ◌<◌, ◌-◌, ◌^◌, ◌++◌, ◌∷◌, true, map, IfNone, IfOk, IfSome, OnOk, flat_map};
ghost use Rattle.source_changes.specs.Matches as spec;
ghost use Rattle.source_changes.specs.Matches.{CountsKey, FindsAll, key_count, match_now, pair_now, same_keys};

use std::alloc::{AllocError, Global};
use std::collections::HashMap;
use std::hash::Hash;

/// A thing of a list, with what it has in common with those that are like it.
#[derive(Drop)]
pub(crate) struct Keyed<K, T> {
    pub(crate) key: K,
    pub(crate) item: T,
}

/// What one of two lists has, or both.
#[derive(Drop)]
pub(crate) enum Match<T> {
    /// The old list alone has it.
    Gone(T),
    /// The new list alone has it.
    Came(T),
    /// Both lists have it: as the old one has it, and as the new one has it.
    Stays(T, T),
}

/// A thing of a list, with the one of another list that is the same.
type Pair<'a, A> = (&'a A, Option<&'a A>);

/// What was found of two lists so far.
type Found<'a, A> = Vec<Match<&'a A>>;

/// How many there are of a key, and one more is counted.
fn count_one<K: Eq + Hash + Drop>(
    counts: &mut HashMap<K, usize>,
    key: K,
) -> Result<usize, AllocError>
    requires { key_count K.eq counts.old key < 2 ^ 64 - 1 }
    ensures count { IfOk result (λ count. count ≡ key_count K.eq counts.old key) }
    ensures counted { OnOk result (CountsKey K.eq counts.old counts.new key) }
{
    let count = counts.get(&key).copied().unwrap_or(0);
    counts.insert(key, count + 1)?;
    Ok(count)
}

/// Of each thing of a list, how many of its key stand before it.
///
/// # Errors
///
/// Only if memory runs out.
pub(crate) fn ranks<K: Eq + Hash + Copy + Drop, T>(
    alloc: Global,
    list: &[Keyed<K, T>],
) -> Result<Vec<usize>, AllocError>
    ensures { IfOk result (λ v. v.items ≡ spec.ranks (same_keys K.eq) list.now) }
{
    let (mut ranks, mut counts) = (Vec::new(alloc), HashMap::new(alloc));
    for one in list {
        let rank = count_one(&mut counts, one.key)?;
        ranks.push(rank)?;
    }
    Ok(ranks)
}

/// Each thing of a list, by its key and how many like it stand before it.
fn table<'a, K: Eq + Hash + Copy + Drop, T>(
    alloc: Global,
    list: &'a [Keyed<K, T>],
) -> Result<HashMap<(K, usize), &'a Keyed<K, T>>, AllocError>
    ensures { IfOk result (λ table. FindsAll K.eq table list.now) }
{
    let (mut table, mut counts) = (HashMap::new(alloc), HashMap::new(alloc));
    for one in list {
        let place = count_one(&mut counts, one.key)?;
        table.insert((one.key, place), one)?;
    }
    Ok(table)
}

/// Each thing of a list, with the one of another list that is the same.
fn partners<'b, 'a, K: Eq + Hash + Copy + Drop, T>(
    alloc: Global,
    list: &'b [Keyed<K, T>],
    others: &'a [Keyed<K, T>],
) -> Result<Vec<(&'b Keyed<K, T>, Option<&'a Keyed<K, T>>)>, AllocError>
    ensures { IfOk result (λ v. map pair_now v.items
        ≡ spec.partners (same_keys K.eq) others.now list.now) }
{
    let table = table(alloc, others)?;
    let (mut pairs, mut counts) = (Vec::new(alloc), HashMap::new(alloc));
    for one in list {
        let place = count_one(&mut counts, one.key)?;
        pairs.push((one, table.get(&(one.key, place)).copied()))?;
    }
    Ok(pairs)
}

/// What the old list alone has of one of its things.
fn push_gone<'a, A>(pair: &Pair<'a, A>, found: &mut Found<'a, A>) -> Result<(), AllocError>
    ensures { OnOk result (map match_now found.new.items
        ≡ map match_now found.old.items ++ spec.gone_of (pair_now pair.now)) }
{
    if pair.1.is_some() {
        return Ok(());
    }
    found.push(Match::Gone(pair.0))?;
    Ok(())
}

fn push_all_gone<'a, A>(pairs: &[Pair<'a, A>], found: &mut Found<'a, A>) -> Result<(), AllocError>
    ensures { let gone = flat_map spec.gone_of (map pair_now pairs.now) in
        OnOk result (map match_now found.new.items ≡ map match_now found.old.items ++ gone) }
{
    for pair in pairs {
        push_gone(pair, found)?;
    }
    Ok(())
}

/// What the new list has.
fn match_of<'a, A>(pair: &Pair<'a, A>) -> Match<&'a A>
    ensures { match_now result ≡ spec.match_of (pair_now pair.now) }
{
    match pair.1 {
        Some(old) => Match::Stays(old, pair.0),
        None => Match::Came(pair.0),
    }
}

fn push_all_new<'a, A>(pairs: &[Pair<'a, A>], found: &mut Found<'a, A>) -> Result<(), AllocError>
    ensures { let new = map spec.match_of (map pair_now pairs.now) in
        OnOk result (map match_now found.new.items ≡ map match_now found.old.items ++ new) }
{
    for pair in pairs {
        found.push(match_of(pair))?;
    }
    Ok(())
}

/// Takes the first of two lists, if both have one and these have equal keys.
fn take_first<'a, K: Eq, T>(
    olds: &mut &'a [Keyed<K, T>],
    news: &mut &'a [Keyed<K, T>],
) -> Option<(&'a Keyed<K, T>, &'a Keyed<K, T>)>
    ensures both { IfSome result (λ p. (olds.old.now ≡ p.0.now ∷ olds.new.now)
        × (news.old.now ≡ p.1.now ∷ news.new.now)
        × (same_keys K.eq p.0.now p.1.now ≡ true)) }
    ensures none { IfNone result ((olds.new.now ≡ olds.old.now) × (news.new.now ≡ news.old.now)) }
{
    let ([old, old_rest @ ..], [new, new_rest @ ..]) = (*olds, *news) else {
        return None;
    };
    if old.key != new.key {
        return None;
    }
    (*olds, *news) = (old_rest, new_rest);
    Some((old, new))
}

/// Takes what both lists have in front, as long as keys are equal: it is not looked for in a table.
fn take_front<'a, K: Eq, T>(
    alloc: Global,
    olds: &mut &'a [Keyed<K, T>],
    news: &mut &'a [Keyed<K, T>],
) -> Result<Found<'a, Keyed<K, T>>, AllocError>
    ensures { IfOk result
        (λ both. spec.matched_behind (same_keys K.eq) (map match_now both.items) olds.new.now news.new.now
        ≡ spec.matches_of (same_keys K.eq) olds.old.now news.old.now) }
{
    let mut both = Vec::new(alloc);
    'pairs: while let Some((old, new)) = take_first(olds, news) {
        both.push(Match::Stays(old, new))?;
    }
    Ok(both)
}

/// What of two lists is the same: first what the old list alone has, in its order, and then what the new list has, in
/// its order. Two things are the same where both are the n-th of their key.
///
/// # Errors
///
/// Only if memory runs out.
pub(crate) fn match_keyed<'a, K: Eq + Hash + Copy + Drop, T>(
    alloc: Global,
    olds: &'a [Keyed<K, T>],
    news: &'a [Keyed<K, T>],
) -> Result<Vec<Match<&'a Keyed<K, T>>>, AllocError>
    ensures { IfOk result (λ v. map match_now v.items
        ≡ spec.matches_of (same_keys K.eq) olds.now news.now) }
{
    let (mut olds, mut news) = (olds, news);
    let mut both = take_front(alloc, &mut olds, &mut news)?;
    let mut found = Vec::new(alloc);
    push_all_gone(&partners(alloc, olds, news)?, &mut found)?;
    found.append(&mut both)?;
    push_all_new(&partners(alloc, news, olds)?, &mut found)?;
    Ok(found)
}
