//! Look-ups by number through a map from numbers to places, for declarations whose numbers don't rise.
ghost use Rattle.std.specs.{Prelude.{◌≡◌, ◌≤◌, IsTrue, IfOk, None, filter, find, option_copied, slice_get}, Ordering.nat_cmp, BTreeMap.{keys, IsOrdered, get as at_number}};
ghost use Rattle.history_model.specs.Commits.{has_number};
ghost use Rattle.order_index.specs.{Between.is_between, Kept.{ArePlaced, IsRising}};

use crate::NoMemory;
use history_model::Declaration;
use line_text::Numbers;
use std::alloc::Global;
use std::collections::BTreeMap;

// The map of some declarations, made while their numbers still rise.
pub(crate) fn places_of(
    alloc: Global,
    commits: &[Declaration],
) -> Result<BTreeMap<u64, usize>, NoMemory>
    requires { IsRising commits.now }
    ensures { IfOk result (λ made. ArePlaced commits.now made) }
{
    let mut places = BTreeMap::new(alloc);
    for place in 0..commits.len() {
        places.insert(commits[place].number, place)?;
    }
    Ok(places)
}

// Whether the number is above each one. Constant time but for the depth of the map: commits mostly come in order.
fn is_above_all(by_number: &BTreeMap<u64, usize>, number: u64) -> bool
    ensures { IsTrue result → at_number nat_cmp by_number.now number ≡ None }
{
    match by_number.last_key_value() {
        Some((last, _)) => *last < number,
        None => false,
    }
}

// The declaration with this number. Logarithmic time.
pub(crate) fn with_number<'a>(
    commits: &'a [Declaration],
    by_number: &BTreeMap<u64, usize>,
    number: u64,
) -> Option<&'a Declaration>
    requires { ArePlaced commits.now by_number.now }
    ensures { option_copied result ≡ find (has_number number) commits.now }
{
    if is_above_all(by_number, number) {
        return None;
    }
    let place = by_number.get(&number)?;
    declaration_at(commits, *place)
}

// The declaration at a place, if there is one.
fn declaration_at(commits: &[Declaration], place: usize) -> Option<&Declaration>
    ensures { option_copied result ≡ slice_get commits.now place }
{
    commits.get(place)
}

// The numbers of a map from one to another, in order.
pub(crate) fn keys_between(
    alloc: Global,
    by_number: &BTreeMap<u64, usize>,
    lo: u64,
    hi: u64,
) -> Result<Numbers, NoMemory>
    requires { lo ≤ hi }
    ensures keys { IfOk result (λ made. made ≡ filter (is_between lo hi) (keys by_number.now)) }
    ensures ordered { IsOrdered nat_cmp by_number.now }
{
    let mut numbers = Numbers::new(alloc);
    for (number, _) in by_number.range(lo..=hi) {
        numbers.push(*number)?;
    }
    Ok(numbers)
}
