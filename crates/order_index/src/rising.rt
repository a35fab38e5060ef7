//! Look-ups by number among declarations whose numbers rise: no map is needed, since a number's place is found by halving.
ghost use Rattle.std.specs.Prelude.{◌≡◌, ◌≤◌, IsTrue, IfOk, filter, find, length, option_copied, take, drop};
ghost use Rattle.history_model.specs.Commits.{has_number};
ghost use Rattle.order_index.specs.{Between.is_between, Kept.{AreBelow, AreFrom, IsRising, numbers_of}};

use crate::NoMemory;
use history_model::Declaration;
use line_text::Numbers;
use std::alloc::Global;

// Whether the number is above the last one, and so above each; also where there is none. Constant time.
pub(crate) fn is_above_all(commits: &[Declaration], number: u64) -> bool
    requires { IsRising commits.now }
    ensures { IsTrue result → AreBelow number commits.now }
{
    let count = commits.len();
    if count == 0 {
        return true;
    }
    commits[count - 1].number < number
}

// The first place whose number is not below this one. Logarithmic time, and constant where the number is above all.
fn place_from(commits: &[Declaration], number: u64) -> usize
    requires { IsRising commits.now }
    ensures below { AreBelow number (take result commits.now) }
    ensures rest { AreFrom number (drop result commits.now) }
    ensures within { result ≤ length commits.now }
{
    let count = commits.len();
    if is_above_all(commits, number) {
        return count;
    }
    let mut low = 0;
    let mut high = count;
    while low < high {
        let middle = low + (high - low) / 2;
        if commits[middle].number < number {
            low = middle + 1;
        } else {
            high = middle;
        }
    }
    low
}

// The declaration with this number. Logarithmic time, and constant where the number is above all.
pub(crate) fn with_number(commits: &[Declaration], number: u64) -> Option<&Declaration>
    requires { IsRising commits.now }
    ensures { option_copied result ≡ find (has_number number) commits.now }
{
    let place = place_from(commits, number);
    if place >= commits.len() {
        return None;
    }
    let declaration = &commits[place];
    if declaration.number != number {
        return None;
    }
    Some(declaration)
}

// The numbers from one to another, in order. Linear in their count, but for a search of logarithmic time.
pub(crate) fn numbers_between(
    alloc: Global,
    commits: &[Declaration],
    lo: u64,
    hi: u64,
) -> Result<Numbers, NoMemory>
    requires { IsRising commits.now }
    ensures { IfOk result (λ made.
        made ≡ filter (is_between lo hi) (numbers_of commits.now)) }
{
    let mut numbers = Numbers::new(alloc);
    for place in place_from(commits, lo)..commits.len() {
        let number = commits[place].number;
        if number > hi {
            return Ok(numbers);
        }
        numbers.push(number)?;
    }
    Ok(numbers)
}
