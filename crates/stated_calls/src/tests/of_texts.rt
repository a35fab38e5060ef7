//! Texts, numbers, tables.

use fixed_value::{Numeral, OutOfRange, put_fixed, scale};
use line_text::{
    Duplicate, Name, NameError, NoMemory, Numbers, Text, next_word, put_escaped, put_i128,
    put_name, put_u64, read_i64, read_name, read_u64, read_u128,
};
use metric_table::{Limit, decimals, default_penalty, larger_is_better};
use std::alloc::Global;

fn names() {
    let _: fn(Global, &[u8]) -> Result<Name, NameError> = read_name;
    let _: fn(Global, &[u8]) -> Result<Name, NameError> = Name::of_text;
    let _: fn(&Name, Global) -> Result<Name, NoMemory> = Name::copy;
    let _: fn(Global, &str) -> Result<Text, NoMemory> = Text::of;
    let _: fn(&Text, Global) -> Result<Text, NoMemory> = Text::copy;
    let _: fn(Global, &mut Vec<u8>, &Name) -> Result<(), NoMemory> = put_name;
    let _: fn(Global, &mut Vec<u8>, &[u8]) -> Result<(), NoMemory> = put_escaped;
}

fn name_text(name: &Name) -> &str {
    name.as_str()
}

fn text_text(text: &Text) -> &str {
    text.as_str()
}

fn words() {
    let _: fn(&[u8]) -> Option<u64> = read_u64;
    let _: fn(&[u8]) -> Option<u128> = read_u128;
    let _: fn(&[u8]) -> Option<i64> = read_i64;
    let _: fn(&[u8], usize) -> Option<(usize, usize)> = next_word;
    let _: fn(Global, &mut Vec<u8>, u64) -> Result<(), NoMemory> = put_u64;
    let _: fn(Global, &mut Vec<u8>, i128) -> Result<(), NoMemory> = put_i128;
}

fn list(alloc: Global) -> Numbers {
    Numbers::new(alloc)
}

fn longer(numbers: &mut Numbers, number: u64) -> Result<(), NoMemory> {
    numbers.push(number)
}

fn length(numbers: &Numbers) -> usize {
    numbers.len()
}

fn copied(numbers: &Numbers, alloc: Global) -> Result<Numbers, NoMemory> {
    numbers.copy(alloc)
}

fn item(numbers: &Numbers) -> Option<&u64> {
    numbers.get(0)
}

fn numerals() {
    let _: fn(&[u8]) -> Option<Numeral> = Numeral::read;
    let _: fn(&Numeral, u8) -> Result<i64, OutOfRange> = scale;
    let _: fn(Global, &mut Vec<u8>, i64, u8) -> Result<(), NoMemory> = put_fixed;
    let _: Numeral = Numeral {
        negative: true,
        digits: 1250,
        exponent: -5,
    };
    let _: OutOfRange = OutOfRange;
    let _: [NameError; 2] = [NameError::BadName, NameError::NoMemory];
}

fn metrics() {
    let _: fn(&[u8]) -> u8 = decimals;
    let _: fn(&[u8]) -> bool = larger_is_better;
    let _: fn(&[u8]) -> i128 = default_penalty;
    let _: [Limit; 11] = [
        Limit::Machines,
        Limit::Commits,
        Limit::Runs,
        Limit::RunSamples,
        Limit::Samples,
        Limit::Series,
        Limit::SeriesSamples,
        Limit::Positions,
        Limit::Steps,
        Limit::Cuts,
        Limit::Jobs,
    ];
}
