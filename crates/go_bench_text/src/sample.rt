//! The test that a sample is of.
ghost use Rattle.std.specs.Prelude.{◌≡◌, ◌≤◌, ◌↔◌, ◌<◌, length, IsTrue, IfOk};
ghost use Rattle.go_bench_text.specs.Readings.{test_of};

use line_text::{Name, Names};
use sample_model::NoMemory;
use std::alloc::Global;

// Whether a result line with this name, where `pkg` has this value, has a test of at most 256 bytes.
pub(crate) fn test_fits(pkg: &str, name: &str) -> bool
    ensures { IsTrue result ↔ (length (test_of pkg.now name.now) ≤ 256) }
{
    if pkg.is_empty() {
        name.len() <= 256
    } else {
        pkg.len() < 256 && pkg.len() + 1 + name.len() <= 256
    }
}

// The name of a text, shared where it was met before.
pub(crate) fn shared_name(alloc: Global, names: &mut Names, text: &str) -> Result<Name, NoMemory>
    requires some { 0 < length text.now }
    requires short { length text.now ≤ 256 }
    ensures { IfOk result (λ name. name ≡ text.now) }
{
    match names.name_of(alloc, text) {
        Ok(name) => Ok(name),
        Err(_) => Err(NoMemory),
    }
}

// The test of a result line with this name where `pkg` has this value. What `buffer` holds is of no account.
pub(crate) fn test_name(
    alloc: Global,
    names: &mut Names,
    buffer: &mut String,
    pkg: &str,
    name: &str,
) -> Result<Name, NoMemory>
    requires { length (test_of pkg.now name.now) ≤ 256 }
    ensures { IfOk result (λ test. test ≡ test_of pkg.now name.now) }
{
    if pkg.is_empty() {
        let test = if name.is_empty() { "#" } else { name };
        return shared_name(alloc, names, test);
    }
    buffer.clear();
    buffer.push_str(pkg)?;
    buffer.push_str("#")?;
    buffer.push_str(name)?;
    shared_name(alloc, names, buffer.as_str())
}
