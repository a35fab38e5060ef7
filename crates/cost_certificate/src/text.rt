//! A certificate's text.
ghost use Rattle.std.specs.{Prelude.{◌≡◌, ℕ, List, [], ◌∷◌, ◌++◌, map, codes, decimal, length, take, OnOk, OnErr}, Fmt.signed_decimal};
ghost use Rattle.cost_certificate.specs.Text.{row, length_row, text_of};

use line_text::{put_i128, put_u64};
use segment_cost::{Cert, NoMemory};
use std::alloc::Global;

/// Puts a certificate's text behind some bytes: seven lines, each a name and numbers after single spaces, or eight where
/// its least length of segments is above 1.
///
/// Linear in the certificate; changes nothing where there is no memory.
pub fn put_cert(alloc: Global, out: &mut Vec<u8>, cert: &Cert) -> Result<(), NoMemory>
    ensures ok { OnOk result (out.new.items ≡ out.old.items ++ text_of cert.now) }
    ensures err { OnErr result (out.new.items ≡ out.old.items) }
{
    let before = out.len();
    let put = put_rows(alloc, out, cert);
    if put.is_err() {
        out.truncate(before);
    }
    put
}

// Puts the lines, one behind another. As with each function below, a part of them may stand behind the bytes where there
// is no memory.
fn put_rows(alloc: Global, out: &mut Vec<u8>, cert: &Cert) -> Result<(), NoMemory>
    ensures ok { OnOk result (out.new.items ≡ out.old.items ++ text_of cert.now) }
    ensures err { OnErr result (take (length out.old.items) out.new.items ≡ out.old.items) }
{
    put_asked(alloc, out, cert)?;
    put_row(alloc, out, b"cuts", cert.cuts.as_slice())?;
    put_row(alloc, out, b"total", &[cert.total])?;
    put_tables(alloc, out, cert)?;
    Ok(())
}

// The lines of what was asked for: how many points, at which penalty, and with which least length.
fn put_asked(alloc: Global, out: &mut Vec<u8>, cert: &Cert) -> Result<(), NoMemory>
    ensures ok { OnOk result (out.new.items ≡ out.old.items
        ++ row (codes "points") (decimal cert.now.points ∷ [])
        ++ row (codes "penalty") (signed_decimal cert.now.penalty ∷ [])
        ++ length_row cert.now.length) }
    ensures err { OnErr result (take (length out.old.items) out.new.items ≡ out.old.items) }
{
    put_row(alloc, out, b"points", &[cert.points])?;
    put_row(alloc, out, b"penalty", &[cert.penalty])?;
    put_length(alloc, out, cert.length)?;
    Ok(())
}

// The lines of the three tables.
fn put_tables(alloc: Global, out: &mut Vec<u8>, cert: &Cert) -> Result<(), NoMemory>
    ensures ok { OnOk result (out.new.items ≡ out.old.items
        ++ row (codes "least") (map signed_decimal cert.now.least)
        ++ row (codes "back") (map decimal cert.now.back)
        ++ row (codes "pruned") (map decimal cert.now.pruned)) }
    ensures err { OnErr result (take (length out.old.items) out.new.items ≡ out.old.items) }
{
    put_row(alloc, out, b"least", cert.least.as_slice())?;
    put_row(alloc, out, b"back", cert.back.as_slice())?;
    put_row(alloc, out, b"pruned", cert.pruned.as_slice())?;
    Ok(())
}

// A line of the least length, where it is above 1.
#[tactic(auto, unfolding(crate::specs::Text::length_row))]
fn put_length(alloc: Global, out: &mut Vec<u8>, len: u8) -> Result<(), NoMemory>
    ensures ok { OnOk result (out.new.items ≡ out.old.items ++ length_row len) }
    ensures err { OnErr result (take (length out.old.items) out.new.items ≡ out.old.items) }
{
    if len > 1 {
        return put_row(alloc, out, b"length", &[u64::from(len)]);
    }
    Ok(())
}

// A line of numbers behind a name.
fn put_row<N: Figure>(
    alloc: Global,
    out: &mut Vec<u8>,
    name: &[u8],
    numbers: &[N],
) -> Result<(), NoMemory>
    ensures ok { OnOk result
        (out.new.items ≡ out.old.items ++ row name.now (map N.text numbers.now)) }
    ensures err { OnErr result (take (length out.old.items) out.new.items ≡ out.old.items) }
{
    out.extend_from_slice(name)?;
    for number in numbers {
        out.push(b' ')?;
        number.put(alloc, out)?;
    }
    out.push(b'\n')?;
    Ok(())
}

// A number with a text.
trait Figure: Copy {
    ghost text: { Self → List ℕ };

    // Puts its text behind some bytes; changes nothing where there is no memory.
    fn put(self, alloc: Global, out: &mut Vec<u8>) -> Result<(), NoMemory>
        ensures ok { OnOk result (out.new.items ≡ out.old.items ++ text self) }
        ensures err { OnErr result (out.new.items ≡ out.old.items) };
}

impl Figure for u16 {
    ghost text = { decimal };

    fn put(self, alloc: Global, out: &mut Vec<u8>) -> Result<(), NoMemory> {
        put_u64(alloc, out, u64::from(self))
    }
}

impl Figure for u64 {
    ghost text = { decimal };

    fn put(self, alloc: Global, out: &mut Vec<u8>) -> Result<(), NoMemory> {
        put_u64(alloc, out, self)
    }
}

impl Figure for i128 {
    ghost text = { signed_decimal };

    fn put(self, alloc: Global, out: &mut Vec<u8>) -> Result<(), NoMemory> {
        put_i128(alloc, out, self)
    }
}
