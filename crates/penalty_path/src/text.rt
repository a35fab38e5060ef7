//! A path's text.
ghost use Rattle.std.specs.Prelude.{◌≡◌, ◌++◌, OnOk};
ghost use Rattle.penalty_path.specs.Text.{count_row, ends_row, stretch_text, path_text};

use crate::stretch::{Stretch, Stretches};
use cost_certificate::put_cert;
use line_text::{put_i128, put_u64};
use segment_cost::NoMemory;
use std::alloc::Global;

/// Puts a path's text behind some bytes: how many stretches there are, and for each its two penalties and the texts of
/// its certificates, of the second only where the penalties differ.
///
/// Where there is no memory, a part of it may stand behind them. Linear in the certificates.
pub fn put_path(alloc: Global, out: &mut Vec<u8>, stretches: &Stretches) -> Result<(), NoMemory>
    ensures { OnOk result (out.new.items ≡ out.old.items ++ path_text stretches.now) }
{
    put_count(alloc, out, stretches.len() as u64)?;
    for stretch in stretches.as_slice() {
        put_stretch(alloc, out, stretch)?;
    }
    Ok(())
}

// The line of the number of stretches.
fn put_count(alloc: Global, out: &mut Vec<u8>, count: u64) -> Result<(), NoMemory>
    ensures { OnOk result (out.new.items ≡ out.old.items ++ count_row count) }
{
    out.extend_from_slice(b"stretches ")?;
    put_u64(alloc, out, count)?;
    out.push(b'\n')?;
    Ok(())
}

// The lines of a stretch.
fn put_stretch(alloc: Global, out: &mut Vec<u8>, stretch: &Stretch) -> Result<(), NoMemory>
    ensures { OnOk result (out.new.items ≡ out.old.items ++ stretch_text stretch.now) }
{
    put_ends(alloc, out, stretch.from, stretch.to)?;
    put_cert(alloc, out, &stretch.first)?;
    if stretch.from < stretch.to {
        put_cert(alloc, out, &stretch.last)?;
    }
    Ok(())
}

// The line of a stretch's penalties.
fn put_ends(alloc: Global, out: &mut Vec<u8>, from: i128, to: i128) -> Result<(), NoMemory>
    ensures { OnOk result (out.new.items ≡ out.old.items ++ ends_row from to) }
{
    out.extend_from_slice(b"stretch ")?;
    put_i128(alloc, out, from)?;
    out.push(b' ')?;
    put_i128(alloc, out, to)?;
    out.push(b'\n')?;
    Ok(())
}
