//! The best segmentation of points by distances.
ghost use Rattle.std.specs.Prelude.{◌≡◌, ◌^◌, pos, ◌≤ℤ◌, IfOk, OnOk, OnErr};
ghost use Rattle.segment_model.specs.Limits.{IsLength};
ghost use Rattle.absolute_cut.specs.Certificate.{StandsFor, AddsText};

use crate::laws::certificate_law;
use absolute_cost::Absolute;
use cost_certificate::put_cert;
use pelt_core::certificate_by;
use segment_cost::{Cert, NoMemory, Points};
use std::alloc::Global;

/// The certificate that stands by distances for the points, a penalty from 0 to 10^36 and a least length of segments from 1
/// to 64, by a pruned table.
///
/// As many costs of segments as a table by squares asks for, each in time linear in the values of its segment, times the
/// bits of the distance of its least and greatest value; O(n + v) memory for n positions with v values. The only error is
/// want of memory.
pub fn segmentation(
    alloc: Global,
    points: &Points,
    penalty: i128,
    length: u8,
) -> Result<Cert, NoMemory>
    requires low { pos 0 ≤ℤ penalty }
    requires high { penalty ≤ℤ pos (10 ^ 36) }
    requires length { IsLength length }
    ensures { IfOk result (λ cert. StandsFor points.now penalty length cert) }
{
    certificate_law();
    let cert = certificate_by::<Absolute>(alloc, points, penalty, length)?;
    Ok(cert)
}

/// Adds the text of that certificate at the end.
///
/// Linear in the certificate, beside what the certificate takes; changes nothing where there is no memory.
pub fn put_segmentation(
    alloc: Global,
    points: &Points,
    penalty: i128,
    length: u8,
    out: &mut Vec<u8>,
) -> Result<(), NoMemory>
    requires low { pos 0 ≤ℤ penalty }
    requires high { penalty ≤ℤ pos (10 ^ 36) }
    requires length { IsLength length }
    ensures ok { OnOk result (AddsText points.now penalty length out.old.items out.new.items) }
    ensures err { OnErr result (out.new.items ≡ out.old.items) }
{
    let cert = segmentation(alloc, points, penalty, length)?;
    put_cert(alloc, out, &cert)?;
    Ok(())
}
