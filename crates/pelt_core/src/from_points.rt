//! The best segmentation of points, by a pruned table.
ghost use Rattle.std.specs.Prelude.{◌^◌, length, pos, ◌≤ℤ◌, IfOk};
ghost use Rattle.segment_model.specs.{Limits.IsLength, Values.{cost_between, values_by_position}};
ghost use Rattle.segment_cost.specs.Certificate.{IsCertificate, StandsFor};

use crate::table::Table;
use segment_cost::{Cert, Cost, NoMemory, Points, Square, certificate_law};
use std::alloc::Global;

/// The certificate that stands for the points, a penalty from 0 to 10^36 and a least length of segments from 1 to 64, by a pruned
/// table.
///
/// At most O(n² + v) time for n positions with v values, O(n + v) where changes come at bounded distances, and O(n)
/// memory. The only error is want of memory.
pub fn segmentation(
    alloc: Global,
    points: &Points,
    penalty: i128,
    length: u8,
) -> Result<Cert, NoMemory>
    requires low { pos 0 ≤ℤ penalty }
    requires high { penalty ≤ℤ pos (10 ^ 36) }
    requires length { IsLength length }
    ensures { IfOk result (λ cert. StandsFor points.now penalty length cert) }
{
    certificate_law();
    let cert = certificate_by::<Square>(alloc, points, penalty, length)?;
    Ok(cert)
}

/// The certificate of the best segmentation of the points by a cost, for such a penalty and such a least length: as
/// [`segmentation`], but for the time that the cost takes.
pub fn certificate_by<C: Cost + Drop>(
    alloc: Global,
    points: &Points,
    penalty: i128,
    len: u8,
) -> Result<Cert, NoMemory>
    requires low { pos 0 ≤ℤ penalty }
    requires high { penalty ≤ℤ pos (10 ^ 36) }
    requires length { IsLength len }
    ensures { IfOk result (λ cert. IsCertificate
        (cost_between C.cost_of (values_by_position points.now)) (length points.now) penalty len cert) }
{
    let table = Table::<C>::of_points(alloc, points, penalty, len)?;
    let cert = table.into_certificate(alloc)?;
    Ok(cert)
}
