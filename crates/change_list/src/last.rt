//! The centre of the last segment of a finished segmentation.
ghost use Rattle.std.specs.Prelude.{IfOk};
ghost use Rattle.change_list.specs.Last.{IsLastCentre};

use crate::made::{centre_at, cuts_law, low_of};
use segment_cost::{Done, NoMemory, Square};
use std::alloc::Global;

/// The centre of the last segment; none where there are no points. Linear in the values of the points.
pub fn last_centre(alloc: Global, done: &Done) -> Result<Option<i64>, NoMemory>
    ensures { IfOk result
        (λ centre. IsLastCentre done.now.points done.now.cert.cuts centre) }
{
    let points = &done.points;
    let n = points.len();
    if n == 0 {
        return Ok(None);
    }
    cuts_law(done);
    let square = Square::of_frozen(alloc, points)?;
    let cuts = done.cert.cuts.as_slice();
    let low = low_of(cuts, cuts.len());
    Ok(Some(centre_at(points, &square, low, n)))
}
