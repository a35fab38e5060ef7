//! Points and the texts of certificates, which several tests share.
use cost_certificate::put_cert;
use point_list::steps_law;
use segment_cost::{Cert, Points};
use std::alloc::Global;

/// The greatest value.
pub const GREATEST: i64 = 10_000_000_000_000_000;

/// Four positions with a step, and ten with a step that is taken back halfway: commits and values.
pub const FOUR: &[(u64, i64)] = &[(1, 0), (2, 0), (3, 10), (4, 10)];

pub const TEN: &[(u64, i64)] = &[
    (1, 0),
    (2, 0),
    (3, 4),
    (4, 4),
    (5, 2),
    (6, 2),
    (7, 2),
    (8, 2),
    (9, 2),
    (10, 2),
];

/// The points of some commits and values, in any order; none where a value is out of range or there is no memory.
pub fn points_of(alloc: Global, lines: &[(u64, i64)]) -> Option<Points> {
    let mut points = Points::new(alloc);
    steps_law();
    let mut near = usize::MAX;
    for (i, (commit, value)) in lines.iter().enumerate() {
        if value.unsigned_abs() > GREATEST as u64 {
            return None;
        }
        if points
            .insert_near(&mut near, *commit, i as u64, *value)
            .is_err()
        {
            return None;
        }
    }
    Some(points)
}

/// Whether there is a certificate, and it has this text.
pub fn has_text(alloc: Global, cert: Option<Cert>, text: &str) -> bool {
    match cert {
        Some(cert) => is_text(alloc, &cert, text),
        None => false,
    }
}

fn is_text(alloc: Global, cert: &Cert, text: &str) -> bool {
    let mut out = Vec::new(alloc);
    put_cert(alloc, &mut out, cert).is_ok() && out.as_slice() == text.as_bytes()
}
