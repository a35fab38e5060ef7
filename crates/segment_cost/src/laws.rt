//! Laws of certificates.
ghost use Rattle.segment_cost.specs.Certificate.{OneCertificate, CertificateStands, StandingIsCertificate};

use segment_model::{
    agreeing_costs_law, best_list_law, cost_law, squares_law, table_law, values_law,
};

/// No points, penalty and least length have two certificates that stand for them.
pub fn one_certificate_law()
    ensures { OneCertificate }
{
    certificate_law();
    best_list_law();
    table_law();
}

/// A certificate stands for points where it is one for the least sums of squares of their segments.
pub fn certificate_law()
    ensures stands { CertificateStands }
    ensures standing { StandingIsCertificate }
{
    cost_law();
    agreeing_costs_law();
    squares_law();
    values_law();
}
