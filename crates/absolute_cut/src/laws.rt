//! Laws of certificates by distances.
ghost use Rattle.absolute_cut.specs.Certificate.{CostIsUnique, CertificateStands, StandingIsCertificate, OneCertificate};

use distance_model::absolute_law;
use segment_model::{agreeing_costs_law, best_list_law, table_law, values_law};

/// Two costs that give each segment of some points its least sum of distances agree, and a certificate stands for points
/// where it is one for the costs as they are computed.
pub fn certificate_law()
    ensures unique { CostIsUnique }
    ensures stands { CertificateStands }
    ensures standing { StandingIsCertificate }
{
    absolute_law();
    agreeing_costs_law();
    values_law();
}

/// No points, penalty and least length have two certificates that stand for them.
pub fn one_certificate_law()
    ensures { OneCertificate }
{
    certificate_law();
    best_list_law();
    table_law();
}
