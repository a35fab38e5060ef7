//! Laws of the definitions, as public functions that do nothing: their contracts are what they are for.
ghost use Rattle.reply_laws.specs.Laws.{
  KindsAreTold,
  OneAdds,
  OneBeside,
  OneTells,
  PlainBeside,
  RepliesAreNamed,
};

use segment_cost::one_certificate_law;
use track_model::outcome_law;

/// Whether a request added an entry is told by its form and its answer.
pub fn kinds_law()
    ensures { KindsAreTold }
{}

/// The text of a reply begins with the number of entries that it names, and tells its kind.
pub fn texts_law()
    ensures { RepliesAreNamed }
{}

/// A request that segments nothing comes to one outcome beside others, which is what it comes to alone. So one reply at most
/// adds the entry of a step; and one at most names so many entries and adds none, but of a segmentation.
pub fn one_reply_law()
    ensures outcomes { OneBeside }
    ensures alone { PlainBeside }
    ensures adds { OneAdds }
    ensures tells { OneTells }
{
    outcome_law();
    one_certificate_law();
}
