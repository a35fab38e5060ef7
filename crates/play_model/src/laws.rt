//! Laws of the definitions, as public functions that do nothing: their contracts are what they are for.
ghost use Rattle.play_model.specs.Laws.{
  RepliesStay,
  RepliesHoldEarlier,
  RepliesNameEntries,
  AddsStay,
  AddsHoldEarlier,
  AddedIsNew,
};

/// A reply looks at first entries of a journal alone, so it holds on every longer one; it names entries past those that
/// were known where it adds one, and no fewer elsewhere.
pub fn replies_law()
    ensures stay { RepliesStay }
    ensures earlier { RepliesHoldEarlier }
    ensures adds_stay { AddsStay }
    ensures adds_earlier { AddsHoldEarlier }
    ensures names { RepliesNameEntries }
    ensures new { AddedIsNew }
{}
