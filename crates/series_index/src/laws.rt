//! Laws of a series, as public functions that do nothing.
ghost use Rattle.series_index.specs.Taken.{SamplesLeaveNoTrace};

/// A series from which all samples of a step are taken out again is as if none of them had come.
pub fn undo_law()
    ensures { SamplesLeaveNoTrace }
{}
