//! The texts of worked paths.

/// Of the values 0 0 10 10, at penalties from 0 to 120: from 100 on the cut isn't worth it.
pub const PATH_OF_FOUR: &str = "stretches 2\n\
    stretch 0 99\n\
    points 4\npenalty 0\ncuts 2\ntotal 0\nleast 0 0 0 0 0\nback 0 0 0 2 2\npruned 3 3 0 0 0\n\
    points 4\npenalty 99\ncuts 2\ntotal 99\nleast -99 0 0 67 99\nback 0 0 0 0 2\npruned 0 0 0 0 0\n\
    stretch 100 120\n\
    points 4\npenalty 100\ncuts\ntotal 100\nleast -100 0 0 67 100\nback 0 0 0 0 0\npruned 0 0 0 0 0\n\
    points 4\npenalty 120\ncuts\ntotal 100\nleast -120 0 0 67 100\nback 0 0 0 0 0\npruned 0 0 0 0 0\n";

/// Of 0 0 4 4 2 2 2 2 2 2, at 8 alone.
pub const PATH_OF_TEN: &str = "stretches 1\n\
    stretch 8 8\n\
    points 10\npenalty 8\ncuts\ntotal 16\n\
    least -8 0 0 8 8 11 12 13 14 15 16\nback 0 0 0 2 2 2 2 2 2 2 0\npruned 0 4 0 0 0 0 0 0 0 0 0\n";

/// Of no values, from 5 to 9.
pub const PATH_OF_NONE: &str = "stretches 1\n\
    stretch 5 9\n\
    points 0\npenalty 5\ncuts\ntotal 0\nleast -5\nback 0\npruned 0\n\
    points 0\npenalty 9\ncuts\ntotal 0\nleast -9\nback 0\npruned 0\n";
