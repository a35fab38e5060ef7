//! What workers add to histories, and what they leave of them: definitions alone.
//!
//! An answer to a bisection, or a question that was given up, says what was found of the commit that the bisection asked
//! (`specs/Findings.antt`). A history is quiet where no known series is stale and no job open, but where a limit keeps it so
//! (`specs/Quiet.antt`).
//!
//! Stands on `history_model` for histories, on `touch_model` for what touches a series, and on `track_model` for the commit
//! that a bisection asks.
#![tactic(auto)]
