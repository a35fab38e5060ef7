//! What jobs and workers are.

use std::sync::Wait;

/// Something that is run once, and then holds what came of it.
pub trait Job<R> {
    /// It can be run.
    ghost can_run: { Self → Type 0 };

    /// What running it makes of it.
    ghost comes_to: { Self → Self → Type 0 };

    fn run(&mut self, rt: &R)
    where
        R: Wait,
        requires { can_run self.old }
        ensures { comes_to self.old self.new };
}

/// Something that works once with a tool that it is lent, and then holds what came of it.
pub trait Worker<R, T> {
    /// It can work with the tool.
    ghost can_work: { Self → T → Type 0 };

    /// What working makes of it and of the tool.
    ghost work_gives: { Self → T → Self → T → Type 0 };

    fn work(&mut self, rt: &R, tool: &mut T)
    where
        R: Wait,
        requires { can_work self.old tool.old }
        ensures { work_gives self.old tool.old self.new tool.new };
}
