//! Replies that are gathered, so that a sink takes them together.
ghost use Rattle.std.specs.Prelude.{◌≡◌, ◌↔◌, true, ◌++◌, [], length, nat_le, OnOk, OnErr, IfErr};
ghost use Rattle.track_outside.specs.Calls.{Took};
ghost use Rattle.reply_text.specs.Replies.{text_of};
ghost use Rattle.script_loop.specs.Turns.{FailsOn};

use crate::NoMemory;
use crate::stop::Stop;
use reply_text::put_reply;
use request_model::Reply;
use std::alloc::Global;
use std::marker::Model;
use track_outside::{Sink, put_all};

// So many bytes of replies are handed out, and no more gathered.
const MANY: usize = 0x1_0000;

// The replies that no sink was handed yet. Contracts see their bytes.
#[derive(Drop)]
pub(crate) struct Replies {
    text: Vec<u8>,
}

impl Model for Replies {
    ghost use Rattle.std.specs.Prelude.{ℕ, List};

    ghost Value = { List ℕ };

    ghost view = { λ r. r.text.items };
}

impl Replies {
    // None are gathered. Takes no memory before the first.
    pub(crate) fn new(alloc: Global) -> Replies
        ensures { result ≡ [] }
    {
        Replies {
            text: Vec::new(alloc),
        }
    }

    // Gathers a reply. Changes nothing where there is no memory.
    pub(crate) fn add(&mut self, alloc: Global, reply: &Reply) -> Result<(), NoMemory>
        ensures ok { OnOk result (self.new ≡ self.old ++ text_of reply.now) }
        ensures err { OnErr result (self.new ≡ self.old) }
    {
        put_reply(alloc, &mut self.text, reply)
    }

    // Whether they are so many bytes that no more are to be gathered.
    pub(crate) fn are_many(&self) -> bool
        ensures { result ≡ nat_le 65536 (length self.now) }
    {
        self.text.len() >= MANY
    }

    // Whether there are none.
    pub(crate) fn are_none(&self) -> bool
        ensures { result ≡ true ↔ self.now ≡ [] }
    {
        self.text.is_empty()
    }

    // Writes them all, and gathers anew, in the memory that they had.
    pub(crate) fn hand_out<O: Sink>(&mut self, out: &mut O) -> Result<(), Stop>
        ensures ok { OnOk result (Took O.Sink out.old out.new self.old) }
        ensures err { IfErr result (FailsOn O.Sink out.old out.new self.old) }
        ensures none { self.new ≡ [] }
        ensures named { O.name out.new ≡ O.name out.old }
    {
        let written = put_all(out, &self.text);
        self.text.clear();
        if written.is_err() {
            return Err(Stop::WriteFault);
        }
        Ok(())
    }
}
