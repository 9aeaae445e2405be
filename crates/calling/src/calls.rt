// A line is parsed, its call is made, and the answer is put.
use crate::changes::{Change, lend};
use crate::lists::List;
use crate::opens::Opening;
use crate::output::Output;
use crate::questions::Question;
use crate::replies::Reply;
use crate::texts::{Bytes, Text};
use crate::{parse, replies};
use answers::Refusal;

// A call, with the values that stand in its line.
#[derive(Clone, Copy)]
pub(crate) enum Call<'a> {
    Lend(usize),
    Room(usize),
    Open(Opening<'a>),
    Change(Change<'a>),
    Question(Question<'a>),
    List(List<'a>),
    Text(Text<'a>),
    Bytes(Bytes<'a>),
}

// The buffers that answers are written into, and the most elements of each that an answer may take. The place for texts is not the caller's.
#[derive(Drop)]
pub(crate) struct Buffers<'a> {
    pub texts: &'a mut [u8],
    pub masks: &'a mut [u64],
    pub counts: &'a mut [u32],
    pub distances: &'a mut [u16],
    pub file: &'a mut [u8],
    pub room: usize,
}

// The bytes of memory that are lent, and the most elements of each buffer that an answer may take.
#[derive(Clone, Copy)]
pub(crate) struct Session {
    lent: usize,
    pub room: usize,
}

impl Session {
    // Nothing is lent, and answers may be of any length.
    pub(crate) const START: Session = Session {
        lent: 0,
        room: usize::MAX,
    };

    // Answers a line.
    pub(crate) fn answer(
        &mut self,
        line: &mut [u8],
        memory: &mut [u8],
        buffers: Buffers,
        out: &mut Output,
    ) {
        let Some(call) = parse::parsed(line) else {
            Reply::BadLine.put(out);
            return;
        };
        match self.made(call, memory, buffers) {
            Ok(reply) => reply.put(out),
            Err(refusal) => replies::put_refusal(refusal, out),
        }
    }

    // Makes a call. Only `lend` sees the memory that is not lent.
    fn made<'b>(
        &mut self,
        call: Call,
        memory: &'b mut [u8],
        buffers: Buffers<'b>,
    ) -> Result<Reply<'b>, Refusal> {
        let lent = self.lent.min(memory.len());
        match call {
            Call::Lend(n) => Ok(self.lend(memory, n)),
            Call::Room(room) => {
                self.room = room;
                Ok(Reply::Done)
            }
            Call::Open(opening) => opening.made(&mut memory[..lent]),
            Call::Change(change) => change.made(&mut memory[..lent], buffers.counts, buffers.room),
            Call::Question(question) => question.made(&memory[..lent]),
            Call::List(list) => list.made(&memory[..lent], buffers),
            Call::Text(text) => text.made(&memory[..lent], buffers.texts, buffers.room),
            Call::Bytes(bytes) => bytes.made(&memory[..lent], buffers.file, buffers.room),
        }
    }

    // Lends so many bytes, if there are so many.
    fn lend(&mut self, memory: &mut [u8], n: usize) -> Reply<'static> {
        let reply = lend(memory, n);
        if let Reply::Done = reply {
            self.lent = n;
        }
        reply
    }
}
