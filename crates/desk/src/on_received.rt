// The request that matches a frame that came back with handles. Its words are counted: a number, so many handles, then the frame.
use crate::answers::{Answered, Answers, Item, UNREADABLE};
use crate::words::Words;
use pdu::PDUS_MOST;
use received::ReceivedPdu;
use refusal::Refusal;

// So many handles at most.
const HANDLES_MOST: u16 = 2000;

// So many of them are handed on: one more than a frame can have PDUs. That one is spare already, so that those which are left out change no answer.
const HANDED_ON_MOST: usize = PDUS_MOST + 1;

type Handle = [u64; 4];

impl<'a> Words<'a> {
    // START SIZE INDEX COMMAND
    fn handle(&mut self) -> Result<Handle, Refusal> {
        Ok([
            u64::from(self.short()?),
            u64::from(self.short()?),
            u64::from(self.byte()?),
            u64::from(self.byte()?),
        ])
    }

    // N handles behind their number, into a room for those that are handed on.
    fn handles<'r>(&mut self, room: &'r mut [Handle]) -> Result<&'r [Handle], Refusal> {
        let count = self.short()?;
        if count > HANDLES_MOST {
            return Err(UNREADABLE);
        }
        let count = usize::from(count);
        for i in 0..count {
            let handle = self.handle()?;
            if i < room.len() {
                room[i] = handle;
            }
        }
        Ok(&room[..count.min(room.len())])
    }
}

impl Item for ReceivedPdu {
    fn say(self, answers: &mut Answers) {
        answers.numbers(&[
            self.place as u64,
            u64::from(self.len),
            u64::from(self.counter),
        ]);
    }
}

pub(crate) fn received(words: &mut Words, answers: &mut Answers) -> Answered {
    let mut room = [[0; 4]; HANDED_ON_MOST];
    let handles = words.handles(&mut room)?;
    let frame = words.bytes()?;
    words.end()?;
    let received = received::receive(handles.as_flattened(), frame)?;
    answers.gives_list(&received.pdus, received.count);
    Ok(())
}
