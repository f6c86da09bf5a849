// The requests on frames: the builder, the frame header, the reader.
use crate::answers::{Answered, Answers, Item};
use crate::words::Words;
use created_frame::{Builder, Push, handle_row, state_row};
use pdu::{PduFields, pdu_row};
use refusal::Refusal;

// S COMMAND ADDRESS: the state of an area, the index counter, and what the PDUs that are pushed have in common.
#[derive(Clone, Copy)]
pub(crate) struct Pushing {
    pub(crate) state: Builder,
    pub(crate) index: u8,
    pub(crate) command: u8,
    pub(crate) address: u32,
}

impl<'a> Words<'a> {
    // USED COUNT LAST
    fn state(&mut self) -> Result<Builder, Refusal> {
        let used = usize::from(self.short()?);
        let count = usize::from(self.short()?);
        let last = usize::from(self.short()?);
        Ok(Builder { used, count, last })
    }

    // S COMMAND ADDRESS
    pub(crate) fn pushing(&mut self) -> Result<Pushing, Refusal> {
        let state = self.state()?;
        let index = self.byte()?;
        let command = self.byte()?;
        let address = self.long()?;
        Ok(Pushing {
            state,
            index,
            command,
            address,
        })
    }
}

impl<'a> Answers<'a> {
    // S as it is after the call.
    fn state(&mut self, state: Builder, index: u8) {
        self.record(&state_row(state));
        self.numbers(&[u64::from(index)]);
    }
}

pub(crate) fn open(words: &mut Words, answers: &mut Answers) -> Answered {
    let area = words.bytes()?;
    words.end()?;
    let opened = created_frame::open(area);
    answers.says_done(opened.map(|_| ()));
    answers.record(&opened.map_or([0, 0, 0], state_row));
    answers.lent(area);
    Ok(())
}

// A push, and the area behind it.
fn pushed<'a>(words: &mut Words<'a>) -> Result<(Push, &'a [u8]), Refusal> {
    let area = words.bytes()?;
    let Pushing {
        state,
        index,
        command,
        address,
    } = words.pushing()?;
    let data = words.bytes()?;
    let over = usize::from(words.short()?);
    words.end()?;
    let push = created_frame::push_pdu(area, state, index, command, address, data, over);
    Ok((push, area))
}

// The PDU's place and whole size.
pub(crate) fn push(words: &mut Words, answers: &mut Answers) -> Answered {
    let (push, area) = pushed(words)?;
    answers.says(push.answer.map(|pdu| [pdu.start as u64, pdu.size as u64]));
    answers.state(push.builder, push.next);
    answers.lent(area);
    Ok(())
}

// The whole handle.
pub(crate) fn handle(words: &mut Words, answers: &mut Answers) -> Answered {
    let (push, area) = pushed(words)?;
    answers.says(push.answer.map(handle_row));
    answers.state(push.builder, push.next);
    answers.lent(area);
    Ok(())
}

pub(crate) fn rest(words: &mut Words, answers: &mut Answers) -> Answered {
    let area = words.bytes()?;
    let Pushing {
        state,
        index,
        command,
        address,
    } = words.pushing()?;
    let data = words.bytes()?;
    words.end()?;
    let push = created_frame::push_pdu_slice_rest(area, state, index, command, address, data);
    match push.answer {
        Ok(Some((taken, pdu))) => answers.gives(&[taken as u64, pdu.start as u64, pdu.size as u64]),
        Ok(None) => answers.absent(),
        Err(x) => answers.refuses(x),
    }
    answers.state(push.builder, push.next);
    answers.lent(area);
    Ok(())
}

pub(crate) fn can_push(words: &mut Words, answers: &mut Answers) -> Answered {
    let size = usize::from(words.short()?);
    let state = words.state()?;
    let len = usize::from(words.short()?);
    words.end()?;
    answers.gives_one(created_frame::can_push_pdu_payload(size, state, len)?);
    Ok(())
}

// The two bytes of a header that is refused are 0.
pub(crate) fn header(words: &mut Words, answers: &mut Answers) -> Answered {
    let used = usize::from(words.short()?);
    words.end()?;
    let header = pdu::frame_header(used);
    answers.says_done(header.map(|_| ()));
    answers.lent(&header.unwrap_or([0, 0]));
    Ok(())
}

impl Item for PduFields {
    fn say(self, answers: &mut Answers) {
        answers.numbers(&pdu_row(self));
    }
}

pub(crate) fn frame(words: &mut Words, answers: &mut Answers) -> Answered {
    let bytes = words.bytes()?;
    words.end()?;
    let read = frame_reader::read_frame(bytes)?;
    answers.gives_list(&read.pdus, read.count);
    Ok(())
}
