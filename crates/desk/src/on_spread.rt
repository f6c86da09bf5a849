// The request that spreads an image over a row of areas.
use crate::answers::{Answered, Answers, Item};
use crate::on_frames::Pushing;
use crate::words::Words;
use created_frame::{Builder, state_row};

impl Item for Builder {
    fn say(self, answers: &mut Answers) {
        answers.numbers(&state_row(self));
    }
}

pub(crate) fn spread(words: &mut Words, answers: &mut Answers) -> Answered {
    let size = usize::from(words.short()?);
    let areas = words.bytes()?;
    let Pushing {
        state,
        index,
        command,
        address,
    } = words.pushing()?;
    let image = words.bytes()?;
    words.end()?;
    let spreading = spread::spread(areas, size, state, index, command, address, image);
    match spreading.answer {
        Ok(last) => answers.gives_list(&spreading.states, last),
        Err(x) => answers.refuses(x),
    }
    answers.record(&[u64::from(spreading.next)]);
    answers.lent(areas);
    Ok(())
}
