// The requests for strings, the device's name and its description.
use crate::answers::{Answered, Answers};
use crate::words::Words;
use eeprom::Chunk;
use refusal::Refusal;

pub(crate) fn string(words: &mut Words, answers: &mut Answers) -> Answered {
    let (image, chunk) = words.image()?;
    let index = words.byte()?;
    let room = words.bytes()?;
    words.end()?;
    answers.says_if_any(strings::find_string(image, chunk, index, room));
    answers.lent(room);
    Ok(())
}

// A text that the image alone names, into the room that is lent.
fn named<F: FnOnce(&[u8], Chunk, &mut [u8]) -> Result<Option<u16>, Refusal>>(
    words: &mut Words,
    answers: &mut Answers,
    find: F,
) -> Answered
    requires { F.IsAlwaysCallable find }
{
    let (image, chunk) = words.image()?;
    let room = words.bytes()?;
    words.end()?;
    answers.says_if_any(find(image, chunk, room));
    answers.lent(room);
    Ok(())
}

pub(crate) fn name(words: &mut Words, answers: &mut Answers) -> Answered {
    named(
        words,
        answers,
        |image, chunk, room| strings::device_name(image, chunk, room),
    )
}

pub(crate) fn description(words: &mut Words, answers: &mut Answers) -> Answered {
    named(
        words,
        answers,
        |image, chunk, room| strings::device_description(image, chunk, room),
    )
}
