// The requests that read what the Rust leaves unread of the SII: PDI control, bootstrap mailbox, version, checksum, distributed clock.
use crate::answers::{Answered, Answers, Item};
use crate::words::Words;
use clock::{DistributedClock, clock_row};
use setup::{bootstrap_row, checksum_row, pdi_row};

pub(crate) fn pdi(words: &mut Words, answers: &mut Answers) -> Answered {
    let (image, chunk) = words.last_image()?;
    answers.gives(&pdi_row(setup::pdi_control(image, chunk)?));
    Ok(())
}

pub(crate) fn bootstrap(words: &mut Words, answers: &mut Answers) -> Answered {
    let (image, chunk) = words.last_image()?;
    answers.gives(&bootstrap_row(setup::bootstrap_mailbox(image, chunk)?));
    Ok(())
}

pub(crate) fn version(words: &mut Words, answers: &mut Answers) -> Answered {
    let (image, chunk) = words.last_image()?;
    answers.gives_one(setup::version(image, chunk)?);
    Ok(())
}

pub(crate) fn checksum(words: &mut Words, answers: &mut Answers) -> Answered {
    let (image, chunk) = words.last_image()?;
    answers.gives(&checksum_row(setup::checksum(image, chunk)?));
    Ok(())
}

impl Item for DistributedClock {
    fn say(self, answers: &mut Answers) {
        answers.numbers(&clock_row(self));
    }
}

pub(crate) fn clocks(words: &mut Words, answers: &mut Answers) -> Answered {
    let (image, chunk) = words.last_image()?;
    let list = clock::distributed_clocks(image, chunk)?;
    answers.gives_list(&list.items, list.count);
    Ok(())
}
