// The requests that read the SII's lists: sync managers, FMMUs, PDOs.
use crate::answers::{Answered, Answers, Item, UNREADABLE};
use crate::words::Words;
use category::{RX_PDO, TX_PDO};
use lists::{Pdo, SyncManager, pdo_row, sync_manager_row, usage_type};

impl Item for SyncManager {
    fn say(self, answers: &mut Answers) {
        answers.numbers(&sync_manager_row(self));
    }
}

impl Item for Pdo {
    fn say(self, answers: &mut Answers) {
        answers.numbers(&pdo_row(self));
    }
}

// A usage, or the sync manager of an FMMU.
impl Item for u8 {
    fn say(self, answers: &mut Answers) {
        answers.numbers(&[u64::from(self)]);
    }
}

pub(crate) fn sync_managers(words: &mut Words, answers: &mut Answers) -> Answered {
    let (image, chunk) = words.last_image()?;
    let list = lists::sync_managers(image, chunk)?;
    answers.gives_list(&list.items, list.count);
    Ok(())
}

// What each sync manager is for.
pub(crate) fn usages(words: &mut Words, answers: &mut Answers) -> Answered {
    let (image, chunk) = words.last_image()?;
    let list = lists::sync_managers(image, chunk)?;
    answers.gives_list(&list.items.map(usage_type), list.count);
    Ok(())
}

pub(crate) fn fmmus(words: &mut Words, answers: &mut Answers) -> Answered {
    let (image, chunk) = words.last_image()?;
    let list = lists::fmmus(image, chunk)?;
    answers.gives_list(&list.items, list.count);
    Ok(())
}

pub(crate) fn fmmu_mappings(words: &mut Words, answers: &mut Answers) -> Answered {
    let (image, chunk) = words.last_image()?;
    let list = lists::fmmu_mappings(image, chunk)?;
    answers.gives_list(&list.items, list.count);
    Ok(())
}

// Of the transmit PDOs or the receive PDOs, by their category; with any other number the line can't be read.
pub(crate) fn pdos(words: &mut Words, answers: &mut Answers) -> Answered {
    let (image, chunk) = words.image()?;
    let category = words.short()?;
    words.end()?;
    let list = match category {
        TX_PDO => lists::maindevice_read_pdos(image, chunk)?,
        RX_PDO => lists::maindevice_write_pdos(image, chunk)?,
        _ => return Err(UNREADABLE),
    };
    answers.gives_list(&list.items, list.count);
    Ok(())
}
