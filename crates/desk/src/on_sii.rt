// The requests that read the SII: categories, the fixed area, General; and the one that sets the alias.
use crate::answers::{Answered, Answers};
use crate::on_range::range_row;
use crate::words::Words;
use sii::{general_row, has_mailbox, identity_row, mailbox_row, ports_row};

pub(crate) fn category(words: &mut Words, answers: &mut Answers) -> Answered {
    let (image, chunk) = words.image()?;
    let number = words.short()?;
    words.end()?;
    match category::category(image, chunk, number)? {
        Some(found) => answers.gives(&range_row(found)),
        None => answers.absent(),
    }
    Ok(())
}

pub(crate) fn inside(words: &mut Words, answers: &mut Answers) -> Answered {
    let (image, chunk) = words.image()?;
    let number = words.short()?;
    words.end()?;
    answers.gives_one(category::category_inside(image, chunk, number)?);
    Ok(())
}

pub(crate) fn alias(words: &mut Words, answers: &mut Answers) -> Answered {
    let (image, chunk) = words.last_image()?;
    answers.gives_one(sii::station_alias(image, chunk)?);
    Ok(())
}

pub(crate) fn size(words: &mut Words, answers: &mut Answers) -> Answered {
    let (image, chunk) = words.last_image()?;
    answers.gives_one(sii::size(image, chunk)?);
    Ok(())
}

pub(crate) fn set_alias(words: &mut Words, answers: &mut Answers) -> Answered {
    let image = words.bytes()?;
    let alias = words.short()?;
    words.end()?;
    answers.says_done(sii::set_station_alias(image, alias));
    answers.lent(image);
    Ok(())
}

pub(crate) fn identity(words: &mut Words, answers: &mut Answers) -> Answered {
    let (image, chunk) = words.last_image()?;
    answers.gives(&identity_row(sii::identity(image, chunk)?));
    Ok(())
}

pub(crate) fn mailbox(words: &mut Words, answers: &mut Answers) -> Answered {
    let (image, chunk) = words.last_image()?;
    answers.gives(&mailbox_row(sii::mailbox_config(image, chunk)?));
    Ok(())
}

pub(crate) fn is_with_mailbox(words: &mut Words, answers: &mut Answers) -> Answered {
    let (image, chunk) = words.last_image()?;
    answers.gives_one(has_mailbox(sii::mailbox_config(image, chunk)?));
    Ok(())
}

pub(crate) fn general(words: &mut Words, answers: &mut Answers) -> Answered {
    let (image, chunk) = words.last_image()?;
    answers.gives(&general_row(sii::general(image, chunk)?));
    Ok(())
}

pub(crate) fn physical_ports(words: &mut Words, answers: &mut Answers) -> Answered {
    let (image, chunk) = words.last_image()?;
    answers.gives(&ports_row(sii::physical_ports(image, chunk)?));
    Ok(())
}

pub(crate) fn physical_address(words: &mut Words, answers: &mut Answers) -> Answered {
    let (image, chunk) = words.last_image()?;
    answers.gives_one(sii::physical_memory_address(image, chunk)?);
    Ok(())
}
