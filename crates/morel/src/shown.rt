// How values are printed, where the library's own way will not do.
use refusal::Refusal;
use std::fmt;
use std::fmt::{Display, Formatter};

// A number in hex, with all the digits that its type has.
#[derive(Clone, Copy)]
pub(crate) struct Hex {
    value: u32,
    digits: usize,
}

impl From<u8> for Hex {
    fn from(value: u8) -> Hex {
        Hex {
            value: u32::from(value),
            digits: 2,
        }
    }
}

impl From<u16> for Hex {
    fn from(value: u16) -> Hex {
        Hex {
            value: u32::from(value),
            digits: 4,
        }
    }
}

impl From<u32> for Hex {
    fn from(value: u32) -> Hex {
        Hex { value, digits: 8 }
    }
}

impl Display for Hex {
    fn fmt<W: fmt::Write>(&self, f: &mut Formatter<W>) -> fmt::Result {
        let Hex { value, digits } = *self;
        write!(f, "0x{value:0digits$x}")
    }
}

// A number and its name; the names count from 0 on.
#[derive(Drop)]
pub(crate) struct Named<'a>(pub(crate) u8, pub(crate) &'a [&'a str]);

impl Display for Named<'_> {
    fn fmt<W: fmt::Write>(&self, f: &mut Formatter<W>) -> fmt::Result {
        let Named(number, names) = *self;
        let name = names
            .get(usize::from(number))
            .copied()
            .unwrap_or("undefined");
        write!(f, "{number} {name}")
    }
}

// A set of flags, and the names of those that are set, from bit 0 on.
#[derive(Drop)]
pub(crate) struct Flags<'a>(pub(crate) u8, pub(crate) &'a [&'a str]);

impl Display for Flags<'_> {
    fn fmt<W: fmt::Write>(&self, f: &mut Formatter<W>) -> fmt::Result {
        let Flags(mut rest, names) = *self;
        write!(f, "{rest:#04x}")?;
        for name in names {
            if rest % 2 == 1 {
                write!(f, " {name}")?;
            }
            rest /= 2;
        }
        Ok(())
    }
}

#[derive(Drop)]
pub(crate) struct YesOrNo(pub(crate) bool);

impl Display for YesOrNo {
    fn fmt<W: fmt::Write>(&self, f: &mut Formatter<W>) -> fmt::Result {
        f.write_str(if self.0 { "yes" } else { "no" })
    }
}

// A text of any bytes, those that can't be printed and the backslash as \xNN, so that it stays on its line and says one text.
#[derive(Drop)]
pub(crate) struct Plain<'a>(pub(crate) &'a [u8]);

impl Display for Plain<'_> {
    fn fmt<W: fmt::Write>(&self, f: &mut Formatter<W>) -> fmt::Result {
        for byte in self.0 {
            match *byte {
                b'\\' | 0..0x20 | 0x7f.. => write!(f, "\\x{byte:02x}")?,
                plain => f.write_char(char::from(plain))?,
            }
        }
        Ok(())
    }
}

// Two hex digits of each byte.
#[derive(Drop)]
pub(crate) struct Bytes<'a>(pub(crate) &'a [u8]);

impl Display for Bytes<'_> {
    fn fmt<W: fmt::Write>(&self, f: &mut Formatter<W>) -> fmt::Result {
        for byte in self.0 {
            write!(f, "{byte:02x}")?;
        }
        Ok(())
    }
}

// A refusal's number and name.
#[derive(Drop)]
pub(crate) struct Refused(pub(crate) Refusal);

impl Display for Refused {
    fn fmt<W: fmt::Write>(&self, f: &mut Formatter<W>) -> fmt::Result {
        let number = refusal::number(self.0);
        let name = match self.0 {
            Refusal::Address => "Address",
            Refusal::Overrun => "Overrun",
            Refusal::NoCategory => "NoCategory",
            Refusal::StringTooLong { .. } => "StringTooLong",
            Refusal::Decode => "Decode",
            Refusal::Capacity => "Capacity",
            Refusal::NotWritable => "NotWritable",
            Refusal::TooLong => "TooLong",
            Refusal::NoPort => "NoPort",
            Refusal::BadPort => "BadPort",
            Refusal::Sum => "Sum",
            Refusal::BadFrame => "BadFrame",
            Refusal::NoRoom => "NoRoom",
            Refusal::BadArgument => "BadArgument",
            Refusal::WrongFrame { .. } => "WrongFrame",
            Refusal::WrongCommand { .. } => "WrongCommand",
            Refusal::WrongIndex { .. } => "WrongIndex",
            Refusal::WrongLength { .. } => "WrongLength",
        };
        write!(f, "refused {number} {name}")
    }
}
