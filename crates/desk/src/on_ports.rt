// The requests on a port record.
use crate::answers::{Answered, Answers};
use crate::words::Words;
use ports::{Ports, Topology};
use refusal::Refusal;

// More bytes than the text of any ports has.
const TEXT_ROOM: usize = 64;

// What a line says of a place: its port's number is none of it, for `Ports::new` gives that.
#[derive(Clone, Copy)]
struct Place {
    active: bool,
    dc_receive_time: u32,
    downstream_to: Option<u16>,
}

impl<'a> Words<'a> {
    // One place of a port record. LINK 0 is none.
    fn place(&mut self) -> Result<Place, Refusal> {
        let active = self.active()?;
        let dc_receive_time = self.long()?;
        let link = self.short()?;
        Ok(Place {
            active,
            dc_receive_time,
            downstream_to: if link == 0 { None } else { Some(link) },
        })
    }

    // P
    fn ports(&mut self) -> Result<Ports, Refusal> {
        let places = [self.place()?, self.place()?, self.place()?, self.place()?];
        let [first, second, third, fourth] = places.map(|p| p.active);
        let mut ports = Ports::new(first, second, third, fourth);
        for (port, place) in ports.0.iter_mut().zip(places) {
            port.dc_receive_time = place.dc_receive_time;
            port.downstream_to = place.downstream_to;
        }
        Ok(ports)
    }

    // P and no further word.
    fn last_ports(&mut self) -> Result<Ports, Refusal> {
        let ports = self.ports()?;
        self.end()?;
        Ok(ports)
    }

    // P PORT
    fn ports_and_port(&mut self) -> Result<(Ports, u8), Refusal> {
        let ports = self.ports()?;
        let port = self.byte()?;
        self.end()?;
        Ok((ports, port))
    }

    // P LINK
    fn ports_and_link(&mut self) -> Result<(Ports, u16), Refusal> {
        let ports = self.ports()?;
        let link = self.short()?;
        self.end()?;
        Ok((ports, link))
    }
}

impl<'a> Answers<'a> {
    // A port record as it is after the call.
    fn ports(&mut self, ports: Ports) {
        self.record(&[]);
        for port in ports.0 {
            let link = u64::from(port.downstream_to.unwrap_or(0));
            self.numbers(&[
                u64::from(port.active),
                u64::from(port.dc_receive_time),
                link,
            ]);
        }
    }
}

pub(crate) fn entry(words: &mut Words, answers: &mut Answers) -> Answered {
    let ports = words.last_ports()?;
    answers.gives_one(ports.entry_port()?);
    Ok(())
}

pub(crate) fn last(words: &mut Words, answers: &mut Answers) -> Answered {
    let ports = words.last_ports()?;
    answers.gives_if_any(ports.last_port());
    Ok(())
}

pub(crate) fn topology(words: &mut Words, answers: &mut Answers) -> Answered {
    let ports = words.last_ports()?;
    // docs/DESK.md numbers them. There is no `From`: both the type and `u64` are of other crates.
    answers.gives_one(match ports.topology()? {
        Topology::LineEnd => 1u64,
        Topology::Passthrough => 2,
        Topology::Fork => 3,
        Topology::Cross => 4,
    });
    Ok(())
}

pub(crate) fn total(words: &mut Words, answers: &mut Answers) -> Answered {
    let ports = words.last_ports()?;
    answers.gives_if_any(ports.total_propagation_time());
    Ok(())
}

// `totalfrom` and `timeto` stay two functions: what they share are two calls, and a generic one would need a bound and a clause of four lines.
pub(crate) fn total_from(words: &mut Words, answers: &mut Answers) -> Answered {
    let (ports, entry) = words.ports_and_port()?;
    answers.gives_if_any(ports.total_propagation_time_from(entry)?);
    Ok(())
}

pub(crate) fn time_to(words: &mut Words, answers: &mut Answers) -> Answered {
    let (ports, port) = words.ports_and_port()?;
    answers.gives_if_any(ports.propagation_time_to(port)?);
    Ok(())
}

pub(crate) fn between(words: &mut Words, answers: &mut Answers) -> Answered {
    let (ports, port) = words.ports_and_port()?;
    answers.gives_one(ports.intermediate_propagation_time_to(port)?);
    Ok(())
}

pub(crate) fn linked(words: &mut Words, answers: &mut Answers) -> Answered {
    let (ports, link) = words.ports_and_link()?;
    answers.gives_if_any(ports.port_assigned_to(link)?);
    Ok(())
}

pub(crate) fn assign(words: &mut Words, answers: &mut Answers) -> Answered {
    let (ports, link) = words.ports_and_link()?;
    let assigned = held::after_assign(ports, link);
    answers.says_if_any(assigned.answer);
    answers.ports(assigned.ports);
    Ok(())
}

pub(crate) fn times(words: &mut Words, answers: &mut Answers) -> Answered {
    let mut ports = words.ports()?;
    let time_p0 = words.long()?;
    let time_p3 = words.long()?;
    let time_p1 = words.long()?;
    let time_p2 = words.long()?;
    words.end()?;
    held::set_receive_times(&mut ports, time_p0, time_p3, time_p1, time_p2);
    answers.gives(&[]);
    answers.ports(ports);
    Ok(())
}

pub(crate) fn display(words: &mut Words, answers: &mut Answers) -> Answered {
    let ports = words.last_ports()?;
    let mut text = [0u8; TEXT_ROOM];
    let count = ports.display(&mut text)?;
    answers.gives(&[]);
    answers.lent(text.get(..count).unwrap_or(&text));
    Ok(())
}
