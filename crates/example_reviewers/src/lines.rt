// The lines that the example prints.
use inspection::{SlipsOut, Standing};
use motion::Kind;
use sheet::Notice;
use std::fmt;
use std::fmt::Display;

/// What a reviewer does with an entry.
#[derive(Clone, Copy)]
pub(crate) enum Act {
    Takes,
    Frees,
    HasSeen,
    Voids,
}

/// An act of a reviewer, and the fault where it is refused.
#[derive(Clone, Copy)]
pub(crate) struct Done {
    pub reviewer: u8,
    pub act: Act,
    pub list: Kind,
    pub entry: u32,
    pub fault: Option<Notice>,
}

#[derive(Clone, Copy)]
pub(crate) enum Line {
    Acted(Done),
    /// How an entry stands.
    Stands(Kind, u32, Standing),
    /// How many slips are out.
    Out(SlipsOut),
}

impl Display for Line {
    fn fmt<W: fmt::Write>(&self, f: &mut fmt::Formatter<W>) -> fmt::Result {
        match *self {
            Line::Acted(done) => write!(f, "{done}"),
            Line::Stands(list, entry, standing) => {
                let (list, word) = (name_of(list), standing_word(standing));
                write!(f, "{list} {entry} {word}")
            }
            Line::Out(SlipsOut { vf, ee }) => write!(f, "slips out: VF {vf} EE {ee}"),
        }
    }
}

impl Display for Done {
    fn fmt<W: fmt::Write>(&self, f: &mut fmt::Formatter<W>) -> fmt::Result {
        let Done {
            reviewer,
            act,
            list,
            entry,
            fault,
        } = *self;
        let (act, list) = (words_of(act), name_of(list));
        write!(f, "{reviewer} {act} {list} {entry}")?;
        match fault {
            None => Ok(()),
            Some(fault) => write!(f, ": {fault}"),
        }
    }
}

fn words_of(act: Act) -> &'static str {
    match act {
        Act::Takes => "takes",
        Act::Frees => "frees",
        Act::HasSeen => "has seen",
        Act::Voids => "voids",
    }
}

fn standing_word(standing: Standing) -> &'static str {
    match standing {
        Standing::Free => "free",
        Standing::Taken => "taken",
        Standing::Seen => "seen",
    }
}

fn name_of(list: Kind) -> &'static str {
    match list {
        Kind::Vf => "VF",
        Kind::Ee => "EE",
    }
}
