// The operations on a house.
use crate::fields;
use model::{After, Refusal};
use model_house::House;
use std::fmt;

// One operation: of worker p; or a field that is set, with its kind and place and what it is set to.
#[derive(Clone, Copy)]
pub(crate) enum Call {
    Propose(u8, u32),
    Turn(u8, bool),
    Crash(u8),
    Look(u8),
    Set(u8, u8, u32),
}

impl From<[u8; 6]> for Call {
    fn from(entry: [u8; 6]) -> Call {
        let [kind, p, a, b, c, d] = entry;
        let v = u32::from_le_bytes([a, b, c, d]);
        // Kept: the kind is a byte of the input, which a `match` reads: no plainer in another form.
        match kind {
            0 => Call::Propose(p, v),
            1 => Call::Turn(p, v != 0),
            2 => Call::Crash(p),
            3 => Call::Look(p),
            _ => Call::Set(kind, p, v),
        }
    }
}

impl Call {
    // Carries the operation out on a house and its tally.
    pub(crate) fn carry_out(self, left: &mut After<House>) -> Result<(), Refusal> {
        match self {
            Call::Propose(p, v) => {
                left.state = system_house_change::propose(left.state, p as usize, v)?;
            }
            Call::Turn(p, hint) => {
                *left = system_house_turn::turn(left.state, p as usize, hint, left.counts)?;
            }
            Call::Crash(p) => {
                left.state = system_house_change::crash(left.state, p as usize)?;
            }
            Call::Look(p) => {
                *left = system_house_change::learn(left.state, p as usize, left.counts)?;
            }
            Call::Set(kind, a, v) => fields::set(left, kind, a as usize, v),
        }
        Ok(())
    }
}

impl fmt::Display for Call {
    fn fmt<W: fmt::Write>(&self, f: &mut fmt::Formatter<W>) -> fmt::Result {
        match self {
            Call::Propose(p, v) => write!(f, "propose {p} {v}"),
            Call::Turn(p, hint) => write!(f, "turn {p} {}", u8::from(*hint)),
            Call::Crash(p) => write!(f, "crash {p}"),
            Call::Look(p) => write!(f, "look {p}"),
            Call::Set(kind, a, v) => write!(f, "set {kind} {a} {v}"),
        }
    }
}
