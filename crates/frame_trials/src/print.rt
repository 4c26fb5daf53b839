// What the trials print.
use frame_kinds::Frame;
use std::fmt;

// What was read: the frame with its numbers, and for a power frame all 32 values; or that there is none.
#[derive(Clone, Copy)]
pub struct Said(pub Option<Frame>);

impl fmt::Display for Said {
    fn fmt<W: fmt::Write>(&self, f: &mut fmt::Formatter<W>) -> fmt::Result {
        let Said(Some(frame)) = *self else {
            return write!(f, "malformed");
        };
        match frame {
            Frame::Machine {
                processors,
                levels,
                lowest,
                step,
            } => write!(f, "machine {processors} {levels} {lowest} {step}"),
            Frame::Power { count, values } => {
                write!(f, "power {count}:")?;
                for value in values {
                    write!(f, " {value}")?;
                }
                Ok(())
            }
            Frame::Admit { id, cost, period } => write!(f, "admit {id} {cost} {period}"),
            Frame::Retire { id } => write!(f, "retire {id}"),
            Frame::PlanWanted => write!(f, "plan wanted"),
            Frame::SlackWanted => write!(f, "slack wanted"),
            Frame::AdmitDue {
                id,
                cost,
                period,
                deadline,
            } => write!(f, "admit {id} {cost} {period} due {deadline}"),
        }
    }
}
