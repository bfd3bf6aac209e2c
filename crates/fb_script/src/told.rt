//! How answers are printed.

use fb_device::{Denied, Effect, Ended};
use std::fmt;

/// The answer to a line, with names in the place of numbers.
#[derive(Clone, Copy)]
pub enum Told<'a> {
    /// An offer or a datagram is admitted as this cause.
    Admitted(u64),
    /// An offer or a datagram is refused.
    Denied(Denied),
    /// So many timers were fired.
    Fired(u32),
    /// Nothing was pending.
    Idle,
    /// A block ran at an event, for a cause, so many steps. `sent` is the number of the datagram that it has sent.
    Ran {
        cause: u64,
        path: &'a str,
        event: &'a str,
        steps: u64,
        effect: Option<&'a Effect>,
        sent: Option<u64>,
        ended: Option<Ended>,
    },
    /// A root has taken so many steps. `far` bounds them where the certificate says so.
    Root {
        number: u64,
        steps: u64,
        far: Option<u64>,
    },
}

// Values, each behind a space.
#[derive(Clone, Copy)]
struct Row<'a>(&'a [i64]);

impl fmt::Display for Row<'_> {
    ghost use Rattle.std.specs.Prelude.{Some};
    ghost use Rattle.fb_script.specs.Texts.{values_text};

    ghost output = { λ r. Some (values_text r.0.now) };

    fn fmt<W: fmt::Write>(&self, f: &mut fmt::Formatter<W>) -> fmt::Result {
        for value in self.0 {
            write!(f, " {value}")?;
        }
        Ok(())
    }
}

/// What an OUTPUT has written, by its number, as `write 1 9`.
#[derive(Clone, Copy)]
pub struct Written<'a>(pub u16, pub &'a [i64]);

impl fmt::Display for Written<'_> {
    ghost use Rattle.std.specs.Prelude.{Some};
    ghost use Rattle.fb_script.specs.Texts.{write_text};

    ghost output = { λ w. Some (write_text w.0 w.1.now) };

    fn fmt<W: fmt::Write>(&self, f: &mut fmt::Formatter<W>) -> fmt::Result {
        let row = Row(self.1);
        write!(f, "write {}{row}", self.0)
    }
}

// What a dispatch has done outside of the device: of an OUTPUT, ` write 1 9`, and of a PUBLISH, ` send 1` with the number of the datagram.
#[derive(Clone, Copy)]
struct Done<'a>(Option<&'a Effect>, Option<u64>);

impl fmt::Display for Done<'_> {
    ghost use Rattle.std.specs.Prelude.{Some};
    ghost use Rattle.fb_script.specs.Texts.{done_text};

    ghost output = { λ d. Some (done_text d.0 d.1) };

    fn fmt<W: fmt::Write>(&self, f: &mut fmt::Formatter<W>) -> fmt::Result {
        match self.0 {
            None => Ok(()),
            Some(Effect::Write(number, values)) => {
                let written = Written(*number, values.as_slice());
                write!(f, " {written}")
            }
            Some(Effect::Send(_)) => match self.1 {
                None => Ok(()),
                Some(number) => write!(f, " send {number}"),
            },
        }
    }
}

// The end of a cause, as ` ended 1 4 of 4`.
#[derive(Clone, Copy)]
struct Closed(Option<Ended>);

impl fmt::Display for Closed {
    ghost use Rattle.std.specs.Prelude.{Some};
    ghost use Rattle.fb_script.specs.Texts.{ended_text};

    ghost output = { λ c. Some (ended_text c.0) };

    fn fmt<W: fmt::Write>(&self, f: &mut fmt::Formatter<W>) -> fmt::Result {
        match self.0 {
            None => Ok(()),
            Some(
                Ended {
                    cause,
                    total,
                    bound,
                },
            ) => write!(f, " ended {cause} {total} of {bound}"),
        }
    }
}

// The FAR of a root, as ` of 6`.
#[derive(Clone, Copy)]
struct Within(Option<u64>);

impl fmt::Display for Within {
    ghost use Rattle.std.specs.Prelude.{Some};
    ghost use Rattle.fb_script.specs.Texts.{far_text};

    ghost output = { λ w. Some (far_text w.0) };

    fn fmt<W: fmt::Write>(&self, f: &mut fmt::Formatter<W>) -> fmt::Result {
        match self.0 {
            None => Ok(()),
            Some(far) => write!(f, " of {far}"),
        }
    }
}

/// `cause 1`, `denied 53 needs 2 free 1`, `fired 2`, `idle`, `ran D.R.C.EI steps 3`, with ` write 1 9` where an OUTPUT has written, ` send 1` where a PUBLISH has sent,
/// and ` ended 1 4 of 4` where the cause has ended; `root 1 steps 4`, with ` of 6` where the certificate has REPEATS.
impl fmt::Display for Told<'_> {
    ghost use Rattle.std.specs.Prelude.{Some};
    ghost use Rattle.fb_script.specs.Texts.{told_text};

    ghost output = { λ t. Some (told_text t) };

    fn fmt<W: fmt::Write>(&self, f: &mut fmt::Formatter<W>) -> fmt::Result {
        match self {
            Told::Admitted(cause) => write!(f, "cause {cause}"),
            Told::Denied(Denied::BadValue(number)) => write!(f, "denied 52 {number}"),
            Told::Denied(Denied::NoCredit { needs, free }) => {
                write!(f, "denied 53 needs {needs} free {free}")
            }
            Told::Denied(Denied::UnknownInput) => write!(f, "denied 50"),
            Told::Denied(Denied::BadCount) => write!(f, "denied 51"),
            Told::Denied(Denied::Spent) => write!(f, "denied 54"),
            Told::Denied(Denied::Wire(fault)) => write!(f, "denied {fault}"),
            Told::Denied(Denied::NoSubscriber) => write!(f, "denied 56"),
            Told::Denied(Denied::Shape) => write!(f, "denied 57"),
            Told::Denied(Denied::Closed) => write!(f, "denied 58"),
            Told::Denied(Denied::Stale { boot, sequence }) => {
                write!(f, "denied 64 {boot} {sequence}")
            }
            Told::Fired(count) => write!(f, "fired {count}"),
            Told::Idle => write!(f, "idle"),
            // Most runs do nothing outside of the device and end no cause.
            Told::Ran {
                path,
                event,
                steps,
                effect: None,
                ended: None,
                ..
            } => {
                let path: &str = path;
                let event: &str = event;
                write!(f, "ran {path}.{event} steps {steps}")
            }
            Told::Ran {
                path,
                event,
                steps,
                effect,
                sent,
                ended,
                ..
            } => {
                let path: &str = path;
                let event: &str = event;
                let done = Done(*effect, *sent);
                let closed = Closed(*ended);
                write!(f, "ran {path}.{event} steps {steps}{done}{closed}")
            }
            Told::Root { number, steps, far } => {
                let within = Within(*far);
                write!(f, "root {number} steps {steps}{within}")
            }
        }
    }
}
