// Why the lines of an office are not printed, or not all of them.
use std::error::Error;
use std::fmt::{Display, Formatter};
use std::{fmt, io};

#[derive(Debug, Drop)]
pub enum Unprinted {
    Memory,
    Output(io::Error),
}

impl From<io::Error> for Unprinted {
    ghost use Rattle.std.specs.Prelude.{◌≡◌};
    ghost use Rattle.office.specs.declared.unprinted.Unprinted.TheVariants.{Output};

    ghost from_gives = { λ e r. r ≡ Output e };

    fn from(error: io::Error) -> Unprinted {
        Unprinted::Output(error)
    }
}

impl Display for Unprinted {
    ghost use Rattle.office.specs.Printed.{unprinted_text};

    ghost output = { unprinted_text };

    fn fmt<W: fmt::Write>(&self, f: &mut Formatter<W>) -> fmt::Result {
        match self {
            Self::Memory => f.write_str("out of memory"),
            Self::Output(error) => write!(f, "{error}"),
        }
    }
}

impl Error for Unprinted {}
