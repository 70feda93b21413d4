//! Names, ids, levels and constraints as text.
ghost use Rattle.std.specs.Prelude.{Some};
ghost use Rattle.cic_names.specs.Texts.{id_text, level_name_text, level_text, constraint_text};

use crate::constraint::Constraint;
use crate::level::{Level, LevelName, Part};
use crate::name::{GlobalId, Name};
use std::fmt;

impl fmt::Display for Name {
    ghost output = { λ name. Some name };

    fn fmt<W: fmt::Write>(&self, f: &mut fmt::Formatter<W>) -> fmt::Result {
        f.write_str(self.text())
    }
}

impl fmt::Display for GlobalId {
    ghost output = { λ id. Some (id_text id) };

    fn fmt<W: fmt::Write>(&self, f: &mut fmt::Formatter<W>) -> fmt::Result {
        write!(f, "{}.{}", self.lib, self.name)
    }
}

impl fmt::Display for LevelName {
    ghost output = { λ level. Some (level_name_text level) };

    fn fmt<W: fmt::Write>(&self, f: &mut fmt::Formatter<W>) -> fmt::Result {
        write!(f, "{}.{}", self.lib, self.owner)?;
        match self.part {
            Part::Declared => Ok(()),
            Part::Visible(number) => write!(f, ".v{number}"),
            Part::Proof(number) => write!(f, ".p{number}"),
        }
    }
}

impl fmt::Display for Level {
    ghost output = { λ level. Some (level_text level) };

    fn fmt<W: fmt::Write>(&self, f: &mut fmt::Formatter<W>) -> fmt::Result {
        match self {
            Level::Set => f.write_str("Set"),
            Level::Named(level) => write!(f, "{level}"),
        }
    }
}

impl fmt::Display for Constraint {
    ghost output = { λ c. Some (constraint_text c) };

    fn fmt<W: fmt::Write>(&self, f: &mut fmt::Formatter<W>) -> fmt::Result {
        if self.strict {
            write!(f, "{} < {}", self.left, self.right)
        } else {
            write!(f, "{} <= {}", self.left, self.right)
        }
    }
}
