ghost use Rattle.std.specs.Prelude.{Some};
ghost use Rattle.command_words.specs.Roles.{role_name};

use std::fmt;

/// What an input file is to a job, in the order in which they are read.
#[derive(Clone, Copy, Debug, PartialEq, Eq)]
pub enum Role {
    In,
    Patch,
    Layout,
    Input,
}

/// The roles, in the order in which their files are read.
pub const ROLES: [Role; 4] = [Role::In, Role::Patch, Role::Layout, Role::Input];

impl fmt::Display for Role {
    ghost output = { λ role. Some (role_name role) };

    fn fmt<W: fmt::Write>(&self, f: &mut fmt::Formatter<W>) -> fmt::Result {
        match self {
            Role::In => write!(f, "in"),
            Role::Patch => write!(f, "patch"),
            Role::Layout => write!(f, "layout"),
            Role::Input => write!(f, "input"),
        }
    }
}
