ghost use Rattle.std.specs.Prelude.{◌≡◌, None};
ghost use Rattle.jobs.specs.Contents.{contents_view, Puts};
ghost use Rattle.jobs.specs.Inputs.{bytes_in};

use command_words::Role;
use gr_base::Bytes;

/// The bytes of the inputs, each read whole.
#[derive(Debug, Drop)]
pub struct Contents {
    /// That of the role `In`.
    main: Option<Bytes>,
    patch: Option<Bytes>,
    layout: Option<Bytes>,
    input: Option<Bytes>,
}

impl Contents {
    /// Of no inputs.
    pub fn new() -> Contents
        ensures { (role : _) → contents_view result role ≡ None }
    {
        Contents {
            main: None,
            patch: None,
            layout: None,
            input: None,
        }
    }

    /// The bytes of one role more.
    pub fn put(&mut self, role: Role, found: Option<Bytes>)
        ensures { Puts role found self.old self.new }
    {
        match role {
            Role::In => self.main = found,
            Role::Patch => self.patch = found,
            Role::Layout => self.layout = found,
            Role::Input => self.input = found,
        }
    }

    /// The bytes of the input of a role, if the words name one.
    pub fn of(&self, role: Role) -> &Option<Bytes>
        ensures { result.now ≡ contents_view self.now role }
    {
        match role {
            Role::In => &self.main,
            Role::Patch => &self.patch,
            Role::Layout => &self.layout,
            Role::Input => &self.input,
        }
    }

    /// The bytes of the input of a role; one that no word names is empty.
    pub fn bytes(&self, role: Role) -> &[u8]
        ensures { result.now ≡ bytes_in (contents_view self.now) role }
    {
        match self.of(role) {
            Some(bytes) => bytes.as_slice(),
            None => &[],
        }
    }
}
