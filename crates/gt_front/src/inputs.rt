ghost use Rattle.std.specs.Prelude.{◌≡◌, ◌≤◌, IfOk, IfErr, OnOk};
ghost use Rattle.gr_base.specs.Desk.{Told, ToldBoth, SameFiles};
ghost use Rattle.command_words.specs.declared.role.TheConstants.{ROLES};
ghost use Rattle.jobs.specs.Inputs.{input_as, files_as, contents_of, AllReadable};
ghost use Rattle.command_words.specs.Picked.{picked_view};
ghost use Rattle.gt_front.specs.Reads.{HoldsAll, IsUnread, IsUnreadAs};

use command_words::{Picked, ROLES, Role};
use gr_base::{Bytes, Desk, End, ReadEnd, read_whole};
use jobs::Contents;
use std::alloc::Global;

/// Which input wasn't read, and why.
#[derive(Debug, Drop)]
pub struct Unread {
    pub role: Role,
    pub end: End<ReadEnd>,
}

/// The bytes of the input of a role, if the words name one.
fn read_role<D: Desk>(
    alloc: Global,
    desk: &mut D,
    asked: &Picked<'_>,
    role: Role,
) -> Result<Option<Bytes>, Unread>
    ensures readable { OnOk result (Told (D.files desk.old) (AllReadable (input_as role ((picked_view asked.now).file role)))) }
    ensures found { IfOk result (λ found. Told (D.files desk.old) (λ held. found ≡ contents_of (picked_view asked.now) held role)) }
    ensures files { ToldBoth (D.files desk.old) (D.files desk.new) SameFiles }
    ensures steady { D.steady desk.new ≡ D.steady desk.old }
    ensures read_later { D.read_faults desk.old ≤ D.read_faults desk.new }
    ensures write_later { D.write_faults desk.old ≤ D.write_faults desk.new }
    ensures taken_later { D.taken desk.old ≤ D.taken desk.new }
    ensures unread { IfErr result (IsUnreadAs (picked_view asked.now) role (D.files desk.old) (D.steady desk.old)
        (record { read_before = D.read_faults desk.old; read_now = D.read_faults desk.new; taken_before = D.taken desk.old; taken_now = D.taken desk.new })) }
{
    let Some(name) = asked.file(role) else {
        return Ok(None);
    };
    match read_whole(alloc, desk, name) {
        Ok(bytes) => Ok(Some(bytes)),
        Err(end) => Err(Unread { role, end }),
    }
}

/// Reads the inputs that the words name, one after another.
pub fn read_inputs<D: Desk>(
    alloc: Global,
    desk: &mut D,
    asked: &Picked<'_>,
) -> Result<Contents, Unread>
    ensures readable { OnOk result (Told (D.files desk.old) (AllReadable (files_as (picked_view asked.now) ROLES))) }
    ensures contents { IfOk result (λ read. Told (D.files desk.old) (HoldsAll (picked_view asked.now) read)) }
    ensures files { ToldBoth (D.files desk.old) (D.files desk.new) SameFiles }
    ensures steady { D.steady desk.new ≡ D.steady desk.old }
    ensures read_later { D.read_faults desk.old ≤ D.read_faults desk.new }
    ensures write_later { D.write_faults desk.old ≤ D.write_faults desk.new }
    ensures taken_later { D.taken desk.old ≤ D.taken desk.new }
    ensures unread { IfErr result (IsUnread (files_as (picked_view asked.now) ROLES) (D.files desk.old) (D.steady desk.old)
        (record { read_before = D.read_faults desk.old; read_now = D.read_faults desk.new; taken_before = D.taken desk.old; taken_now = D.taken desk.new })) }
{
    let mut contents = Contents::new();
    for role in ROLES {
        let found = read_role(alloc, desk, asked, role)?;
        contents.put(role, found);
    }
    Ok(contents)
}
