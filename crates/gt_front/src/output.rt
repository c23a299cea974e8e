ghost use Rattle.std.specs.Option.{option_map};
ghost use Rattle.gt_front.specs.Reads.{Writes};

use gr_base::{Desk, End, Text, WriteFault, write_whole};
use jobs::Finished;

/// Writes what a job has made under the name of its output, if there are both, and gives its text.
pub fn write_output<D: Desk>(
    desk: &mut D,
    name: Option<&str>,
    finished: Finished,
) -> Result<Text, End<WriteFault>>
    ensures { Writes (option_map (λ n. n.now) name.entry) finished (D.steady desk.old) (D.write_faults desk.old)
        (D.write_faults desk.new) (D.files desk.old) (D.files desk.new) result }
{
    let Finished { text, out } = finished;
    if let (Some(name), Some(out)) = (name, out) {
        write_whole(desk, name, out.as_slice())?;
    }
    Ok(text)
}
