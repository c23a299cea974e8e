ghost use Rattle.std.specs.Prelude.{◌≡◌, ◌≤◌, ◌++◌, ◌∷◌, [], length, OnOk, IfOk, IfErr, MatchResult};
ghost use Rattle.std.specs.Option.{option_to_list};
ghost use Rattle.gr_base.specs.declared.end.End.TheVariants.{Memory};
ghost use Rattle.sym_expr.specs.declared.layout.Layout.{Layout};
ghost use Rattle.sym_expr.specs.Layouts.{IsStackSize};
ghost use Rattle.layout_plan.specs.Answers.{IsLine};
ghost use Rattle.layout_plan.specs.Text.{places_in, stacks_in, layout_text, text_fault};

use crate::fault::LayoutFault;
use crate::laws;
use crate::line::{LayoutLine, StackAt, read_line, split_line};
use gr_base::{End, Seq};
use std::alloc::Global;
use sym_expr::{Layout, PlaceAt};

/// One more line's place or stack.
fn take_line(
    places: &mut Seq<PlaceAt>,
    stack: &mut Option<StackAt>,
    said: LayoutLine,
    number: u64,
) -> Result<(), End<LayoutFault>>
    ensures places { OnOk result (places.new ≡ places.old ++ places_in (said ∷ [])) }
    ensures stack { OnOk result (option_to_list stack.new ≡ option_to_list stack.old ++ stacks_in (said ∷ [])) }
    ensures fault { IfErr result (λ e. IsLine e (λ n. (n ≡ number) × (2 ≤ length (option_to_list stack.old ++ stacks_in (said ∷ []))))) }
{
    match said {
        LayoutLine::Place(place) => places.push(place)?,
        LayoutLine::Stack(_) if stack.is_some() => {
            return Err(End::Fault(LayoutFault::Line(number)));
        }
        LayoutLine::Stack(at) => *stack = Some(at),
    }
    Ok(())
}

/// All lines, one after another.
fn read_lines(alloc: Global, text: &[u8]) -> Result<Layout, End<LayoutFault>>
    ensures found { IfOk result (layout_text text.now) }
    ensures fault { IfErr result (λ e. IsLine e (text_fault text.now)) }
{
    laws::one_saying();
    let mut places = Seq::new(alloc);
    let mut stack = None;
    let mut rest = text;
    let mut number: u64 = 0;
    while !rest.is_empty() {
        let (line, behind) = split_line(rest);
        number += 1;
        let said = read_line(alloc, line, number)?;
        take_line(&mut places, &mut stack, said, number)?;
        rest = behind;
    }
    match stack {
        Some(stack) => Ok(Layout {
            places,
            stack_at: stack.at,
            stack_size: stack.size,
        }),
        None => Err(End::Fault(LayoutFault::Line(number + 1))),
    }
}

/// The layout that a text gives. It answers no fault but `Line`.
pub fn read_layout(alloc: Global, text: &[u8]) -> Result<Layout, End<LayoutFault>>
    // What is read is what the text gives.
    ensures found { IfOk result (layout_text text.now) }
    ensures stack_size { IfOk result (λ layout. IsStackSize layout.stack_size) }
    // What a text gives is read, unless memory runs out.
    ensures only { (layout : Layout) → layout_text text.now layout → MatchResult result (λ read. read ≡ layout) (λ e. e ≡ Memory) }
    // Which fault it is.
    ensures fault { IfErr result (λ e. IsLine e (text_fault text.now)) }
{
    laws::one_layout_or_fault();
    read_lines(alloc, text)
}
