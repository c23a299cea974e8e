//! Where the words of a code block go.

ghost use Rattle.std.specs.Prelude.{◌≡◌, ◌<◌, ◌*◌, ◌^◌, ◌++◌, ℕ, [], ◌∷◌, length, Some, slice_get, IfOk, OnOk};
ghost use Rattle.std.specs.List.{AllByRecursion};
ghost use Rattle.aux_codec.specs.declared.value.Place.{Place as PlaceOf};
ghost use Rattle.moved_places.specs.Blocks.{own_places, place_kept};
ghost use Rattle.rewrite.specs.Identifiers.{part_id};
ghost use Rattle.rewrite.specs.Places.{code_place};

use crate::kept::BlockMoves;
use aux_codec::Place;
use block_parts::laws::parts_have_all_words;
use block_parts::{Origin, Part, PatchedWord};
use derived_ids::part_id;
use gr_base::Seq;
use gt_model::Module;
use std::alloc::{AllocError, Global};
use sym_expr::CodeBlock;
use taken_ids::parts_of_block;
use uuid::Uuid;

/// The place of a word, if it is the block's own.
fn push_word(
    places: &mut Vec<Place>,
    id: Uuid,
    depth: u64,
    word: &PatchedWord,
) -> Result<(), AllocError>
    requires { depth < 2 ^ 62 }
    ensures places { OnOk result (places.new.items ≡ places.old.items ++ own_places id depth (word.now ∷ [])) }
    ensures near { OnOk result (AllByRecursion (λ (w : PlaceOf). w.offset < 2 ^ 62) places.old.items → AllByRecursion (λ (w : PlaceOf). w.offset < 2 ^ 62) places.new.items) }
{
    if let Origin::Own(_) = word.origin {
        places.push(Place { id, offset: depth })?;
    }
    Ok(())
}

/// The places of a part's own words, and the size of the part.
fn push_words(places: &mut Vec<Place>, id: Uuid, words: &[PatchedWord]) -> Result<u64, AllocError>
    ensures places { OnOk result (places.new.items ≡ places.old.items ++ own_places id 0 words.now) }
    ensures size { IfOk result (λ size. size ≡ 4 * length words.now) }
    ensures near { OnOk result (AllByRecursion (λ (w : PlaceOf). w.offset < 2 ^ 62) places.old.items → AllByRecursion (λ (w : PlaceOf). w.offset < 2 ^ 62) places.new.items) }
{
    let mut depth = 0;
    for word in words {
        push_word(places, id, depth, word)?;
        depth += 4;
    }
    Ok(depth)
}

/// The identifier of a part of a block.
fn id_of_part(alloc: Global, module: &Module, block: &Uuid, part: &Part) -> Result<Uuid, AllocError>
    ensures { IfOk result (λ id. id ≡ part_id «module».now block.now part.now) }
{
    if part.start == 0 {
        return Ok(*block);
    }
    part_id(alloc, &module.uuid, block, part.start)
}

/// Where the words and the end of a code block go.
pub fn block_moves(
    alloc: Global,
    module: &Module,
    block: &CodeBlock,
) -> Result<BlockMoves, AllocError>
    ensures { IfOk result (λ made. place_kept made ≡ code_place «module».now block.now) }
{
    parts_have_all_words();
    let parts = parts_of_block(alloc, block)?;
    let mut words = Vec::new(alloc);
    let mut end = Place {
        id: block.id,
        offset: 0,
    };
    for part in parts.as_slice() {
        let id = id_of_part(alloc, module, &block.id, part)?;
        let offset = push_words(&mut words, id, part.words.as_slice())?;
        end = Place { id, offset };
    }
    Ok(BlockMoves {
        words: Seq::from_vec(words),
        end,
    })
}
