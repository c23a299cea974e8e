//! Laws of the definitions: each function is its contract.

ghost use Rattle.std.specs.Prelude.{◌≡◌, ℕ, List, [], ◌∷◌, map};
ghost use Rattle.std.specs.List.{flat_map};
ghost use Rattle.block_parts.specs.Parts.{part, parts};
ghost use Rattle.block_parts.specs.Words.{patched_words};
ghost use Rattle.block_parts.specs.declared.parts.Part.{Part};
ghost use Rattle.block_parts.specs.declared.words.PatchedWord.{PatchedWord};
ghost use Rattle.sym_expr.specs.Images.{all_words};
ghost use Rattle.sym_expr.specs.declared.program.CodeBlock.{CodeBlock};
ghost use Rattle.sym_expr.specs.declared.program.Word.{Word};

/// The parts of a block have its words, one behind the other.
pub fn parts_have_all_words()
    ensures { (b : CodeBlock) → flat_map (λ (q : Part). q.words) (parts b) ≡ patched_words b }
{}

/// The words are those that the image has there.
pub fn words_are_of_images()
    ensures { (b : CodeBlock) → map (λ (w : PatchedWord). w.word) (patched_words b) ≡ map (λ (w : Word). w.word) (all_words b) }
{}

/// A block in which nothing is inserted is one part.
pub fn whole_blocks_are_one_part()
    ensures { (b : CodeBlock) → b.inserted ≡ [] → parts b ≡ part 0 (patched_words b) ∷ [] }
{}
