//! What follows from the definitions alone.

ghost use Rattle.std.specs.Prelude.{◌≡◌, ◌⊎◌, ℕ, List, Ok};
ghost use Rattle.bare_image.specs.declared.image.Image.{Image};
ghost use Rattle.bare_image.specs.Valid.{AreBytes, image_bytes};
ghost use Rattle.bare_image.specs.Reading.{image_of, image_fault};

/// Each image has one spelling, and each spelling is of one image.
pub fn one_spelling()
    ensures spelling { (image : Image) (a b : List ℕ) → image_bytes image a → image_bytes image b → a ≡ b }
    ensures image { (a b : Image) (bytes : List ℕ) → image_bytes a bytes → image_bytes b bytes → a ≡ b }
{}

/// Bytes spell an image or have a fault, one of the two, and the fault has one place.
pub fn image_or_fault()
    ensures some { (bytes : List ℕ) → AreBytes bytes → ((image : Image) × image_bytes image bytes) ⊎ ((place : ℕ) × image_fault bytes place) }
    ensures apart { (bytes : List ℕ) (image : Image) (place : ℕ) → image_bytes image bytes → image_fault bytes place → ⊥ }
    ensures one { (bytes : List ℕ) (a b : ℕ) → image_fault bytes a → image_fault bytes b → a ≡ b }
{}

/// Reading from left to right gives the image that bytes spell.
pub fn reading_gives_the_image()
    ensures spelled { (bytes : List ℕ) (image : Image) → image_bytes image bytes → image_of bytes ≡ Ok image }
    ensures read { (bytes : List ℕ) (image : Image) → AreBytes bytes → image_of bytes ≡ Ok image → image_bytes image bytes }
{}
