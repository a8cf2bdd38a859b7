//! What holds of made programs.
ghost use Rattle.std.specs.Prelude.{◌≡◌, ◌≤◌, ℕ, true};
ghost use Rattle.image_map.specs.declared.image.Image.{Image};
ghost use Rattle.image_map.specs.Queries.{is_code};
ghost use Rattle.elf32.specs.Loading.{Loads};
ghost use Rattle.generator.specs.Files.{made_image};

/// The image of a made program is entered where it has code.
pub fn made_programs_have_entries()
    ensures entry { (seed n : ℕ) (i : Image) → n ≤ 1000 → Loads (made_image seed n) i → is_code i i.entry ≡ true }
{}
