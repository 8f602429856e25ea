//! Laws of the definitions.
ghost use Rattle.std.specs.Prelude.{◌≡◌, ℕ, List};
ghost use Rattle.elf_image.specs.ElfText.{ElfText};
ghost use Rattle.elf_image.specs.Faults.{FaultIsOne, NoneIsBoth, NoneIsNeither};
ghost use Rattle.sloth_base.specs.declared.image.Image.{Image};

/// No two images have the same ELF file.
pub fn images_differ_in_elf_files()
    ensures { (one other : Image) (file : List ℕ) → ElfText file one → ElfText file other → one ≡ other }
{}

/// Each list of bytes is some image's ELF file, or has exactly one first fault, and never both.
pub fn files_are_elf_files_or_faulty()
    ensures one_of_them { NoneIsNeither }
    ensures not_both { NoneIsBoth }
    ensures one_fault { FaultIsOne }
{}
