// What holds of the generic code of all functions of checked modules: each function's contract is a law, and its body does nothing.
ghost use Rattle.generic_laws.specs.Laws.{TranslatedRefines, TranslatedHasWideAddresses, TranslatedHasForms, TranslatedWritesOnce, TranslatedEndsBlocks, TranslatedHasWidths, TranslatedHeadsFirst, TranslatedTakesDataFirst, TranslatedNamesJumps};

/// The generic code of a function of a checked module refines it.
pub fn translated_refines()
    ensures { TranslatedRefines }
{}

/// Each number that becomes an address in the generic code of a function of a checked module has 64 bits.
pub fn translated_has_wide_addresses()
    ensures { TranslatedHasWideAddresses }
{}

/// Each instruction of the generic code of a function of a checked module has the form of its operation, over registers that there are.
pub fn translated_has_forms()
    ensures { TranslatedHasForms }
{}

/// Each register of the generic code of a function of a checked module is written at most once.
pub fn translated_writes_once()
    ensures { TranslatedWritesOnce }
{}

/// Each block of the generic code of a function of a checked module ends once, at its end, and jumps to blocks that are there.
pub fn translated_ends_blocks()
    ensures { TranslatedEndsBlocks }
{}

/// Each register of the generic code of a function of a checked module has from 1 to 64 bits.
pub fn translated_has_widths()
    ensures { TranslatedHasWidths }
{}

/// Parameters and phis of the generic code of a function of a checked module stand first in their blocks.
pub fn translated_heads_first()
    ensures { TranslatedHeadsFirst }
{}

/// What takes data in the generic code of a function of a checked module stands in the first block.
pub fn translated_takes_data_first()
    ensures { TranslatedTakesDataFirst }
{}

/// A phi in the generic code of a function of a checked module names once each block that jumps to its block, and no other.
pub fn translated_names_jumps()
    ensures { TranslatedNamesJumps }
{}
