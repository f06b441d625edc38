//! Laws of the text forms, each the contract of a function without a body.
ghost use Rattle.std.specs.Prelude.{◌≡◌, ℕ, ◌+◌, true, false, List, ◌∷◌, ◌++◌, None, Ok};
ghost use Rattle.std.specs.List.{list_all, list_any, AllByRecursion};
ghost use Rattle.envimg_core.specs.Environment.{Pair, is_name, is_zero};
ghost use Rattle.text_parts.specs.Bytes.{hash, is_blank, is_newline, newline};
ghost use Rattle.envcfg_core.specs.Entries.{Outcome, with_first};
ghost use Rattle.envcfg_core.specs.Export.{IsExportable, entries_of_pairs, exported, exported_all, is_unreadable, line_behind, pair_entry};
ghost use Rattle.envcfg_core.specs.Import.{entries_from, import_of};
ghost use Rattle.envcfg_core.specs.Spelling.{Part, IsPart, Ending, IsEnding, Spells, spelled_text, spelled_entries};

/// A text that spells entries is read as them, however it spells them: with `\` before bytes that don't need it too, with
/// blanks, empty lines and comments between them, and with a last line that no newline ends.
pub fn spelled_texts_are_read()
    ensures { (parts : List Part) (ending : Ending) → AllByRecursion IsPart parts → IsEnding ending
        → list_any is_zero (spelled_text parts ending) ≡ false → import_of (spelled_text parts ending) ≡ Ok (spelled_entries 1 parts ending) }
{}

/// A text for import is read as what it spells, and as nothing else: its entries, each with the line in which it begins, or
/// its one fault, a byte 0 anywhere or the line of its first empty name. Every text spells something.
pub fn texts_are_read_as_they_spell()
    ensures read { (text : List ℕ) (outcome : Outcome) → Spells text outcome → import_of text ≡ outcome }
    ensures spelled { (text : List ℕ) → Spells text (import_of text) }
{}

/// A text made of exported variables, any number of them one after the other, is read as those variables
/// in their order, each at the line in which it begins.
pub fn export_reads_back()
    ensures { (pairs : List Pair) → AllByRecursion IsExportable pairs → import_of (exported_all pairs) ≡ Ok (entries_of_pairs 1 pairs) }
{}

/// What a text for import reads is what its first line holds, and what the rest reads from the next line on.
pub fn import_reads_line_by_line()
    ensures blank_line { (line : ℕ) (blanks rest : List ℕ) → list_all is_blank blanks ≡ true
        → entries_from line (blanks ++ newline ∷ rest) ≡ entries_from (line + 1) rest }
    ensures comment { (line : ℕ) (blanks text rest : List ℕ) → list_all is_blank blanks ≡ true → list_any is_newline text ≡ false
        → entries_from line (blanks ++ hash ∷ (text ++ newline ∷ rest)) ≡ entries_from (line + 1) rest }
    ensures deletion { (line : ℕ) (name rest : List ℕ) → is_name name ≡ true → is_unreadable name ≡ false
        → entries_from line (name ++ newline ∷ rest) ≡ with_first (record { name = name; value = None; line = line }) (entries_from (line + 1) rest) }
    ensures variable { (line : ℕ) (p : Pair) (rest : List ℕ) → IsExportable p
        → entries_from line (exported p.0 p.1 ++ rest) ≡ with_first (pair_entry line p) (entries_from (line_behind line p) rest) }
{}
