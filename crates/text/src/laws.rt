// What the definitions say, in other words.

ghost use Rattle.std.specs.Prelude.{◌≡◌, ◌↔◌, ◌<◌, ◌^◌, ℕ, ◌∷◌, ◌++◌, List, true, Some, decimal};
ghost use Rattle.text.specs.Fields.{split_at_space, has_no_space};
ghost use Rattle.text.specs.Words.{number_of};
ghost use Rattle.text.specs.declared.lines.TheConstants.{LINE_BYTES};
ghost use Rattle.text.specs.declared.words.TheConstants.{NAME_BYTES};

/// The limits that the definitions cite, as numbers.
pub fn limits()
    ensures bytes_of_a_line { LINE_BYTES ≡ 512 }
    ensures bytes_of_a_name { NAME_BYTES ≡ 32 }
{}

/// A number is spelled in decimal without leading zeros, and each number below 2^64 has just one spelling.
pub fn numerals_are_decimals()
    ensures decimal { (text : List ℕ) (n : ℕ) → (number_of text ≡ Some n) ↔ ((text ≡ decimal n) × (n < 2 ^ 64)) }
{}

/// A word without a space, a space and a rest are cut into that word and that rest.
pub fn fields_are_cut_at_spaces()
    ensures cut { (word rest : List ℕ) → has_no_space word ≡ true → split_at_space (word ++ 32 ∷ rest) ≡ Some (word, rest) }
{}
